//! The bare program of a chunk, what is written of it, and that this is read as the same program.
#![tactic(auto)]

mod laws;

pub use laws::{
    one_depth, one_ranking, ranked_again, ranks_count, ranks_in_order, significant_are_written,
    text_is_read, written_is_read,
};
