//! That the formatted text of a source is the same program.
#![tactic(auto)]

mod laws;

pub use laws::formatted_is_kept;
