//! A text that is pieces which are cut to themselves.
#![tactic(auto)]

mod laws;

pub use laws::neat_is_cut;
