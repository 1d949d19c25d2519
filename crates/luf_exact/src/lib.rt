//! The exact token of a refusal, by the lists of tokens that the grammar derives: laws for the clauses of the parser.
#![tactic(auto)]

mod laws;

pub use laws::{entries_are_local, one_cause};
