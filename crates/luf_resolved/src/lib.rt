//! What a chunk resolves to: its bare program, with what names and labels mean.
#![tactic(auto)]

mod laws;

pub use laws::{bare_resolves_alike, one_meaning, written_has_no_fault, written_resolves_alike};
