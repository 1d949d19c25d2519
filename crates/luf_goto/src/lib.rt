//! Where each `goto` of a chunk goes.
#![tactic(auto)]

mod faults;
mod firsts;
mod holders;
mod innermost;
mod jumps;
mod labelling;
mod leaps;
mod names;
mod naming;
mod outside;
mod scopes;
mod sites;
mod targets;
mod twice;

pub use jumps::Jumps;
pub use labelling::{labels, labels_read};
pub use luf_memory::Memory;
