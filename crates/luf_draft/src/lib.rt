//! The draft of a chunk: how each construct is formatted, before comments and widths are looked at.
#![tactic(auto)]

mod adding;
mod arguments;
mod drafting;
mod edges;
mod lists;
mod mark;
mod shown;
mod starts;

pub use luf_memory::Memory;
pub use mark::{GapKind, Mark, Part};
pub use shown::marks;
