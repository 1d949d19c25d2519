//! The comments of a source in the gaps of its program.
#![tactic(auto)]

mod dropped;
mod mask;
mod notes;
mod reader;
mod reading;
mod remarks;
#[cfg(test)]
mod tests;

pub use luf_memory::Memory;
pub use notes::GapNotes;
pub use reader::GapReader;
pub use reading::gaps;
