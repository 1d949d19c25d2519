//! The chunk of a function: the bytes that Lua 5.4 writes of it without what only debugging reads.
#![tactic(auto)]

mod chunk;
mod constant;
mod error;
mod field;
mod laws;
#[cfg(test)]
mod tests;

pub use chunk::write_chunk;
pub use error::ChunkErr;
pub use laws::one_worded;
pub use luf_memory::Memory;
