//! The function that a chunk of Lua 5.4 holds, or its first field that is wrong. What only debugging reads is skipped.
#![tactic(auto)]

mod chunk;
mod constant;
mod debug;
mod error;
mod field;
mod function;
mod laws;
mod size;
#[cfg(test)]
mod tests;
mod upvalue;

pub use chunk::read_chunk;
pub use error::{ChunkWhat, UndumpErr};
pub use laws::{
    chunk_not_refused, one_cause, one_function, read_is_chunk, refused_is_first, refused_within,
    written_is_read,
};
