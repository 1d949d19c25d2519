//! Bytes of a source text, stretches of it, and the line and column of a byte.
#![tactic(auto)]

mod bytes;
mod place;

pub use bytes::Bytes;
pub use luf_memory::Memory;
pub use place::{Place, place_of};

/// The bytes of a source from `from` up to `to`, which is not included.
#[derive(Clone, Copy, Debug, PartialEq, Eq)]
pub struct Span {
    pub from: u32,
    pub to: u32,
}
