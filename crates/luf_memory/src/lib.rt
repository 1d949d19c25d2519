//! The one answer that any call which allocates may give: no memory was found.
#![tactic(auto)]

use std::alloc::{AllocError, AllocFailed};

/// No memory was found. A call that takes an allocator may answer it at any time; no contract says when.
#[derive(Clone, Copy, Debug, PartialEq, Eq)]
pub struct Memory;

impl From<AllocError> for Memory {
    fn from(_: AllocError) -> Memory {
        Memory
    }
}

impl<T: Drop> From<AllocFailed<T>> for Memory {
    fn from(_: AllocFailed<T>) -> Memory {
        Memory
    }
}
