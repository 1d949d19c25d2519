//! The outside as the other crates see it: where bytes come from, where they go, and files by name;
//! and objects in memory that stand for each. Any call that touches the outside may fail. Each such
//! object counts its faults, so that a caller's answer of failure can be proved to have its cause.
#![tactic(auto)]

mod files;
mod mem_files;
mod read;
mod sink;
mod source;
mod write;

pub use files::{FileFault, Files};
pub use luf_memory::Memory;
pub use mem_files::MemFiles;
pub use read::{ReadErr, read_all};
pub use sink::{MemSink, Sink};
pub use source::{MemSource, Source};
pub use write::{WriteErr, write_all};

/// A pull or a put failed.
#[derive(Clone, Copy, Debug, PartialEq, Eq)]
pub struct Failed;
