ghost use Rattle.std.specs.Prelude.{◌≡◌};
ghost use Rattle.luf_undump.specs.declared.error.Stop.TheVariants.{Memory};

use std::alloc::{AllocError, AllocFailed};
use thiserror::Error;

/// What is wrong with a field of a chunk.
#[derive(Clone, Copy, Debug, PartialEq, Eq)]
pub enum ChunkWhat {
    /// A byte of the header differs.
    BadHeader,
    /// The bytes end before the field does.
    Short,
    /// A size that is not written as sizes are, is too large, or does not fit what it counts.
    BadSize,
    /// A tag, a flag or a kind that there is not.
    BadTag,
    /// A function is more than 200 levels below main.
    Nested,
    /// A byte stands behind main.
    Trailing,
}

/// Why bytes are not read as a function.
#[derive(Clone, Copy, Debug, PartialEq, Eq, Error)]
pub enum UndumpErr {
    /// The first field that is wrong begins at this byte.
    #[error("the field at byte {at} is wrong: {what:?}")]
    Bad { at: u32, what: ChunkWhat },
    /// No memory was found.
    #[error("no memory was found")]
    Memory,
}

/// Why a part is not read: the field that is wrong by how many bytes there are from its first on.
#[derive(Clone, Copy)]
pub enum Stop {
    Bad { left: usize, what: ChunkWhat },
    Memory,
}

impl From<AllocError> for Stop {
    ghost from_gives = { λ _ e. e ≡ Memory };

    fn from(_: AllocError) -> Stop {
        Stop::Memory
    }
}

impl<T: Drop> From<AllocFailed<T>> for Stop {
    ghost from_gives = { λ _ e. e ≡ Memory };

    fn from(_: AllocFailed<T>) -> Stop {
        Stop::Memory
    }
}

impl From<luf_memory::Memory> for Stop {
    ghost from_gives = { λ _ e. e ≡ Memory };

    fn from(_: luf_memory::Memory) -> Stop {
        Stop::Memory
    }
}
