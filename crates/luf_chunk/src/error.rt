ghost use Rattle.std.specs.Prelude.{◌≡◌};
ghost use Rattle.luf_chunk.specs.declared.error.ChunkErr.TheVariants.{Memory};

use luf_text::Bytes;
use std::alloc::{AllocError, AllocFailed};

/// Why a function has no chunk.
#[derive(Debug, Drop)]
pub enum ChunkErr {
    /// A float has no word, since it is not in reach: the first such float, where those of a function come before those of the
    /// functions inside it.
    FloatReach { spelling: Bytes },
    /// No memory was found.
    Memory,
}

impl From<luf_memory::Memory> for ChunkErr {
    ghost from_gives = { λ _ e. e ≡ Memory };

    fn from(_: luf_memory::Memory) -> ChunkErr {
        ChunkErr::Memory
    }
}

impl From<AllocError> for ChunkErr {
    ghost from_gives = { λ _ e. e ≡ Memory };

    fn from(_: AllocError) -> ChunkErr {
        ChunkErr::Memory
    }
}

impl<T: Drop> From<AllocFailed<T>> for ChunkErr {
    ghost from_gives = { λ _ e. e ≡ Memory };

    fn from(_: AllocFailed<T>) -> ChunkErr {
        ChunkErr::Memory
    }
}
