// Why a source has no cut.
use luf_memory::Memory;
use std::alloc::AllocFailed;

/// Why no piece begins at a place.
#[derive(Clone, Copy, Debug, PartialEq, Eq)]
pub enum LexWhat {
    /// The byte begins no piece.
    NoToken,
    /// What was scanned has not the form of a numeral.
    BadNumeral,
    /// A string has a backslash that begins no escape.
    BadEscape,
    /// A string is not closed on its line.
    OpenString,
    /// A long string or a long comment is not closed.
    OpenLong,
}

/// Why a source has no cut.
#[derive(Clone, Copy, Debug, PartialEq, Eq)]
pub enum LexErr {
    /// The first place that has no piece, in bytes from 0, and why.
    Bad { at: u32, what: LexWhat },
    /// No memory was found.
    Memory,
}

impl From<Memory> for LexErr {
    ghost use Rattle.std.specs.Prelude.{◌≡◌};
    ghost use Rattle.luf_lex.specs.declared.fault.LexErr.TheVariants.{Memory};

    ghost from_gives = { λ _ e. e ≡ Memory };

    fn from(_: Memory) -> LexErr {
        LexErr::Memory
    }
}

impl<T: Drop> From<AllocFailed<T>> for LexErr {
    ghost use Rattle.std.specs.Prelude.{◌≡◌};
    ghost use Rattle.luf_lex.specs.declared.fault.LexErr.TheVariants.{Memory};

    ghost from_gives = { λ _ e. e ≡ Memory };

    fn from(_: AllocFailed<T>) -> LexErr {
        LexErr::Memory
    }
}
