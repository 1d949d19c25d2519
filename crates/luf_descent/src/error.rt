// Why tokens form no tree.
use luf_memory::Memory;
use std::alloc::AllocError;

/// Why no tree was made of the tokens: there is none that is nested at most 200 levels deep, or no memory was found.
#[derive(Clone, Copy, Debug, PartialEq, Eq)]
pub enum ParseErr {
    /// `token` is the first of the tokens with which those up to it begin no list that has a tree, or their number for
    /// the end. None before it enters a level too many.
    Syntax { token: u32 },
    /// `token` is the first of the tokens that enters a level too many.
    TooDeep { token: u32 },
    /// No memory was found.
    Memory,
}

impl From<Memory> for ParseErr {
    ghost use Rattle.std.specs.Prelude.{◌≡◌};
    ghost use Rattle.luf_descent.specs.declared.error.ParseErr.TheVariants.{Memory};

    ghost from_gives = { λ _ e. e ≡ Memory };

    fn from(_: Memory) -> ParseErr {
        ParseErr::Memory
    }
}

impl From<AllocError> for ParseErr {
    ghost use Rattle.std.specs.Prelude.{◌≡◌};
    ghost use Rattle.luf_descent.specs.declared.error.ParseErr.TheVariants.{Memory};

    ghost from_gives = { λ _ e. e ≡ Memory };

    fn from(_: AllocError) -> ParseErr {
        ParseErr::Memory
    }
}
