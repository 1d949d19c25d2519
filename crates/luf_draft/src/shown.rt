// The marks of a chunk, by what they stand for.
ghost use Rattle.std.specs.Prelude.{◌≡◌, ℕ, List, map, IfOk};
ghost use Rattle.luf_lex.specs.Tokens.{toks_of};
ghost use Rattle.luf_quote.specs.Parens.{keeps_round_string, keeps_round_table};
ghost use Rattle.luf_draft.specs.Flat.{AreAlike, flat, shown};
ghost use Rattle.luf_draft.specs.Form.{main, written_program};

use crate::drafting::read;
use crate::mark::Mark;
use luf_lex::Cut;
use luf_memory::Memory;
use luf_quote::CallStyle;
use luf_tree::Chunk;
use std::alloc::Global;

/// The marks of a chunk, whose tokens are those of `cut`. Where its tokens are written in some way, but just each `(` as one and
/// just each `not`, they stand for the draft of the chunk, written flat (`Flat.antt`, `Form.antt`). `calls` tells where a
/// lone argument has parentheses. Linear in the chunk, one mark of 8 bytes for each word, gap, part and its end.
///
/// # Errors
///
/// No memory was found.
pub fn marks(alloc: Global, cut: &Cut, c: &Chunk, calls: CallStyle) -> Result<Vec<Mark>, Memory>
    ensures { IfOk result (λ found. (written : List (List ℕ)) → AreAlike (toks_of cut.now) written
        → map (shown written) found.items ≡ flat (main (keeps_round_string calls) (keeps_round_table calls) (written_program written c.now))) }
{
    read(alloc, cut, c, calls)
}
