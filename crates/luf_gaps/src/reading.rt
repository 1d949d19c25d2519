// The gaps of a source, all at once.
ghost use Rattle.std.specs.Prelude.{◌≡◌, ◌++◌, [], IfOk};
ghost use Rattle.luf_lex.specs.Cut.{IsCut};
ghost use Rattle.luf_tree.specs.SyntaxOf.{syntax_of};
ghost use Rattle.luf_bare.specs.Dropped.{dropped_block};
ghost use Rattle.luf_gaps.specs.Gaps as notes;

use crate::{GapNotes, GapReader};
use luf_lex::Cut;
use luf_memory::Memory;
use luf_tree::Chunk;
use std::alloc::Global;

/// The comments of a source in the gaps of its program: a gap before each token that its bare program has, in order, and
/// one at the end. So there is at least one; where no comment stands its notes are empty.
///
/// The comments round a dropped token stand in the gap before the next token that is not dropped. A comment has no
/// blanks at its end. Time and memory are linear in the source.
///
/// # Errors
///
/// `Memory`.
pub fn gaps(alloc: Global, src: &[u8], cut: &Cut, c: &Chunk) -> Result<Vec<GapNotes>, Memory>
    requires { IsCut src.now cut.now }
    ensures { IfOk result (λ found. found.items ≡ notes.gaps src.now cut.now (dropped_block (syntax_of c.now) [])) }
{
    let mut reader = GapReader::new(alloc, src, cut, c)?;
    let mut found = Vec::with_capacity(alloc, reader.at_most())?;
    while !reader.is_over() {
        found.push(reader.next_gap(alloc)?)?;
    }
    Ok(found)
}
