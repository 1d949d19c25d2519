// The gaps of a source, read one after another.
ghost use Rattle.std.specs.Prelude.{◌≡◌, ◌<◌, ◌≤◌, ◌↔◌, ◌++◌, [], drop, false, length, slice_index_or, IfOk, OnOk, IsTrue};
ghost use Rattle.luf_lex.specs.Cut.{IsCut};
ghost use Rattle.luf_lex.specs.Tokens.{toks_of};
ghost use Rattle.luf_tree.specs.SyntaxOf.{syntax_of};
ghost use Rattle.luf_bare.specs.Dropped.{dropped_block};
ghost use Rattle.luf_gaps.specs.Gaps as notes;
ghost use Rattle.luf_gaps.specs.inner.Left.{left_at};

use crate::GapNotes;
use crate::dropped::dropped_tokens;
use crate::remarks::{add_remarks, end_last, is_untold, make_room};
use luf_lex::Cut;
use luf_memory::Memory;
use luf_tree::Chunk;
use sqlite_items::Items;
use std::alloc::Global;
use std::marker::Model;

/// The gaps of a source that are left, as `gaps` tells them. Contracts see their list. So only one of them takes memory,
/// beside a byte for each token.
#[derive(Drop)]
pub struct GapReader<'a> {
    src: &'a [u8],
    cut: &'a Cut,
    /// Which tokens are dropped.
    dropped: Vec<bool>,
    /// The token at which the next gap begins; one behind the end where none is left.
    next: u32,
}

impl<'a> Model for GapReader<'a> {
    ghost use Rattle.std.specs.Prelude.{◌≡◌, List, length};
    ghost use Rattle.luf_lex.specs.Cut.{IsCut};
    ghost use Rattle.luf_lex.specs.Tokens.{toks_of};
    ghost use Rattle.luf_gaps.specs.declared.notes.GapNotes.{GapNotes};
    ghost use Rattle.luf_gaps.specs.inner.Left.{left_at};

    ghost Value = { List GapNotes };

    ghost view = { λ r. left_at r.src.now r.cut.now r.dropped.items r.next };

    ghost invariant = { λ r. (IsCut r.src.now r.cut.now) × (length r.dropped.items ≡ length (toks_of r.cut.now)) };
}

impl<'a> GapReader<'a> {
    /// The gaps of a chunk, with the comments of its source. The only error is that no memory was found.
    pub fn new(
        alloc: Global,
        src: &'a [u8],
        cut: &'a Cut,
        c: &Chunk,
    ) -> Result<GapReader<'a>, Memory>
        requires { IsCut src.now cut.now }
        ensures { IfOk result (λ r. r ≡ notes.gaps src.now cut.now (dropped_block (syntax_of c.now) [])) }
    {
        let dropped = dropped_tokens(alloc, cut.tokens() as usize, c)?;
        Ok(GapReader {
            src,
            cut,
            dropped,
            next: 0,
        })
    }

    /// Whether no gap is left.
    pub fn is_over(&self) -> bool
        ensures { IsTrue result ↔ (self.now ≡ []) }
    {
        self.next > self.cut.tokens()
    }

    /// As many gaps as are left, or more: as many as tokens.
    pub fn at_most(&self) -> usize
        ensures { length self.now ≤ result }
    {
        (self.cut.tokens() as usize + 1).saturating_sub(self.next as usize)
    }

    /// Takes the next gap; an empty one where none is left. The only error is that no memory was found, and then none was
    /// taken.
    pub fn next_gap(&mut self, alloc: Global) -> Result<GapNotes, Memory>
        ensures gap { IfOk result (λ gap. gap ≡ notes.next_gap self.old) }
        ensures left { OnOk result (self.new ≡ drop 1 self.old) }
    {
        let (gap, next) = gap_at(
            alloc,
            self.src,
            self.cut,
            self.dropped.as_slice(),
            self.next,
        )?;
        self.next = next;
        Ok(gap)
    }
}

/// The gap that begins at token `at`, and the token at which the next one does.
fn gap_at(
    alloc: Global,
    src: &[u8],
    cut: &Cut,
    dropped: &[bool],
    at: u32,
) -> Result<(GapNotes, u32), Memory>
    requires cut { IsCut src.now cut.now }
    requires mask { length dropped.now ≡ length (toks_of cut.now) }
    ensures { IfOk result (λ found. (found.0 ≡ notes.next_gap (left_at src.now cut.now dropped.now at)) × (left_at src.now cut.now dropped.now found.1 ≡ drop 1 (left_at src.now cut.now dropped.now at))) }
{
    let count = cut.tokens();
    let mut gap = empty_gap(alloc);
    if at > count {
        return Ok((gap, at));
    }
    for n in at..count {
        add_before(alloc, src, cut, n, &mut gap)?;
        if !is_dropped(dropped, n) {
            return Ok((gap, n + 1));
        }
    }
    add_before(alloc, src, cut, count, &mut gap)?;
    end_last(&mut gap.notes)?;
    Ok((gap, count + 1))
}

/// Whether token `n` is marked.
fn is_dropped(mask: &[bool], n: u32) -> bool
    requires { n < length mask.now }
    ensures { result ≡ slice_index_or mask.now n false }
{
    mask[n as usize]
}

fn empty_gap(alloc: Global) -> GapNotes
    ensures { result ≡ notes.empty_gap }
{
    GapNotes {
        notes: Items::new(alloc),
        blank: false,
    }
}

/// Adds the comments before token `n`, or those at the end.
fn add_before(
    alloc: Global,
    src: &[u8],
    cut: &Cut,
    n: u32,
    gap: &mut GapNotes,
) -> Result<(), Memory>
    requires cut { IsCut src.now cut.now }
    requires within { n ≤ length (toks_of cut.now) }
    ensures { OnOk result (gap.new ≡ notes.and_before src.now cut.now n gap.old) }
{
    let lead = cut.lead(n);
    let untold = is_untold(gap.blank, lead);
    make_room(alloc, lead.len(), &mut gap.notes)?;
    add_remarks(alloc, src, gap.blank, lead, &mut gap.notes)?;
    gap.blank = untold || cut.blank(n);
    Ok(())
}
