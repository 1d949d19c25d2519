// The empty lines in a gap, as far as they are told.
ghost use Rattle.std.specs.Prelude.{◌≡◌, false, cond, nat_lt, IfOk};
ghost use Rattle.luf_draft.specs.Flat.{gap_of_kind};
ghost use Rattle.luf_style.specs.Filled.{bordered, unspaced, start_unspaced, end_unspaced, without_blank};
ghost use Rattle.luf_style.specs.inner.Blanks.{cleared, first_break, is_later, is_outside};

use luf_doc::Remark;
use luf_draft::GapKind;
use luf_gaps::GapNotes;
use luf_memory::Memory;
use sqlite_items::Items;
use std::alloc::Global;

/// What is told of a gap of this kind.
pub(crate) fn bordered(alloc: Global, kind: GapKind, gap: GapNotes) -> Result<GapNotes, Memory>
    ensures { IfOk result (λ told. told ≡ bordered (gap_of_kind kind).border gap) }
{
    if gap.notes.is_empty() {
        let blank = told_alone(kind, gap.blank);
        return Ok(GapNotes {
            notes: gap.notes,
            blank,
        });
    }
    match kind {
        GapKind::LaterStatement => Ok(gap),
        GapKind::FirstStatement => start_unspaced(alloc, gap),
        GapKind::BlockEnd | GapKind::SourceEnd => Ok(end_unspaced(gap)),
        GapKind::EmptyBlock | GapKind::EmptySource => {
            let told = start_unspaced(alloc, gap)?;
            Ok(end_unspaced(told))
        }
        GapKind::Tight
        | GapKind::Space
        | GapKind::Soft
        | GapKind::Line
        | GapKind::TightEnd
        | GapKind::SoftEnd
        | GapKind::LineEnd => unspaced(alloc, gap),
    }
}

/// Whether the empty line of a gap without notes is told: only before a later statement of a block.
fn told_alone(kind: GapKind, blank: bool) -> bool
    ensures { result ≡ cond (is_later (gap_of_kind kind).border) blank false }
{
    match kind {
        GapKind::LaterStatement => blank,
        GapKind::FirstStatement
        | GapKind::BlockEnd
        | GapKind::SourceEnd
        | GapKind::EmptyBlock
        | GapKind::EmptySource
        | GapKind::Tight
        | GapKind::Space
        | GapKind::Soft
        | GapKind::Line
        | GapKind::TightEnd
        | GapKind::SoftEnd
        | GapKind::LineEnd => false,
    }
}

/// Without empty lines.
fn unspaced(alloc: Global, gap: GapNotes) -> Result<GapNotes, Memory>
    ensures { IfOk result (λ told. told ≡ unspaced gap) }
{
    let count = gap.notes.len();
    let notes = cleared(alloc, gap.notes, 0, count)?;
    Ok(GapNotes {
        notes,
        blank: false,
    })
}

/// Without the empty line before the first break.
fn start_unspaced(alloc: Global, gap: GapNotes) -> Result<GapNotes, Memory>
    ensures { IfOk result (λ told. told ≡ start_unspaced gap) }
{
    let count = gap.notes.len();
    let first = first_break(gap.notes.as_slice());
    let notes = cleared(alloc, gap.notes, first, 1)?;
    Ok(GapNotes {
        notes,
        blank: told_blank(gap.blank, first, count),
    })
}

/// Whether the empty line behind `count` notes is told, where the first break stands before note `first`.
fn told_blank(blank: bool, first: usize, count: usize) -> bool
    ensures { result ≡ cond (nat_lt first count) blank false }
{
    if first < count { blank } else { false }
}

/// Without the empty line behind the notes.
fn end_unspaced(gap: GapNotes) -> GapNotes
    ensures { result ≡ end_unspaced gap }
{
    GapNotes {
        notes: gap.notes,
        blank: false,
    }
}

/// The first note before which a break stands, or their number where there is none.
fn first_break(notes: &[Remark]) -> usize
    ensures { result ≡ first_break false notes.now }
{
    let mut ends = false;
    for (n, note) in notes.iter().enumerate() {
        if note.own_line || ends {
            return n;
        }
        ends = note.ends_line;
    }
    notes.len()
}

/// Without the empty lines before `count` notes, from note `from` on.
fn cleared(
    alloc: Global,
    notes: Items<Remark>,
    from: usize,
    count: usize,
) -> Result<Items<Remark>, Memory>
    ensures { IfOk result (λ told. told ≡ cleared from count notes) }
{
    let mut left = notes;
    let mut told = Vec::with_capacity(alloc, left.len())?;
    while let Some(note) = left.pop() {
        told.push(told_note(note, is_outside(left.len(), from, count)))?;
    }
    told.reverse();
    Ok(Items::from_vec(told))
}

/// Whether note `n` is none of `count` notes from note `from` on.
fn is_outside(n: usize, from: usize, count: usize) -> bool
    ensures { result ≡ is_outside n from count }
{
    if n < from {
        return true;
    }
    n - from >= count
}

/// A note, with its empty line or without.
fn told_note(note: Remark, whole: bool) -> Remark
    ensures { result ≡ cond whole note (without_blank note) }
{
    if whole {
        return note;
    }
    let mut told = note;
    told.blank = false;
    told
}
