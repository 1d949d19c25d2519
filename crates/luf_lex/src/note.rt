// The comments between the tokens of a source, with their places, and the empty lines before them.
ghost use Rattle.std.specs.Prelude.{◌≡◌, ℕ, ◌<◌, ◌≤◌, [], length, IfOk};
ghost use Rattle.std.specs.List.Sorted.{IsNonDecreasingBy, IsPartitionPoint};
ghost use Rattle.luf_lex.specs.Note as notes;
ghost use Rattle.luf_lex.specs.inner.Leads.{notes_from, notes_between, IsLeadIndex};
ghost use Rattle.luf_lex.specs.inner.Growing.{comment_places};

use crate::{Piece, Span};
use luf_memory::Memory;
use std::alloc::Global;

/// A comment between two tokens.
#[derive(Clone, Copy, Debug, PartialEq, Eq)]
pub struct Note {
    /// Where it lies in the source.
    pub span: Span,
    /// No token and no other comment stands, or ends, before it on the line where it begins.
    pub own_line: bool,
    /// Only blanks stand between it and a line end, or the end of the source.
    pub line_after: bool,
    /// An empty line stands directly before it.
    pub blank_before: bool,
}

/// The comments of a source in order, with their places.
#[derive(Debug, Drop)]
pub(crate) struct Leads {
    notes: Vec<Note>,
    /// Where each of them stands among the pieces.
    places: Vec<u32>,
}

impl Leads {
    /// The comments at these places of some pieces. The only error is that no memory was found.
    pub(crate) fn of(alloc: Global, pieces: &[Piece], comments: Vec<u32>) -> Result<Leads, Memory>
        requires comments { comments.items ≡ comment_places 0 pieces.now }
        ensures { IfOk result (λ leads. IsLeadIndex leads.notes.items leads.places.items pieces.now) }
    {
        let notes = notes_at(alloc, pieces, comments.as_slice())?;
        Ok(Leads {
            notes,
            places: comments,
        })
    }

    /// The comments from one place up to another. Where no piece stands between the two it makes no search.
    pub(crate) fn between(&self, from: usize, to: usize) -> &[Note]
        requires count { length self.now.notes.items ≡ length self.now.places.items }
        requires rising { IsNonDecreasingBy (λ (i : ℕ). i) self.now.places.items }
        ensures { result.now ≡ notes_between self.now.notes.items self.now.places.items from to }
    {
        if to <= from {
            &self.notes[..0]
        } else {
            let first = self.count_before(from);
            let end = self.count_before(to);
            &self.notes[first..end]
        }
    }

    /// How many comments stand before this place.
    fn count_before(&self, end: usize) -> usize
        requires rising { IsNonDecreasingBy (λ (i : ℕ). i) self.now.places.items }
        ensures within { result ≤ length self.now.places.items }
        ensures point { IsPartitionPoint (λ (i : ℕ). i < end) (λ (i : ℕ). end ≤ i) self.now.places.items result }
    {
        self.places.partition_point(|place| (*place as usize) < end)
    }
}

/// The comments at these places of some pieces.
fn notes_at(alloc: Global, pieces: &[Piece], comments: &[u32]) -> Result<Vec<Note>, Memory>
    requires comments { comments.now ≡ comment_places 0 pieces.now }
    ensures { IfOk result (λ found. found.items ≡ notes_from [] pieces.now) }
{
    let mut found = Vec::new(alloc);
    for place in comments {
        let place = *place as usize;
        found.push(note_of(&pieces[..place], pieces[place], &pieces[place + 1..]))?;
    }
    Ok(found)
}

/// A comment that stands between these pieces. It reads back to the last content, and on to the next content or
/// line end.
fn note_of(before: &[Piece], comment: Piece, after: &[Piece]) -> Note
    ensures { result ≡ notes.note_of before.now comment after.now }
{
    Note {
        span: comment.span,
        own_line: at_line_start(before),
        line_after: at_line_end(after),
        blank_before: has_empty_line(before),
    }
}

/// Whether no token and no comment stands after the last line end of these pieces.
fn at_line_start(before: &[Piece]) -> bool
    ensures { result ≡ notes.at_line_start before.now }
{
    before
        .iter()
        .rev()
        .take_while(|piece| !piece.kind.is_line_end())
        .all(|piece| !piece.kind.is_content())
}

/// Whether only blanks stand before the first line end of these pieces.
fn at_line_end(after: &[Piece]) -> bool
    ensures { result ≡ notes.at_line_end after.now }
{
    after
        .iter()
        .take_while(|piece| !piece.kind.is_line_end())
        .all(|piece| piece.kind.is_blank())
}

/// Whether an empty line ends these pieces: whether two line ends or more stand in their last gap.
pub(crate) fn has_empty_line(before: &[Piece]) -> bool
    ensures { result ≡ notes.has_empty_line before.now }
{
    let line_ends = last_gap(before)
        .iter()
        .filter(|piece| piece.kind.is_line_end())
        .count();
    2 <= line_ends
}

/// The pieces after the last token and the last comment.
fn last_gap(before: &[Piece]) -> &[Piece]
    ensures { result.now ≡ notes.last_gap before.now }
{
    let mut from = before.len();
    while from > 0 && !before[from - 1].kind.is_content() {
        from -= 1;
    }
    &before[from..]
}
