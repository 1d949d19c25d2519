// How many bytes a document has on one line.
ghost use Rattle.std.specs.Prelude.{◌≡◌, ◌≤◌, ◌<◌, ◌^◌, ℕ, length, min, position};
ghost use Rattle.luf_doc.specs.Document.{text, between, document_of};
ghost use Rattle.luf_doc.specs.Flat.{is_line_end};
ghost use Rattle.luf_doc.specs.Sizes.{own_size, size_of, size_of_chance, size_of_note, then};

use crate::{Chance, Doc, Gap, Remark};

/// The size of a document.
#[derive(Clone, Copy, Debug, PartialEq, Eq)]
pub struct Size {
    /// The bytes on one line, up to the first line end inside, or `u32::MAX` where they are more.
    pub flat: u32,
    /// Whether a line end stands in a text or a note inside.
    pub ended: bool,
    /// Whether a Hard gap or a forcing note is inside.
    pub forced: bool,
}

impl Size {
    /// The size of nothing.
    pub const NONE: Size = Size {
        flat: 0,
        ended: false,
        forced: false,
    };

    /// The size of a blank.
    const BLANK: Size = Size {
        flat: 1,
        ended: false,
        forced: false,
    };

    /// The size of a text or a gap, and none for what holds others.
    pub(crate) fn of_own(doc: &Doc) -> Size
        ensures { result ≡ own_size (document_of doc.now) }
    {
        match doc {
            Doc::Text(bytes) => Size::of_text(bytes.as_slice()),
            Doc::Gap(gap) => Size::of_gap(gap),
            Doc::Trail | Doc::Nest(_) | Doc::Group(_) | Doc::Seq(_) => Size::NONE,
        }
    }

    /// The size of a text.
    pub fn of_text(bytes: &[u8]) -> Size
        ensures { result ≡ size_of (text bytes.now) }
    {
        let end = first_line_end(bytes);
        let len = end.unwrap_or(bytes.len());
        Size {
            flat: capped(len),
            ended: end.is_some(),
            forced: false,
        }
    }

    /// The size of a gap.
    pub fn of_gap(gap: &Gap) -> Size
        ensures { result ≡ size_of (between gap.now) }
    {
        if gap.notes.is_empty() {
            return Size::of_chance(gap.chance);
        }
        let mut size = Size {
            forced: matches!(gap.chance, Chance::Hard),
            ..Size::NONE
        };
        for note in gap.notes.as_slice() {
            size = size.then(Size::BLANK).then(Size::of_note(note));
        }
        size.then(Size::BLANK)
    }

    fn of_note(note: &Remark) -> Size
        ensures { result ≡ size_of_note note.now }
    {
        Size {
            forced: note.own_line || note.ends_line,
            ..Size::of_text(note.text.as_slice())
        }
    }

    fn of_chance(chance: Chance) -> Size
        ensures { result ≡ size_of_chance chance }
    {
        match chance {
            Chance::Tight | Chance::Soft => Size::NONE,
            Chance::Space | Chance::Line => Size::BLANK,
            Chance::Hard => Size {
                forced: true,
                ..Size::NONE
            },
        }
    }

    /// The size of one and then another. What stands behind a line end is not counted.
    pub fn then(self, next: Size) -> Size
        ensures { result ≡ then self next }
    {
        Size {
            flat: if self.ended {
                self.flat
            } else {
                self.flat.saturating_add(next.flat)
            },
            ended: self.ended || next.ended,
            forced: self.forced || next.forced,
        }
    }
}

/// Where the first line end begins.
fn first_line_end(bytes: &[u8]) -> Option<usize>
    ensures { result ≡ position is_line_end bytes.now }
{
    bytes.iter().position(|b| is_line_end(*b))
}

/// Whether a byte is of a line end: LF or CR.
fn is_line_end(b: u8) -> bool
    ensures { result ≡ is_line_end b }
{
    b == b'\n' || b == b'\r'
}

/// A number, or the greatest of its type.
fn capped(n: usize) -> u32
    ensures { result ≡ min n u32.MAX }
{
    n.min(u32::MAX as usize) as u32
}
