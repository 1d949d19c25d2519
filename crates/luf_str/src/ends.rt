//! Where a short string ends.

ghost use Rattle.std.specs.Prelude.{ℕ, List, ◌^◌, ◌<◌, length, slice_index, IsTrue, IfSome, IfNone};
ghost use Rattle.luf_str.specs.Bytes.{is_quote};
ghost use Rattle.luf_str.specs.ShortEnd.{IsShortEnd};
ghost use Rattle.luf_str.specs.Spelling.{IsShortSpelling};
ghost use Rattle.luf_str.specs.Value.{IsShortValue, FirstBad};

use crate::bytes::{leading_ordinary, tail};
use crate::fronts::{Front, front_of};

/// Where a short string ends that a text begins with.
#[derive(Clone, Copy, Debug, PartialEq, Eq)]
pub enum ShortEnd {
    /// The string has so many bytes with its quotes, and all its escapes are good.
    Closed { length: usize },
    /// A bad or cut escape comes first: the place of its backslash, counted from 0.
    Bad { at: usize },
    /// A line end or the text's end comes first, or a backslash and then the text's end.
    Open,
}

/// Reads the short string from its quote, which the text begins with, to the first of: the closing quote, a bad escape,
/// a line end, the text's end.
pub fn short_end(text: &[u8]) -> ShortEnd
    requires some { 0 < length text.now }
    requires quote { IsTrue (is_quote (slice_index text.now 0)) }
    ensures { IsShortEnd text.now result }
{
    let quote = text[0];
    let mut at = 1;
    'parts: loop {
        at += leading_ordinary(tail(text, at));
        match front_of(tail(text, at), quote) {
            Front::Part { length, .. } => at += length,
            Front::Quote => return ShortEnd::Closed { length: at + 1 },
            Front::BadEscape => return ShortEnd::Bad { at },
            Front::LoneBackslash | Front::End => return ShortEnd::Open,
        }
    }
}

/// The place of the first backslash of a short string that begins no escape, counted from 0, or `None` where all escapes
/// are good, and the string has a value.
pub fn first_bad(spelling: &[u8]) -> Option<u32>
    requires short { IsShortSpelling spelling.now }
    requires size { length spelling.now < 2 ^ 32 }
    ensures none { IfNone result ((value : List ℕ) × IsShortValue spelling.now value) }
    ensures bad { IfSome result (FirstBad spelling.now) }
{
    match short_end(spelling) {
        ShortEnd::Closed { .. } => None,
        ShortEnd::Bad { at } => Some(at as u32),
        ShortEnd::Open => unreachable!(),
    }
}
