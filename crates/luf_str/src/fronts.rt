//! What a text begins with, read as the inside of a short string.

ghost use Rattle.luf_str.specs.Front.{IsFront};

use crate::bytes::tail;
use crate::escapes::{Meaning, escape_at};
use luf_byte::is_line_byte;

/// What a text begins with, read as the inside of a short string.
#[derive(Clone, Copy, Debug, PartialEq, Eq)]
pub enum Front {
    /// A part of so many bytes, and what it stands for.
    Part { length: usize, meaning: Meaning },
    /// A backslash that begins no escape; the escape may be cut by the text's end.
    BadEscape,
    /// A backslash, and then the text's end.
    LoneBackslash,
    /// The quote.
    Quote,
    /// The text's end or a line end.
    End,
}

/// Reads what the text begins with, as the inside of a short string in these quotes.
///
/// The text may go on behind the string, and it may end within it: an escape that the text's end cuts is bad, one that
/// could go on there, as `\1` or `\z`, is whole.
#[tactic(auto, using(crate::proofs::FrontLaws::front_laws))]
pub fn front_of(text: &[u8], quote: u8) -> Front
    ensures { IsFront quote text.now result }
{
    if text.is_empty() {
        return Front::End;
    }
    let first = text[0];
    if first != b'\\' {
        if first == quote {
            return Front::Quote;
        }
        if is_line_byte(first) {
            return Front::End;
        }
        return Front::Part {
            length: 1,
            meaning: Meaning::Byte(first),
        };
    }
    match escape_at(tail(text, 1)) {
        Some((length, meaning)) => Front::Part {
            length: 1 + length,
            meaning,
        },
        None if text.len() == 1 => Front::LoneBackslash,
        None => Front::BadEscape,
    }
}
