//! Line ends: LF, CR, LF CR and CR LF, the longest taken.

ghost use Rattle.std.specs.Prelude.{◌≡◌, ◌≤◌, length};
ghost use Rattle.luf_byte.specs.LineEnd as line;

use crate::class::is_line_byte;

/// Whether two bytes are one line end: CR LF or LF CR.
pub fn is_line_pair(a: u8, b: u8) -> bool
    ensures { result ≡ line.is_line_pair a b }
{
    is_line_byte(a) && is_line_byte(b) && a != b
}

/// How many bytes the line end has that a text begins with: 0, 1 or 2.
pub fn line_end_length(text: &[u8]) -> usize
    ensures value { result ≡ line.line_end_length text.now }
    ensures bound { result ≤ length text.now }
{
    match text {
        [a, b, ..] if is_line_pair(*a, *b) => 2,
        [a, ..] if is_line_byte(*a) => 1,
        _ => 0,
    }
}
