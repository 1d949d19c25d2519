//! Long brackets, and where the long string between them ends.

ghost use Rattle.std.specs.Prelude.{◌≡◌, ◌↔◌, ◌++◌, ℕ, List, IsTrue};
ghost use Rattle.luf_str.specs.LongEnd as long;
ghost use Rattle.luf_str.specs.Spelling.{closing};

use crate::bytes::{byte_at, leading_equals, tail};
use memchr::memchr;

/// Whether a text begins with a long bracket: `[`, any number of `=`, and `[`.
pub fn opens_long(text: &[u8]) -> bool
    ensures { result ≡ long.opens_long text.now }
{
    if text.is_empty() || text[0] != b'[' {
        return false;
    }
    let rest = tail(text, 1);
    let level = leading_equals(rest);
    byte_at(rest, level) == b'['
}

/// Whether a text begins with the closing bracket of a level.
fn closes(text: &[u8], level: usize) -> bool
    ensures { IsTrue result ↔ ((behind : List ℕ) × (text.now ≡ closing level ++ behind)) }
{
    if text.is_empty() || text[0] != b']' {
        return false;
    }
    let rest = tail(text, 1);
    if leading_equals(rest) != level {
        return false;
    }
    byte_at(rest, level) == b']'
}

/// The length of the long string that a text begins with, its brackets included, and `None` where no closing bracket
/// of its level follows.
pub fn long_end(text: &[u8]) -> Option<usize>
    requires { IsTrue (long.opens_long text.now) }
    ensures { long.IsLongEnd text.now result }
{
    let level = leading_equals(tail(text, 1));
    let inner = tail(text, level + 2);
    let mut at = 0;
    'closings: loop {
        let Some(passed) = memchr(b']', tail(inner, at)) else {
            return None;
        };
        let close = at + passed;
        if closes(tail(inner, close), level) {
            return Some(level + 2 + close + level + 2);
        }
        at = close + 1;
    }
}
