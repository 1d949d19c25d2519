// Comments (Lua 5.4 manual, 3.1).
ghost use Rattle.std.specs.Prelude.{◌≡◌, ℕ, MatchResult};
ghost use Rattle.luf_lex.specs.First.{group_of, IsFirst, IsFault};
ghost use Rattle.luf_lex.specs.declared.group.Group.TheVariants.{Commented};

use crate::{Kind, LexWhat};
use luf_str::{long_end, opens_long};
use memchr::memchr2;

/// The length of the comment that a text begins with, or why there is none.
pub(crate) fn comment(text: &[u8]) -> Result<usize, LexWhat>
    requires { group_of text.now ≡ Commented }
    ensures { MatchResult result (λ n. IsFirst text.now Kind.Comment n) (λ what. IsFault text.now what) }
{
    let rest = &text[2..];
    if opens_long(rest) {
        return match long_end(rest) {
            Some(length) => Ok(2 + length),
            None => Err(LexWhat::OpenLong),
        };
    }
    match memchr2(b'\n', b'\r', rest) {
        Some(length) => Ok(2 + length),
        None => Ok(text.len()),
    }
}
