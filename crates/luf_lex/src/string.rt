// Strings, in long brackets and in quotes (Lua 5.4 manual, 3.1).
ghost use Rattle.std.specs.Prelude.{◌≡◌, MatchResult};
ghost use Rattle.luf_lex.specs.First.{group_of, IsFirst, IsFault};
ghost use Rattle.luf_lex.specs.declared.group.Group.TheVariants.{Quoted, Bracketed};

use crate::{Kind, LexWhat, Tok};
use luf_str::{ShortEnd, long_end, short_end};

/// The length of the long string that a text begins with, or why there is none.
pub(crate) fn long_string(text: &[u8]) -> Result<usize, LexWhat>
    requires { group_of text.now ≡ Bracketed }
    ensures { MatchResult result (λ n. IsFirst text.now (Kind.Token Tok.Long) n) (λ what. IsFault text.now what) }
{
    match long_end(text) {
        Some(length) => Ok(length),
        None => Err(LexWhat::OpenLong),
    }
}

/// The length of the string in quotes that a text begins with, or why there is none.
pub(crate) fn short_string(text: &[u8]) -> Result<usize, LexWhat>
    requires { group_of text.now ≡ Quoted }
    ensures { MatchResult result (λ n. IsFirst text.now (Kind.Token Tok.Short) n) (λ what. IsFault text.now what) }
{
    match short_end(text) {
        ShortEnd::Closed { length } => Ok(length),
        ShortEnd::Bad { .. } => Err(LexWhat::BadEscape),
        ShortEnd::Open => Err(LexWhat::OpenString),
    }
}
