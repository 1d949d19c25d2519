// The first piece of a text that begins with neither a letter nor a blank.
ghost use Rattle.std.specs.Prelude.{◌≡◌, ◌<◌, false, length, MatchResult};
ghost use Rattle.luf_byte.specs.Class as class;
ghost use Rattle.luf_byte.specs.Front.{begins};
ghost use Rattle.luf_lex.specs.First.{IsFirst, IsFault};

use crate::comment::comment;
use crate::group::{Group, group_at};
use crate::numeral::numeral;
use crate::sign::sign;
use crate::string::{long_string, short_string};
use crate::{Kind, LexWhat, Tok};
use luf_byte::{is_line_byte, line_end_length};

/// The first piece of a text that begins with neither a letter nor a blank, its kind and its length; or why it has none.
pub(crate) fn marked(text: &[u8]) -> Result<(Kind, usize), LexWhat>
    requires some { 0 < length text.now }
    requires letter { begins class.is_letter text.now ≡ false }
    requires blank { begins class.is_blank text.now ≡ false }
    ensures { MatchResult result (λ piece. IsFirst text.now piece.0 piece.1) (λ what. IsFault text.now what) }
{
    if is_line_byte(text[0]) {
        return Ok((Kind::LineEnd, line_end_length(text)));
    }
    match group_at(text) {
        Group::Quoted => of_kind(Kind::Token(Tok::Short), short_string(text)),
        Group::Bracketed => of_kind(Kind::Token(Tok::Long), long_string(text)),
        Group::Commented => of_kind(Kind::Comment, comment(text)),
        Group::Numeric => of_kind(Kind::Token(Tok::Number), numeral(text)),
        Group::Other => match sign(text) {
            Some((sign, len)) => Ok((Kind::Token(Tok::Sign(sign)), len)),
            None => Err(LexWhat::NoToken),
        },
    }
}

fn of_kind(kind: Kind, len: Result<usize, LexWhat>) -> Result<(Kind, usize), LexWhat>
    ensures { MatchResult len (λ n. result ≡ Ok (kind, n)) (λ what. result ≡ Err what) }
{
    match len {
        Ok(len) => Ok((kind, len)),
        Err(what) => Err(what),
    }
}
