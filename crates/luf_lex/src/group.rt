// What is tried at a place.
ghost use Rattle.std.specs.Prelude.{◌≡◌};
ghost use Rattle.luf_lex.specs.First as first;
ghost use Rattle.luf_str.specs.Bytes.{is_quote};
ghost use Rattle.luf_byte.specs.Front.{begins};

use luf_byte::is_digit;
use luf_str::opens_long;

/// What is tried at a place of a source: where a short string, a long bracket, a comment or a numeral begins,
/// nothing else is. The definition of the first piece is told by it.
#[derive(Clone, Copy, Debug, PartialEq, Eq)]
pub enum Group {
    Quoted,
    Bracketed,
    Commented,
    Numeric,
    Other,
}

/// What is tried where a text begins.
pub(crate) fn group_at(text: &[u8]) -> Group
    ensures { result ≡ first.group_of text.now }
{
    if begins_string(text) {
        return Group::Quoted;
    }
    if opens_long(text) {
        return Group::Bracketed;
    }
    if begins_comment(text) {
        return Group::Commented;
    }
    if begins_numeral(text) {
        return Group::Numeric;
    }
    Group::Other
}

fn begins_string(text: &[u8]) -> bool
    ensures { result ≡ begins is_quote text.now }
{
    matches!(text, [b'"' | b'\'', ..])
}

fn begins_comment(text: &[u8]) -> bool
    ensures { result ≡ first.begins_comment text.now }
{
    matches!(text, [b'-', b'-', ..])
}

fn begins_numeral(text: &[u8]) -> bool
    ensures { result ≡ first.begins_numeral text.now }
{
    match text {
        [b'.', b, ..] => is_digit(*b),
        [b, ..] => is_digit(*b),
        [] => false,
    }
}
