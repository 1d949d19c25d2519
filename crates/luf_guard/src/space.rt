// The space that keeps two tokens apart.
ghost use Rattle.std.specs.Prelude.{◌≡◌, ◌↔◌, IsTrue, false};
ghost use Rattle.luf_byte.specs.Class as class;
ghost use Rattle.luf_byte.specs.Front.{begins};
ghost use Rattle.luf_lex.specs.First as first;
ghost use Rattle.luf_guard.specs.inner.Joins as spec;
ghost use Rattle.luf_guard.specs.Space.{IsTokenSpelling, NeedSpace, StandApart};

use luf_byte::{is_digit, is_letter, is_word_byte};

/// Whether two token spellings need a space between them.
pub fn needs_space(a: &[u8], b: &[u8]) -> bool
    requires left { IsTokenSpelling a.now }
    requires right { IsTokenSpelling b.now }
    ensures exact { IsTrue result ↔ NeedSpace a.now b.now }
    ensures apart { result ≡ false → StandApart a.now b.now }
{
    is_needed(a, b)
}

fn is_needed(a: &[u8], b: &[u8]) -> bool
    ensures { result ≡ spec.is_needed a.now b.now }
{
    match b {
        [next, ..] => joins(a, *next),
        [] => false,
    }
}

/// Whether a token begins something longer with this byte behind it.
fn joins(token: &[u8], next: u8) -> bool
    ensures { result ≡ spec.joins token.now next }
{
    if begins_numeral(token) {
        return is_word_byte(next) || next == b'.';
    }
    if begins_word(token) {
        return is_word_byte(next);
    }
    sign_joins(token, next)
}

/// The same for a sign; a string ends itself.
fn sign_joins(sign: &[u8], next: u8) -> bool
    ensures { result ≡ spec.sign_joins sign.now next }
{
    match sign {
        [b'-'] => next == b'-',
        [b'/'] => next == b'/',
        [b'~' | b'='] => next == b'=',
        [b'<'] => next == b'<' || next == b'=',
        [b'>'] => next == b'>' || next == b'=',
        [b'['] => next == b'[',
        [b':'] => next == b':',
        [b'.'] => next == b'.' || is_digit(next),
        [b'.', b'.'] => next == b'.',
        _ => false,
    }
}

fn begins_numeral(text: &[u8]) -> bool
    ensures { result ≡ first.begins_numeral text.now }
{
    match text {
        [b'.', b, ..] => is_digit(*b),
        [b, ..] => is_digit(*b),
        [] => false,
    }
}

fn begins_word(text: &[u8]) -> bool
    ensures { result ≡ begins class.is_letter text.now }
{
    match text {
        [b, ..] => is_letter(*b),
        [] => false,
    }
}
