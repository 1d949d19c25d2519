// Numerals.
ghost use Rattle.std.specs.Prelude.{◌≡◌, ◌<◌, ◌≤◌, ◌-◌, if◌then◌else◌, IsTrue, MatchResult, length};
ghost use Rattle.luf_byte.specs.Class as class;
ghost use Rattle.luf_byte.specs.Front.{begins};
ghost use Rattle.luf_lex.specs.First.{IsFirst, IsFault, group_of, numeral_tail, numeral_length};
ghost use Rattle.luf_lex.specs.declared.group.Group.TheVariants.{Numeric};
ghost use Rattle.luf_lex.specs.inner.Scan.{mark_of, step_of};

use crate::{Kind, LexWhat, Tok};
use luf_byte::{is_hex_digit, is_letter};
use luf_num::number_of;

/// The length of the numeral that a text begins with, all of what the scan takes; or that it has not the form
/// of one.
pub(crate) fn numeral(text: &[u8]) -> Result<usize, LexWhat>
    requires { group_of text.now ≡ Numeric }
    ensures { MatchResult result (λ n. IsFirst text.now (Kind.Token Tok.Number) n) (λ what. IsFault text.now what) }
{
    let len = scan(text);
    match number_of(&text[..len]) {
        Some(_) => Ok(len),
        None => Err(LexWhat::BadNumeral),
    }
}

/// How far the scan of a numeral goes.
fn scan(text: &[u8]) -> usize
    requires { 0 < length text.now }
    ensures whole { result ≡ numeral_length text.now }
    ensures within { result ≤ length text.now }
{
    match text {
        [b'0', b'x' | b'X', ..] => 2 + tail(&text[2..], b'p'),
        _ => 1 + tail(&text[1..], b'e'),
    }
}

/// How far the scan goes on, where the marks of an exponent are this letter and its capital.
fn tail(text: &[u8], lower: u8) -> usize
    requires { IsTrue (class.is_letter lower) × IsTrue (class.is_letter (lower - 32)) }
    ensures whole { result ≡ numeral_tail (mark_of lower) text.now }
    ensures within { result ≤ length text.now }
{
    let mut at = 0;
    loop {
        let width = step(&text[at..], lower);
        if width == 0 {
            return at + letter(&text[at..]);
        }
        at += width;
    }
}

/// One, where a text begins with a letter.
fn letter(text: &[u8]) -> usize
    ensures one { result ≡ (if begins class.is_letter text.now then 1 else 0) }
    ensures within { result ≤ length text.now }
{
    match text {
        [b, ..] if is_letter(*b) => 1,
        _ => 0,
    }
}

/// How many bytes one step of the scan takes.
fn step(text: &[u8], lower: u8) -> usize
    requires { 32 ≤ lower }
    ensures taken { result ≡ step_of (mark_of lower) text.now }
    ensures within { result ≤ length text.now }
{
    match text {
        [b, b'+' | b'-', ..] if is_mark(*b, lower) => 2,
        [b, ..] if is_mark(*b, lower) || is_hex_digit(*b) || *b == b'.' => 1,
        _ => 0,
    }
}

fn is_mark(b: u8, lower: u8) -> bool
    requires { 32 ≤ lower }
    ensures { result ≡ mark_of lower b }
{
    b == lower || b == lower - 32
}
