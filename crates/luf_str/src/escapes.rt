//! One escape, read behind its backslash.

ghost use Rattle.std.specs.Prelude.{◌≡◌, ◌^◌, ◌<◌, SomeIff, IsTrue, slice_index};
ghost use Rattle.std.specs.List.{AllPass};
ghost use Rattle.std.specs.Str.Parse.{digits_value};
ghost use Rattle.luf_byte.specs.Class.{is_digit, is_hex_digit};
ghost use Rattle.luf_str.specs.Escape.{letter_value};
ghost use Rattle.luf_str.specs.inner.Reading.{hexadecimal_at, decimal_at, code_at, letter_at, escape_at};

use crate::bytes::{byte_at, leading_hex_digits, leading_whitespace, tail};
use luf_byte::{digit_value, is_digit, is_hex_digit, is_line_byte, line_end_length};

/// What a part of a short string stands for.
#[derive(Clone, Copy, Debug, PartialEq, Eq)]
pub enum Meaning {
    /// One byte.
    Byte(u8),
    /// The UTF-8 of a code below 2^31, one to six bytes.
    Code(u32),
    /// No byte, as `\z` and what it skips.
    Nothing,
}

/// What an escape of one letter or sign stands for.
fn letter_value(c: u8) -> Option<u8>
    ensures { result ≡ letter_value c }
{
    match c {
        b'a' => Some(7),
        b'b' => Some(8),
        b'f' => Some(12),
        b'n' => Some(10),
        b'r' => Some(13),
        b't' => Some(9),
        b'v' => Some(11),
        b'\\' | b'"' | b'\'' => Some(c),
        _ => None,
    }
}

/// The number that hexadecimal digits write, if it is below 2^31.
#[tactic(auto, using(crate::proofs::Numbers::hex_number_steps))]
fn hex_number(digits: &[u8]) -> Option<u32>
    requires { AllPass is_hex_digit digits.now }
    ensures { SomeIff result (digits_value 16 digits.now < 2 ^ 31) (digits_value 16 digits.now) }
{
    let mut number = 0;
    for digit in digits {
        // One more digit would take it to 2^31.
        if number >= 1 << 27 {
            return None;
        }
        number = 16 * number + u32::from(digit_value(*digit));
    }
    Some(number)
}

/// `x` and two hexadecimal digits.
#[tactic(auto, unfolding(crate::specs::inner::Reading::hexadecimal_at))]
fn hexadecimal_at(text: &[u8]) -> Option<(usize, Meaning)>
    ensures { result ≡ hexadecimal_at text.now }
{
    let high = byte_at(text, 1);
    let low = byte_at(text, 2);
    if is_hex_digit(high) && is_hex_digit(low) {
        let byte = 16 * digit_value(high) + digit_value(low);
        Some((3, Meaning::Byte(byte)))
    } else {
        None
    }
}

/// One to three decimal digits, as many as there are, at most 255.
#[tactic(auto, unfolding(crate::specs::inner::Reading::decimal_at))]
fn decimal_at(text: &[u8]) -> Option<(usize, Meaning)>
    requires { IsTrue (is_digit (slice_index text.now 0)) }
    ensures { result ≡ decimal_at text.now }
{
    let first = byte_at(text, 0);
    let second = byte_at(text, 1);
    let third = byte_at(text, 2);
    if !is_digit(second) {
        return Some((1, Meaning::Byte(digit_value(first))));
    }
    let two = 10 * digit_value(first) + digit_value(second);
    if !is_digit(third) {
        return Some((2, Meaning::Byte(two)));
    }
    let three = 10 * u16::from(two) + u16::from(digit_value(third));
    if three <= 255 {
        Some((3, Meaning::Byte(three as u8)))
    } else {
        None
    }
}

/// `u{`, one or more hexadecimal digits of a number below 2^31, and `}`.
#[tactic(auto, unfolding(crate::specs::inner::Reading::code_at))]
fn code_at(text: &[u8]) -> Option<(usize, Meaning)>
    ensures { result ≡ code_at text.now }
{
    if byte_at(text, 1) != b'{' {
        return None;
    }
    let behind = tail(text, 2);
    let count = leading_hex_digits(behind);
    let number = hex_number(&behind[..count])?;
    if count > 0 && byte_at(behind, count) == b'}' {
        Some((3 + count, Meaning::Code(number)))
    } else {
        None
    }
}

#[tactic(auto, unfolding(crate::specs::inner::Reading::letter_at))]
fn letter_at(text: &[u8]) -> Option<(usize, Meaning)>
    ensures { result ≡ letter_at text.now }
{
    let byte = letter_value(byte_at(text, 0))?;
    Some((1, Meaning::Byte(byte)))
}

/// The escape behind whose backslash the text stands: its length without the backslash, and what it stands for.
pub fn escape_at(text: &[u8]) -> Option<(usize, Meaning)>
    ensures { result ≡ escape_at text.now }
{
    let first = byte_at(text, 0);
    match first {
        b'x' => hexadecimal_at(text),
        b'z' => Some((1 + leading_whitespace(tail(text, 1)), Meaning::Nothing)),
        b'u' => code_at(text),
        _ if is_digit(first) => decimal_at(text),
        _ if is_line_byte(first) => Some((line_end_length(text), Meaning::Byte(b'\n'))),
        _ => letter_at(text),
    }
}
