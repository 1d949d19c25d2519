//! A text's bytes and parts, and the runs of bytes with which it begins. A text's end is read as byte 0, which is of no
//! class.

ghost use Rattle.std.specs.Prelude.{◌≡◌, ◌==◌, ◌≤◌, length, take, drop, slice_index};
ghost use Rattle.std.specs.List.{prefix_len, AllPass};
ghost use Rattle.std.specs.Str.{byte};
ghost use Rattle.luf_byte.specs.Class.{is_hex_digit, is_whitespace};
ghost use Rattle.luf_str.specs.inner.Reading.{is_ordinary};

use luf_byte::{is_hex_digit, is_line_byte, is_whitespace};

/// The byte at the index, and 0 past the end.
pub fn byte_at(text: &[u8], index: usize) -> u8
    ensures { result ≡ slice_index text.now index }
{
    text.get(index).copied().unwrap_or(0)
}

/// The text from the index on.
pub fn tail(text: &[u8], index: usize) -> &[u8]
    requires { index ≤ length text.now }
    ensures { result.now ≡ drop index text.now }
{
    &text[index..]
}

/// The text up to the index.
pub fn head(text: &[u8], index: usize) -> &[u8]
    requires { index ≤ length text.now }
    ensures { result.now ≡ take index text.now }
{
    &text[..index]
}

/// Whether the byte stands for itself in a short string in either quotes.
fn is_ordinary(b: u8) -> bool
    ensures { result ≡ is_ordinary b }
{
    b != b'"' && b != b'\'' && b != b'\\' && !is_line_byte(b)
}

/// How many bytes stand at the front that stand for themselves in a short string in either quotes.
pub fn leading_ordinary(text: &[u8]) -> usize
    ensures count { result ≡ prefix_len is_ordinary text.now }
    ensures bound { result ≤ length text.now }
{
    text.iter().take_while(|b| is_ordinary(**b)).count()
}

/// How much white space stands at the front.
pub fn leading_whitespace(text: &[u8]) -> usize
    ensures count { result ≡ prefix_len is_whitespace text.now }
    ensures bound { result ≤ length text.now }
{
    text.iter().take_while(|b| is_whitespace(**b)).count()
}

/// How many hexadecimal digits stand at the front.
pub fn leading_hex_digits(text: &[u8]) -> usize
    ensures count { result ≡ prefix_len is_hex_digit text.now }
    ensures bound { result ≤ length text.now }
    ensures all { AllPass is_hex_digit (take result text.now) }
{
    text.iter().take_while(|b| is_hex_digit(**b)).count()
}

/// How many `=` stand at the front.
pub fn leading_equals(text: &[u8]) -> usize
    ensures count { result ≡ prefix_len (λ b. b == byte "=") text.now }
    ensures bound { result ≤ length text.now }
{
    text.iter().take_while(|b| **b == b'=').count()
}
