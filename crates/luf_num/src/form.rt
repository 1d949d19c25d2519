//! Whether a spelling has the form of a numeral in a base.
ghost use Rattle.std.specs.Prelude.{◌≡◌, ◌↔◌, ◌⊎◌, ◌<◌, ◌≤◌, [], ◌∷◌, ◌++◌, length, take, drop, IsTrue, IfSome, IfNone};
ghost use Rattle.std.specs.List.{list_all, prefix_len};
ghost use Rattle.luf_num.specs.inner.Base.{is_digit_in, is_mark_in, radix_of, places_of, digits_limit_of};
ghost use Rattle.luf_byte.specs.Class.{is_digit};
ghost use Rattle.luf_num.specs.Numeral.{IsDigits, IsExponent, IsHexPrefix, HasFloatForm, is_sign};
ghost use Rattle.luf_num.specs.inner.FloatParts.{HasParts};
ghost use Rattle.luf_num.specs.inner.Parts.{SplitsWhile, SplitsFirst, is_point};

use luf_byte::{is_digit, is_hex_digit};

/// The base of a numeral's digits. It also says which letter marks the exponent.
#[derive(Clone, Copy)]
pub enum Base {
    Decimal,
    Hexadecimal,
}

impl Base {
    /// Whether the byte is a digit of the base.
    pub fn is_digit(self, byte: u8) -> bool
        ensures { result ≡ is_digit_in self byte }
    {
        match self {
            Base::Decimal => is_digit(byte),
            Base::Hexadecimal => is_hex_digit(byte),
        }
    }

    /// How many digits the base has.
    pub fn radix(self) -> u128
        ensures { result ≡ radix_of self }
    {
        match self {
            Base::Decimal => 10,
            Base::Hexadecimal => 16,
        }
    }

    /// How many places a digit behind the point is worth, as an exponent counts them.
    pub fn places(self) -> u128
        ensures { result ≡ places_of self }
    {
        match self {
            Base::Decimal => 1,
            Base::Hexadecimal => 4,
        }
    }

    /// The digits of a float in reach are below this.
    pub fn digits_limit(self) -> u128
        ensures { result ≡ digits_limit_of self }
    {
        match self {
            Base::Decimal => 1 << 64,
            Base::Hexadecimal => 1 << 53,
        }
    }

    /// Whether the byte marks an exponent: `e` in decimal numerals, `p` in hexadecimal ones, in either case.
    pub fn is_mark(self, byte: u8) -> bool
        ensures { result ≡ is_mark_in self byte }
    {
        match self {
            Base::Decimal => byte == b'e' || byte == b'E',
            Base::Hexadecimal => byte == b'p' || byte == b'P',
        }
    }
}

/// Whether the spelling begins with `0x` or `0X`.
pub fn has_hex_prefix(spelling: &[u8]) -> bool
    ensures { IsTrue result ↔ IsHexPrefix (take 2 spelling.now) }
{
    spelling.starts_with(b"0x") || spelling.starts_with(b"0X")
}

/// Whether each of the bytes is a digit of the base.
fn are_digits(base: Base, bytes: &[u8]) -> bool
    ensures { result ≡ list_all (is_digit_in base) bytes.now }
{
    bytes.iter().all(|byte| base.is_digit(*byte))
}

/// Whether the bytes are digits of the base, at least one.
pub fn is_digits(base: Base, bytes: &[u8]) -> bool
    ensures { IsTrue result ↔ IsDigits (is_digit_in base) bytes.now }
{
    !bytes.is_empty() && are_digits(base, bytes)
}

/// How many digits of the base the bytes begin with.
fn digits_len(base: Base, bytes: &[u8]) -> usize
    ensures within { result ≤ length bytes.now }
    ensures len { result ≡ prefix_len (is_digit_in base) bytes.now }
{
    bytes
        .iter()
        .take_while(|byte| base.is_digit(**byte))
        .count()
}

/// The digits that the bytes begin with, and the bytes after them.
fn split_digits(base: Base, bytes: &[u8]) -> (&[u8], &[u8])
    ensures { SplitsWhile (is_digit_in base) bytes.now result.0.now result.1.now }
{
    let len = digits_len(base, bytes);
    bytes.split_at(len)
}

/// The point that the bytes begin with, if one stands there, and the bytes after it.
fn split_point(bytes: &[u8]) -> (&[u8], &[u8])
    ensures { SplitsFirst is_point bytes.now result.0.now result.1.now }
{
    match bytes.first() {
        Some(b'.') => bytes.split_at(1),
        _ => bytes.split_at(0),
    }
}

/// The sign that the bytes begin with, if one stands there, and the bytes after it.
pub fn split_sign(bytes: &[u8]) -> (&[u8], &[u8])
    ensures { SplitsFirst is_sign bytes.now result.0.now result.1.now }
{
    match bytes.first() {
        Some(b'+' | b'-') => bytes.split_at(1),
        _ => bytes.split_at(0),
    }
}

/// Whether the bytes are an exponent: a mark of the base, an optional sign, and decimal digits.
fn is_exponent(base: Base, bytes: &[u8]) -> bool
    ensures { IsTrue result ↔ IsExponent (is_mark_in base) bytes.now }
{
    match bytes.split_first() {
        Some((letter, scale)) => {
            let (_, digits) = split_sign(scale);
            base.is_mark(*letter) && is_digits(Base::Decimal, digits)
        }
        None => false,
    }
}

/// Whether the bytes are an exponent, or none are there.
fn is_optional_exponent(base: Base, bytes: &[u8]) -> bool
    ensures { IsTrue result ↔ ((bytes.now ≡ []) ⊎ IsExponent (is_mark_in base) bytes.now) }
{
    bytes.is_empty() || is_exponent(base, bytes)
}

/// Whether one of the two has a byte.
fn has_byte(a: &[u8], b: &[u8]) -> bool
    ensures { IsTrue result ↔ (0 < length (a.now ++ b.now)) }
{
    !a.is_empty() || !b.is_empty()
}

/// A numeral with a point or an exponent: the digits before and behind its point, and its exponent.
#[derive(Clone, Copy)]
pub struct Parts<'a> {
    pub whole: &'a [u8],
    pub fraction: &'a [u8],
    pub exponent: &'a [u8],
}

/// The parts of a numeral of the base with a point or an exponent, and `None` exactly where the bytes are none.
pub fn float_parts(base: Base, bytes: &[u8]) -> Option<Parts<'_>>
    ensures some { IfSome result (λ p. HasParts (is_digit_in base) (is_mark_in base) bytes.now p.whole.now p.fraction.now p.exponent.now) }
    ensures none { IfNone result (HasFloatForm (is_digit_in base) (is_mark_in base) bytes.now → ⊥) }
{
    let (whole, after_whole) = split_digits(base, bytes);
    let (point, after_point) = split_point(after_whole);
    let (fraction, exponent) = split_digits(base, after_point);
    if has_byte(whole, fraction)
        && has_byte(point, exponent)
        && is_optional_exponent(base, exponent)
    {
        Some(Parts {
            whole,
            fraction,
            exponent,
        })
    } else {
        None
    }
}

/// Whether the bytes are a numeral of the base with a point or an exponent.
pub fn has_float_form(base: Base, bytes: &[u8]) -> bool
    ensures { IsTrue result ↔ HasFloatForm (is_digit_in base) (is_mark_in base) bytes.now }
{
    float_parts(base, bytes).is_some()
}
