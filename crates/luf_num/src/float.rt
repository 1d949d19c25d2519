//! The value of a float numeral, and its word where it is in reach.
ghost use Rattle.std.specs.Prelude.{◌≡◌, ℕ, ◌+◌, ◌*◌, ◌^◌, ◌<◌, ◌≤◌, ◌⊎◌, [], ◌++◌, List, IfSome, IfNone, MatchOption, IsTrue};
ghost use Rattle.std.specs.List.{list_all};
ghost use Rattle.luf_num.specs.inner.Base.{is_digit_in, is_mark_in, radix_of};
ghost use Rattle.luf_byte.specs.Class.{is_digit, is_hex_digit};
ghost use Rattle.std.specs.Str.Parse.{digits_value, digits_value_after};
ghost use Rattle.luf_num.specs.Float.{Scaled, IsFloat, IsDecimalScaled, IsScaled, IsScaledInteger, IsInReach, raised, lowered};
ghost use Rattle.luf_num.specs.Numeral.{IsDigits, IsExponent, is_binary_mark};
ghost use Rattle.luf_num.specs.inner.FloatParts.{value_of_parts};
ghost use Rattle.luf_num.specs.Word.{IsFloatWord, IsNearest, IsWord};

use crate::form::{Base, Parts, float_parts, has_hex_prefix, is_digits, split_sign};
use crate::word::{SCALE_OF_ONE, nearest};
use luf_byte::digit_value;

/// From this on no power of a numeral that fits in memory is in reach.
const MOST_POWER: u128 = 1 << 80;

/// The number that digits write behind a number so far, and `None` from the limit on.
fn digits_below(base: Base, so_far: u128, digits: &[u8], limit: u128) -> Option<u128>
    requires digits { IsTrue (list_all (is_digit_in base) digits.now) }
    requires start { so_far < limit }
    requires limit { limit ≤ 2 ^ 100 }
    ensures { MatchOption result (limit ≤ digits_value_after (radix_of base) so_far digits.now)
        (λ n. (n ≡ digits_value_after (radix_of base) so_far digits.now) × (n < limit)) }
{
    let mut value = so_far;
    for digit in digits {
        value = value * base.radix() + u128::from(digit_value(*digit));
        if value >= limit {
            return None;
        }
    }
    Some(value)
}

/// All the digits of a float as one number, and `None` from the limit on.
fn all_digits(base: Base, parts: Parts<'_>, limit: u128) -> Option<u128>
    requires whole { IsTrue (list_all (is_digit_in base) parts.whole.now) }
    requires fraction { IsTrue (list_all (is_digit_in base) parts.fraction.now) }
    requires limit { limit ≤ 2 ^ 100 }
    requires some { 0 < limit }
    ensures { MatchOption result (limit ≤ digits_value (radix_of base) (parts.entry.whole.now ++ parts.entry.fraction.now))
        (λ n. (n ≡ digits_value (radix_of base) (parts.entry.whole.now ++ parts.entry.fraction.now)) × (n < limit)) }
{
    let whole = digits_below(base, 0, parts.whole, limit)?;
    digits_below(base, whole, parts.fraction, limit)
}

/// A power as two numbers, by one of which it scales up and by the other down.
#[derive(Clone, Copy)]
struct Power {
    up: u128,
    down: u128,
}

/// The power of an exponent, or of none, and `None` where it is too large.
fn exponent_power(base: Base, exponent: &[u8]) -> Option<Power>
    requires { (exponent.now ≡ []) ⊎ IsExponent (is_mark_in base) exponent.now }
    ensures { MatchOption result (2 ^ 80 ≤ raised exponent.now + lowered exponent.now)
        (λ p. (p.up ≡ raised exponent.now) × (p.down ≡ lowered exponent.now) × (p.up + p.down < 2 ^ 80)) }
{
    let Some((_, scale)) = exponent.split_first() else {
        return Some(Power { up: 0, down: 0 });
    };
    let (sign, digits) = split_sign(scale);
    let value = digits_below(Base::Decimal, 0, digits, MOST_POWER)?;
    match sign.first() {
        Some(b'-') => Some(Power { up: 0, down: value }),
        _ => Some(Power { up: value, down: 0 }),
    }
}

/// The word of `digits * 10 ^ up / 10 ^ down`, and `None` where that is not in reach.
fn decimal_nearest(digits: u128, up: u128, down: u128) -> Option<u64>
    requires some { 0 < digits }
    requires small { digits < 2 ^ 64 }
    requires up_fits { up < 2 ^ 81 }
    requires down_fits { down < 2 ^ 81 }
    ensures { MatchOption result ((up ≤ down + 19) × (down ≤ up + 19) → ⊥)
        (λ w. (up ≤ down + 19) × (down ≤ up + 19) × IsNearest (digits * 10 ^ up) (10 ^ down) w) }
{
    if up > down + 19 || down > up + 19 {
        return None;
    }
    if up >= down {
        return Some(nearest(digits * 10u128.pow((up - down) as u32), SCALE_OF_ONE, false));
    }
    // As many bits are put behind the digits as 128 bits have room for: the quotient has more than 53.
    let spare = 117 - digits.ilog2();
    let power = 10u128.pow((down - up) as u32);
    let shifted = digits << spare;
    Some(nearest(shifted / power, SCALE_OF_ONE - spare, shifted % power > 0))
}

/// The word of `digits * 2 ^ up / 2 ^ down`, and `None` where that is not in reach.
fn binary_nearest(digits: u128, up: u128, down: u128) -> Option<u64>
    requires some { 0 < digits }
    requires small { digits < 2 ^ 53 }
    requires up_fits { up < 2 ^ 81 }
    requires down_fits { down < 2 ^ 81 }
    ensures { MatchOption result ((up ≤ down + 900) × (down ≤ up + 900) → ⊥)
        (λ w. (up ≤ down + 900) × (down ≤ up + 900) × IsNearest (digits * 2 ^ up) (2 ^ down) w) }
{
    if up > down + 900 || down > up + 900 {
        return None;
    }
    Some(nearest(digits, (up + u128::from(SCALE_OF_ONE) - down) as u32, false))
}

/// The word of a float of the base with these parts, and `None` where it is not in reach.
fn word_of_parts(base: Base, parts: Parts<'_>) -> Option<u64>
    requires whole { IsTrue (list_all (is_digit_in base) parts.whole.now) }
    requires fraction { IsTrue (list_all (is_digit_in base) parts.fraction.now) }
    requires exponent { (parts.exponent.now ≡ []) ⊎ IsExponent (is_mark_in base) parts.exponent.now }
    ensures { let value = value_of_parts base parts.entry.whole.now parts.entry.fraction.now parts.entry.exponent.now in
        MatchOption result (IsInReach value → ⊥) (λ w. IsInReach value × IsWord value w) }
{
    let digits = all_digits(base, parts, base.digits_limit())?;
    if digits == 0 {
        return Some(0);
    }
    let power = exponent_power(base, parts.exponent)?;
    let down = power.down + base.places() * parts.fraction.len() as u128;
    match base {
        Base::Decimal => decimal_nearest(digits, power.up, down),
        Base::Hexadecimal => binary_nearest(digits, power.up, down),
    }
}

/// The word of a decimal integer that is a float, and `None` where it is not in reach or is an integer of 64 bits.
fn word_of_integer(digits: &[u8]) -> Option<u64>
    requires { IsDigits is_digit digits.now }
    ensures some { IfSome result (λ w. IsFloatWord digits.now w) }
    ensures none { IfNone result ((v : Scaled) → IsScaledInteger digits.now v → IsInReach v → ⊥) }
{
    let value = digits_below(Base::Decimal, 0, digits, Base::Decimal.digits_limit())?;
    if value < 1 << 63 {
        None
    } else {
        decimal_nearest(value, 0, 0)
    }
}

/// The word of a decimal float in reach.
fn decimal_word(spelling: &[u8]) -> Option<u64>
    ensures some { IfSome result (λ w. IsFloatWord spelling.now w) }
    ensures none { IfNone result ((v : Scaled) → IsDecimalScaled spelling.now v → IsInReach v → ⊥) }
{
    if is_digits(Base::Decimal, spelling) {
        word_of_integer(spelling)
    } else {
        word_of_parts(Base::Decimal, float_parts(Base::Decimal, spelling)?)
    }
}

/// The word of a hexadecimal float in reach, of which `rest` is what follows the prefix.
fn hexadecimal_word(rest: &[u8]) -> Option<u64>
    ensures some { IfSome result (λ w. (v : Scaled) × IsScaled is_hex_digit is_binary_mark 16 2 4 rest.now v × IsInReach v × IsWord v w) }
    ensures none { IfNone result ((v : Scaled) → IsScaled is_hex_digit is_binary_mark 16 2 4 rest.now v → IsInReach v → ⊥) }
{
    word_of_parts(Base::Hexadecimal, float_parts(Base::Hexadecimal, rest)?)
}

/// The word of a float: the 64 bits of the IEEE 754 number nearest to it, ties to the even word. `None` exactly where the spelling is
/// no float numeral (Lua 5.4 manual, 3.1) or one that is not in reach.
///
/// In reach are 0, `m * 10 ^ e` with `m` below 2^64 and `e` from -19 to 19, and for a hexadecimal float `m * 2 ^ e` with `m` below 2^53
/// and `e` from -900 to 900, where `m` is all the digits without the point.
pub fn float_word(spelling: &[u8]) -> Option<u64>
    ensures some { IfSome result (λ w. IsFloatWord spelling.now w) }
    ensures none { IfNone result ((v : Scaled) → IsFloat spelling.now v → IsInReach v → ⊥) }
{
    if has_hex_prefix(spelling) {
        hexadecimal_word(&spelling[2..])
    } else {
        decimal_word(spelling)
    }
}

/// A spelling has one word at most.
pub fn one_float_word()
    ensures { (s : List ℕ) (v w : ℕ) → IsFloatWord s v → IsFloatWord s w → v ≡ w }
{}
