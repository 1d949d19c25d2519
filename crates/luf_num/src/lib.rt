//! Numerals of Lua 5.4: whether a spelling has numeral form, and the number that it stands for.
#![tactic(auto)]

ghost use Rattle.std.specs.Prelude.{◌≡◌, ℕ, List, IfSome, IfNone, IsSome, ◌↔◌};
ghost use Rattle.luf_num.specs.Numeral.{HasNumeralForm, IsDecimal, IsHexRest, IsNumber};

mod float;
mod form;
mod value;
mod word;

pub use float::{float_word, one_float_word};
use form::{Base, has_hex_prefix};

/// What a numeral stands for: an integer of 64 bits, or a float, whose value is not looked at here.
#[derive(Clone, Copy, Debug, PartialEq, Eq)]
pub enum Number {
    Int(i64),
    Float,
}

/// The number that a spelling stands for, and `None` exactly where it has no numeral form
/// (Lua 5.4 manual, 3.1).
///
/// A decimal integer of 2^63 or more is a float. A hexadecimal integer wraps modulo 2^64.
pub fn number_of(spelling: &[u8]) -> Option<Number>
    ensures form { IsSome result ↔ HasNumeralForm spelling.now }
    ensures some { IfSome result (λ n. IsNumber spelling.now n) }
    ensures none { IfNone result ((n : Number) → IsNumber spelling.now n → ⊥) }
{
    if has_hex_prefix(spelling) {
        hexadecimal(&spelling[2..])
    } else {
        decimal(spelling)
    }
}

/// The number of a decimal numeral.
fn decimal(spelling: &[u8]) -> Option<Number>
    ensures some { IfSome result (λ n. IsDecimal spelling.now n) }
    ensures none { IfNone result ((n : Number) → IsDecimal spelling.now n → ⊥) }
{
    if form::is_digits(Base::Decimal, spelling) {
        return match value::decimal_value(spelling) {
            Some(n) => Some(Number::Int(n)),
            None => Some(Number::Float),
        };
    }
    if form::has_float_form(Base::Decimal, spelling) {
        Some(Number::Float)
    } else {
        None
    }
}

/// The number of a hexadecimal numeral, of which `rest` is what follows the prefix.
fn hexadecimal(rest: &[u8]) -> Option<Number>
    ensures some { IfSome result (λ n. IsHexRest rest.now n) }
    ensures none { IfNone result ((n : Number) → IsHexRest rest.now n → ⊥) }
{
    if form::is_digits(Base::Hexadecimal, rest) {
        Some(Number::Int(value::hex_value(rest).cast_signed()))
    } else if form::has_float_form(Base::Hexadecimal, rest) {
        Some(Number::Float)
    } else {
        None
    }
}

/// A spelling stands for one number at most.
pub fn one_number()
    ensures { (s : List ℕ) (m n : Number) → IsNumber s m → IsNumber s n → m ≡ n }
{}
