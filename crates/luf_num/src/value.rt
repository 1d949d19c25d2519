//! The integer that digits write.
ghost use Rattle.std.specs.Prelude.{◌≡◌, ◌+◌, ◌*◌, ◌%◌, ◌^◌, ◌<◌, ◌≤◌, ℕ, pos, IsTrue, MatchOption, length};
ghost use Rattle.std.specs.List.{list_all};
ghost use Rattle.std.specs.Str.Parse.{digits_value};
ghost use Rattle.luf_byte.specs.Class.{is_digit, is_hex_digit};

use luf_byte::digit_value;

/// The greatest integer of 64 bits.
const LARGEST: u64 = (1 << 63) - 1;

/// The number that decimal digits write, and `None` from 2^63 on.
pub fn decimal_value(digits: &[u8]) -> Option<i64>
    requires { IsTrue (list_all is_digit digits.now) }
    ensures { MatchOption result (2 ^ 63 ≤ digits_value 10 digits.now) (λ n. (n ≡ pos (digits_value 10 digits.now)) × (digits_value 10 digits.now < 2 ^ 63)) }
{
    let mut value = 0u64;
    for digit in digits {
        let digit = u64::from(*digit - b'0');
        if value > (LARGEST - digit) / 10 {
            return None;
        }
        value = value * 10 + digit;
    }
    Some(value as i64)
}

/// The number that hexadecimal digits write, modulo 2^64.
#[tactic(auto, using(std::proofs::lemmas::Int::Digits::digits_value_more))]
pub fn hex_value(digits: &[u8]) -> u64
    requires { IsTrue (list_all is_hex_digit digits.now) }
    ensures { result ≡ digits_value 16 digits.now % 2 ^ 64 }
{
    let mut value = 0u64;
    for digit in digits {
        value = value
            .wrapping_mul(16)
            .wrapping_add(u64::from(digit_value(*digit)));
    }
    value
}
