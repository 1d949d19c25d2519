//! The word of a float from its digits, by whole numbers of 128 bits.
ghost use Rattle.std.specs.Prelude.{◌≡◌, ℕ, ◌+◌, ◌-◌, ◌*◌, ◌^◌, ◌<◌, ◌≤◌, IsTrue, not};
ghost use Rattle.luf_num.specs.inner.Rounded.{IsAbout, IsMantissa, IsRounded};
ghost use Rattle.luf_num.specs.Word.{IsNearest, scaled_one};

use std::cmp::Ordering;

/// The scale of 1: a word's least exponent stands for 2^-1075 times its 53 bits.
pub const SCALE_OF_ONE: u32 = 1075;

/// How many bits of a word are its fraction. One bit more, which is not written, is always 1.
const FRACTION_BITS: u32 = 52;

/// The number nearest to `significand / (2 * half)`, ties to the even one. With `left_over` the number that is rounded is a little more.
fn rounded(significand: u128, half: u128, left_over: bool) -> u64
    requires some { 0 < half }
    requires small { half ≤ 2 ^ 74 }
    requires low { 2 ^ 53 * half ≤ significand }
    requires high { significand < 2 ^ 54 * half }
    ensures nearest { IsRounded significand half left_over result }
    ensures low { 2 ^ 52 ≤ result }
    ensures high { result ≤ 2 ^ 53 }
{
    let whole = (significand / (2 * half)) as u64;
    match (significand % (2 * half)).cmp(&half) {
        Ordering::Less => whole,
        Ordering::Equal if left_over => whole + 1,
        Ordering::Equal => whole + whole % 2,
        Ordering::Greater => whole + 1,
    }
}

/// The first 53 bits of the number, of which the highest is bit `top`, rounded where there are more.
fn mantissa(significand: u128, top: u32, left_over: bool) -> u64
    requires low { 2 ^ top ≤ significand }
    requires high { significand < 2 * 2 ^ top }
    requires bound { top < 128 }
    requires exact { IsTrue left_over → 53 ≤ top }
    ensures { IsMantissa significand top left_over result }
{
    if top <= FRACTION_BITS {
        (significand as u64) << (FRACTION_BITS - top)
    } else {
        rounded(significand, 1 << (top - FRACTION_BITS - 1), left_over)
    }
}

/// The word nearest to `significand * 2 ^ (scale - 1075)`, or with `left_over` to a little more.
pub fn nearest(significand: u128, scale: u32, left_over: bool) -> u64
    requires some { 0 < significand }
    requires low { 54 ≤ scale }
    requires high { scale < 1980 }
    requires enough { IsTrue left_over → 2 ^ 53 ≤ significand }
    requires short { 1076 ≤ scale → significand < 2 ^ 53 }
    ensures { (n d : ℕ) → 0 < d → IsAbout (n * scaled_one) d significand (2 ^ scale) left_over → IsNearest n d result }
{
    let top = significand.ilog2();
    let exponent = u64::from(scale + top - FRACTION_BITS);
    ((exponent - 1) << FRACTION_BITS) + mantissa(significand, top, left_over)
}
