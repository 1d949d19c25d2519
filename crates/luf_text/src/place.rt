ghost use Rattle.std.specs.Prelude.{◌≡◌, ℕ, ◌+◌, ◌-◌, ◌^◌, ◌<◌, ◌≤◌, [], ◌∷◌, length, drop, slice_index, IfSome, IsTrue, MatchOption};
ghost use Rattle.luf_byte.specs.Class.{is_line_byte};
ghost use Rattle.luf_text.specs.Place.{begun_by, line_starts_from, place_in};

use luf_byte::is_line_pair;
use memchr::memchr2;

/// A place in a text. Lines and columns are counted from 1, and columns are counted in bytes.
#[derive(Clone, Copy, Debug, PartialEq, Eq)]
pub struct Place {
    pub line: u32,
    pub column: u32,
}

/// The place of byte `at`, where `at` may also be the end of the text.
///
/// CR, LF, CR LF and LF CR are each one line end, the longest taken. A byte between the two of a pair is on
/// the line that they end. The time is linear in `at`: of the bytes from `at` on only the first is read.
pub fn place_of(src: &[u8], at: u32) -> Place
    requires within { at ≤ length src.now }
    requires room { length src.now < 2 ^ 32 - 1 }
    ensures { result ≡ place_in src.now at }
{
    let mut line = 1;
    let mut start = 0;
    while let Some(next) = next_start(src, start, at) {
        line += 1;
        start = next;
    }
    Place {
        line,
        column: at - start + 1,
    }
}

/// The place after the first line end from `from` on, where that is `at` at most.
fn next_start(src: &[u8], from: u32, at: u32) -> Option<u32>
    requires order { from ≤ at }
    requires within { at ≤ length src.now }
    requires room { length src.now < 2 ^ 32 - 1 }
    ensures none { MatchOption result (begun_by at (line_starts_from from (drop from src.now)) ≡ []) (λ next. (from < next) × (next ≤ at)) }
    ensures some { IfSome result (λ next. line_starts_from from (drop from src.now) ≡ next ∷ line_starts_from next (drop next src.now)) }
{
    let found = memchr2(b'\n', b'\r', &src[from as usize..at as usize])?;
    let next = line_end(src, from as usize + found) as u32;
    if next <= at { Some(next) } else { None }
}

/// The place after the line end that begins at `first`.
fn line_end(src: &[u8], first: usize) -> usize
    requires within { first < length src.now }
    requires at_line_byte { IsTrue (is_line_byte (slice_index src.now first)) }
    requires room { length src.now < 2 ^ 32 - 1 }
    ensures order { (first < result) × (result ≤ length src.now) }
    ensures next { line_starts_from first (drop first src.now) ≡ result ∷ line_starts_from result (drop result src.now) }
{
    if first + 1 < src.len() && is_line_pair(src[first], src[first + 1]) {
        first + 2
    } else {
        first + 1
    }
}
