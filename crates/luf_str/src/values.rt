//! The value of a string, and the first bad escape.

ghost use Rattle.std.specs.Prelude.{◌≡◌, ℕ, List, ◌++◌, ◌^◌, ◌<◌, length, take, vec_len, IfOk, OnOk, OnErr, IsErrOf};
ghost use Rattle.std.specs.List.{prefix_len};
ghost use Rattle.luf_str.specs.Escape.{utf8, continuation};
ghost use Rattle.luf_str.specs.inner.Reading.{is_ordinary};
ghost use Rattle.luf_str.specs.Meaning.{bytes_of};
ghost use Rattle.luf_str.specs.Pieces.{GrowsBy};
ghost use Rattle.luf_str.specs.Spelling.{IsShortSpelling, IsLongSpelling, IsLongOf, IsStringSpelling};
ghost use Rattle.luf_str.specs.Value.{IsShortValue, IsLongText, IsValue, FirstBad};

use crate::bytes::{head, leading_equals, leading_ordinary, tail};
use crate::escapes::Meaning;
use crate::fronts::{Front, front_of};
use luf_byte::line_end_length;
use luf_memory::Memory;
use memchr::memchr2;
use std::alloc::{AllocError, AllocFailed, Global};

/// Why a string has no value here.
#[derive(Clone, Copy, Debug, PartialEq, Eq)]
pub enum StrErr {
    /// The first bad escape: the place of its backslash in the spelling, counted from 0.
    Bad { at: u32 },
    /// No memory was found.
    Memory,
}

impl From<Memory> for StrErr {
    ghost use Rattle.luf_str.specs.declared.values.StrErr.TheVariants as errors;

    ghost from_gives = { λ _ e. e ≡ errors.Memory };

    fn from(_: Memory) -> StrErr {
        StrErr::Memory
    }
}

/// A byte of UTF-8 behind the first: six bits of the code, those from the unit on.
fn continuation(code: u32, unit: u32) -> u8
    requires { 0 < unit }
    ensures { result ≡ continuation code unit }
{
    128 + (code / unit % 64) as u8
}

/// Appends the UTF-8 of a code, one to six bytes.
fn push_utf8(into: &mut Vec<u8>, n: u32) -> Result<(), Memory>
    ensures ok { OnOk result (into.new.items ≡ into.old.items ++ utf8 n) }
    ensures err { OnErr result (into.new.items ≡ into.old.items) }
{
    let last = continuation(n, 1);
    if n < 0x80 {
        into.push(n as u8)?;
        return Ok(());
    }
    if n < 0x800 {
        into.extend_from_slice(&[0xC0 + (n / 64) as u8, last])?;
        return Ok(());
    }
    let third = continuation(n, 64);
    if n < 0x1_0000 {
        into.extend_from_slice(&[0xE0 + (n / (64 * 64)) as u8, third, last])?;
        return Ok(());
    }
    let fourth = continuation(n, 64 * 64);
    if n < 0x20_0000 {
        into.extend_from_slice(&[0xF0 + (n / (64 * 64 * 64)) as u8, fourth, third, last])?;
        return Ok(());
    }
    let fifth = continuation(n, 64 * 64 * 64);
    if n < 0x400_0000 {
        let first = 0xF8 + (n / (64 * 64 * 64 * 64)) as u8;
        into.extend_from_slice(&[first, fifth, fourth, third, last])?;
        return Ok(());
    }
    let sixth = continuation(n, 64 * 64 * 64 * 64);
    let first = 0xFC + (n / (64 * 64 * 64 * 64 * 64)) as u8;
    into.extend_from_slice(&[first, sixth, fifth, fourth, third, last])?;
    Ok(())
}

/// Appends what a part stands for.
fn push_meaning(into: &mut Vec<u8>, meaning: Meaning) -> Result<(), Memory>
    ensures ok { OnOk result (into.new.items ≡ into.old.items ++ bytes_of meaning) }
    ensures err { OnErr result (into.new.items ≡ into.old.items) }
{
    match meaning {
        Meaning::Byte(b) => into.push(b)?,
        Meaning::Code(code) => push_utf8(into, code)?,
        Meaning::Nothing => {}
    }
    Ok(())
}

/// Appends the ordinary bytes with which a text begins, which stand for themselves in a short string, and says how many
/// there are.
pub fn push_ordinary(text: &[u8], into: &mut Vec<u8>) -> Result<usize, Memory>
    ensures count { IfOk result (λ n. n ≡ prefix_len is_ordinary text.now) }
    ensures ok { IfOk result (λ n. into.new.items ≡ into.old.items ++ take n text.now) }
    ensures err { OnErr result (into.new.items ≡ into.old.items) }
{
    let count = leading_ordinary(text);
    into.extend_from_slice(head(text, count))?;
    Ok(count)
}

/// Appends the value of a short string, or a front of it before an error.
fn push_short(spelling: &[u8], into: &mut Vec<u8>) -> Result<(), StrErr>
    requires short { IsShortSpelling spelling.now }
    requires size { length spelling.now < 2 ^ 32 }
    ensures ok { OnOk result (GrowsBy (IsShortValue spelling.now) into.old.items into.new.items) }
    ensures bad { (at : ℕ) → IsErrOf result (StrErr.Bad at) → FirstBad spelling.now at }
    ensures err { OnErr result (take (vec_len into.old) into.new.items ≡ into.old.items) }
{
    let quote = spelling[0];
    let mut at = 1;
    'parts: loop {
        at += push_ordinary(tail(spelling, at), into)?;
        match front_of(tail(spelling, at), quote) {
            Front::Part { length, meaning } => {
                push_meaning(into, meaning)?;
                at += length;
            }
            Front::Quote => return Ok(()),
            Front::BadEscape => return Err(StrErr::Bad { at: at as u32 }),
            Front::LoneBackslash | Front::End => unreachable!(),
        }
    }
}

/// What stands between the brackets of a long string.
fn long_body(spelling: &[u8]) -> &[u8]
    requires { IsLongSpelling spelling.now }
    ensures { (n : ℕ) (body : List ℕ) → IsLongOf n body spelling.now → result.now ≡ body }
{
    let bracket = leading_equals(tail(spelling, 1)) + 2;
    let inner = tail(spelling, bracket);
    head(inner, inner.len() - bracket)
}

/// Appends the value of a long string's body, or a front of it before an error.
fn push_lines(body: &[u8], into: &mut Vec<u8>) -> Result<(), Memory>
    ensures ok { OnOk result (GrowsBy (IsLongText body.now) into.old.items into.new.items) }
    ensures err { OnErr result (take (vec_len into.old) into.new.items ≡ into.old.items) }
{
    let mut at = line_end_length(body);
    'lines: loop {
        let rest = tail(body, at);
        let Some(line) = memchr2(b'\n', b'\r', rest) else {
            into.extend_from_slice(rest)?;
            return Ok(());
        };
        into.extend_from_slice(head(rest, line))?;
        into.push(b'\n')?;
        at += line + line_end_length(tail(rest, line));
    }
}

/// Appends the value of a string, or a front of it before an error.
fn push_value(spelling: &[u8], into: &mut Vec<u8>) -> Result<(), StrErr>
    requires spelling { IsStringSpelling spelling.now }
    requires size { length spelling.now < 2 ^ 32 }
    ensures ok { OnOk result (GrowsBy (IsValue spelling.now) into.old.items into.new.items) }
    ensures bad { (at : ℕ) → IsErrOf result (StrErr.Bad at) → FirstBad spelling.now at }
    ensures err { OnErr result (take (vec_len into.old) into.new.items ≡ into.old.items) }
{
    if spelling[0] == b'[' {
        push_lines(long_body(spelling), into)?;
        Ok(())
    } else {
        push_short(spelling, into)
    }
}

/// Appends the value of a string. `into` grows by its own allocator.
///
/// A long string has no escapes, and is never `Bad`. After an error `into` is as it was.
pub fn value_of(_alloc: Global, spelling: &[u8], into: &mut Vec<u8>) -> Result<(), StrErr>
    requires spelling { IsStringSpelling spelling.now }
    requires size { length spelling.now < 2 ^ 32 }
    ensures ok { OnOk result (GrowsBy (IsValue spelling.now) into.old.items into.new.items) }
    ensures bad { (at : ℕ) → IsErrOf result (StrErr.Bad at) → FirstBad spelling.now at }
    ensures err { OnErr result (into.new.items ≡ into.old.items) }
{
    let before = into.len();
    let result = push_value(spelling, into);
    if result.is_err() {
        into.truncate(before);
    }
    result
}
