//! The quotes in a string, and its spelling in other quotes.

ghost use Rattle.std.specs.Prelude.{◌≡◌, ◌++◌, ◌^◌, ◌<◌, ◌==◌, length, take, count_by, vec_len, OnOk, OnErr};
ghost use Rattle.std.specs.Str.{byte};
ghost use Rattle.luf_str.specs.inner.Reading.{unit_length};
ghost use Rattle.luf_str.specs.Pieces.{GrowsBy};
ghost use Rattle.luf_str.specs.Spelling.{IsShortSpelling, IsLongSpelling, IsStringSpelling};
ghost use Rattle.luf_str.specs.Requote.{quote_byte, other_quote, inside, requoted_unit, IsShortRequoted, IsRequoted, IsSameString};

use crate::bytes::{byte_at, head, leading_whitespace, tail};
use crate::values::push_ordinary;
use luf_byte::{is_line_byte, line_end_length};
use luf_memory::Memory;
use std::alloc::Global;

/// The two quotes of short strings.
#[derive(Clone, Copy, Debug, PartialEq, Eq)]
pub enum Quote {
    /// `'`
    Single,
    /// `"`
    Double,
}

/// How many quotes of each kind a string has inside.
#[derive(Clone, Copy, Debug, PartialEq, Eq)]
pub struct Counts {
    pub single: u32,
    pub double: u32,
}

impl Quote {
    fn byte(self) -> u8
        ensures { result ≡ quote_byte self }
    {
        match self {
            Quote::Single => b'\'',
            Quote::Double => b'"',
        }
    }

    fn other(self) -> u8
        ensures { result ≡ other_quote (quote_byte self) }
    {
        match self {
            Quote::Single => b'"',
            Quote::Double => b'\'',
        }
    }
}

/// How many `'` and `"` stand between the quotes of a short string, raw or behind a backslash. A long string has none.
pub fn quotes(spelling: &[u8]) -> Counts
    requires spelling { IsStringSpelling spelling.now }
    requires size { length spelling.now < 2 ^ 32 }
    ensures single { IsShortSpelling spelling.now → result.single ≡ count_by (λ b. b == byte "'") (inside spelling.now) }
    ensures double { IsShortSpelling spelling.now → result.double ≡ count_by (λ b. b == byte "\"") (inside spelling.now) }
    ensures long { IsLongSpelling spelling.now → (result.single ≡ 0) × (result.double ≡ 0) }
{
    if spelling[0] == b'[' {
        return Counts {
            single: 0,
            double: 0,
        };
    }
    quotes_in(head(tail(spelling, 1), spelling.len() - 2))
}

fn quotes_in(text: &[u8]) -> Counts
    requires { length text.now < 2 ^ 32 }
    ensures single { result.single ≡ count_by (λ b. b == byte "'") text.now }
    ensures double { result.double ≡ count_by (λ b. b == byte "\"") text.now }
{
    let mut single = 0;
    let mut double = 0;
    for b in text {
        if *b == b'\'' {
            single += 1;
        } else if *b == b'"' {
            double += 1;
        }
    }
    Counts { single, double }
}

/// How many bytes the unit of a short string at the front has.
pub fn unit_length(text: &[u8]) -> usize
    ensures { result ≡ unit_length text.now }
{
    if byte_at(text, 0) != b'\\' {
        return 1;
    }
    let second = byte_at(text, 1);
    if second == b'z' {
        2 + leading_whitespace(tail(text, 2))
    } else if is_line_byte(second) {
        1 + line_end_length(tail(text, 1))
    } else {
        2
    }
}

/// Appends a unit of a short string, as it is in the quotes.
fn push_unit(unit: &[u8], quotes: Quote, into: &mut Vec<u8>) -> Result<(), Memory>
    ensures ok { OnOk result (into.new.items ≡ into.old.items ++ requoted_unit (quote_byte quotes) unit.now) }
    ensures err { OnErr result (into.new.items ≡ into.old.items) }
{
    if unit.len() == 1 && unit[0] == quotes.byte() {
        into.extend_from_slice(&[b'\\', quotes.byte()])?;
    } else if unit.len() == 2 && unit[1] == quotes.other() {
        into.push(quotes.other())?;
    } else {
        into.extend_from_slice(unit)?;
    }
    Ok(())
}

/// Appends a short string in the quotes, or a front of it before an error.
fn push_short(spelling: &[u8], quotes: Quote, into: &mut Vec<u8>) -> Result<(), Memory>
    requires { IsShortSpelling spelling.now }
    ensures ok { OnOk result (GrowsBy (IsShortRequoted spelling.now (quote_byte quotes)) into.old.items into.new.items) }
    ensures err { OnErr result (take (vec_len into.old) into.new.items ≡ into.old.items) }
{
    let from = spelling[0];
    into.push(quotes.byte())?;
    let mut at = 1 + push_ordinary(tail(spelling, 1), into)?;
    while spelling[at] != from {
        let rest = tail(spelling, at);
        let length = unit_length(rest);
        push_unit(head(rest, length), quotes, into)?;
        at += length;
        at += push_ordinary(tail(spelling, at), into)?;
    }
    into.push(quotes.byte())?;
    Ok(())
}

/// Appends a string in the quotes, or a front of it before an error.
fn push_requoted(spelling: &[u8], quotes: Quote, into: &mut Vec<u8>) -> Result<(), Memory>
    requires { IsStringSpelling spelling.now }
    ensures ok { OnOk result (GrowsBy (IsRequoted spelling.now (quote_byte quotes)) into.old.items into.new.items) }
    ensures err { OnErr result (take (vec_len into.old) into.new.items ≡ into.old.items) }
{
    if spelling[0] == b'[' {
        into.extend_from_slice(spelling)?;
        Ok(())
    } else {
        push_short(spelling, quotes, into)
    }
}

/// Appends a string in the quotes `q`: inside, the quote `q` is written with a backslash and the other quote without.
/// All else, and a long string whole, is kept. `into` grows by its own allocator; after an error it is as it was.
pub fn requote(_alloc: Global, spelling: &[u8], q: Quote, into: &mut Vec<u8>) -> Result<(), Memory>
    requires spelling { IsStringSpelling spelling.now }
    requires size { length spelling.now < 2 ^ 32 }
    ensures ok { OnOk result (GrowsBy (IsRequoted spelling.now (quote_byte q)) into.old.items into.new.items) }
    // The spelling has the same value, and that of a short string is in these quotes.
    ensures same { OnOk result (GrowsBy (IsSameString spelling.now (quote_byte q)) into.old.items into.new.items) }
    ensures err { OnErr result (into.new.items ≡ into.old.items) }
{
    let before = into.len();
    let result = push_requoted(spelling, q, into);
    if result.is_err() {
        into.truncate(before);
    }
    result
}
