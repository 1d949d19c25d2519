// What values are read as.
ghost use Rattle.std.specs.Prelude.{◌≡◌, ℕ, List, MatchOption};
ghost use Rattle.luf_conf.specs.Settings.{IsNumberTo};
ghost use Rattle.luf_conf.specs.inner.Named.{calls_named, quotes_named, tabs_named};
ghost use Rattle.toml.specs.Data.{string};
ghost use Rattle.toml.specs.View.{view};

use luf_quote::{CallStyle, QuoteStyle};
use toml::Value;

/// The whole number from 1 to `most` that a value is.
pub fn number_to(value: &Value, most: u32) -> Option<u32>
    ensures { MatchOption result ((n : ℕ) → IsNumberTo most (view value.now) n → ⊥) (IsNumberTo most (view value.now)) }
{
    let n = value.as_integer()?;
    if n < 1 || n > i64::from(most) {
        return None;
    }
    Some(n as u32)
}

/// The bytes of the text that a value is.
pub fn word_of(value: &Value) -> Option<&[u8]>
    ensures { MatchOption result ((word : List ℕ) → view value.now ≡ string word → ⊥) (λ word. view value.now ≡ string word.now) }
{
    match value.as_str() {
        Some(word) => Some(word.as_bytes()),
        None => None,
    }
}

/// Whether a level is written as tabs.
pub fn tabs_of(word: &[u8]) -> Option<bool>
    ensures { result ≡ tabs_named word.now }
{
    if word == b"Tabs".as_slice() {
        Some(true)
    } else if word == b"Spaces".as_slice() {
        Some(false)
    } else {
        None
    }
}

/// The style of quotes of a name.
pub fn quotes_of(word: &[u8]) -> Option<QuoteStyle>
    ensures { result ≡ quotes_named word.now }
{
    if word == b"AutoPreferDouble".as_slice() {
        Some(QuoteStyle::AutoPreferDouble)
    } else if word == b"AutoPreferSingle".as_slice() {
        Some(QuoteStyle::AutoPreferSingle)
    } else if word == b"ForceDouble".as_slice() {
        Some(QuoteStyle::ForceDouble)
    } else if word == b"ForceSingle".as_slice() {
        Some(QuoteStyle::ForceSingle)
    } else {
        None
    }
}

/// The style of calls of a name.
pub fn calls_of(word: &[u8]) -> Option<CallStyle>
    ensures { result ≡ calls_named word.now }
{
    if word == b"Always".as_slice() {
        Some(CallStyle::Always)
    } else if word == b"NoSingleString".as_slice() {
        Some(CallStyle::NoSingleString)
    } else if word == b"NoSingleTable".as_slice() {
        Some(CallStyle::NoSingleTable)
    } else if word == b"None".as_slice() {
        Some(CallStyle::None)
    } else if word == b"Input".as_slice() {
        Some(CallStyle::Input)
    } else {
        None
    }
}
