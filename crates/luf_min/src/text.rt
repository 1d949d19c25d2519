// The text of items: the `#` line of the source, and the words with the fewest spaces.
ghost use Rattle.std.specs.Prelude.{◌≡◌, ◌≤◌, ◌++◌, ℕ, List, length, take, drop, map, ◌<◌, IfSome, IfOk, OnOk, OnErr};
ghost use Rattle.std.specs.List.{All};
ghost use Rattle.luf_lex.specs.Cut.{IsCut, hash_line_of};
ghost use Rattle.luf_lex.specs.Tokens.{toks_of};
ghost use Rattle.luf_guard.specs.Space.{IsTokenSpelling};
ghost use Rattle.luf_scope.specs.Links.{spelling_in};
ghost use Rattle.luf_min.specs.Minified.{spelled_under};
ghost use Rattle.luf_min.specs.Text.{IsJoined};
ghost use Rattle.luf_min.specs.inner.Items.{IsWithin, spelling_of};
ghost use Rattle.luf_min.specs.inner.Line.{line_text};
ghost use Rattle.luf_min.specs.inner.Next.{IsNext, IsWritten, last_word, spaced};

use crate::item::Item;
use crate::spelling::{sign_spelling, word_spelling};
use luf_guard::needs_space;
use luf_interf::Names;
use luf_lex::{Cut, hash_line};
use luf_memory::Memory;

/// Appends the words in order, with one space exactly where two need it. What an error leaves begins with what was
/// there.
pub(crate) fn write_items(
    src: &[u8],
    cut: &Cut,
    names: &Names,
    items: &[Item],
    into: &mut Vec<u8>,
) -> Result<(), Memory>
    requires cut { IsCut src.now cut.now }
    requires within { All (IsWithin (length (toks_of cut.now))) items.now }
    ensures ok { OnOk result ((tokens : List ℕ) × IsJoined (map (spelling_of (spelled_under names.now (spelling_in src.now cut.now))) items.now) tokens × (into.new.items ≡ into.old.items ++ tokens)) }
    ensures err { OnErr result (take (length into.old.items) into.new.items ≡ into.old.items) }
{
    let mut last = None;
    for item in items {
        match write_item(src, cut, names, last, item, into) {
            Ok(from) => last = Some(from),
            Err(e) => return Err(e),
        }
    }
    Ok(())
}

/// Appends a word behind the last, which begins at `last`, and answers where it begins.
fn write_item(
    src: &[u8],
    cut: &Cut,
    names: &Names,
    last: Option<usize>,
    item: &Item,
    into: &mut Vec<u8>,
) -> Result<usize, Memory>
    requires cut { IsCut src.now cut.now }
    requires within { IsWithin (length (toks_of cut.now)) item.now }
    requires left { IfSome last (λ from. (from ≤ length into.old.items) × IsTokenSpelling (drop from into.old.items)) }
    ensures ok { IfOk result (λ from. IsWritten (last_word last into.old.items) (spelling_of (spelled_under names.now (spelling_in src.now cut.now)) item.now) into.old.items into.new.items from) }
    ensures err { OnErr result (take (length into.old.items) into.new.items ≡ into.old.items) }
{
    match item {
        Item::Token(n) => write_token(src, cut, names, last, n.get(), into),
        Item::Word(word) => write_word(last, word_spelling(*word), into),
        Item::Sign(sign) => write_word(last, sign_spelling(*sign), into),
    }
}

/// The same for a token of the source: under its new name, if it has one.
fn write_token(
    src: &[u8],
    cut: &Cut,
    names: &Names,
    last: Option<usize>,
    n: u32,
    into: &mut Vec<u8>,
) -> Result<usize, Memory>
    requires cut { IsCut src.now cut.now }
    requires within { n < length (toks_of cut.now) }
    requires left { IfSome last (λ from. (from ≤ length into.old.items) × IsTokenSpelling (drop from into.old.items)) }
    ensures ok { IfOk result (λ from. IsWritten (last_word last into.old.items) (spelled_under names.now (spelling_in src.now cut.now) n) into.old.items into.new.items from) }
    ensures err { OnErr result (take (length into.old.items) into.new.items ≡ into.old.items) }
{
    match (names.name_of(n), cut.spelling(src, n)) {
        (Some(name), _) => write_word(last, name.as_slice(), into),
        (None, Some(spelling)) => write_word(last, spelling, into),
        (None, None) => Ok(into.len()),
    }
}

/// Appends a word behind the last, which begins at `last`, with a space where it needs one, and answers where it begins.
fn write_word(last: Option<usize>, spelling: &[u8], into: &mut Vec<u8>) -> Result<usize, Memory>
    requires left { IfSome last (λ from. (from ≤ length into.old.items) × IsTokenSpelling (drop from into.old.items)) }
    requires right { IsTokenSpelling spelling.now }
    ensures ok { IfOk result (λ from. IsWritten (last_word last into.old.items) spelling.now into.old.items into.new.items from) }
    ensures err { OnErr result (take (length into.old.items) into.new.items ≡ into.old.items) }
{
    if is_spaced(into.as_slice(), last, spelling) {
        into.push(b' ')?;
    }
    let from = into.len();
    into.extend_from_slice(spelling)?;
    Ok(from)
}

/// Whether a word needs a space behind a text, whose last word begins at `last`.
fn is_spaced(text: &[u8], last: Option<usize>, spelling: &[u8]) -> bool
    requires left { IfSome last (λ from. (from ≤ length text.now) × IsTokenSpelling (drop from text.now)) }
    requires right { IsTokenSpelling spelling.now }
    ensures { IsNext (last_word last text.now) spelling.now (spaced result spelling.now) }
{
    match last {
        Some(from) => needs_space(tail(text, from), spelling),
        None => false,
    }
}

fn tail(text: &[u8], from: usize) -> &[u8]
    requires { from ≤ length text.now }
    ensures { result.now ≡ drop from text.now }
{
    &text[from..]
}

/// Appends the `#` line of a source and a line feed, if it has one. Only a mark stands before it. What an error leaves
/// begins with what was there.
pub(crate) fn write_hash_line(src: &[u8], into: &mut Vec<u8>) -> Result<(), Memory>
    ensures ok { OnOk result (into.new.items ≡ into.old.items ++ line_text (hash_line_of src.now)) }
    ensures err { OnErr result (take (length into.old.items) into.new.items ≡ into.old.items) }
{
    if let Some(line) = hash_line(src) {
        into.extend_from_slice(line)?;
        into.push(b'\n')?;
    }
    Ok(())
}
