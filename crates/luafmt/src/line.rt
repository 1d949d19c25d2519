//! The lines that a run writes.
ghost use Rattle.std.specs.Prelude.{◌≡◌, ◌++◌, codes, string_bytes, Some, option_map, IfOk};
ghost use Rattle.luafmt.specs.Line.{at_byte, chunk_word, line_of, named, placed, scope_word, word_of, config_line as spec_config_line, differs_line as spec_differs_line, refusal_line as spec_refusal_line};

use luf_conf::ConfErr;
use luf_lex::LexWhat;
use luf_memory::Memory;
use luf_scope::ScopeWhat;
use luf_text::Place;
use luf_undump::ChunkWhat;
use luf_work::Refusal;
use std::alloc::Global;

// The line of a refusal of the source of this name, with its line end. Want of memory has none.
pub(crate) fn refusal_line(alloc: Global, name: &str, refusal: Refusal) -> Result<String, Memory>
    ensures { IfOk result (λ line.
        option_map line_of (spec_refusal_line name.now refusal) ≡ Some (string_bytes line)) }
{
    match refusal {
        Refusal::TooLarge => named_line(alloc, name, "TooLarge"),
        Refusal::Lexical(place, what) => placed_line(alloc, name, place, word(what)),
        Refusal::Syntax(place) => placed_line(alloc, name, place, "Syntax"),
        Refusal::TooDeep(place) => placed_line(alloc, name, place, "TooDeep"),
        Refusal::Scope(place, what) => placed_line(alloc, name, place, scope_word(what)),
        Refusal::Chunk(at, what) => byte_line(alloc, name, at, chunk_word(what)),
        Refusal::ResultTooLarge => named_line(alloc, name, "ResultTooLarge"),
        Refusal::Memory => Err(Memory),
    }
}

// The line of a source that is not its own text.
pub(crate) fn differs_line(alloc: Global, name: &str) -> Result<String, Memory>
    ensures { IfOk result (λ line. string_bytes line ≡ line_of (spec_differs_line name.now)) }
{
    named_line(alloc, name, "Differs")
}

// The line of a file of options that has more bytes than it may.
pub(crate) fn large_line(alloc: Global, name: &str) -> Result<Vec<u8>, Memory>
    ensures { IfOk result (λ line. line.items ≡ line_of (named name.now (codes "TooLarge"))) }
{
    key_line(alloc, name, "TooLarge", b"")
}

// The line of a refusal of the file of options of this name, with its line end. Want of memory has none.
pub(crate) fn config_line(alloc: Global, name: &str, refusal: &ConfErr) -> Result<Vec<u8>, Memory>
    ensures { IfOk result (λ line.
        option_map line_of (spec_config_line name.now refusal.now) ≡ Some line.items) }
{
    match refusal {
        ConfErr::NotToml => key_line(alloc, name, "NotToml", b""),
        ConfErr::UnknownKey(key) => key_line(alloc, name, "UnknownKey ", key.as_slice()),
        ConfErr::BadValue(key) => key_line(alloc, name, "BadValue ", key.as_slice()),
        ConfErr::Memory => Err(Memory),
    }
}

// A word and a key behind the name of a file of options. A key may hold any bytes.
fn key_line(alloc: Global, name: &str, word: &str, key: &[u8]) -> Result<Vec<u8>, Memory>
    ensures { IfOk result (λ line. line.items ≡ line_of (named name.now (word.now ++ key.now))) }
{
    let mut line = Vec::new(alloc);
    line.extend_from_slice(name.as_bytes())?;
    line.extend_from_slice(b": ")?;
    line.extend_from_slice(word.as_bytes())?;
    line.extend_from_slice(key)?;
    line.push(b'\n')?;
    Ok(line)
}

fn named_line(alloc: Global, name: &str, word: &str) -> Result<String, Memory>
    ensures { IfOk result (λ text. string_bytes text ≡ line_of (named name.now word.now)) }
{
    Ok(format!(in alloc; "{name}: {word}\n")?)
}

fn placed_line(alloc: Global, name: &str, place: Place, word: &str) -> Result<String, Memory>
    ensures { IfOk result (λ text. string_bytes text ≡ line_of (placed name.now place word.now)) }
{
    let Place { line, column } = place;
    Ok(format!(in alloc; "{name}:{line}:{column}: {word}\n")?)
}

fn byte_line(alloc: Global, name: &str, at: u32, word: &str) -> Result<String, Memory>
    ensures { IfOk result (λ text. string_bytes text ≡ line_of (at_byte name.now at word.now)) }
{
    Ok(format!(in alloc; "{name}:{at}: {word}\n")?)
}

fn word(what: LexWhat) -> &'static str
    ensures { result.now ≡ word_of what }
{
    match what {
        LexWhat::NoToken => "NoToken",
        LexWhat::BadNumeral => "BadNumeral",
        LexWhat::BadEscape => "BadEscape",
        LexWhat::OpenString => "OpenString",
        LexWhat::OpenLong => "OpenLong",
    }
}

fn chunk_word(what: ChunkWhat) -> &'static str
    ensures { result.now ≡ chunk_word what }
{
    match what {
        ChunkWhat::BadHeader => "BadHeader",
        ChunkWhat::Short => "Short",
        ChunkWhat::BadSize => "BadSize",
        ChunkWhat::BadTag => "BadTag",
        ChunkWhat::Nested => "Nested",
        ChunkWhat::Trailing => "Trailing",
    }
}

fn scope_word(what: ScopeWhat) -> &'static str
    ensures { result.now ≡ scope_word what }
{
    match what {
        ScopeWhat::UnknownAttribute => "UnknownAttribute",
        ScopeWhat::TwoClose => "TwoClose",
        ScopeWhat::ConstAssign => "ConstAssign",
        ScopeWhat::VarargOutside => "VarargOutside",
        ScopeWhat::LabelTwice => "LabelTwice",
        ScopeWhat::NoLabel => "NoLabel",
        ScopeWhat::JumpIntoScope => "JumpIntoScope",
        ScopeWhat::BreakOutside => "BreakOutside",
    }
}
