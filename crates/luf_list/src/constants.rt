//! The lines of constants.
ghost use Rattle.std.specs.Prelude.{◌≡◌, [], ◌∷◌, ◌++◌, codes, length, take, OnOk, OnErr};
ghost use Rattle.std.specs.List.{flat_map};
ghost use Rattle.luf_list.specs.Listing.{constant_line, constant_lines, constant_text, escaped, is_printable, is_quoted};

use crate::code::write_hex;
use luf_memory::Memory;
use luf_proto::Const;
use std::alloc::Global;

pub(crate) fn write_constants(
    alloc: Global,
    consts: &[Const],
    into: &mut Vec<u8>,
) -> Result<(), Memory>
    ensures ok { OnOk result (into.new.items ≡ into.old.items ++ constant_lines 0 consts.now) }
    ensures err { OnErr result (take (length into.old.items) into.new.items ≡ into.old.items) }
{
    for (index, constant) in consts.iter().enumerate() {
        write_line(alloc, index, constant, into)?;
    }
    Ok(())
}

fn write_line(
    alloc: Global,
    index: usize,
    constant: &Const,
    into: &mut Vec<u8>,
) -> Result<(), Memory>
    ensures ok { OnOk result (into.new.items ≡ into.old.items ++ constant_line index constant.now) }
    ensures err { OnErr result (take (length into.old.items) into.new.items ≡ into.old.items) }
{
    let front = format!(in alloc; "k {index} ")?;
    into.extend_from_slice(front.as_bytes())?;
    write_constant(alloc, constant, into)?;
    into.push(b'\n')?;
    Ok(())
}

fn write_constant(alloc: Global, constant: &Const, into: &mut Vec<u8>) -> Result<(), Memory>
    ensures ok { OnOk result (into.new.items ≡ into.old.items ++ constant_text constant.now) }
    ensures err { OnErr result (take (length into.old.items) into.new.items ≡ into.old.items) }
{
    match constant {
        Const::Nil => into.extend_from_slice(b"nil")?,
        Const::False => into.extend_from_slice(b"false")?,
        Const::True => into.extend_from_slice(b"true")?,
        Const::Int(n) => {
            let text = format!(in alloc; "int {n}")?;
            into.extend_from_slice(text.as_bytes())?;
        }
        Const::Spelled(spelling) => {
            into.extend_from_slice(b"float ")?;
            into.extend_from_slice(spelling.as_slice())?;
        }
        Const::Word(word) => {
            into.extend_from_slice(b"word ")?;
            return write_hex(*word, 16, into);
        }
        Const::Str(text) => return write_string(text.as_slice(), into),
    }
    Ok(())
}

fn write_string(text: &[u8], into: &mut Vec<u8>) -> Result<(), Memory>
    ensures ok { OnOk result (into.new.items ≡ into.old.items ++ codes "str " ++ 34 ∷ flat_map escaped text.now ++ 34 ∷ []) }
    ensures err { OnErr result (take (length into.old.items) into.new.items ≡ into.old.items) }
{
    into.extend_from_slice(b"str \"")?;
    for b in text {
        write_escaped(*b, into)?;
    }
    into.push(b'"')?;
    Ok(())
}

fn write_escaped(b: u8, into: &mut Vec<u8>) -> Result<(), Memory>
    ensures ok { OnOk result (into.new.items ≡ into.old.items ++ escaped b) }
    ensures err { OnErr result (take (length into.old.items) into.new.items ≡ into.old.items) }
{
    if is_quoted(b) {
        into.extend_from_slice(&[b'\\', b])?;
    } else if is_printable(b) {
        into.push(b)?;
    } else {
        into.extend_from_slice(&[b'\\', b'0' + b / 100, b'0' + b / 10 % 10, b'0' + b % 10])?;
    }
    Ok(())
}

fn is_quoted(b: u8) -> bool
    ensures { result ≡ is_quoted b }
{
    b == b'"' || b == b'\\'
}

fn is_printable(b: u8) -> bool
    ensures { result ≡ is_printable b }
{
    b' ' <= b && b <= b'~'
}
