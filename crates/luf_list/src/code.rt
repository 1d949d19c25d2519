//! The lines of code.
ghost use Rattle.std.specs.Prelude.{◌≡◌, ◌++◌, ◌<◌, ◌≤◌, length, take, string_bytes, IfOk, None, OnOk, OnErr};
ghost use Rattle.luf_list.specs.Listing.{abc_line, abck_line, abx_line, asbx_line, ax_line, code_line, code_lines, hex, hex_digit, instruction_line, line_front, named_line, sj_line};

use luf_memory::Memory;
use luf_ops::Instr;
use std::alloc::Global;

pub(crate) fn write_code(alloc: Global, code: &[u32], into: &mut Vec<u8>) -> Result<(), Memory>
    ensures ok { OnOk result (into.new.items ≡ into.old.items ++ code_lines 0 code.now) }
    ensures err { OnErr result (take (length into.old.items) into.new.items ≡ into.old.items) }
{
    for (position, word) in code.iter().enumerate() {
        match Instr::decode(*word) {
            Some(i) => {
                let line = instruction_line(alloc, position, i)?;
                into.extend_from_slice(line.as_bytes())?;
            }
            None => write_raw(alloc, position, *word, into)?,
        }
    }
    Ok(())
}

/// The line of an instruction.
fn instruction_line(alloc: Global, position: usize, i: Instr) -> Result<String, Memory>
    ensures { IfOk result (λ line. string_bytes line ≡ instruction_line position i) }
{
    named_line(alloc, position, i.op().name(), i)
}

/// The line of an instruction, with the name of its operation.
fn named_line(alloc: Global, position: usize, name: &str, i: Instr) -> Result<String, Memory>
    ensures { IfOk result (λ line. string_bytes line ≡ named_line position name.now i) }
{
    match i {
        Instr::Abc { a, k, b, c, .. } => {
            let front = line_front(alloc, position, name, a)?;
            if k {
                abck_line(alloc, front.as_str(), b, c)
            } else {
                abc_line(alloc, front.as_str(), b, c)
            }
        }
        Instr::Abx { a, bx, .. } => abx_line(alloc, position, name, a, bx),
        Instr::Asbx { a, sbx, .. } => asbx_line(alloc, position, name, a, sbx),
        Instr::Ax { ax, .. } => ax_line(alloc, position, name, ax),
        Instr::Sj { sj, .. } => sj_line(alloc, position, name, sj),
    }
}

fn line_front(alloc: Global, position: usize, name: &str, a: u8) -> Result<String, Memory>
    ensures { IfOk result (λ front. string_bytes front ≡ line_front position name.now a) }
{
    Ok(format!(in alloc; "{position} {name} {a}")?)
}

fn abck_line(alloc: Global, front: &str, b: u8, c: u8) -> Result<String, Memory>
    ensures { IfOk result (λ line. string_bytes line ≡ abck_line front.now b c) }
{
    Ok(format!(in alloc; "{front} {b} {c} k\n")?)
}

fn abc_line(alloc: Global, front: &str, b: u8, c: u8) -> Result<String, Memory>
    ensures { IfOk result (λ line. string_bytes line ≡ abc_line front.now b c) }
{
    Ok(format!(in alloc; "{front} {b} {c}\n")?)
}

fn abx_line(alloc: Global, position: usize, name: &str, a: u8, bx: u32) -> Result<String, Memory>
    ensures { IfOk result (λ line. string_bytes line ≡ abx_line position name.now a bx) }
{
    Ok(format!(in alloc; "{position} {name} {a} {bx}\n")?)
}

fn asbx_line(alloc: Global, position: usize, name: &str, a: u8, sbx: i32) -> Result<String, Memory>
    ensures { IfOk result (λ line. string_bytes line ≡ asbx_line position name.now a sbx) }
{
    Ok(format!(in alloc; "{position} {name} {a} {sbx}\n")?)
}

fn ax_line(alloc: Global, position: usize, name: &str, ax: u32) -> Result<String, Memory>
    ensures { IfOk result (λ line. string_bytes line ≡ ax_line position name.now ax) }
{
    Ok(format!(in alloc; "{position} {name} {ax}\n")?)
}

fn sj_line(alloc: Global, position: usize, name: &str, sj: i32) -> Result<String, Memory>
    ensures { IfOk result (λ line. string_bytes line ≡ sj_line position name.now sj) }
{
    Ok(format!(in alloc; "{position} {name} {sj}\n")?)
}

/// Appends the line of a word that is no instruction.
fn write_raw(alloc: Global, position: usize, word: u32, into: &mut Vec<u8>) -> Result<(), Memory>
    ensures ok { OnOk result (into.new.items ≡ into.old.items ++ code_line position word None) }
    ensures err { OnErr result (take (length into.old.items) into.new.items ≡ into.old.items) }
{
    let front = format!(in alloc; "{position} RAW ")?;
    into.extend_from_slice(front.as_bytes())?;
    write_hex(u64::from(word), 8, into)?;
    into.push(b'\n')?;
    Ok(())
}

/// Appends so many hexadecimal digits of a number, the lowest last.
pub(crate) fn write_hex(number: u64, digits: u32, into: &mut Vec<u8>) -> Result<(), Memory>
    requires { digits ≤ 16 }
    ensures ok { OnOk result (into.new.items ≡ into.old.items ++ hex digits number) }
    ensures err { OnErr result (take (length into.old.items) into.new.items ≡ into.old.items) }
{
    let mut left = digits;
    while 0 < left {
        left -= 1;
        into.push(hex_digit((number >> (4 * left) & 15) as u8))?;
    }
    Ok(())
}

/// The digit of a number below 16.
fn hex_digit(digit: u8) -> u8
    requires { digit < 16 }
    ensures { result ≡ hex_digit digit }
{
    if digit < 10 {
        b'0' + digit
    } else {
        b'a' + (digit - 10)
    }
}
