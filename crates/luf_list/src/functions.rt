//! The listing of a function with all inside it.
ghost use Rattle.std.specs.Prelude.{◌≡◌, ◌++◌, length, map, take, string_bytes, IfOk, OnOk, OnErr};
ghost use Rattle.luf_list.specs.Listing.{head_front, head_line, inner_listings, inner_path, listing, listing_at, own_lines, upvalue_line, upvalue_lines};
ghost use Rattle.luf_ops.specs.Instruction.{bit};
ghost use Rattle.luf_proto.specs.FunctionOf.{function_of, functions_of};
ghost use Rattle.luf_proto.specs.declared.proto.Proto.{out-Proto};

use crate::code::write_code;
use crate::constants::write_constants;
use luf_memory::Memory;
use luf_proto::{Proto, Upval};
use std::alloc::Global;

/// Appends the listing of a main function. The only error is that no memory was found; then `into` is as it was.
pub fn list(alloc: Global, p: &Proto, into: &mut Vec<u8>) -> Result<(), Memory>
    ensures ok { OnOk result (into.new.items ≡ into.old.items ++ listing (function_of p.now)) }
    ensures err { OnErr result (into.new.items ≡ into.old.items) }
{
    let len = into.len();
    if let Err(e) = write_function(alloc, "0", p, into) {
        into.truncate(len);
        return Err(e);
    }
    Ok(())
}

#[cycle(functions)]
fn write_function(alloc: Global, path: &str, p: &Proto, into: &mut Vec<u8>) -> Result<(), Memory>
    ensures ok { OnOk result (into.new.items ≡ into.old.items ++ listing_at path.now (function_of p.now)) }
    ensures err { OnErr result (take (length into.old.items) into.new.items ≡ into.old.items) }
{
    write_own(alloc, path, p, into)?;
    write_inner(alloc, path, p.subs.as_slice(), into)
}

#[cycle(functions)]
fn write_inner(alloc: Global, path: &str, subs: &[Proto], into: &mut Vec<u8>) -> Result<(), Memory>
    ensures ok { OnOk result (into.new.items ≡ into.old.items ++ inner_listings path.now 0 (functions_of (map function_of subs.now))) }
    ensures err { OnErr result (take (length into.old.items) into.new.items ≡ into.old.items) }
{
    for (index, sub) in subs.iter().enumerate() {
        let inner = inner_path(alloc, path, index)?;
        write_function(alloc, inner.as_str(), sub, into)?;
    }
    Ok(())
}

fn inner_path(alloc: Global, path: &str, index: usize) -> Result<String, Memory>
    ensures { IfOk result (λ inner. string_bytes inner ≡ inner_path path.now index) }
{
    Ok(format!(in alloc; "{path}.{index}")?)
}

/// Appends what a function has itself.
fn write_own(alloc: Global, path: &str, p: &Proto, into: &mut Vec<u8>) -> Result<(), Memory>
    ensures ok { OnOk result (into.new.items ≡ into.old.items ++ own_lines path.now (out-Proto p.now).numparams (out-Proto p.now).is_vararg (out-Proto p.now).maxstack (out-Proto p.now).code (out-Proto p.now).consts (out-Proto p.now).upvals (out-Proto p.now).line_from (out-Proto p.now).line_to) }
    ensures err { OnErr result (take (length into.old.items) into.new.items ≡ into.old.items) }
{
    write_head(alloc, path, p, into)?;
    write_code(alloc, p.code.as_slice(), into)?;
    write_constants(alloc, p.consts.as_slice(), into)?;
    write_upvals(alloc, p.upvals.as_slice(), into)
}

fn write_head(alloc: Global, path: &str, p: &Proto, into: &mut Vec<u8>) -> Result<(), Memory>
    ensures ok { OnOk result (into.new.items ≡ into.old.items ++ head_line (head_front path.now (out-Proto p.now).numparams (bit (out-Proto p.now).is_vararg)) (out-Proto p.now).maxstack (out-Proto p.now).line_from (out-Proto p.now).line_to) }
    ensures err { OnErr result (take (length into.old.items) into.new.items ≡ into.old.items) }
{
    let vararg = u8::from(p.is_vararg);
    let front = head_front(alloc, path, p.numparams, vararg)?;
    let line = head_line(alloc, front.as_str(), p.maxstack, p.line_from, p.line_to)?;
    into.extend_from_slice(line.as_bytes())?;
    Ok(())
}

fn head_front(alloc: Global, path: &str, params: u8, vararg: u8) -> Result<String, Memory>
    ensures { IfOk result (λ front. string_bytes front ≡ head_front path.now params vararg) }
{
    Ok(format!(in alloc; "function {path} params {params} vararg {vararg}")?)
}

fn head_line(alloc: Global, front: &str, stack: u8, from: u32, to: u32) -> Result<String, Memory>
    ensures { IfOk result (λ line. string_bytes line ≡ head_line front.now stack from to) }
{
    Ok(format!(in alloc; "{front} stack {stack} lines {from} {to}\n")?)
}

fn write_upvals(alloc: Global, upvals: &[Upval], into: &mut Vec<u8>) -> Result<(), Memory>
    ensures ok { OnOk result (into.new.items ≡ into.old.items ++ upvalue_lines 0 upvals.now) }
    ensures err { OnErr result (take (length into.old.items) into.new.items ≡ into.old.items) }
{
    for (index, upval) in upvals.iter().enumerate() {
        let instack = u8::from(upval.instack);
        let line = upvalue_line(alloc, index, instack, upval.idx, upval.kind)?;
        into.extend_from_slice(line.as_bytes())?;
    }
    Ok(())
}

fn upvalue_line(
    alloc: Global,
    index: usize,
    instack: u8,
    idx: u8,
    kind: u8,
) -> Result<String, Memory>
    ensures { IfOk result (λ line. string_bytes line ≡ upvalue_line index instack idx kind) }
{
    Ok(format!(in alloc; "u {index} {instack} {idx} {kind}\n")?)
}
