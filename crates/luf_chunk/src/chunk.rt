//! Functions and the chunk.
ghost use Rattle.std.specs.Prelude.{◌≡◌, ◌++◌, ◌∷◌, [], map, length, take, OnOk, OnErr, IfErr};
ghost use Rattle.luf_chunk.specs.Worded.{HasCause, IsWorded, all_floats, floats_of};
ghost use Rattle.luf_chunk.specs.inner.Written.{WritesFunction, WritesFunctions};
ghost use Rattle.luf_proto.specs.Chunk.{Fits, chunk_bytes, head_bytes, header, no_debug};
ghost use Rattle.luf_proto.specs.Function.{Function};
ghost use Rattle.luf_proto.specs.declared.proto.Proto.{out-Proto};
ghost use Rattle.luf_proto.specs.FunctionOf.{function_of, functions_of};

use crate::constant::append_constants;
use crate::error::ChunkErr;
use crate::field::{append_code, append_size, append_upvalues};
use luf_memory::Memory;
use luf_proto::Proto;
use std::alloc::Global;

/// What a chunk begins with.
const HEADER: [u8; 31] = [
    0x1b, b'L', b'u', b'a', 0x54, 0x00, 0x19, 0x93, 0x0d, 0x0a, 0x1a, 0x0a, 0x04, 0x08, 0x08, 0x78,
    0x56, 0x00, 0x00, 0x00, 0x00, 0x00, 0x00, 0x00, 0x00, 0x00, 0x00, 0x00, 0x28, 0x77, 0x40,
];

/// Appends what a function begins with.
fn append_head(p: &Proto, into: &mut Vec<u8>) -> Result<(), Memory>
    ensures ok { OnOk result (into.new.items ≡ into.old.items
        ++ head_bytes (out-Proto p.now).line_from (out-Proto p.now).line_to (out-Proto p.now).numparams (out-Proto p.now).is_vararg (out-Proto p.now).maxstack) }
    ensures err { OnErr result (take (length into.old.items) into.new.items ≡ into.old.items) }
{
    append_size(0, into)?;
    append_size(p.line_from as usize, into)?;
    append_size(p.line_to as usize, into)?;
    into.extend_from_slice(&[p.numparams, u8::from(p.is_vararg), p.maxstack])?;
    Ok(())
}

/// Appends that nothing is there that only debugging reads.
fn append_no_debug(into: &mut Vec<u8>) -> Result<(), Memory>
    ensures ok { OnOk result (into.new.items ≡ into.old.items ++ no_debug) }
    ensures err { OnErr result (take (length into.old.items) into.new.items ≡ into.old.items) }
{
    append_size(0, into)?;
    append_size(0, into)?;
    append_size(0, into)?;
    append_size(0, into)?;
    Ok(())
}

/// Appends a function.
#[cycle(function)]
fn append_function(alloc: Global, p: &Proto, into: &mut Vec<u8>) -> Result<(), ChunkErr>
    ensures ok { OnOk result (WritesFunction (function_of p.now) into.old.items into.new.items) }
    ensures err { OnErr result (take (length into.old.items) into.new.items ≡ into.old.items) }
    ensures cause { IfErr result (λ e. HasCause e (floats_of (function_of p.now))) }
{
    append_head(p, into)?;
    append_code(p.code.as_slice(), into)?;
    append_constants(alloc, p.consts.as_slice(), into)?;
    append_upvalues(p.upvals.as_slice(), into)?;
    append_size(p.subs.len(), into)?;
    append_functions(alloc, p.subs.as_slice(), into)?;
    append_no_debug(into)?;
    Ok(())
}

/// Appends functions in order.
#[cycle(function)]
fn append_functions(alloc: Global, subs: &[Proto], into: &mut Vec<u8>) -> Result<(), ChunkErr>
    ensures ok { OnOk result (WritesFunctions (functions_of (map function_of subs.now)) into.old.items into.new.items) }
    ensures err { OnErr result (take (length into.old.items) into.new.items ≡ into.old.items) }
    ensures cause { IfErr result (λ e. HasCause e (all_floats (functions_of (map function_of subs.now)))) }
{
    for sub in subs {
        append_function(alloc, sub, into)?;
    }
    Ok(())
}

/// Appends the chunk of a function, with nothing that only debugging reads, and the word of each float that is spelled.
///
/// `FloatReach` comes exactly where such a float is not in reach, with the first one. After an error `into` is as before.
pub fn write_chunk(alloc: Global, p: &Proto, into: &mut Vec<u8>) -> Result<(), ChunkErr>
    requires { Fits (function_of p.now) }
    ensures ok { OnOk result ((worded : Function) × IsWorded (function_of p.now) worded × (into.new.items ≡ into.old.items ++ chunk_bytes worded)) }
    ensures err { OnErr result (into.new.items ≡ into.old.items) }
    ensures cause { IfErr result (λ e. HasCause e (floats_of (function_of p.now))) }
{
    let start = into.len();
    match append_chunk(alloc, p, into) {
        Ok(()) => Ok(()),
        Err(e) => {
            into.truncate(start);
            Err(e)
        }
    }
}

/// Appends a chunk, or a part of it and why it stopped.
fn append_chunk(alloc: Global, p: &Proto, into: &mut Vec<u8>) -> Result<(), ChunkErr>
    requires { Fits (function_of p.now) }
    ensures ok { OnOk result ((worded : Function) × IsWorded (function_of p.now) worded × (into.new.items ≡ into.old.items ++ chunk_bytes worded)) }
    ensures err { OnErr result (take (length into.old.items) into.new.items ≡ into.old.items) }
    ensures cause { IfErr result (λ e. HasCause e (floats_of (function_of p.now))) }
{
    into.extend_from_slice(&HEADER)?;
    into.push(p.upvals.len() as u8)?;
    append_function(alloc, p, into)
}
