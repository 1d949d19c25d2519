//! Functions.
ghost use Rattle.std.specs.Prelude.{◌≡◌, map, ◌≤◌};
ghost use Rattle.luf_proto.specs.FunctionOf.{function_of};
ghost use Rattle.luf_undump.specs.Reading.{function_at, head_at, many_at};
ghost use Rattle.luf_undump.specs.inner.Gives.{Gives};

use crate::constant::constants;
use crate::debug::{debug, debug_string};
use crate::error::{ChunkWhat, Stop};
use crate::field::{byte, flag, words};
use crate::size::count;
use crate::upvalue::{upvalue_count, upvalues};
use luf_proto::Proto;
use sqlite_items::Items;
use std::alloc::Global;

/// What a function begins with.
#[derive(Clone, Copy)]
struct Head {
    line_from: u32,
    line_to: u32,
    parameters: u8,
    vararg: bool,
    registers: u8,
}

#[tactic(auto, unfolding(crate::specs::Reading::head_at))]
fn read_head(bytes: &[u8]) -> Result<(Head, &[u8]), Stop>
    ensures { Gives (λ x. (x.0, x.1.now)) result (head_at bytes.now) }
{
    let rest = debug_string(bytes)?;
    let (line_from, rest) = count(rest)?;
    let (line_to, rest) = count(rest)?;
    let (parameters, rest) = byte(rest)?;
    let (vararg, rest) = flag(rest)?;
    let (registers, rest) = byte(rest)?;
    Ok((
        Head {
            line_from,
            line_to,
            parameters,
            vararg,
            registers,
        },
        rest,
    ))
}

/// A function within so many levels.
#[cycle(function)]
#[tactic(auto, unfolding(crate::specs::Reading::function_at))]
pub fn function(
    alloc: Global,
    levels: u32,
    main: Option<u8>,
    bytes: &[u8],
) -> Result<(Proto, &[u8]), Stop>
    ensures { Gives (λ x. (function_of x.0, x.1.now)) result (function_at levels main bytes.now) }
{
    if levels == 0 {
        return Err(Stop::Bad {
            left: bytes.len(),
            what: ChunkWhat::Nested,
        });
    }
    let (head, rest) = read_head(bytes)?;
    let (n, rest) = count(rest)?;
    let (code, rest) = words(alloc, n, rest)?;
    let (n, rest) = count(rest)?;
    let (consts, rest) = constants(alloc, n, rest)?;
    let (n, rest) = upvalue_count(main, rest)?;
    let (upvals, rest) = upvalues(alloc, n, rest)?;
    let (n, rest) = count(rest)?;
    let (subs, rest) = functions(alloc, levels - 1, n, rest)?;
    let rest = debug(rest)?;
    let p = Proto {
        numparams: head.parameters,
        is_vararg: head.vararg,
        maxstack: head.registers,
        code: Items::from_vec(code),
        consts: Items::from_vec(consts),
        upvals: Items::from_vec(upvals),
        subs: Items::from_vec(subs),
        line_from: head.line_from,
        line_to: head.line_to,
    };
    Ok((p, rest))
}

/// So many functions within so many levels.
#[cycle(function)]
fn functions(
    alloc: Global,
    levels: u32,
    count: u32,
    bytes: &[u8],
) -> Result<(Vec<Proto>, &[u8]), Stop>
    ensures { Gives (λ x. (map function_of x.0.items, x.1.now)) result (many_at (function_at levels None) count bytes.now) }
{
    let mut subs = Vec::new(alloc);
    let mut rest = bytes;
    for _ in 0..count {
        let (sub, after) = function(alloc, levels, None, rest)?;
        subs.push(sub)?;
        rest = after;
    }
    Ok((subs, rest))
}
