//! Upvalues.
ghost use Rattle.std.specs.Prelude.{◌≡◌};
ghost use Rattle.luf_undump.specs.Reading.{kind_at, many_at, upvalue_at, upvalue_count_at};
ghost use Rattle.luf_undump.specs.inner.Gives.{Gives};

use crate::error::{ChunkWhat, Stop};
use crate::field::{byte, flag};
use crate::size::count;
use luf_proto::Upval;
use std::alloc::Global;

/// The kind of an upvalue.
#[tactic(auto, unfolding(crate::specs::Reading::kind_at))]
fn kind(bytes: &[u8]) -> Result<(u8, &[u8]), Stop>
    ensures { Gives (λ x. (x.0, x.1.now)) result (kind_at bytes.now) }
{
    let (kind, rest) = byte(bytes)?;
    if kind <= 3 {
        Ok((kind, rest))
    } else {
        Err(Stop::Bad {
            left: bytes.len(),
            what: ChunkWhat::BadTag,
        })
    }
}

#[tactic(auto, unfolding(crate::specs::Reading::upvalue_at))]
fn upvalue(bytes: &[u8]) -> Result<(Upval, &[u8]), Stop>
    ensures { Gives (λ x. (x.0, x.1.now)) result (upvalue_at bytes.now) }
{
    let (instack, rest) = flag(bytes)?;
    let (idx, rest) = byte(rest)?;
    let (kind, rest) = kind(rest)?;
    Ok((Upval { instack, idx, kind }, rest))
}

/// How many upvalues a function has, for main as many as the byte before it says.
#[tactic(auto, unfolding(crate::specs::Reading::upvalue_count_at))]
pub fn upvalue_count(main: Option<u8>, bytes: &[u8]) -> Result<(u32, &[u8]), Stop>
    ensures { Gives (λ x. (x.0, x.1.now)) result (upvalue_count_at main bytes.now) }
{
    let (n, rest) = count(bytes)?;
    let fits = match main {
        None => n <= 255,
        Some(wanted) => n == u32::from(wanted),
    };
    if fits {
        Ok((n, rest))
    } else {
        Err(Stop::Bad {
            left: bytes.len(),
            what: ChunkWhat::BadSize,
        })
    }
}

/// So many upvalues.
pub fn upvalues(alloc: Global, count: u32, bytes: &[u8]) -> Result<(Vec<Upval>, &[u8]), Stop>
    ensures { Gives (λ x. (x.0.items, x.1.now)) result (many_at upvalue_at count bytes.now) }
{
    let mut upvalues = Vec::new(alloc);
    let mut rest = bytes;
    for _ in 0..count {
        let (upvalue, after) = upvalue(rest)?;
        upvalues.push(upvalue)?;
        rest = after;
    }
    Ok((upvalues, rest))
}
