//! Chunks.
ghost use Rattle.std.specs.Prelude.{◌≡◌, ◌≤◌, length, IfOk, IfErr, MatchResult};
ghost use Rattle.luf_proto.specs.Function.{Function};
ghost use Rattle.luf_proto.specs.FunctionOf.{function_of};
ghost use Rattle.luf_undump.specs.Answers.{HasCause};
ghost use Rattle.luf_undump.specs.Grammar.{IsChunkOf};
ghost use Rattle.luf_undump.specs.Reading.{chunk_at};
ghost use Rattle.luf_undump.specs.declared.error.UndumpErr.TheVariants.{Memory};
ghost use Rattle.luf_undump.specs.inner.Gives.{Gives};

use crate::error::{ChunkWhat, Stop, UndumpErr};
use crate::field::{byte, fixed};
use crate::function::function;
use luf_proto::Proto;
use std::alloc::Global;

/// What a chunk begins with.
const HEADER: [u8; 31] = [
    0x1b, b'L', b'u', b'a', 0x54, 0x00, 0x19, 0x93, 0x0d, 0x0a, 0x1a, 0x0a, 0x04, 0x08, 0x08, 0x78,
    0x56, 0x00, 0x00, 0x00, 0x00, 0x00, 0x00, 0x00, 0x00, 0x00, 0x00, 0x00, 0x28, 0x77, 0x40,
];

/// How deep functions may be nested, main being the first level.
const MOST_LEVELS: u32 = 201;

#[tactic(auto, unfolding(crate::specs::Reading::chunk_at))]
fn chunk(alloc: Global, bytes: &[u8]) -> Result<Proto, Stop>
    ensures { Gives function_of result (chunk_at bytes.now) }
{
    let rest = fixed(&HEADER, bytes)?;
    let (n, rest) = byte(rest)?;
    let (main, rest) = function(alloc, MOST_LEVELS, Some(n), rest)?;
    if rest.is_empty() {
        Ok(main)
    } else {
        Err(Stop::Bad {
            left: rest.len(),
            what: ChunkWhat::Trailing,
        })
    }
}

/// The function of a chunk, which all the bytes are.
///
/// `Bad` says at which byte the first field begins that is wrong, and how. No memory is taken for what a count says, only for what is there.
pub fn read_chunk(alloc: Global, bytes: &[u8]) -> Result<Proto, UndumpErr>
    requires { length bytes.now ≤ 4_194_304 }
    ensures ok { IfOk result (λ p. IsChunkOf bytes.now (function_of p)) }
    ensures exact { (f : Function) → IsChunkOf bytes.now f → MatchResult result (λ p. function_of p ≡ f) (λ e. e ≡ Memory) }
    ensures cause { IfErr result (λ e. HasCause bytes.now e) }
{
    match chunk(alloc, bytes) {
        Ok(p) => Ok(p),
        Err(Stop::Bad { left, what }) => Err(UndumpErr::Bad {
            at: bytes.len().saturating_sub(left) as u32,
            what,
        }),
        Err(Stop::Memory) => Err(UndumpErr::Memory),
    }
}
