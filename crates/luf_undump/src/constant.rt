//! Constants.
ghost use Rattle.std.specs.Prelude.{◌≡◌};
ghost use Rattle.luf_undump.specs.Reading.{constant_at, constant_string_at, has_length, many_at, tagged_at};
ghost use Rattle.luf_undump.specs.inner.Gives.{Gives};

use crate::error::{ChunkWhat, Stop};
use crate::field::{byte, number, run};
use crate::size::size;
use luf_proto::Const;
use luf_text::Bytes;
use std::alloc::Global;

/// The longest string of the tag of short ones (LUAI_MAXSHORTLEN of llimits.h).
const MOST_SHORT: u64 = 40;

/// Whether a short string has this length, or a long one.
fn has_length(short: bool, len: u64) -> bool
    ensures { result ≡ has_length short len }
{
    if short {
        len <= MOST_SHORT
    } else {
        MOST_SHORT < len
    }
}

/// The string of a constant, short or long.
#[tactic(auto, unfolding(crate::specs::Reading::constant_string_at))]
fn constant_string(alloc: Global, short: bool, bytes: &[u8]) -> Result<(Const, &[u8]), Stop>
    ensures { Gives (λ x. (x.0, x.1.now)) result (constant_string_at short bytes.now) }
{
    let (n, rest) = size(bytes)?;
    if n == 0 {
        return Err(Stop::Bad {
            left: bytes.len(),
            what: ChunkWhat::BadSize,
        });
    }
    if !has_length(short, n - 1) {
        return Err(Stop::Bad {
            left: bytes.len(),
            what: ChunkWhat::BadSize,
        });
    }
    let (s, rest) = run(n - 1, rest)?;
    let s = Bytes::copy(alloc, s)?;
    Ok((Const::Str(s), rest))
}

/// What stands behind the tag of a constant, which begins the bytes.
#[tactic(auto, unfolding(crate::specs::Reading::tagged_at))]
fn tagged<'a>(
    alloc: Global,
    bytes: &'a [u8],
    tag: u8,
    rest: &'a [u8],
) -> Result<(Const, &'a [u8]), Stop>
    ensures { Gives (λ x. (x.0, x.1.now)) result (tagged_at bytes.now tag rest.now) }
{
    if tag == 0 {
        Ok((Const::Nil, rest))
    } else if tag == 1 {
        Ok((Const::False, rest))
    } else if tag == 17 {
        Ok((Const::True, rest))
    } else if tag == 3 {
        let (n, rest) = number(rest)?;
        Ok((Const::Int(n.cast_signed()), rest))
    } else if tag == 19 {
        let (word, rest) = number(rest)?;
        Ok((Const::Word(word), rest))
    } else if tag == 4 {
        constant_string(alloc, true, rest)
    } else if tag == 20 {
        constant_string(alloc, false, rest)
    } else {
        Err(Stop::Bad {
            left: bytes.len(),
            what: ChunkWhat::BadTag,
        })
    }
}

#[tactic(auto, unfolding(crate::specs::Reading::constant_at))]
fn constant(alloc: Global, bytes: &[u8]) -> Result<(Const, &[u8]), Stop>
    ensures { Gives (λ x. (x.0, x.1.now)) result (constant_at bytes.now) }
{
    let (tag, rest) = byte(bytes)?;
    tagged(alloc, bytes, tag, rest)
}

/// So many constants.
pub fn constants(alloc: Global, count: u32, bytes: &[u8]) -> Result<(Vec<Const>, &[u8]), Stop>
    ensures { Gives (λ x. (x.0.items, x.1.now)) result (many_at constant_at count bytes.now) }
{
    let mut constants = Vec::new(alloc);
    let mut rest = bytes;
    for _ in 0..count {
        let (constant, after) = constant(alloc, rest)?;
        constants.push(constant)?;
        rest = after;
    }
    Ok((constants, rest))
}
