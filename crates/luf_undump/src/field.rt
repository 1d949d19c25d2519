//! Single fields.
ghost use Rattle.std.specs.Prelude.{◌≡◌};
ghost use Rattle.luf_undump.specs.Reading.{byte_at, fixed_at, fixed_byte_at, flag_at, number_at, run_at, word_at, many_at};
ghost use Rattle.luf_undump.specs.inner.Gives.{Gives};

use crate::error::{ChunkWhat, Stop};
use std::alloc::Global;

#[tactic(auto, unfolding(crate::specs::Reading::byte_at))]
pub fn byte(bytes: &[u8]) -> Result<(u8, &[u8]), Stop>
    ensures { Gives (λ x. (x.0, x.1.now)) result (byte_at bytes.now) }
{
    match bytes {
        [byte, rest @ ..] => Ok((*byte, rest)),
        [] => Err(Stop::Bad {
            left: 0,
            what: ChunkWhat::Short,
        }),
    }
}

/// A byte that is 0 or 1.
#[tactic(auto, unfolding(crate::specs::Reading::flag_at))]
pub fn flag(bytes: &[u8]) -> Result<(bool, &[u8]), Stop>
    ensures { Gives (λ x. (x.0, x.1.now)) result (flag_at bytes.now) }
{
    let (b, rest) = byte(bytes)?;
    if b == 0 {
        Ok((false, rest))
    } else if b == 1 {
        Ok((true, rest))
    } else {
        Err(Stop::Bad {
            left: bytes.len(),
            what: ChunkWhat::BadTag,
        })
    }
}

/// So many bytes, as one field.
#[tactic(auto, unfolding(crate::specs::Reading::run_at))]
pub fn run(len: u64, bytes: &[u8]) -> Result<(&[u8], &[u8]), Stop>
    ensures { Gives (λ x. (x.0.now, x.1.now)) result (run_at len bytes.now) }
{
    if (bytes.len() as u64) < len {
        return Err(Stop::Bad {
            left: bytes.len(),
            what: ChunkWhat::Short,
        });
    }
    Ok(bytes.split_at(len as usize))
}

#[tactic(auto, unfolding(crate::specs::Reading::word_at))]
fn word(bytes: &[u8]) -> Result<(u32, &[u8]), Stop>
    ensures { Gives (λ x. (x.0, x.1.now)) result (word_at bytes.now) }
{
    if bytes.len() < 4 {
        return Err(Stop::Bad {
            left: bytes.len(),
            what: ChunkWhat::Short,
        });
    }
    let (front, rest) = bytes.split_at(4);
    Ok((
        u32::from_le_bytes([front[0], front[1], front[2], front[3]]),
        rest,
    ))
}

#[tactic(auto, unfolding(crate::specs::Reading::number_at))]
pub fn number(bytes: &[u8]) -> Result<(u64, &[u8]), Stop>
    ensures { Gives (λ x. (x.0, x.1.now)) result (number_at bytes.now) }
{
    if bytes.len() < 8 {
        return Err(Stop::Bad {
            left: bytes.len(),
            what: ChunkWhat::Short,
        });
    }
    let (front, rest) = bytes.split_at(8);
    let number = u64::from_le_bytes([
        front[0], front[1], front[2], front[3], front[4], front[5], front[6], front[7],
    ]);
    Ok((number, rest))
}

/// So many instructions.
pub fn words(alloc: Global, count: u32, bytes: &[u8]) -> Result<(Vec<u32>, &[u8]), Stop>
    ensures { Gives (λ x. (x.0.items, x.1.now)) result (many_at word_at count bytes.now) }
{
    let mut words = Vec::new(alloc);
    let mut rest = bytes;
    for _ in 0..count {
        let (word, after) = word(rest)?;
        words.push(word)?;
        rest = after;
    }
    Ok((words, rest))
}

/// A byte that must be this one.
#[tactic(auto, unfolding(crate::specs::Reading::fixed_byte_at))]
fn fixed_byte(wanted: u8, bytes: &[u8]) -> Result<&[u8], Stop>
    ensures { Gives (λ x. x.now) result (fixed_byte_at wanted bytes.now) }
{
    let [byte, rest @ ..] = bytes else {
        return Err(Stop::Bad {
            left: 0,
            what: ChunkWhat::Short,
        });
    };
    if *byte == wanted {
        Ok(rest)
    } else {
        Err(Stop::Bad {
            left: bytes.len(),
            what: ChunkWhat::BadHeader,
        })
    }
}

/// Bytes that must be these.
pub fn fixed<'a>(wanted: &[u8], bytes: &'a [u8]) -> Result<&'a [u8], Stop>
    ensures { Gives (λ x. x.now) result (fixed_at wanted.now bytes.now) }
{
    let mut rest = bytes;
    for want in wanted {
        let after = fixed_byte(*want, rest)?;
        rest = after;
    }
    Ok(rest)
}
