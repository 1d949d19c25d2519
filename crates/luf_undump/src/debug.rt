//! What only debugging reads, which is skipped.
ghost use Rattle.std.specs.Prelude.{◌≡◌};
ghost use Rattle.luf_undump.specs.Reading.{debug_at, debug_string_at, distances_at, line_at, local_at, skip_at};
ghost use Rattle.luf_undump.specs.inner.Gives.{Gives};

use crate::error::{ChunkWhat, Stop};
use crate::field::run;
use crate::size::{count, size};

/// A string that may be absent.
#[tactic(auto, unfolding(crate::specs::Reading::debug_string_at))]
pub fn debug_string(bytes: &[u8]) -> Result<&[u8], Stop>
    ensures { Gives (λ x. x.now) result (debug_string_at bytes.now) }
{
    let (n, rest) = size(bytes)?;
    let (_, rest) = run(n.saturating_sub(1), rest)?;
    Ok(rest)
}

/// A counter and its line.
#[tactic(auto, unfolding(crate::specs::Reading::line_at))]
fn line(bytes: &[u8]) -> Result<&[u8], Stop>
    ensures { Gives (λ x. x.now) result (line_at bytes.now) }
{
    let (_, rest) = count(bytes)?;
    let (_, rest) = count(rest)?;
    Ok(rest)
}

/// A local, and where it is active.
#[tactic(auto, unfolding(crate::specs::Reading::local_at))]
fn local(bytes: &[u8]) -> Result<&[u8], Stop>
    ensures { Gives (λ x. x.now) result (local_at bytes.now) }
{
    line(debug_string(bytes)?)
}

fn lines(count: u32, bytes: &[u8]) -> Result<&[u8], Stop>
    ensures { Gives (λ x. x.now) result (skip_at line_at count bytes.now) }
{
    let mut rest = bytes;
    for _ in 0..count {
        let after = line(rest)?;
        rest = after;
    }
    Ok(rest)
}

fn locals(count: u32, bytes: &[u8]) -> Result<&[u8], Stop>
    ensures { Gives (λ x. x.now) result (skip_at local_at count bytes.now) }
{
    let mut rest = bytes;
    for _ in 0..count {
        let after = local(rest)?;
        rest = after;
    }
    Ok(rest)
}

fn names(count: u32, bytes: &[u8]) -> Result<&[u8], Stop>
    ensures { Gives (λ x. x.now) result (skip_at debug_string_at count bytes.now) }
{
    let mut rest = bytes;
    for _ in 0..count {
        let after = debug_string(rest)?;
        rest = after;
    }
    Ok(rest)
}

/// Distances of lines, a byte each.
#[tactic(auto, unfolding(crate::specs::Reading::distances_at))]
fn distances(bytes: &[u8]) -> Result<&[u8], Stop>
    ensures { Gives (λ x. x.now) result (distances_at bytes.now) }
{
    let (n, rest) = count(bytes)?;
    let n = n as usize;
    if rest.len() < n {
        return Err(Stop::Bad {
            left: 0,
            what: ChunkWhat::Short,
        });
    }
    let (_, rest) = rest.split_at(n);
    Ok(rest)
}

#[tactic(auto, unfolding(crate::specs::Reading::debug_at))]
pub fn debug(bytes: &[u8]) -> Result<&[u8], Stop>
    ensures { Gives (λ x. x.now) result (debug_at bytes.now) }
{
    let rest = distances(bytes)?;
    let (n, rest) = count(rest)?;
    let rest = lines(n, rest)?;
    let (n, rest) = count(rest)?;
    let rest = locals(n, rest)?;
    let (n, rest) = count(rest)?;
    names(n, rest)
}
