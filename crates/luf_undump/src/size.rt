//! Sizes and counts.
ghost use Rattle.std.specs.Prelude.{◌≡◌, ◌*◌, ◌^◌, ◌<◌, ◌≤◌, length, MatchOption};
ghost use Rattle.std.specs.List.{prefix_len};
ghost use Rattle.luf_undump.specs.Reading.{count_at, is_group, last_group_at, size_at, value_of_groups};
ghost use Rattle.luf_undump.specs.inner.Gives.{Gives};

use crate::error::{ChunkWhat, Stop};

/// The number that groups of 7 bits write, and `None` from 2^57 on.
fn groups_value(groups: &[u8]) -> Option<u64>
    ensures { MatchOption result (2 ^ 57 ≤ value_of_groups groups.now) (λ n. (n ≡ value_of_groups groups.now) × (n < 2 ^ 57)) }
{
    // A byte more than the number has room for.
    let mut value = 0u128;
    for group in groups {
        value = value * 128 + u128::from(*group);
        if value >= 1 << 57 {
            return None;
        }
    }
    Some(value as u64)
}

/// A size whose groups but the last are these.
#[tactic(auto, unfolding(crate::specs::Reading::last_group_at))]
fn last_group<'a>(bytes: &'a [u8], groups: &[u8], rest: &'a [u8]) -> Result<(u64, &'a [u8]), Stop>
    ensures { Gives (λ x. (x.0, x.1.now)) result (last_group_at bytes.now groups.now rest.now) }
{
    let [last, rest @ ..] = rest else {
        return Err(Stop::Bad {
            left: bytes.len(),
            what: ChunkWhat::Short,
        });
    };
    if let [0, ..] = groups {
        return Err(Stop::Bad {
            left: bytes.len(),
            what: ChunkWhat::BadSize,
        });
    }
    match groups_value(groups) {
        Some(value) => Ok((value * 128 + u64::from(*last % 128), rest)),
        None => Err(Stop::Bad {
            left: bytes.len(),
            what: ChunkWhat::BadSize,
        }),
    }
}

/// How many groups come before the last.
fn groups_len(bytes: &[u8]) -> usize
    ensures within { result ≤ length bytes.now }
    ensures len { result ≡ prefix_len is_group bytes.now }
{
    bytes.iter().take_while(|byte| **byte < 128).count()
}

/// A size below 2^64.
#[tactic(auto, unfolding(crate::specs::Reading::size_at))]
pub fn size(bytes: &[u8]) -> Result<(u64, &[u8]), Stop>
    ensures { Gives (λ x. (x.0, x.1.now)) result (size_at bytes.now) }
{
    let len = groups_len(bytes);
    let (groups, rest) = bytes.split_at(len);
    last_group(bytes, groups, rest)
}

/// A count, a line or a counter, below 2^31.
#[tactic(auto, unfolding(crate::specs::Reading::count_at))]
pub fn count(bytes: &[u8]) -> Result<(u32, &[u8]), Stop>
    ensures { Gives (λ x. (x.0, x.1.now)) result (count_at bytes.now) }
{
    let (n, rest) = size(bytes)?;
    if n < 1 << 31 {
        Ok((n as u32, rest))
    } else {
        Err(Stop::Bad {
            left: bytes.len(),
            what: ChunkWhat::BadSize,
        })
    }
}
