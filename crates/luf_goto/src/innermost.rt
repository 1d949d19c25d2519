// Of the extents that hold a spot, the innermost.
ghost use Rattle.std.specs.Prelude.{◌≡◌, ◌<◌, ◌^◌, map, IfOk, All};
ghost use Rattle.std.specs.List.Sorted.{IsNonDecreasingBy, IsPermutation};
ghost use Rattle.luf_goto.specs.inner.Innermost.{key_of, extent_numbered, AreInnermost};

use crate::Memory;
use crate::holders::{Extent, Spot, last_holders};
use std::alloc::Global;

// For each spot, of the extents of its class that hold it the one that begins last; of those that begin at one place, the
// one of the highest rank. The extents are sorted for that. The places of the spots do not fall.
pub fn innermost(
    alloc: Global,
    extents: &mut [Extent],
    classes: usize,
    spots: &[Spot],
) -> Result<Vec<Option<Extent>>, Memory>
    requires rising { IsNonDecreasingBy (λ s. s.place) spots.now }
    requires ranks { All (λ e. e.rank < 2 ^ 32) extents.old }
    requires extents_in { All (λ e. e.class < classes) extents.old }
    requires spots_in { All (λ s. s.class < classes) spots.now }
    ensures { IfOk result (λ found. AreInnermost extents.old spots.now found.items) }
{
    sort(extents);
    let found = last_holders(alloc, extents, classes, spots)?;
    extents_at(alloc, extents, found.as_slice())
}

// By their beginnings, and of those that begin at one place by their ranks.
fn sort(extents: &mut [Extent])
    ensures permutation { IsPermutation extents.old extents.new }
    ensures sorted { IsNonDecreasingBy key_of extents.new }
{
    extents.sort_unstable_by_key(|e| u64::from(e.from) * 4294967296 + u64::from(e.rank));
}

fn extents_at(
    alloc: Global,
    extents: &[Extent],
    numbers: &[u32],
) -> Result<Vec<Option<Extent>>, Memory>
    ensures { IfOk result (λ at. at.items ≡ map (extent_numbered extents.now) numbers.now) }
{
    let mut at = Vec::new(alloc);
    for n in numbers {
        at.push(extent_at(extents, *n))?;
    }
    Ok(at)
}

// An extent by a number that is one higher; 0 is none.
fn extent_at(extents: &[Extent], n: u32) -> Option<Extent>
    ensures { result ≡ extent_numbered extents.now n }
{
    if n == 0 {
        return None;
    }
    extents.get(n as usize - 1).copied()
}
