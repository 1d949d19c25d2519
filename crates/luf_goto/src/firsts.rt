// The first spot that some extent holds, or that none does.
ghost use Rattle.std.specs.Prelude.{◌≡◌, ◌<◌, IfOk, All};
ghost use Rattle.std.specs.List.Sorted.{IsNonDecreasingBy};
ghost use Rattle.luf_goto.specs.inner.Firsts.{first_where, is_held, is_wanted};

use crate::Memory;
use crate::holders::{Extent, Spot, last_holders};
use std::alloc::Global;

pub fn first_spot(
    alloc: Global,
    extents: &[Extent],
    classes: usize,
    spots: &[Spot],
    held: bool,
) -> Result<Option<u32>, Memory>
    requires sorted { IsNonDecreasingBy (λ e. e.from) extents.now }
    requires rising { IsNonDecreasingBy (λ s. s.place) spots.now }
    requires extents_in { All (λ e. e.class < classes) extents.now }
    requires spots_in { All (λ s. s.class < classes) spots.now }
    ensures { IfOk result (λ first. first ≡ first_where (is_held extents.now held) spots.now) }
{
    let found = last_holders(alloc, extents, classes, spots)?;
    for (i, s) in spots.iter().enumerate() {
        if is_wanted(found[i], held) {
            return Ok(Some(s.place));
        }
    }
    Ok(None)
}

// Whether a number that is one higher is that of an extent, or is not.
fn is_wanted(n: u32, held: bool) -> bool
    ensures { result ≡ is_wanted n held }
{
    (n > 0) == held
}
