// Breaks that no loop of their function holds.
ghost use Rattle.std.specs.Prelude.{◌≡◌, ◌<◌, IfOk, All, false};
ghost use Rattle.std.specs.List.Sorted.{IsNonDecreasingBy};
ghost use Rattle.luf_goto.specs.inner.Firsts.{first_where, is_held};

use crate::Memory;
use crate::firsts::first_spot;
use crate::holders::{Extent, Spot};
use std::alloc::Global;

// The first of them, by its token. The class of a loop and of a break is the number of its function, and there are fewer
// functions than this.
pub fn first_outside(
    alloc: Global,
    loops: &[Extent],
    breaks: &[Spot],
    functions: usize,
) -> Result<Option<u32>, Memory>
    requires sorted { IsNonDecreasingBy (λ e. e.from) loops.now }
    requires rising { IsNonDecreasingBy (λ s. s.place) breaks.now }
    requires loops_in { All (λ e. e.class < functions) loops.now }
    requires breaks_in { All (λ s. s.class < functions) breaks.now }
    ensures { IfOk result (λ first. first ≡ first_where (is_held loops.now false) breaks.now) }
{
    first_spot(alloc, loops, functions, breaks, false)
}
