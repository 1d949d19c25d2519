// Labels whose name an earlier label has that is seen there.
ghost use Rattle.std.specs.Prelude.{◌≡◌, ◌<◌, map, IfOk, All, true};
ghost use Rattle.std.specs.List.Sorted.{IsNonDecreasingBy};
ghost use Rattle.luf_goto.specs.inner.Firsts.{first_where, is_held};
ghost use Rattle.luf_goto.specs.inner.Rows.{seen_extent, name_spot};

use crate::Memory;
use crate::firsts::first_spot;
use crate::holders::{Extent, Spot};
use crate::sites::LabelRow;
use std::alloc::Global;

// The first of them, by its token.
pub fn first_twice(
    alloc: Global,
    labels: &[LabelRow],
    classes: usize,
) -> Result<Option<u32>, Memory>
    requires rising { IsNonDecreasingBy (λ l. l.name) labels.now }
    requires classes { All (λ l. l.class < classes) labels.now }
    ensures { IfOk result (λ first. first ≡ first_where (is_held (map seen_extent labels.now) true) (map name_spot labels.now)) }
{
    let extents = seen_extents(alloc, labels)?;
    let spots = name_spots(alloc, labels)?;
    first_spot(alloc, extents.as_slice(), classes, spots.as_slice(), true)
}

// Where a label is seen by later ones: behind its own token, up to the end of its block.
fn seen_extents(alloc: Global, labels: &[LabelRow]) -> Result<Vec<Extent>, Memory>
    ensures { IfOk result (λ extents. extents.items ≡ map seen_extent labels.now) }
{
    let mut extents = Vec::new(alloc);
    for l in labels {
        extents.push(Extent {
            class: l.class,
            from: l.name.saturating_add(1),
            to: l.to,
            rank: 0,
        })?;
    }
    Ok(extents)
}

fn name_spots(alloc: Global, labels: &[LabelRow]) -> Result<Vec<Spot>, Memory>
    ensures { IfOk result (λ spots. spots.items ≡ map name_spot labels.now) }
{
    let mut spots = Vec::new(alloc);
    for l in labels {
        spots.push(Spot {
            class: l.class,
            place: l.name,
        })?;
    }
    Ok(spots)
}
