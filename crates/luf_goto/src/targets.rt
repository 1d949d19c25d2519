// The label that each goto goes to.
ghost use Rattle.std.specs.Prelude.{◌≡◌, ◌+◌, ◌<◌, ◌^◌, length, map, IfOk, All};
ghost use Rattle.std.specs.List.Sorted.{IsNonDecreasingBy};
ghost use Rattle.luf_goto.specs.inner.Rows.{block_extents, goto_spot, target_of, AreTargets};

use crate::Memory;
use crate::holders::{Extent, Spot};
use crate::innermost::innermost;
use crate::sites::{GotoRow, LabelRow};
use std::alloc::Global;

// Its number, where a goto sees a label of its name.
pub fn targets_of(
    alloc: Global,
    labels: &[LabelRow],
    gotos: &[GotoRow],
    classes: usize,
) -> Result<Vec<Option<u32>>, Memory>
    requires few { length labels.now < 2 ^ 32 }
    requires rising { IsNonDecreasingBy (λ g. g.token) gotos.now }
    requires labels_in { All (λ l. l.class < classes) labels.now }
    requires gotos_in { All (λ g. g.class < classes) gotos.now }
    ensures { IfOk result (λ targets. AreTargets labels.now gotos.now targets.items) }
{
    let mut blocks = block_extents(alloc, labels)?;
    let spots = goto_spots(alloc, gotos)?;
    let found = innermost(alloc, blocks.as_mut_slice(), classes, spots.as_slice())?;
    numbers_of(alloc, found.as_slice())
}

// The blocks of the labels, of which the first ones have the highest ranks.
fn block_extents(alloc: Global, labels: &[LabelRow]) -> Result<Vec<Extent>, Memory>
    requires { length labels.now < 2 ^ 32 }
    ensures { IfOk result (λ extents. extents.items ≡ block_extents 0 labels.now) }
{
    let mut extents = Vec::new(alloc);
    for (i, l) in labels.iter().enumerate() {
        extents.push(Extent {
            class: l.class,
            from: l.from,
            to: l.to,
            rank: u32::MAX - i as u32,
        })?;
    }
    Ok(extents)
}

fn goto_spots(alloc: Global, gotos: &[GotoRow]) -> Result<Vec<Spot>, Memory>
    ensures { IfOk result (λ spots. spots.items ≡ map goto_spot gotos.now) }
{
    let mut spots = Vec::new(alloc);
    for g in gotos {
        spots.push(Spot {
            class: g.class,
            place: g.token,
        })?;
    }
    Ok(spots)
}

// The numbers of labels by the ranks of their blocks.
fn numbers_of(alloc: Global, found: &[Option<Extent>]) -> Result<Vec<Option<u32>>, Memory>
    ensures { IfOk result (λ numbers. numbers.items ≡ map target_of found.now) }
{
    let mut numbers = Vec::new(alloc);
    for e in found {
        numbers.push(number_of(*e))?;
    }
    Ok(numbers)
}

fn number_of(found: Option<Extent>) -> Option<u32>
    ensures { result ≡ target_of found }
{
    Some(u32::MAX - found?.rank)
}
