// The innermost local variable that is active at each label.
ghost use Rattle.std.specs.Prelude.{◌≡◌, map, IfOk};
ghost use Rattle.std.specs.List.{filter_map};
ghost use Rattle.std.specs.List.Sorted.{IsNonDecreasingBy};
ghost use Rattle.luf_goto.specs.inner.Innermost.{AreInnermost};
ghost use Rattle.luf_goto.specs.inner.Rows.{scope_extent, scope_spot};

use crate::Memory;
use crate::holders::{Extent, Spot};
use crate::innermost::innermost;
use crate::sites::LabelRow;
use luf_scope::Occurrence;
use std::alloc::Global;

// Of those that begin at one place the one that ends first. Most chunks have no labels.
pub fn scopes_of(
    alloc: Global,
    os: &[Occurrence],
    labels: &[LabelRow],
) -> Result<Vec<Option<Extent>>, Memory>
    requires { IsNonDecreasingBy (λ l. l.name) labels.now }
    ensures { IfOk result (λ scopes. AreInnermost (filter_map scope_extent os.now) (map scope_spot labels.now) scopes.items) }
{
    if labels.is_empty() {
        return Ok(Vec::new(alloc));
    }
    let mut scopes = scope_extents(alloc, os)?;
    let spots = scope_spots(alloc, labels)?;
    innermost(alloc, scopes.as_mut_slice(), 1, spots.as_slice())
}

fn scope_extents(alloc: Global, os: &[Occurrence]) -> Result<Vec<Extent>, Memory>
    ensures { IfOk result (λ extents. extents.items ≡ filter_map scope_extent os.now) }
{
    let mut extents = Vec::new(alloc);
    for o in os {
        if let Some(e) = scope_extent(o) {
            extents.push(e)?;
        }
    }
    Ok(extents)
}

// Where a local variable is active.
fn scope_extent(o: &Occurrence) -> Option<Extent>
    ensures { result ≡ scope_extent o.now }
{
    match *o {
        Occurrence::Local { from, to, .. }
        | Occurrence::LocalFunction { from, to, .. }
        | Occurrence::Parameter { from, to, .. }
        | Occurrence::ImplicitSelf { from, to, .. }
        | Occurrence::LoopVariable { from, to, .. } => Some(Extent {
            class: 0,
            from,
            to,
            rank: u32::MAX - to,
        }),
        _ => None,
    }
}

fn scope_spots(alloc: Global, labels: &[LabelRow]) -> Result<Vec<Spot>, Memory>
    ensures { IfOk result (λ spots. spots.items ≡ map scope_spot labels.now) }
{
    let mut spots = Vec::new(alloc);
    for l in labels {
        spots.push(Spot {
            class: 0,
            place: l.name,
        })?;
    }
    Ok(spots)
}
