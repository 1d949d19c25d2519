// Of many extents, the last that holds a place.
ghost use Rattle.std.specs.Prelude.{◌≡◌, ℕ, ◌+◌, ◌<◌, ◌≤◌, ◌^◌, length, map, vec_len, IfOk, All};
ghost use Rattle.std.specs.List.Sorted.{IsNonDecreasingBy};
ghost use Rattle.luf_goto.specs.inner.Holders.{last_holding, one_higher, extent_at, IsTrail, IsBound};

use crate::Memory;
use std::alloc::Global;

// The tokens from `from` up to `to`. Only extents of one class are looked for together; the rank is the caller's own.
#[derive(Clone, Copy)]
pub struct Extent {
    pub class: u32,
    pub from: u32,
    pub to: u32,
    pub rank: u32,
}

// A place, and the class of the extents that are looked for there.
#[derive(Clone, Copy)]
pub struct Spot {
    pub class: u32,
    pub place: u32,
}

// What is known of the first extents, at a place.
#[derive(Drop)]
struct Trail {
    next: u32,
    last: Vec<u32>,
    before: Vec<u32>,
}

impl Trail {
    // The last of the first extents that holds the spot, by a number that is one higher; 0 is none.
    fn live(&self, extents: &[Extent], spot: Spot) -> u32
        requires trail { IsTrail extents.now spot.place self.now.next self.now.last.items self.now.before.items }
        requires class { spot.class < vec_len self.now.last }
        ensures bound { IsBound extents.now self.now.next spot.class spot.place result }
        ensures last { (t : ℕ) → result ≡ t + 1 → spot.place < (extent_at extents.now t).to }
    {
        let mut top = self.last[spot.class as usize];
        while top > 0 && extents[top as usize - 1].to <= spot.place {
            top = self.before[top as usize - 1];
        }
        top
    }

    // One extent more, that begins at the place or before it.
    fn enter(&mut self, extents: &[Extent], place: u32)
        requires trail { IsTrail extents.now place self.old.next self.old.last.items self.old.before.items }
        requires more { self.old.next < length extents.now }
        requires few { length extents.now < 2 ^ 32 }
        requires begun { (extent_at extents.now self.old.next).from ≤ place }
        requires class { (extent_at extents.now self.old.next).class < vec_len self.old.last }
        ensures trail { IsTrail extents.now place self.new.next self.new.last.items self.new.before.items }
        ensures next { self.new.next ≡ self.old.next + 1 }
        ensures classes { vec_len self.new.last ≡ vec_len self.old.last }
    {
        let class = extents[self.next as usize].class;
        let top = self.live(extents, Spot { class, place });
        self.before[self.next as usize] = top;
        self.next += 1;
        self.last[class as usize] = self.next;
    }

    // The last extent that holds the spot, where the places do not fall from call to call.
    fn settle(&mut self, extents: &[Extent], spot: Spot) -> u32
        requires trail { IsTrail extents.now spot.place self.old.next self.old.last.items self.old.before.items }
        requires class { spot.class < vec_len self.old.last }
        ensures trail { IsTrail extents.now spot.place self.new.next self.new.last.items self.new.before.items }
        ensures next { self.new.next ≡ self.old.next }
        ensures classes { vec_len self.new.last ≡ vec_len self.old.last }
        ensures bound { IsBound extents.now self.old.next spot.class spot.place result }
        ensures last { (t : ℕ) → result ≡ t + 1 → spot.place < (extent_at extents.now t).to }
    {
        let top = self.live(extents, spot);
        self.last[spot.class as usize] = top;
        top
    }

    // The last extent that holds the spot, by a number that is one higher; 0 is none.
    fn last_holder(&mut self, extents: &[Extent], spot: Spot) -> u32
        requires few { length extents.now < 2 ^ 32 }
        requires sorted { IsNonDecreasingBy (λ e. e.from) extents.now }
        requires extents_in { All (λ e. e.class < vec_len self.old.last) extents.now }
        requires spot_in { spot.class < vec_len self.old.last }
        requires trail { IsTrail extents.now spot.place self.old.next self.old.last.items self.old.before.items }
        ensures trail { IsTrail extents.now spot.place self.new.next self.new.last.items self.new.before.items }
        ensures classes { vec_len self.new.last ≡ vec_len self.old.last }
        ensures found { result ≡ one_higher (last_holding extents.now spot) }
    {
        while (self.next as usize) < extents.len()
            && extents[self.next as usize].from <= spot.place
        {
            self.enter(extents, spot.place);
        }
        self.settle(extents, spot)
    }
}

// Of the extents, in the order in which they begin, the last one of its class that holds each spot, where the places of
// the spots do not fall. Each number is one higher, and 0 is none. The only error is that no memory was found, or that
// there are more extents than numbers. Time and memory are linear.
pub fn last_holders(
    alloc: Global,
    extents: &[Extent],
    classes: usize,
    spots: &[Spot],
) -> Result<Vec<u32>, Memory>
    requires sorted { IsNonDecreasingBy (λ e. e.from) extents.now }
    requires rising { IsNonDecreasingBy (λ s. s.place) spots.now }
    requires extents_in { All (λ e. e.class < classes) extents.now }
    requires spots_in { All (λ s. s.class < classes) spots.now }
    ensures found { IfOk result (λ found. found.items ≡ map (λ s. one_higher (last_holding extents.now s)) spots.now) }
    ensures few { IfOk result (λ found. length extents.now < 2 ^ 32) }
{
    if extents.len() > u32::MAX as usize {
        return Err(Memory);
    }
    let mut trail = Trail {
        next: 0,
        last: vec![in alloc; 0; classes]?,
        before: vec![in alloc; 0; extents.len()]?,
    };
    let mut found = Vec::new(alloc);
    for s in spots {
        found.push(trail.last_holder(extents, *s))?;
    }
    Ok(found)
}
