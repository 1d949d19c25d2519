// Numbers in a row, of which the first that reaches a bound is found quickly.
ghost use Rattle.std.specs.Prelude.{◌≡◌, ℕ, ◌*◌, ◌/◌, ◌<◌, ◌≤◌, [], ◌∷◌, ◌++◌, length, replicate, slice_get, slice_index, slice_set, nat_le, IfOk, OnOk, OnErr};
ghost use Rattle.std.specs.List.{position_from};
ghost use Rattle.luf_interf.specs.inner.Maxima.{IsLonger};

use crate::Memory;
use std::alloc::Global;
use std::marker::Model;

/// How many numbers share one above them.
const WIDTH: usize = 64;

/// Numbers in a row. Contracts see the list of them.
///
/// Above them stand the greatest of each 64, above these again, and a third time, so that a search passes over whole
/// blocks. Nothing is less than what it stands above; that is all that the proof needs.
#[derive(Drop)]
pub(crate) struct Maxima {
    numbers: Vec<u32>,
    blocks: Vec<u32>,
    groups: Vec<u32>,
    tops: Vec<u32>,
}

impl Model for Maxima {
    ghost use Rattle.std.specs.Prelude.{ℕ, List};
    ghost use Rattle.luf_interf.specs.inner.Maxima.{AreLevels};

    ghost Value = { List ℕ };

    ghost view = { λ m. m.numbers.items };

    ghost invariant = { λ m. AreLevels m.numbers.items m.blocks.items m.groups.items m.tops.items };
}

impl Maxima {
    /// So many times one number.
    pub(crate) fn of(alloc: Global, count: usize, number: u32) -> Result<Maxima, Memory>
        ensures { IfOk result (λ m. m ≡ replicate count number) }
    {
        let blocks = count / WIDTH + 1;
        let groups = blocks / WIDTH + 1;
        let tops = groups / WIDTH + 1;
        Ok(Maxima {
            numbers: vec![in alloc; number; count]?,
            blocks: vec![in alloc; number; blocks]?,
            groups: vec![in alloc; number; groups]?,
            tops: vec![in alloc; number; tops]?,
        })
    }

    /// No numbers yet.
    pub(crate) fn new(alloc: Global) -> Maxima
        ensures { result ≡ [] }
    {
        Maxima {
            numbers: Vec::new(alloc),
            blocks: Vec::new(alloc),
            groups: Vec::new(alloc),
            tops: Vec::new(alloc),
        }
    }

    /// How many numbers there are.
    pub(crate) fn len(&self) -> usize
        ensures { result ≡ length self.now }
    {
        self.numbers.len()
    }

    /// The number at a place; none from the end on.
    pub(crate) fn at(&self, place: usize) -> Option<u32>
        ensures { result ≡ slice_get self.now place }
    {
        self.numbers.get(place).copied()
    }

    /// Puts a number at a place.
    pub(crate) fn set(&mut self, place: usize, number: u32)
        requires { place < length self.old }
        ensures { self.new ≡ slice_set self.old place number }
    {
        let block = place / WIDTH;
        let group = block / WIDTH;
        let top = group / WIDTH;
        self.numbers[place] = number;
        self.blocks[block] = greatest(self.numbers.as_slice(), block);
        self.groups[group] = greatest(self.blocks.as_slice(), group);
        self.tops[top] = greatest(self.groups.as_slice(), top);
    }

    /// Puts one number more at the end.
    pub(crate) fn push(&mut self, number: u32) -> Result<(), Memory>
        ensures ok { OnOk result (self.new ≡ self.old ++ number ∷ []) }
        ensures err { OnErr result (self.new ≡ self.old) }
    {
        let place = self.numbers.len();
        make_room(&mut self.tops, self.groups.len())?;
        make_room(&mut self.groups, self.blocks.len())?;
        make_room(&mut self.blocks, place)?;
        self.numbers.push(0)?;
        self.set(place, number);
        Ok(())
    }

    /// The first place of a number that is at least the bound.
    pub(crate) fn first(&self, bound: u32) -> Option<usize>
        ensures { result ≡ position_from (λ n. nat_le bound n) 0 self.now }
    {
        let top = first_from(self.tops.as_slice(), 0, bound)?;
        let group = first_from(self.groups.as_slice(), top.saturating_mul(WIDTH), bound)?;
        let block = first_from(self.blocks.as_slice(), group.saturating_mul(WIDTH), bound)?;
        first_from(self.numbers.as_slice(), block.saturating_mul(WIDTH), bound)
    }
}

/// Makes room above one number more.
fn make_room(above: &mut Vec<u32>, count: usize) -> Result<(), Memory>
    requires { count ≤ length above.old.items * 64 }
    ensures longer { IsLonger above.old.items above.new.items }
    ensures room { OnOk result (count < length above.new.items * 64) }
{
    if count / WIDTH >= above.len() {
        above.push(0)?;
    }
    Ok(())
}

/// At least each number of the block.
fn greatest(numbers: &[u32], block: usize) -> u32
    requires { block * 64 < length numbers.now }
    ensures { (i : ℕ) → i < length numbers.now → i / 64 ≡ block → slice_index numbers.now i ≤ result }
{
    let from = block * WIDTH;
    let to = from + (numbers.len() - from).min(WIDTH);
    let mut most = 0;
    for i in from..to {
        most = numbers[i].max(most);
    }
    most
}

/// The first place of a number that is at least the bound, where none before this place is.
fn first_from(numbers: &[u32], from: usize, bound: u32) -> Option<usize>
    requires { (i : ℕ) → i < from → i < length numbers.now → slice_index numbers.now i < bound }
    ensures { result ≡ position_from (λ n. nat_le bound n) 0 numbers.now }
{
    for i in from..numbers.len() {
        if numbers[i] >= bound {
            return Some(i);
        }
    }
    None
}
