// Gaps, each as the number of its kind: nearly all of a source are of a few kinds.
ghost use Rattle.std.specs.Prelude.{◌≡◌, ◌<◌, ◌++◌, [], ◌∷◌, true, get_or, length, take, IfOk, OnOk};

use luf_doc::{Chance, Gap};
use luf_memory::Memory;
use sqlite_items::Items;
use std::alloc::Global;
use std::marker::Model;

/// How many kinds of gap without notes there are.
const USUAL: usize = 20;

/// Gaps in order, where those that are alike and have no notes are held once. Contracts see their list.
#[derive(Drop)]
pub(crate) struct GapList {
    /// The number of each gap among the kinds.
    rows: Vec<u32>,
    /// The gaps that occur, and all without notes, which come first.
    kinds: Vec<Gap>,
}

impl Model for GapList {
    ghost use Rattle.std.specs.Prelude.{List, length};
    ghost use Rattle.luf_doc.specs.declared.doc.Gap.{Gap};
    ghost use Rattle.luf_style.specs.inner.GapList.{gaps_at, AreRows};

    ghost Value = { List Gap };

    ghost view = { λ g. gaps_at g.kinds.items g.rows.items };

    ghost invariant = { λ g. AreRows (length g.kinds.items) g.rows.items };
}

impl GapList {
    /// No gaps, with room for so many.
    pub fn new(alloc: Global, count: usize) -> Result<GapList, Memory>
        ensures { IfOk result (λ gaps. gaps ≡ []) }
    {
        Ok(GapList {
            rows: Vec::with_capacity(alloc, count)?,
            kinds: usual_kinds(alloc)?,
        })
    }

    /// One gap more.
    pub fn push(&mut self, gap: Gap) -> Result<(), Memory>
        ensures { OnOk result (self.new ≡ self.old ++ gap ∷ []) }
    {
        let row = row_of(&mut self.kinds, gap)?;
        self.rows.push(row)?;
        Ok(())
    }

    pub fn len(&self) -> usize
        ensures { result ≡ length self.now }
    {
        self.rows.len()
    }

    /// Gap `n`.
    pub fn get(&self, n: usize) -> &Gap
        requires { n < length self.now }
        ensures { result.now ≡ get_or self.now n result.now }
    {
        &self.kinds[self.rows[n] as usize]
    }
}

/// The kinds of gap without notes, each at its `usual_row`.
fn usual_kinds(alloc: Global) -> Result<Vec<Gap>, Memory> {
    let mut kinds = Vec::with_capacity(alloc, USUAL)?;
    for chance in [
        Chance::Tight,
        Chance::Space,
        Chance::Soft,
        Chance::Line,
        Chance::Hard,
    ] {
        for deeper in [false, true] {
            for blank in [false, true] {
                kinds.push(Gap {
                    chance,
                    notes: Items::new(alloc),
                    blank,
                    deeper,
                })?;
            }
        }
    }
    Ok(kinds)
}

/// Where the kind of a gap without notes stands.
fn usual_row(gap: &Gap) -> u32 {
    let chance = match gap.chance {
        Chance::Tight => 0,
        Chance::Space => 4,
        Chance::Soft => 8,
        Chance::Line => 12,
        Chance::Hard => 16,
    };
    chance + 2 * u32::from(gap.deeper) + u32::from(gap.blank)
}

/// Whether two gaps without notes are the same.
fn are_same(one: &Gap, other: &Gap) -> bool
    ensures { result ≡ true → one.now ≡ other.now }
{
    one.chance == other.chance
        && one.blank == other.blank
        && one.deeper == other.deeper
        && one.notes.is_empty()
        && other.notes.is_empty()
}

/// Whether a gap without notes is one of these, at this place.
fn is_at(kinds: &[Gap], row: u32, gap: &Gap) -> bool
    ensures { result ≡ true → (row < length kinds.now) × (get_or kinds.now row gap.now ≡ gap.now) }
{
    match kinds.get(row as usize) {
        Some(kind) => are_same(kind, gap),
        None => false,
    }
}

/// The number of a gap among the kinds. It is added to them unless its kind stands at its `usual_row`.
fn row_of(kinds: &mut Vec<Gap>, gap: Gap) -> Result<u32, Memory>
    ensures before { take (length kinds.old.items) kinds.new.items ≡ kinds.old.items }
    ensures row { IfOk result (λ row. (row < length kinds.new.items) × (get_or kinds.new.items row gap ≡ gap)) }
{
    let usual = usual_row(&gap);
    if is_at(kinds.as_slice(), usual, &gap) {
        return Ok(usual);
    }
    let Ok(row) = u32::try_from(kinds.len()) else {
        return Err(Memory);
    };
    kinds.push(gap)?;
    Ok(row)
}
