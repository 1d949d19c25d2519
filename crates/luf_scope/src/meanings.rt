// What the variables of a chunk mean, in one sweep over its occurrences.
ghost use Rattle.std.specs.Prelude.{◌≡◌, ℕ, ◌<◌, ◌≤◌, ◌++◌, ◌∷◌, [], map, length, List, Some, IfSome, IfOk, OnOk, slice_index_or, All, AllPairs};
ghost use Rattle.luf_lex.specs.Cut.{IsCut};
ghost use Rattle.luf_scope.specs.Links.{spelling_in};
ghost use Rattle.luf_scope.specs.Order.{place};
ghost use Rattle.luf_scope.specs.inner.Buckets.{number_in};
ghost use Rattle.luf_scope.specs.inner.Scopes.{used_by, meant_by, meant_at};
ghost use Rattle.luf_scope.specs.declared.scopes.Scope.{Scope};
ghost use Rattle.luf_scope.specs.inner.Sweep.{IsSweep, AreRanged};

use crate::locals::spelled;
use crate::names::Names;
use crate::scopes::Scope;
use crate::stacks::{Held, top};
use crate::{Memory, Occurrence};
use luf_lex::Cut;
use std::alloc::Global;

// The scopes that have begun, of those that are in order: for each name a stack of its local variables. The place is
// that of the last variable that was looked up.
#[derive(Drop)]
struct Sweep {
    place: u32,
    entered: usize,
    stacks: Vec<Vec<Held<u32>>>,
}

// What each occurrence means that names a variable; None for those that name none.
pub fn meanings<'a>(
    alloc: Global,
    src: &'a [u8],
    cut: &Cut,
    os: &[Occurrence],
    names: &Names<'a>,
    scopes: &[Scope],
) -> Result<Vec<Option<u32>>, Memory>
    requires cut { IsCut src.now cut.now }
    requires scopes { AreRanged (number_in names.now.buckets.items) scopes.now }
    requires order { AllPairs (λ u v. place u ≤ place v) os.now }
    ensures { IfOk result (λ found. found.items ≡ map (meant_by (spelling_in src.now cut.now) (number_in names.now.buckets.items) scopes.now) os.now) }
{
    let mut sweep = Sweep {
        place: 0,
        entered: 0,
        stacks: empty_stacks(alloc, scopes.len())?,
    };
    let mut found = Vec::new(alloc);
    for o in os {
        found.push(sweep.meaning_of(src, cut, *o, names, scopes)?)?;
    }
    Ok(found)
}

// The variable that an occurrence names.
fn used_by(o: Occurrence) -> Option<u32>
    ensures used { result ≡ used_by o }
    ensures place { IfSome result (λ name. name ≡ place o) }
{
    match o {
        Occurrence::Reads(name) => Some(name),
        Occurrence::Assigns(name) => Some(name),
        Occurrence::Local { .. }
        | Occurrence::LocalFunction { .. }
        | Occurrence::Parameter { .. }
        | Occurrence::ImplicitSelf { .. }
        | Occurrence::LoopVariable { .. }
        | Occurrence::Field(_)
        | Occurrence::Varargs(_)
        | Occurrence::Function { .. }
        | Occurrence::Loop { .. }
        | Occurrence::Label { .. }
        | Occurrence::Goto { .. }
        | Occurrence::Break(_) => None,
    }
}

fn empty_stacks(alloc: Global, count: usize) -> Result<Vec<Vec<Held<u32>>>, Memory>
    ensures { IfOk result (λ stacks. (length stacks.items ≡ count) × All (λ s. s.items ≡ []) stacks.items) }
{
    let mut stacks = Vec::with_capacity(alloc, count)?;
    for _ in 0..count {
        stacks.push(Vec::new(alloc))?;
    }
    Ok(stacks)
}

impl Sweep {
    fn meaning_of<'a>(
        &mut self,
        src: &'a [u8],
        cut: &Cut,
        o: Occurrence,
        names: &Names<'a>,
        scopes: &[Scope],
    ) -> Result<Option<u32>, Memory>
        requires cut { IsCut src.now cut.now }
        requires scopes { AreRanged (number_in names.now.buckets.items) scopes.now }
        requires sweep { IsSweep scopes.now self.old.place self.old.entered self.old.stacks.items }
        requires ahead { self.old.place ≤ place o }
        ensures meaning { IfOk result (λ found. found ≡ meant_by (spelling_in src.now cut.now) (number_in names.now.buckets.items) scopes.now o) }
        ensures sweep { OnOk result (IsSweep scopes.now self.new.place self.new.entered self.new.stacks.items) }
        ensures place { OnOk result (self.new.place ≤ place o) }
    {
        match used_by(o) {
            Some(name) => self.look_up(src, cut, name, names, scopes),
            None => Ok(None),
        }
    }

    // What the name at a token means.
    fn look_up<'a>(
        &mut self,
        src: &'a [u8],
        cut: &Cut,
        token: u32,
        names: &Names<'a>,
        scopes: &[Scope],
    ) -> Result<Option<u32>, Memory>
        requires cut { IsCut src.now cut.now }
        requires scopes { AreRanged (number_in names.now.buckets.items) scopes.now }
        requires sweep { IsSweep scopes.now self.old.place self.old.entered self.old.stacks.items }
        requires ahead { self.old.place ≤ token }
        ensures meaning { IfOk result (λ found. found ≡ meant_at (number_in names.now.buckets.items) scopes.now token (spelling_in src.now cut.now token)) }
        ensures sweep { OnOk result (IsSweep scopes.now self.new.place self.new.entered self.new.stacks.items) }
        ensures place { OnOk result (self.new.place ≡ token) }
    {
        self.enter(token, scopes)?;
        match names.find(spelled(src, cut, token)) {
            Some(name) => Ok(top(&mut self.stacks[name as usize], token)),
            None => Ok(None),
        }
    }

    // Enters the scopes that have begun at a place.
    fn enter(&mut self, place: u32, scopes: &[Scope]) -> Result<(), Memory>
        requires names { All (λ s. s.name < length scopes.now) scopes.now }
        requires sweep { IsSweep scopes.now self.old.place self.old.entered self.old.stacks.items }
        requires ahead { self.old.place ≤ place }
        ensures sweep { OnOk result (IsSweep scopes.now place self.new.entered self.new.stacks.items) }
        ensures place { OnOk result (self.new.place ≡ place) }
        ensures done { OnOk result ((d : Scope) → self.new.entered < length scopes.now → place < (slice_index_or scopes.now self.new.entered d).from) }
    {
        while self.entered < scopes.len() && scopes[self.entered].from <= place {
            let s = scopes[self.entered];
            let held = Held {
                what: s.local,
                to: s.to,
            };
            self.stacks[s.name as usize].push(held)?;
            self.entered += 1;
        }
        self.place = place;
        Ok(())
    }
}
