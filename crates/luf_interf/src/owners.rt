// What the references of a chunk refer to.
ghost use Rattle.std.specs.Prelude.{◌≡◌, ℕ, ◌+◌, ◌<◌, ◌≤◌, ◌^◌, List, true, length, is_some, slice_get, count_by, OnOk, reverse, All};
ghost use Rattle.std.specs.List.{list_any};
ghost use Rattle.std.specs.Option.{option_map_or};
ghost use Rattle.luf_lex.specs.Cut.{IsCut};
ghost use Rattle.luf_lex.specs.Tokens.{toks_of};
ghost use Rattle.luf_scope.specs.Links.{spelling_in, AreLinks};
ghost use Rattle.luf_scope.specs.Order.{AreOrdered};
ghost use Rattle.luf_scope.specs.Role.{is_variable};
ghost use Rattle.luf_scope.specs.declared.occurrence.Occurrence.{Occurrence};
ghost use Rattle.luf_scope.specs.inner.Scopes as scopes;
ghost use Rattle.luf_interf.specs.declared.uses.Use.{Use};
ghost use Rattle.luf_interf.specs.inner.Owners.{IsFreeOwner, IsOwner, IsReading};
ghost use Rattle.luf_interf.specs.inner.Uses.{nowhere, AreFirsts, CanStand, IsTable, IsPut};

use crate::Memory;
use crate::naming::Table;
use crate::uses::{Owner, Use};
use luf_lex::Cut;
use luf_name::{is_barred, number_of};
use luf_scope::{Binder, Links, Occurrence, Role};

// The variable that an occurrence names.
fn used_by(o: Occurrence) -> Option<u32>
    ensures { result ≡ scopes.used_by o }
{
    match o {
        Occurrence::Reads(name) => Some(name),
        Occurrence::Assigns(name) => Some(name),
        Occurrence::Local { .. }
        | Occurrence::LocalFunction { .. }
        | Occurrence::Parameter { .. }
        | Occurrence::ImplicitSelf { .. }
        | Occurrence::LoopVariable { .. }
        | Occurrence::Field(_)
        | Occurrence::Varargs(_)
        | Occurrence::Function { .. }
        | Occurrence::Loop { .. }
        | Occurrence::Label { .. }
        | Occurrence::Goto { .. }
        | Occurrence::Break(_) => None,
    }
}

// How many occurrences name a variable.
pub fn count_references(os: &[Occurrence]) -> usize
    ensures { result ≡ count_by (λ o. is_some (scopes.used_by o)) os.now }
{
    os.iter().filter(|o| used_by(**o).is_some()).count()
}

// Whether the local variable of a number keeps its name.
pub fn keeps_name(binders: &[Binder], number: u32) -> bool
    ensures { result ≡ option_map_or (λ b. b.fixed) (slice_get binders.now number) true }
{
    match binders.get(number as usize) {
        Some(binder) => binder.fixed,
        None => true,
    }
}

// What a free name refers to.
fn free_owner(name: &[u8], size: usize) -> Option<Owner>
    requires { size ≤ 2 ^ 32 }
    ensures { IsFreeOwner size name.now result }
{
    match number_of(name) {
        Some(number) => {
            if is_barred(name) {
                None
            } else if (number as usize) < size {
                Some(Owner::Free(number))
            } else {
                None
            }
        }
        None => None,
    }
}

// What the reference at a token refers to, where local variables are given names of so many numbers.
fn owner_of(src: &[u8], cut: &Cut, l: &Links, token: u32, size: usize) -> Option<Owner>
    requires cut { IsCut src.now cut.now }
    requires size { size ≤ 2 ^ 32 }
    ensures { (os : List Occurrence) → AreOrdered 0 (length (toks_of cut.now)) (length (toks_of cut.now)) os → AreLinks (spelling_in src.now cut.now) os (length (toks_of cut.now)) l.now
        → list_any (is_variable token) os ≡ true → IsOwner (spelling_in src.now cut.now) os size token result }
{
    match l.at(token) {
        Some(Role::Refers(number)) => {
            if keeps_name(l.binders(), number) {
                None
            } else {
                Some(Owner::Local(number))
            }
        }
        Some(Role::Global) => free_owner(spelled(src, cut, token), size),
        Some(Role::Plain) => None,
        Some(Role::Declares(_)) => None,
        Some(Role::Field) => None,
        None => None,
    }
}

// How a token is spelled; nothing beyond the last one.
fn spelled<'a>(src: &'a [u8], cut: &Cut, token: u32) -> &'a [u8]
    requires { IsCut src.now cut.now }
    ensures { result.now ≡ spelling_in src.now cut.now token }
{
    match cut.spelling(src, token) {
        Some(word) => word,
        None => &src[..0],
    }
}

impl Table {
    // Puts a reference in front of those ahead.
    fn put(&mut self, token: u32, owner: Owner, firsts: &mut [u32]) -> Result<(), Memory>
        requires table { IsTable self.old.names.items self.old.behind.items self.old.heads (reverse self.old.uses.items) }
        requires before { token < nowhere }
        requires rising { All (λ u. token < u.token) (reverse self.old.uses.items) }
        requires owner { CanStand self.old.names.items (length self.old.heads) (length firsts.old) owner }
        requires firsts { AreFirsts firsts.old (reverse self.old.uses.items) }
        ensures table { OnOk result (IsTable self.new.names.items self.new.behind.items self.new.heads (reverse self.new.uses.items)) }
        ensures put { OnOk result (IsPut token owner (reverse self.old.uses.items) (reverse self.new.uses.items)) }
        ensures firsts { OnOk result (AreFirsts firsts.new (reverse self.new.uses.items)) }
        ensures names { self.new.names ≡ self.old.names }
        ensures behind { self.new.behind ≡ self.old.behind }
        ensures heads { length self.new.heads ≡ length self.old.heads }
    {
        match owner {
            Owner::Local(number) => {
                let next = firsts[number as usize];
                firsts[number as usize] = token;
                self.uses.push(Use { token, owner, next })?;
                Ok(())
            }
            Owner::Free(number) => {
                let next = self.heads.at(number as usize).unwrap();
                self.heads.set(number as usize, token);
                self.uses.push(Use { token, owner, next })?;
                Ok(())
            }
        }
    }

    // Reads the occurrence at a place, where those behind it are read.
    fn read_one(
        &mut self,
        src: &[u8],
        cut: &Cut,
        os: &[Occurrence],
        l: &Links,
        place: usize,
        firsts: &mut [u32],
    ) -> Result<(), Memory>
        requires cut { IsCut src.now cut.now }
        requires order { AreOrdered 0 (length (toks_of cut.now)) (length (toks_of cut.now)) os.now }
        requires links { AreLinks (spelling_in src.now cut.now) os.now (length (toks_of cut.now)) l.now }
        requires few { length (toks_of cut.now) < nowhere }
        requires within { place < length os.now }
        requires reading { IsReading (spelling_in src.now cut.now) os.now (place + 1) self.old.names.items self.old.behind.items self.old.heads firsts.old (reverse self.old.uses.items) }
        ensures reading { OnOk result (IsReading (spelling_in src.now cut.now) os.now place self.new.names.items self.new.behind.items self.new.heads firsts.new (reverse self.new.uses.items)) }
        ensures names { self.new.names ≡ self.old.names }
        ensures behind { self.new.behind ≡ self.old.behind }
        ensures heads { length self.new.heads ≡ length self.old.heads }
    {
        match used_by(os[place]) {
            Some(token) => match owner_of(src, cut, l, token, self.heads.len()) {
                Some(owner) => {
                    self.put(token, owner, firsts)?;
                    Ok(())
                }
                None => Ok(()),
            },
            None => Ok(()),
        }
    }

    // Reads the occurrences from the last one on.
    pub fn read(
        &mut self,
        src: &[u8],
        cut: &Cut,
        os: &[Occurrence],
        l: &Links,
        firsts: &mut [u32],
    ) -> Result<(), Memory>
        requires cut { IsCut src.now cut.now }
        requires order { AreOrdered 0 (length (toks_of cut.now)) (length (toks_of cut.now)) os.now }
        requires links { AreLinks (spelling_in src.now cut.now) os.now (length (toks_of cut.now)) l.now }
        requires few { length (toks_of cut.now) < nowhere }
        requires reading { IsReading (spelling_in src.now cut.now) os.now (length os.now) self.old.names.items self.old.behind.items self.old.heads firsts.old (reverse self.old.uses.items) }
        ensures reading { OnOk result (IsReading (spelling_in src.now cut.now) os.now 0 self.new.names.items self.new.behind.items self.new.heads firsts.new (reverse self.new.uses.items)) }
        ensures names { self.new.names ≡ self.old.names }
        ensures behind { self.new.behind ≡ self.old.behind }
        ensures heads { length self.new.heads ≡ length self.old.heads }
    {
        let mut left = os.len();
        while left > 0 {
            left -= 1;
            self.read_one(src, cut, os, l, left, firsts)?;
        }
        Ok(())
    }
}
