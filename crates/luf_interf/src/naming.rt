// New names of local variables, one after another in the order in which their scopes begin.
ghost use Rattle.std.specs.Prelude.{◌≡◌, ℕ, ◌+◌, ◌<◌, ◌≤◌, ◌++◌, ◌∷◌, List, true, length, reverse, slice_index_or, slice_set, All};
ghost use Rattle.luf_interf.specs.declared.uses.Use.{Use};
ghost use Rattle.luf_interf.specs.inner.Uses as uses;
ghost use Rattle.luf_interf.specs.inner.Uses.{nowhere, first_token, is_of, next_of, IsPassed, IsTable, IsChoice, AreScopes, AreNamed};

use crate::maxima::Maxima;
use crate::uses::{Owner, Scope, Use};

// The next use of each name from a place on: `heads` has its token by the number of the name, and 0 for a barred one.
// The references ahead are kept with the next one last; `behind` has for each local variable what came next of its name
// when it was given it.
#[derive(Drop)]
pub struct Table {
    pub heads: Maxima,
    pub uses: Vec<Use>,
    pub names: Vec<u32>,
    pub behind: Vec<u32>,
}

// The number at a place, u32::MAX where there is none.
pub fn number_at(numbers: &[u32], place: u32) -> u32
    ensures { result ≡ slice_index_or numbers.now place nowhere }
{
    match numbers.get(place as usize) {
        Some(number) => *number,
        None => u32::MAX,
    }
}

impl Table {
    // The number of the name of what is referred to.
    fn number_of(&self, owner: Owner) -> u32
        ensures { result ≡ uses.number_of self.now.names.items owner }
    {
        match owner {
            Owner::Local(n) => number_at(self.names.as_slice(), n),
            Owner::Free(k) => k,
        }
    }

    fn behind_of(&self, owner: Owner) -> u32
        ensures { result ≡ uses.behind_of self.now.behind.items owner }
    {
        match owner {
            Owner::Local(n) => number_at(self.behind.as_slice(), n),
            Owner::Free(_) => u32::MAX,
        }
    }

    // The next use of the name of a reference.
    fn following(&self, u: Use) -> u32
        ensures { result ≡ uses.following self.now.behind.items u }
    {
        if u.next == u32::MAX {
            self.behind_of(u.owner)
        } else {
            u.next
        }
    }

    // The token of the next reference, u32::MAX behind the last one.
    fn next_token(&self) -> u32
        ensures { result ≡ first_token (reverse self.now.uses.items) }
    {
        match self.uses.last() {
            Some(u) => u.token,
            None => u32::MAX,
        }
    }

    // Passes the next reference.
    fn pass(&mut self)
        requires table { IsTable self.old.names.items self.old.behind.items self.old.heads (reverse self.old.uses.items) }
        requires some { first_token (reverse self.old.uses.items) < nowhere }
        ensures table { IsTable self.new.names.items self.new.behind.items self.new.heads (reverse self.new.uses.items) }
        ensures uses { (u : Use) × (reverse self.old.uses.items ≡ u ∷ reverse self.new.uses.items) }
        ensures names { self.new.names ≡ self.old.names }
        ensures behind { self.new.behind ≡ self.old.behind }
        ensures heads { length self.new.heads ≡ length self.old.heads }
    {
        if let Some(u) = self.uses.pop() {
            let number = self.number_of(u.owner) as usize;
            if self.heads.at(number).is_some() {
                let next = self.following(u);
                self.heads.set(number, next);
            }
        }
    }

    // Passes the references before a place.
    fn pass_to(&mut self, place: u32)
        requires { IsTable self.old.names.items self.old.behind.items self.old.heads (reverse self.old.uses.items) }
        ensures table { IsTable self.new.names.items self.new.behind.items self.new.heads (reverse self.new.uses.items) }
        ensures passed { IsPassed place (reverse self.old.uses.items) (reverse self.new.uses.items) }
        ensures ahead { All (λ u. place ≤ u.token) (reverse self.new.uses.items) }
        ensures names { self.new.names ≡ self.old.names }
        ensures behind { self.new.behind ≡ self.old.behind }
        ensures heads { length self.new.heads ≡ length self.old.heads }
    {
        while self.next_token() < place {
            self.pass();
        }
    }

    // Gives a local variable the first number that it can have; `first` is the token of the first reference to it.
    fn give(&mut self, s: Scope, first: u32) -> usize
        requires table { IsTable self.old.names.items self.old.behind.items self.old.heads (reverse self.old.uses.items) }
        requires room { 24 + length self.old.uses.items < length self.old.heads }
        requires named { s.local < length self.old.names.items }
        requires behind { s.local < length self.old.behind.items }
        requires unnamed { slice_index_or self.old.names.items s.local nowhere ≡ nowhere }
        requires some { 0 < s.to }
        requires inside { All (λ u. is_of s.local u ≡ true → u.token < s.to) (reverse self.old.uses.items) }
        requires ahead { All (λ u. s.from ≤ u.token) (reverse self.old.uses.items) }
        requires first { first ≡ next_of (is_of s.local) (reverse self.old.uses.items) }
        ensures table { IsTable self.new.names.items self.new.behind.items self.new.heads (reverse self.new.uses.items) }
        ensures uses { self.new.uses ≡ self.old.uses }
        ensures below { result < length self.old.heads }
        ensures choice { (done : List Use) → All (λ u. u.token < s.from) done → IsChoice (done ++ reverse self.old.uses.items) self.old.names.items s result }
        ensures names { self.new.names.items ≡ slice_set self.old.names.items s.local result }
        ensures behind { length self.new.behind.items ≡ length self.old.behind.items }
        ensures heads { length self.new.heads ≡ length self.old.heads }
    {
        let number = self.heads.first(s.to).unwrap();
        let next = self.heads.at(number).unwrap();
        self.names[s.local as usize] = number as u32;
        self.behind[s.local as usize] = next;
        let head = if first == u32::MAX { next } else { first };
        self.heads.set(number, head);
        number
    }

    // Gives each local variable its number; `firsts` has the tokens of the first references to local variables.
    pub fn give_all(&mut self, firsts: &[u32], scopes: &[Scope])
        requires table { IsTable self.old.names.items self.old.behind.items self.old.heads (reverse self.old.uses.items) }
        requires room { 24 + length self.old.uses.items < length self.old.heads }
        requires scopes { AreScopes (reverse self.old.uses.items) self.old.names.items firsts.now scopes.now }
        requires behind { length self.old.behind.items ≡ length self.old.names.items }
        ensures { AreNamed (length self.old.heads) (reverse self.old.uses.items) self.old.names.items scopes.now self.new.names.items }
    {
        for s in scopes {
            self.pass_to(s.from);
            let first = number_at(firsts, s.local);
            let _ = self.give(*s, first);
        }
    }
}
