// The local variables of a chunk, read off its occurrences: as callers see them, with numbers for their names, and their
// scopes.
ghost use Rattle.std.specs.Prelude.{◌≡◌, ℕ, ◌<◌, ◌^◌, ◌++◌, ◌∷◌, [], List, Some, None, IfOk, OnOk, cond, length, map, bytes_eq, unwrap_or};
ghost use Rattle.std.specs.Option.{option_or};
ghost use Rattle.luf_lex.specs.Cut.{IsCut};
ghost use Rattle.luf_scope.specs.Links.{spelling_in};
ghost use Rattle.luf_scope.specs.Local.{locals_of, binder_of};
ghost use Rattle.luf_scope.specs.inner.Buckets.{number_in};
ghost use Rattle.luf_scope.specs.inner.Scopes.{local_of, name_number, scopes_from};

use crate::locals::{Variable, binder, declared_by};
use crate::names::Names;
use crate::scopes::Scope;
use crate::{Binder, Memory, Occurrence};
use luf_lex::Cut;
use std::alloc::Global;

#[derive(Drop)]
pub struct Variables<'a> {
    pub binders: Vec<Binder>,
    pub names: Names<'a>,
    pub scopes: Vec<Scope>,
}

// Each name has the number of the first local variable that has it, and each scope that of its name.
pub fn variables_of<'a>(
    alloc: Global,
    src: &'a [u8],
    cut: &Cut,
    os: &[Occurrence],
) -> Result<Variables<'a>, Memory>
    requires cut { IsCut src.now cut.now }
    requires few { length (locals_of (spelling_in src.now cut.now) os.now) < 2 ^ 32 }
    ensures binders { IfOk result (λ v. v.binders.items ≡ map binder_of (locals_of (spelling_in src.now cut.now) os.now)) }
    ensures names { IfOk result (λ v. (name : List ℕ) → number_in v.names.buckets.items name ≡ name_number (locals_of (spelling_in src.now cut.now) os.now) name) }
    ensures scopes { IfOk result (λ v. v.scopes.items ≡ scopes_from (name_number (locals_of (spelling_in src.now cut.now) os.now)) 0 (locals_of (spelling_in src.now cut.now) os.now)) }
{
    let mut found = Variables {
        binders: Vec::new(alloc),
        names: Names::new(alloc)?,
        scopes: Vec::new(alloc),
    };
    let mut local = 0;
    for o in os {
        if let Some(v) = declared_by(src, cut, *o) {
            found.add(v, local)?;
            local += 1;
        }
    }
    Ok(found)
}

impl<'a> Variables<'a> {
    fn add(&mut self, v: Variable<'a>, local: u32) -> Result<(), Memory>
        requires count { length self.old.names.buckets.items ≡ 1024 }
        ensures count { length self.new.names.buckets.items ≡ 1024 }
        ensures binders { OnOk result (self.new.binders.items ≡ self.old.binders.items ++ binder_of (local_of v.entry) ∷ []) }
        ensures names { OnOk result ((other : List ℕ) → number_in self.new.names.buckets.items other ≡ option_or (number_in self.old.names.buckets.items other) (cond (bytes_eq (local_of v.entry).name other) (Some local) None)) }
        ensures scopes { OnOk result (self.new.scopes.items ≡ self.old.scopes.items ++ record { name = unwrap_or (number_in self.new.names.buckets.items (local_of v.entry).name) 0; local = local; from = v.entry.from; to = v.entry.to } ∷ []) }
    {
        let name = self.names.number(v.name, local)?;
        self.binders.push(binder(v))?;
        self.scopes.push(Scope {
            name,
            local,
            from: v.from,
            to: v.to,
        })?;
        Ok(())
    }
}
