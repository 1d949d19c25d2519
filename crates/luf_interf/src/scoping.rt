// The scopes of the local variables that are renamed, in the order in which they begin.
ghost use Rattle.std.specs.Prelude.{◌≡◌, ℕ, ◌<◌, ◌≤◌, ◌^◌, ◌++◌, AllPairs, IfOk, OnOk, true, count_by, is_some, map, slice_get};
ghost use Rattle.std.specs.List.Sorted.{IsPermutation};
ghost use Rattle.std.specs.Option.{option_map, option_map_or, option_to_list};
ghost use Rattle.luf_scope.specs.Local.{Spelling, binder_of, declared_by, locals_of};
ghost use Rattle.luf_scope.specs.Order.{declares};
ghost use Rattle.luf_interf.specs.inner.Owners.{Begins, scope_at, scopes_from};

use crate::Memory;
use crate::owners::keeps_name;
use crate::uses::Scope;
use luf_scope::{Binder, Occurrence};
use std::alloc::Global;

// Where what an occurrence declares is active.
#[derive(Clone, Copy, Debug, PartialEq, Eq)]
struct Extent {
    from: u32,
    to: u32,
}

fn extent_of(o: Occurrence) -> Option<Extent>
    ensures some { is_some result ≡ declares o }
    ensures of { (spelled : Spelling) → result ≡ option_map (λ v. record { from = v.from; to = v.to }) (declared_by spelled o) }
{
    match o {
        Occurrence::Local { from, to, .. } => Some(Extent { from, to }),
        Occurrence::LocalFunction { from, to, .. } => Some(Extent { from, to }),
        Occurrence::Parameter { from, to, .. } => Some(Extent { from, to }),
        Occurrence::ImplicitSelf { from, to, .. } => Some(Extent { from, to }),
        Occurrence::LoopVariable { from, to, .. } => Some(Extent { from, to }),
        Occurrence::Reads(_)
        | Occurrence::Assigns(_)
        | Occurrence::Field(_)
        | Occurrence::Varargs(_)
        | Occurrence::Function { .. }
        | Occurrence::Loop { .. }
        | Occurrence::Label { .. }
        | Occurrence::Goto { .. }
        | Occurrence::Break(_) => None,
    }
}

// The scopes of those that are renamed, in the order of their tokens.
pub fn scopes_of(alloc: Global, os: &[Occurrence], binders: &[Binder]) -> Result<Vec<Scope>, Memory>
    requires { count_by declares os.now < 2 ^ 32 }
    ensures { (spelled : Spelling) → binders.now ≡ map binder_of (locals_of spelled os.now) → IfOk result (λ found. found.items ≡ scopes_from 0 (locals_of spelled os.now)) }
{
    let mut found = Vec::new(alloc);
    let mut local: u32 = 0;
    for o in os {
        if let Some(extent) = extent_of(*o) {
            add_scope(binders, local, extent, &mut found)?;
            local += 1;
        }
    }
    Ok(found)
}

fn add_scope(
    binders: &[Binder],
    local: u32,
    extent: Extent,
    found: &mut Vec<Scope>,
) -> Result<(), Memory>
    ensures { OnOk result (found.new.items ≡ found.old.items ++ option_to_list (scope_at (option_map_or (λ b. b.fixed) (slice_get binders.now local) true) local extent.from extent.to)) }
{
    if !keeps_name(binders, local) {
        found.push(Scope {
            local,
            from: extent.from,
            to: extent.to,
        })?;
    }
    Ok(())
}

// The scopes in the order in which they begin; of those that begin together the first declared is the first.
pub fn in_order(scopes: Vec<Scope>) -> Result<Vec<Scope>, Memory>
    requires { AllPairs (λ s t. s.local < t.local) scopes.items }
    ensures permutation { IfOk result (λ sorted. IsPermutation scopes.items sorted.items) }
    ensures order { IfOk result (λ sorted. AllPairs Begins sorted.items) }
{
    let mut sorted = scopes;
    sorted.sort_by_key(|s| s.from)?;
    Ok(sorted)
}
