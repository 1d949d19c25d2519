// The scopes of local variables in the order in which they begin.
ghost use Rattle.std.specs.Prelude.{◌≡◌, ℕ, ◌<◌, IfOk, length, slice_index_or};
ghost use Rattle.luf_scope.specs.declared.scopes.Scope.{Scope};
ghost use Rattle.luf_scope.specs.inner.Scopes.{AreInOrder};

use crate::Memory;

// Where a local variable is active, with the number of its name and its own.
#[derive(Clone, Copy, Debug, PartialEq, Eq)]
pub struct Scope {
    pub name: u32,
    pub local: u32,
    pub from: u32,
    pub to: u32,
}

// The scopes in the order in which they begin; of those that begin together the first declared is the first.
pub fn in_order(scopes: Vec<Scope>) -> Result<Vec<Scope>, Memory>
    requires { (i : ℕ) (d : Scope) → i < length scopes.items → (slice_index_or scopes.items i d).local ≡ i }
    ensures { IfOk result (λ sorted. AreInOrder scopes.items sorted.items) }
{
    let mut sorted = scopes;
    sorted.sort_by_key(|s| s.from)?;
    Ok(sorted)
}
