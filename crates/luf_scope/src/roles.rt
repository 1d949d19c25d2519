// The roles of tokens, in their order.
ghost use Rattle.std.specs.Prelude.{◌≡◌, ℕ, ◌<◌, ◌^◌, ◌++◌, Option, OnOk, IfOk, All, length, map, count_by, slice_index_or};
ghost use Rattle.std.specs.Option.{option_to_list};
ghost use Rattle.luf_scope.specs.Order as order;
ghost use Rattle.luf_scope.specs.Order.{place};
ghost use Rattle.luf_scope.specs.Role as role;
ghost use Rattle.luf_scope.specs.declared.occurrence.Occurrence.{Occurrence};
ghost use Rattle.luf_scope.specs.inner.Laid as laid;
ghost use Rattle.luf_scope.specs.inner.Laid.{AreLaid, roles_from};

use crate::{Marks, Memory, Occurrence, Role};
use std::alloc::Global;

// The role of each token that has one, where it is known what each occurrence means.
pub fn roles_of(
    alloc: Global,
    os: &[Occurrence],
    meanings: &[Option<u32>],
) -> Result<Marks<Role>, Memory>
    requires laid { AreLaid os.now }
    requires few { count_by order.declares os.now < 2 ^ 32 }
    ensures { (means : Occurrence → Option ℕ) → meanings.now ≡ map means os.now → IfOk result (λ roles. roles ≡ roles_from means 0 os.now) }
{
    let mut roles = Marks::new(alloc);
    let mut number = 0;
    for (i, o) in os.iter().enumerate() {
        add_role(*o, number, meaning_at(meanings, i), &mut roles)?;
        if declares(*o) {
            number += 1;
        }
    }
    Ok(roles)
}

// What an occurrence means; None beyond the last one.
pub fn meaning_at(meanings: &[Option<u32>], i: usize) -> Option<u32>
    ensures { (d : Option ℕ) → i < length meanings.now → result ≡ slice_index_or meanings.now i d }
{
    match meanings.get(i) {
        Some(meaning) => *meaning,
        None => None,
    }
}

fn add_role(
    o: Occurrence,
    number: u32,
    meaning: Option<u32>,
    roles: &mut Marks<Role>,
) -> Result<(), Memory>
    requires { All (λ m. m.0 < place o) roles.old }
    ensures { OnOk result (roles.new ≡ roles.old ++ option_to_list (laid.role_here number meaning o)) }
{
    match role_here(o, number, meaning) {
        Some((token, role)) => roles.add(token, role),
        None => Ok(()),
    }
}

// The token of an occurrence and its role; the number is that of the next local variable.
fn role_here(o: Occurrence, number: u32, meaning: Option<u32>) -> Option<(u32, Role)>
    ensures { result ≡ laid.role_here number meaning o }
{
    match o {
        Occurrence::Local { name, .. } => Some((name, Role::Declares(number))),
        Occurrence::LocalFunction { name, .. } => Some((name, Role::Declares(number))),
        Occurrence::Parameter { name, .. } => Some((name, Role::Declares(number))),
        Occurrence::ImplicitSelf { colon, .. } => Some((colon, Role::Declares(number))),
        Occurrence::LoopVariable { name, .. } => Some((name, Role::Declares(number))),
        Occurrence::Reads(name) => Some((name, reference(meaning))),
        Occurrence::Assigns(name) => Some((name, reference(meaning))),
        Occurrence::Field(name) => Some((name, Role::Field)),
        Occurrence::Varargs(_)
        | Occurrence::Function { .. }
        | Occurrence::Loop { .. }
        | Occurrence::Label { .. }
        | Occurrence::Goto { .. }
        | Occurrence::Break(_) => None,
    }
}

fn reference(meaning: Option<u32>) -> Role
    ensures { result ≡ role.reference meaning }
{
    match meaning {
        Some(local) => Role::Refers(local),
        None => Role::Global,
    }
}

fn declares(o: Occurrence) -> bool
    ensures { result ≡ order.declares o }
{
    match o {
        Occurrence::Local { .. }
        | Occurrence::LocalFunction { .. }
        | Occurrence::Parameter { .. }
        | Occurrence::ImplicitSelf { .. }
        | Occurrence::LoopVariable { .. } => true,
        Occurrence::Reads(_)
        | Occurrence::Assigns(_)
        | Occurrence::Field(_)
        | Occurrence::Varargs(_)
        | Occurrence::Function { .. }
        | Occurrence::Loop { .. }
        | Occurrence::Label { .. }
        | Occurrence::Goto { .. }
        | Occurrence::Break(_) => false,
    }
}
