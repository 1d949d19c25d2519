// Gotos that see no label, or that go into the scope of a local variable.
ghost use Rattle.std.specs.Prelude.{◌≡◌, ◌<◌, length, All, IfSome, is_none, Bool, ℕ, Option};
ghost use Rattle.luf_goto.specs.inner.Leaps.{first_failing, has_none, enters_scope, is_apart};

use crate::holders::Extent;
use crate::sites::{GotoRow, LabelRow};

// The first goto that has no target, by its token.
pub fn first_missing(gotos: &[GotoRow], targets: &[Option<u32>]) -> Option<u32>
    requires { length targets.now ≡ length gotos.now }
    ensures { result ≡ first_failing has_none gotos.now targets.now }
{
    for (i, g) in gotos.iter().enumerate() {
        if is_missing(targets[i]) {
            return Some(g.token);
        }
    }
    None
}

fn is_missing(target: Option<u32>) -> bool
    ensures { result ≡ is_none target }
{
    target.is_none()
}

// The first goto into a scope, by its token: a local variable is active at its label and not at the goto itself, and the
// label is not at its block's end. The innermost of those active at the label is among these if any is.
pub fn first_entering(
    gotos: &[GotoRow],
    targets: &[Option<u32>],
    labels: &[LabelRow],
    scopes: &[Option<Extent>],
) -> Option<u32>
    requires same { length targets.now ≡ length gotos.now }
    requires scopes { length scopes.now ≡ length labels.now }
    requires numbers { All (λ t. IfSome t (λ n. n < length labels.now)) targets.now }
    ensures { result ≡ first_failing (enters_scope labels.now scopes.now) gotos.now targets.now }
{
    for (i, g) in gotos.iter().enumerate() {
        if enters_scope(labels, scopes, g.token, targets[i]) {
            return Some(g.token);
        }
    }
    None
}

fn enters_scope(
    labels: &[LabelRow],
    scopes: &[Option<Extent>],
    place: u32,
    target: Option<u32>,
) -> bool
    requires scopes { length scopes.now ≡ length labels.now }
    requires number { IfSome target (λ n. n < length labels.now) }
    ensures { result ≡ enters_scope labels.now scopes.now place target }
{
    match target {
        None => false,
        Some(n) => !labels[n as usize].at_end && is_apart(scopes[n as usize], place),
    }
}

// Whether an extent is there and does not hold the place.
fn is_apart(scope: Option<Extent>, place: u32) -> bool
    ensures { result ≡ is_apart scope place }
{
    match scope {
        None => false,
        Some(e) => place < e.from || e.to <= place,
    }
}
