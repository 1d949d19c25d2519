// The first fault of the jumps of a chunk.
ghost use Rattle.std.specs.Prelude.{◌≡◌};
ghost use Rattle.luf_goto.specs.inner.Faults.{bad_at, first_bad};

use luf_scope::{ScopeBad, ScopeWhat, first_of};

// Of the first ones of each word, by their tokens.
pub fn first_bad(
    twice: Option<u32>,
    missing: Option<u32>,
    entering: Option<u32>,
    outside: Option<u32>,
) -> Option<ScopeBad>
    ensures { result ≡ first_bad twice missing entering outside }
{
    let labels = bad_at(twice, ScopeWhat::LabelTwice);
    let targets = bad_at(missing, ScopeWhat::NoLabel);
    let scopes = bad_at(entering, ScopeWhat::JumpIntoScope);
    let breaks = bad_at(outside, ScopeWhat::BreakOutside);
    first_of(first_of(first_of(labels, targets), scopes), breaks)
}

fn bad_at(token: Option<u32>, what: ScopeWhat) -> Option<ScopeBad>
    ensures { result ≡ bad_at token what }
{
    let token = token?;
    Some(ScopeBad { token, what })
}
