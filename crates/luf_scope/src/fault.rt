// Why names and jumps are refused.
ghost use Rattle.std.specs.Prelude.{◌≡◌};
ghost use Rattle.luf_scope.specs.Fault as fault;

/// The words of a scope fault, in the order in which they are told at one token.
#[derive(Clone, Copy, Debug, PartialEq, Eq)]
pub enum ScopeWhat {
    /// An attribute that is neither `const` nor `close`.
    UnknownAttribute,
    /// The second `close` of one `local`.
    TwoClose,
    /// A local variable with an attribute is assigned.
    ConstAssign,
    /// `...` in a function that is not vararg.
    VarargOutside,
    /// A label whose name an earlier label has that is visible there.
    LabelTwice,
    /// A `goto` that sees no label of its name.
    NoLabel,
    /// A `goto` into the scope of a local variable.
    JumpIntoScope,
    /// A `break` that no loop of its function holds.
    BreakOutside,
}

/// A scope fault: the token at which it stands, and its word.
#[derive(Clone, Copy, Debug, PartialEq, Eq)]
pub struct ScopeBad {
    pub token: u32,
    pub what: ScopeWhat,
}

/// Why there are no links or no jumps.
#[derive(Clone, Copy, Debug, PartialEq, Eq)]
pub enum ScopeErr {
    /// The first scope fault.
    Bad(ScopeBad),
    /// No memory was found.
    Memory,
}

impl From<luf_memory::Memory> for ScopeErr {
    ghost use Rattle.std.specs.Prelude.{◌≡◌};
    ghost use Rattle.luf_scope.specs.declared.fault.ScopeErr.TheVariants.{Memory};

    ghost from_gives = { λ _ r. r ≡ Memory };

    fn from(_: luf_memory::Memory) -> ScopeErr {
        ScopeErr::Memory
    }
}

/// Of two faults the one at the earlier token; of two at one token, the one whose word is told first.
pub fn first_of(a: Option<ScopeBad>, b: Option<ScopeBad>) -> Option<ScopeBad>
    ensures { result ≡ fault.first_of a b }
{
    let Some(x) = a else { return b };
    let Some(y) = b else { return a };
    if is_told_before(y, x) { b } else { a }
}

fn is_told_before(x: ScopeBad, y: ScopeBad) -> bool
    ensures { result ≡ fault.is_told_before x y }
{
    x.token < y.token || x.token == y.token && rank(x.what) < rank(y.what)
}

fn rank(what: ScopeWhat) -> u8
    ensures { result ≡ fault.rank what }
{
    match what {
        ScopeWhat::UnknownAttribute => 0,
        ScopeWhat::TwoClose => 1,
        ScopeWhat::ConstAssign => 2,
        ScopeWhat::VarargOutside => 3,
        ScopeWhat::LabelTwice => 4,
        ScopeWhat::NoLabel => 5,
        ScopeWhat::JumpIntoScope => 6,
        ScopeWhat::BreakOutside => 7,
    }
}
