//! Equality of functions but for their lines.
ghost use Rattle.std.specs.Prelude.{◌≡◌, ◌↔◌, IsTrue, map};
ghost use Rattle.luf_proto.specs.Function.{without_lines};
ghost use Rattle.luf_proto.specs.FunctionOf.{function_of};
ghost use Rattle.luf_proto.specs.inner.Level.{SameLevel, stripped};

use crate::{Const, Proto, Upval};

/// Whether two functions are equal in all but their lines, at every level.
#[cycle(same)]
pub fn same_stripped(a: &Proto, b: &Proto) -> bool
    ensures { IsTrue result ↔ (without_lines (function_of a.now) ≡ without_lines (function_of b.now)) }
{
    same_level(a, b) && same_subs(a.subs.as_slice(), b.subs.as_slice())
}

#[cycle(same)]
fn same_subs(a: &[Proto], b: &[Proto]) -> bool
    ensures { IsTrue result ↔ (map stripped a.now ≡ map stripped b.now) }
{
    if a.len() != b.len() {
        return false;
    }
    for (i, sub) in a.iter().enumerate() {
        if !same_stripped(sub, &b[i]) {
            return false;
        }
    }
    true
}

/// Whether two functions are equal in all but their lines and the functions inside.
fn same_level(a: &Proto, b: &Proto) -> bool
    ensures { IsTrue result ↔ SameLevel a.now b.now }
{
    a.numparams == b.numparams
        && a.is_vararg == b.is_vararg
        && a.maxstack == b.maxstack
        && a.code.as_slice() == b.code.as_slice()
        && same_consts(a.consts.as_slice(), b.consts.as_slice())
        && same_upvals(a.upvals.as_slice(), b.upvals.as_slice())
}

fn same_upvals(a: &[Upval], b: &[Upval]) -> bool
    ensures { IsTrue result ↔ (a.now ≡ b.now) }
{
    a == b
}

fn same_consts(a: &[Const], b: &[Const]) -> bool
    ensures { IsTrue result ↔ (a.now ≡ b.now) }
{
    if a.len() != b.len() {
        return false;
    }
    for (i, constant) in a.iter().enumerate() {
        if !same_const(constant, &b[i]) {
            return false;
        }
    }
    true
}

fn same_const(a: &Const, b: &Const) -> bool
    ensures { IsTrue result ↔ (a.now ≡ b.now) }
{
    match (a, b) {
        (Const::Nil, Const::Nil) | (Const::False, Const::False) | (Const::True, Const::True) =>
            true,
        (Const::Int(m), Const::Int(n)) => m == n,
        (Const::Spelled(s), Const::Spelled(t)) | (Const::Str(s), Const::Str(t)) => s.as_slice()
            == t.as_slice(),
        (Const::Word(v), Const::Word(w)) => v == w,
        _ => false,
    }
}
