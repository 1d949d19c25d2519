// What an occurrence declares, and how its words are spelled.
ghost use Rattle.std.specs.Prelude.{◌≡◌};
ghost use Rattle.std.specs.Option.{option_map};
ghost use Rattle.luf_lex.specs.Cut.{IsCut};
ghost use Rattle.luf_scope.specs.Links.{spelling_in};
ghost use Rattle.luf_scope.specs.Local as local;
ghost use Rattle.luf_scope.specs.Local.{binder_of};
ghost use Rattle.luf_scope.specs.inner.Scopes.{local_of};

use crate::{Binder, BinderKind, Occurrence};
use luf_lex::Cut;

// A local variable: the token that declares it, its name, how it is declared, and the places at which it is active.
#[derive(Clone, Copy)]
pub struct Variable<'a> {
    pub token: u32,
    pub name: &'a [u8],
    pub kind: BinderKind,
    pub from: u32,
    pub to: u32,
}

// How a token is spelled; nothing beyond the last one.
pub fn spelled<'a>(src: &'a [u8], cut: &Cut, token: u32) -> &'a [u8]
    requires { IsCut src.now cut.now }
    ensures { result.now ≡ spelling_in src.now cut.now token }
{
    match cut.spelling(src, token) {
        Some(word) => word,
        None => &src[..0],
    }
}

// The local variable that an occurrence declares.
pub fn declared_by<'a>(src: &'a [u8], cut: &Cut, o: Occurrence) -> Option<Variable<'a>>
    requires { IsCut src.now cut.now }
    ensures { option_map local_of result ≡ local.declared_by (spelling_in src.now cut.now) o }
{
    match o {
        Occurrence::Local {
            name,
            attribute,
            from,
            to,
        } => {
            let kind = kind_of(src, cut, attribute);
            Some(named(src, cut, name, kind, from, to))
        }
        Occurrence::LocalFunction { name, from, to } => {
            Some(named(src, cut, name, BinderKind::Function, from, to))
        }
        Occurrence::Parameter { name, from, to } => {
            Some(named(src, cut, name, BinderKind::Param, from, to))
        }
        Occurrence::ImplicitSelf { colon, from, to } => Some(Variable {
            token: colon,
            name: b"self",
            kind: BinderKind::SelfParam,
            from,
            to,
        }),
        Occurrence::LoopVariable { name, from, to } => {
            Some(named(src, cut, name, BinderKind::Loop, from, to))
        }
        Occurrence::Reads(_)
        | Occurrence::Assigns(_)
        | Occurrence::Field(_)
        | Occurrence::Varargs(_)
        | Occurrence::Function { .. }
        | Occurrence::Loop { .. }
        | Occurrence::Label { .. }
        | Occurrence::Goto { .. }
        | Occurrence::Break(_) => None,
    }
}

// A local variable that is named as its token is spelled.
fn named<'a>(
    src: &'a [u8],
    cut: &Cut,
    token: u32,
    kind: BinderKind,
    from: u32,
    to: u32,
) -> Variable<'a>
    requires { IsCut src.now cut.now }
    ensures { local_of result ≡ record { token = token; name = spelling_in src.now cut.now token; kind = kind; from = from; to = to } }
{
    Variable {
        token,
        name: spelled(src, cut, token),
        kind,
        from,
        to,
    }
}

fn kind_of(src: &[u8], cut: &Cut, attribute: Option<u32>) -> BinderKind
    requires { IsCut src.now cut.now }
    ensures { result ≡ local.kind_of (spelling_in src.now cut.now) attribute }
{
    let Some(token) = attribute else {
        return BinderKind::Local;
    };
    let word = spelled(src, cut, token);
    if word == b"const".as_slice() {
        BinderKind::Const
    } else if word == b"close".as_slice() {
        BinderKind::Close
    } else {
        BinderKind::Local
    }
}

// A local variable, as a caller sees it.
pub fn binder(v: Variable<'_>) -> Binder
    ensures { result ≡ binder_of (local_of v.entry) }
{
    Binder {
        token: v.token,
        kind: v.kind,
        fixed: v.kind == BinderKind::SelfParam || v.name == b"_ENV".as_slice(),
    }
}
