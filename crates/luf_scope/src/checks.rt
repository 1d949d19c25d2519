// The faults of names, each word by itself.
ghost use Rattle.std.specs.Prelude.{◌≡◌, ℕ, ◌≤◌, Bool, Option, Some, List, [], ◌∷◌, ◌++◌, IfOk, OnOk, map, slice_get, false};
ghost use Rattle.std.specs.List.{list_any};
ghost use Rattle.std.specs.Option.{option_to_list, option_map_or, option_and_then};
ghost use Rattle.luf_lex.specs.Cut.{IsCut};
ghost use Rattle.luf_scope.specs.Fault as fault;
ghost use Rattle.luf_scope.specs.Links.{spelling_in};
ghost use Rattle.luf_scope.specs.Local.{Spelling, LocalVariable, FunctionAt, locals_of, binder_of, function_by};
ghost use Rattle.luf_scope.specs.Order.{place};
ghost use Rattle.luf_scope.specs.declared.occurrence.Occurrence.{Occurrence};
ghost use Rattle.luf_scope.specs.inner.Attributes.{has_attribute};
ghost use Rattle.luf_scope.specs.inner.Laid as laid;
ghost use Rattle.luf_scope.specs.inner.Laid.{AreLaid, first_at, Tells, varargs_among, AreEnds, second_among};
ghost use Rattle.luf_scope.specs.inner.Scopes.{meaning_of};

use crate::locals::spelled;
use crate::roles::meaning_at;
use crate::stacks::{Held, top};
use crate::{Binder, BinderKind, Memory, Occurrence, ScopeBad, ScopeWhat, first_of};
use luf_lex::Cut;
use std::alloc::Global;
use std::collections::BTreeSet;

// The first fault of a name. Nothing is constant where no local variable has an attribute.
pub fn name_fault(
    alloc: Global,
    src: &[u8],
    cut: &Cut,
    os: &[Occurrence],
    meanings: &[Option<u32>],
    binders: &[Binder],
) -> Result<Option<ScopeBad>, Memory>
    requires cut { IsCut src.now cut.now }
    requires laid { AreLaid os.now }
    requires meanings { let spelled = spelling_in src.now cut.now in meanings.now ≡ map (meaning_of spelled (locals_of spelled os.now)) os.now }
    requires binders { binders.now ≡ map binder_of (locals_of (spelling_in src.now cut.now) os.now) }
    ensures { IfOk result (λ found. found ≡ fault.first_fault (fault.name_faults (spelling_in src.now cut.now) os.now)) }
{
    if any_attribute(os) {
        return any_name_fault(alloc, src, cut, os, meanings, binders);
    }
    plain_name_fault(alloc, os)
}

// The first fault of a name, each word by itself.
fn any_name_fault(
    alloc: Global,
    src: &[u8],
    cut: &Cut,
    os: &[Occurrence],
    meanings: &[Option<u32>],
    binders: &[Binder],
) -> Result<Option<ScopeBad>, Memory>
    requires cut { IsCut src.now cut.now }
    requires laid { AreLaid os.now }
    requires meanings { let spelled = spelling_in src.now cut.now in meanings.now ≡ map (meaning_of spelled (locals_of spelled os.now)) os.now }
    requires binders { binders.now ≡ map binder_of (locals_of (spelling_in src.now cut.now) os.now) }
    ensures { IfOk result (λ found. found ≡ fault.first_fault (fault.name_faults (spelling_in src.now cut.now) os.now)) }
{
    let unknown = first_unknown(src, cut, os);
    let second = first_second_close(alloc, src, cut, os)?;
    let constant = first_constant(os, meanings, binders);
    let varargs = first_varargs(alloc, os)?;
    Ok(first_of(first_of(first_of(unknown, second), constant), varargs))
}

// The first fault of a name, where no local variable has an attribute.
pub fn plain_name_fault(alloc: Global, os: &[Occurrence]) -> Result<Option<ScopeBad>, Memory>
    requires laid { AreLaid os.now }
    requires plain { list_any has_attribute os.now ≡ false }
    ensures { (spelled : Spelling) → IfOk result (λ found. found ≡ fault.first_fault (fault.name_faults spelled os.now)) }
{
    first_varargs(alloc, os)
}

// Whether a local variable has an attribute.
pub fn any_attribute(os: &[Occurrence]) -> bool
    ensures { result ≡ list_any has_attribute os.now }
{
    os.iter().any(|o| has_attribute(*o))
}

fn has_attribute(o: Occurrence) -> bool
    ensures { result ≡ has_attribute o }
{
    matches!(
        o,
        Occurrence::Local {
            attribute: Some(_),
            ..
        }
    )
}

// The first attribute that is neither `const` nor `close`.
fn first_unknown(src: &[u8], cut: &Cut, os: &[Occurrence]) -> Option<ScopeBad>
    requires { IsCut src.now cut.now }
    ensures { result ≡ first_at ScopeWhat.UnknownAttribute (fault.unknown_attribute (spelling_in src.now cut.now) os.now) os.now }
{
    for o in os {
        if let Some(token) = unknown_attribute(src, cut, *o) {
            let what = ScopeWhat::UnknownAttribute;
            return Some(ScopeBad { token, what });
        }
    }
    None
}

fn unknown_attribute(src: &[u8], cut: &Cut, o: Occurrence) -> Option<u32>
    requires { IsCut src.now cut.now }
    ensures { (all : List Occurrence) → result ≡ fault.unknown_attribute (spelling_in src.now cut.now) all o }
{
    match o {
        Occurrence::Local {
            attribute: Some(token),
            ..
        } => {
            let word = spelled(src, cut, token);
            if word == b"const".as_slice() || word == b"close".as_slice() {
                None
            } else {
                Some(token)
            }
        }
        _ => None,
    }
}

// The first `close` behind another of its statement.
fn first_second_close(
    alloc: Global,
    src: &[u8],
    cut: &Cut,
    os: &[Occurrence],
) -> Result<Option<ScopeBad>, Memory>
    requires cut { IsCut src.now cut.now }
    requires laid { AreLaid os.now }
    ensures { IfOk result (λ found. found ≡ first_at ScopeWhat.TwoClose (fault.second_close (spelling_in src.now cut.now) os.now) os.now) }
{
    let mut ends = BTreeSet::new(alloc);
    for o in os {
        if let Some(token) = close_again(src, cut, *o, &mut ends)? {
            let what = ScopeWhat::TwoClose;
            return Ok(Some(ScopeBad { token, what }));
        }
    }
    Ok(None)
}

// A `close` of whose statement there was one before; the ends of the statements that have one are kept.
fn close_again(
    src: &[u8],
    cut: &Cut,
    o: Occurrence,
    ends: &mut BTreeSet<u32>,
) -> Result<Option<u32>, Memory>
    requires { IsCut src.now cut.now }
    ensures found { (done : List Occurrence) → AreEnds (spelling_in src.now cut.now) ends.old done → IfOk result (λ found. found ≡ second_among (spelling_in src.now cut.now) done o) }
    ensures kept { (done : List Occurrence) → AreEnds (spelling_in src.now cut.now) ends.old done → OnOk result (AreEnds (spelling_in src.now cut.now) ends.new (done ++ o ∷ [])) }
{
    let Some((token, end)) = close_of(src, cut, o) else {
        return Ok(None);
    };
    if ends.insert(end)? {
        Ok(None)
    } else {
        Ok(Some(token))
    }
}

// A `close`, with the end of its statement.
fn close_of(src: &[u8], cut: &Cut, o: Occurrence) -> Option<(u32, u32)>
    requires { IsCut src.now cut.now }
    ensures { result ≡ laid.close_of (spelling_in src.now cut.now) o }
{
    match o {
        Occurrence::Local {
            attribute: Some(token),
            from,
            ..
        } => {
            if spelled(src, cut, token) == b"close".as_slice() {
                Some((token, from))
            } else {
                None
            }
        }
        _ => None,
    }
}

// The first name that is assigned, and means a local variable with an attribute.
fn first_constant(
    os: &[Occurrence],
    meanings: &[Option<u32>],
    binders: &[Binder],
) -> Option<ScopeBad>
    ensures { (spelled : Spelling) → meanings.now ≡ map (meaning_of spelled (locals_of spelled os.now)) os.now → binders.now ≡ map binder_of (locals_of spelled os.now) → result ≡ first_at ScopeWhat.ConstAssign (fault.constant_assigned spelled os.now) os.now }
{
    for (i, o) in os.iter().enumerate() {
        if let Some(token) = constant_assigned(*o, meaning_at(meanings, i), binders) {
            let what = ScopeWhat::ConstAssign;
            return Some(ScopeBad { token, what });
        }
    }
    None
}

fn constant_assigned(o: Occurrence, meaning: Option<u32>, binders: &[Binder]) -> Option<u32>
    ensures { (spelled : Spelling) → (all : List Occurrence) → meaning ≡ meaning_of spelled (locals_of spelled all) o → binders.now ≡ map binder_of (locals_of spelled all) → result ≡ fault.constant_assigned spelled all o }
{
    match o {
        Occurrence::Assigns(token) => {
            if is_constant(meaning, binders) {
                Some(token)
            } else {
                None
            }
        }
        _ => None,
    }
}

fn is_constant(meaning: Option<u32>, binders: &[Binder]) -> bool
    ensures { (locals : List LocalVariable) → binders.now ≡ map binder_of locals → result ≡ option_map_or fault.is_constant (option_and_then (slice_get locals) meaning) false }
{
    match meaning {
        Some(local) => match binders.get(local as usize) {
            Some(binder) => matches!(binder.kind, BinderKind::Const | BinderKind::Close),
            None => false,
        },
        None => false,
    }
}

// The first `...` in a function that does not take it.
fn first_varargs(alloc: Global, os: &[Occurrence]) -> Result<Option<ScopeBad>, Memory>
    requires { AreLaid os.now }
    ensures { (spelled : Spelling) → IfOk result (λ found. found ≡ first_at ScopeWhat.VarargOutside (fault.varargs_outside spelled os.now) os.now) }
{
    let mut functions = Vec::new(alloc);
    for o in os {
        if let Some(token) = varargs_outside(*o, &mut functions)? {
            let what = ScopeWhat::VarargOutside;
            return Ok(Some(ScopeBad { token, what }));
        }
    }
    Ok(None)
}

// The functions that hold a place are on the stack, each with whether it takes `...`.
fn varargs_outside(o: Occurrence, functions: &mut Vec<Held<bool>>) -> Result<Option<u32>, Memory>
    ensures found { (begun : List FunctionAt) → Tells functions.old.items begun (place o) → IfOk result (λ found. found ≡ varargs_among begun o) }
    ensures kept { (begun : List FunctionAt) → (later : ℕ) → place o ≤ later → Tells functions.old.items begun later → OnOk result (Tells functions.new.items (begun ++ option_to_list (function_by o)) later) }
{
    match o {
        Occurrence::Function { to, vararg, .. } => {
            functions.push(Held { what: vararg, to })?;
            Ok(None)
        }
        Occurrence::Varargs(token) => match top(functions, token) {
            Some(false) => Ok(Some(token)),
            Some(true) | None => Ok(None),
        },
        _ => Ok(None),
    }
}
