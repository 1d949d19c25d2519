// Lists of names.
ghost use Rattle.std.specs.Prelude.{◌≡◌, ◌+◌, ◌<◌, ◌≤◌, length, IfOk, IfErr, ℕ};
ghost use Rattle.luf_lex.specs.Tokens.{toks_of};
ghost use Rattle.luf_tree.specs.Grammar.{AreNames, AreParams, IsAttribute, AreDeclared, IsPath, IsMethod};
ghost use Rattle.luf_descent.specs.Reads.{Found};
ghost use Rattle.luf_descent.specs.Stops.{Known};
ghost use Rattle.luf_descent.specs.PartStops.{StopsAttribute, StopsDeclared, StopsMethod, StopsNames, StopsParams, StopsPath};
ghost use Rattle.luf_descent.specs.Parts.{ReadAttribute, ReadDeclared, ReadMethod, ReadNames, ReadParams, ReadPath};

use crate::ParseErr;
use crate::growing::Growing;
use crate::tokens::{eat, expect};
use luf_lex::{Cut, Sign, Tok};
use luf_tree::Declared;
use sqlite_items::Items;
use std::alloc::Global;

/// `Name {',' Name}`, and the place after it.
pub fn names(alloc: Global, cut: &Cut, mut at: u32) -> Result<(Items<u32>, u32), ParseErr>
    ensures ok { IfOk result (λ r. Found (toks_of cut.now) (at + 1) r.1 0 0 (AreNames (toks_of cut.now) at r.1 r.0)) }
    ensures known { IfOk result (λ r. Known (toks_of cut.now) r.1 (λ l n. ReadNames l at) r) }
    ensures stops { (left : ℕ) → at ≤ length (toks_of cut.now) → IfErr result (StopsNames (toks_of cut.now) left at) }
{
    let mut found = Growing::new(alloc);
    loop {
        let to = expect(cut, at, Tok::Name)?;
        found.push(at)?;
        match eat(cut, to, Tok::Sign(Sign::Comma)) {
            Some(next) => at = next,
            None => return Ok((found.exact(), to)),
        }
    }
}

/// `Name {'.' Name}`, and the place after it.
pub fn path(alloc: Global, cut: &Cut, mut at: u32) -> Result<(Items<u32>, u32), ParseErr>
    ensures ok { IfOk result (λ r. Found (toks_of cut.now) (at + 1) r.1 0 0 (IsPath (toks_of cut.now) at r.1 r.0)) }
    ensures known { IfOk result (λ r. Known (toks_of cut.now) r.1 (λ l n. ReadPath l at) r) }
    ensures stops { at ≤ length (toks_of cut.now) → IfErr result (StopsPath (toks_of cut.now) at) }
{
    let mut found = Growing::new(alloc);
    loop {
        let to = expect(cut, at, Tok::Name)?;
        found.push(at)?;
        match eat(cut, to, Tok::Sign(Sign::Dot)) {
            Some(next) => at = next,
            None => return Ok((found.exact(), to)),
        }
    }
}

/// `[':' Name]`, and the place after it.
pub fn method(cut: &Cut, at: u32) -> Result<(Option<u32>, u32), ParseErr>
    requires { at ≤ length (toks_of cut.now) }
    ensures ok { IfOk result (λ r. Found (toks_of cut.now) at r.1 0 0 (IsMethod (toks_of cut.now) at r.1 r.0)) }
    ensures known { IfOk result (λ r. Known (toks_of cut.now) r.1 (λ l n. ReadMethod l at) r) }
    ensures stops { IfErr result (StopsMethod (toks_of cut.now) at) }
{
    match eat(cut, at, Tok::Sign(Sign::Colon)) {
        Some(name) => {
            let to = expect(cut, name, Tok::Name)?;
            Ok((Some(name), to))
        }
        None => Ok((None, at)),
    }
}

/// Parameters, whether `...` is among them, and the place after them.
pub fn params(alloc: Global, cut: &Cut, mut at: u32) -> Result<(Items<u32>, bool, u32), ParseErr>
    requires { at ≤ length (toks_of cut.now) }
    ensures ok { IfOk result (λ r. Found (toks_of cut.now) at r.2 0 0 (AreParams (toks_of cut.now) at r.2 r.0 r.1)) }
    ensures known { IfOk result (λ r. Known (toks_of cut.now) r.2 (λ l n. ReadParams l at) r) }
    ensures stops { (left : ℕ) → IfErr result (StopsParams (toks_of cut.now) left at) }
{
    if let Some(to) = eat(cut, at, Tok::Sign(Sign::Dots)) {
        return Ok((Items::new(alloc), true, to));
    }
    if !cut.is_at(at, Tok::Name) {
        return Ok((Items::new(alloc), false, at));
    }
    let mut found = Growing::new(alloc);
    loop {
        let to = expect(cut, at, Tok::Name)?;
        found.push(at)?;
        let Some(next) = eat(cut, to, Tok::Sign(Sign::Comma)) else {
            return Ok((found.exact(), false, to));
        };
        if let Some(end) = eat(cut, next, Tok::Sign(Sign::Dots)) {
            return Ok((found.exact(), true, end));
        }
        at = next;
    }
}

/// `['<' Name '>']`, and the place after it.
fn attribute(cut: &Cut, at: u32) -> Result<(Option<u32>, u32), ParseErr>
    requires { at ≤ length (toks_of cut.now) }
    ensures ok { IfOk result (λ r. Found (toks_of cut.now) at r.1 0 0 (IsAttribute (toks_of cut.now) at r.1 r.0)) }
    ensures known { IfOk result (λ r. Known (toks_of cut.now) r.1 (λ l n. ReadAttribute l at) r) }
    ensures stops { (left : ℕ) → IfErr result (StopsAttribute (toks_of cut.now) left at) }
{
    match eat(cut, at, Tok::Sign(Sign::Less)) {
        Some(name) => {
            let close = expect(cut, name, Tok::Name)?;
            let to = expect(cut, close, Tok::Sign(Sign::Greater))?;
            Ok((Some(name), to))
        }
        None => Ok((None, at)),
    }
}

/// `Name attrib {',' Name attrib}`, and the place after it.
pub fn declared(alloc: Global, cut: &Cut, mut at: u32) -> Result<(Items<Declared>, u32), ParseErr>
    ensures ok { IfOk result (λ r. Found (toks_of cut.now) (at + 1) r.1 0 0 (AreDeclared (toks_of cut.now) at r.1 r.0)) }
    ensures known { IfOk result (λ r. Known (toks_of cut.now) r.1 (λ l n. ReadDeclared l at) r) }
    ensures stops { (left : ℕ) → at ≤ length (toks_of cut.now) → IfErr result (StopsDeclared (toks_of cut.now) left at) }
{
    let mut found = Growing::new(alloc);
    loop {
        let name = at;
        let after = expect(cut, name, Tok::Name)?;
        let (attribute, to) = attribute(cut, after)?;
        found.push(Declared { name, attribute })?;
        match eat(cut, to, Tok::Sign(Sign::Comma)) {
            Some(next) => at = next,
            None => return Ok((found.exact(), to)),
        }
    }
}
