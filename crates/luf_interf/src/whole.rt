// The least names of a source.
ghost use Rattle.std.specs.Prelude.{◌≡◌, IfOk, length, slice_index};
ghost use Rattle.luf_lex.specs.Cut.{IsCut};
ghost use Rattle.luf_lex.specs.Tokens.{toks_of};
ghost use Rattle.luf_tree.specs.Grammar.{IsChunk};
ghost use Rattle.luf_scope.specs.Links.{spelling_in, occurrences_of, AreLinks};
ghost use Rattle.luf_goto.specs.Jumps.{AreJumps};
ghost use Rattle.luf_interf.specs.NewNames.{AreNames};
ghost use Rattle.luf_interf.specs.inner.LabelNames.{name_of_number};
ghost use Rattle.luf_interf.specs.inner.Told.{local_told, label_told, told_at, name_told};

use crate::label_names::label_names;
use crate::locals::local_names;
use crate::naming::number_at;
use crate::owners::keeps_name;
use crate::{Memory, Names};
use luf_goto::Jumps;
use luf_lex::{Cut, Tok};
use luf_name::{Name, nth};
use luf_scope::{Binder, JumpRole, Links, Occurrence, Role, occurrences};
use luf_tree::Chunk;
use std::alloc::Global;

/// The least names of a source, where these are its names and labels: what `resolve` and `labels` answered. Time is near
/// linear, and memory is linear.
pub fn names(
    alloc: Global,
    src: &[u8],
    cut: &Cut,
    c: &Chunk,
    l: &Links,
    j: &Jumps,
) -> Result<Names, Memory>
    requires cut { IsCut src.now cut.now }
    requires tree { IsChunk (toks_of cut.now) c.now }
    requires links { AreLinks (spelling_in src.now cut.now) (occurrences_of c.now) (length (toks_of cut.now)) l.now }
    requires jumps { AreJumps (spelling_in src.now cut.now) (occurrences_of c.now) j.now }
    ensures { IfOk result (λ n. AreNames (spelling_in src.now cut.now) (occurrences_of c.now) n) }
{
    let os = occurrences(alloc, c)?;
    names_read(alloc, src, cut, c, os.as_slice(), l, j)
}

/// The same, where what the chunk says is read already.
pub fn names_read(
    alloc: Global,
    src: &[u8],
    cut: &Cut,
    c: &Chunk,
    os: &[Occurrence],
    l: &Links,
    j: &Jumps,
) -> Result<Names, Memory>
    requires cut { IsCut src.now cut.now }
    requires tree { IsChunk (toks_of cut.now) c.now }
    requires read { os.now ≡ occurrences_of c.now }
    requires links { AreLinks (spelling_in src.now cut.now) (occurrences_of c.now) (length (toks_of cut.now)) l.now }
    requires jumps { AreJumps (spelling_in src.now cut.now) (occurrences_of c.now) j.now }
    ensures { IfOk result (λ n. AreNames (spelling_in src.now cut.now) (occurrences_of c.now) n) }
{
    let tokens = cut.tokens();
    let locals = local_names(alloc, src, cut, os, l)?;
    let labels = label_names(alloc, os)?;
    let mut found = Names::new(alloc);
    for n in 0..tokens {
        if let Some(name) = name_at(cut, l, j, locals.as_slice(), labels.as_slice(), n) {
            found.add(n, name)?;
        }
    }
    Ok(found)
}

// The new name of a token, if it has one. Only names have one, so no other token is looked up.
fn name_at(
    cut: &Cut,
    l: &Links,
    j: &Jumps,
    locals: &[u32],
    labels: &[u32],
    token: u32,
) -> Option<Name>
    ensures { result ≡ name_told (toks_of cut.now) l.now j.now locals.now labels.now token }
{
    match cut.token(token) {
        Some(Tok::Name) => told_name(l, j, locals, labels, token),
        _ => None,
    }
}

fn told_name(l: &Links, j: &Jumps, locals: &[u32], labels: &[u32], token: u32) -> Option<Name>
    ensures { result ≡ told_at l.now j.now locals.now labels.now token }
{
    match l.at(token) {
        Some(Role::Declares(n)) => local_name(l.binders(), locals, n),
        Some(Role::Refers(n)) => local_name(l.binders(), locals, n),
        Some(Role::Plain) => label_name(j.at(token), labels),
        Some(Role::Global) => None,
        Some(Role::Field) => None,
        None => None,
    }
}

// The new name of a local variable, if it is renamed.
fn local_name(binders: &[Binder], locals: &[u32], n: u32) -> Option<Name>
    ensures { result ≡ local_told binders.now locals.now n }
{
    if keeps_name(binders, n) {
        return None;
    }
    Some(numbered(number_at(locals, n)))
}

// The new name of a label.
fn label_name(to: Option<JumpRole>, labels: &[u32]) -> Option<Name>
    ensures { result ≡ label_told labels.now to }
{
    match to {
        Some(JumpRole::Label(n)) => Some(numbered(label_number(labels, n))),
        Some(JumpRole::Goto(n)) => Some(numbered(label_number(labels, n))),
        None => None,
    }
}

fn label_number(labels: &[u32], n: u32) -> u32
    ensures { result ≡ slice_index labels.now n }
{
    match labels.get(n as usize) {
        Some(number) => *number,
        None => 0,
    }
}

fn numbered(number: u32) -> Name
    ensures { result ≡ name_of_number number }
{
    nth(number)
}
