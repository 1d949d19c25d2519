// What the names of a chunk mean, or the first fault of a name.
ghost use Rattle.std.specs.Prelude.{◌≡◌, ℕ, List, Some, None, IfOk, IfErr, length, map};
ghost use Rattle.luf_lex.specs.Cut.{IsCut};
ghost use Rattle.luf_lex.specs.Tokens.{toks_of};
ghost use Rattle.luf_tree.specs.Grammar.{IsChunk};
ghost use Rattle.luf_scope.specs.Fault.{first_fault, name_faults};
ghost use Rattle.luf_scope.specs.Links.{spelling_in, occurrences_of, AreLinks, IfBad};
ghost use Rattle.luf_scope.specs.Local.{locals_of};
ghost use Rattle.luf_scope.specs.Order.{AreOrdered};
ghost use Rattle.luf_scope.specs.Outline.{outline_of};
ghost use Rattle.luf_scope.specs.inner.Buckets.{number_in};
ghost use Rattle.luf_scope.specs.inner.Scopes.{meaning_of, name_number, scopes_from};

use crate::checks::{any_attribute, name_fault, plain_name_fault};
use crate::meanings::meanings;
use crate::names::Names;
use crate::roles::roles_of;
use crate::scopes::{Scope, in_order};
use crate::variables::{Variables, variables_of};
use crate::{Links, Memory, Occurrence, ScopeErr, occurrences};
use luf_lex::Cut;
use luf_tree::Chunk;
use std::alloc::Global;

/// What each token of a source is to the names of its chunk, and the local variables.
///
/// # Errors
///
/// `Bad` with the first fault of a name: an attribute, an assignment of a constant, or `...` outside a vararg function.
/// `Memory`.
pub fn resolve(alloc: Global, src: &[u8], cut: &Cut, c: &Chunk) -> Result<Links, ScopeErr>
    requires cut { IsCut src.now cut.now }
    requires tree { IsChunk (toks_of cut.now) c.now }
    ensures ok { IfOk result (λ links. AreLinks (spelling_in src.now cut.now) (occurrences_of c.now) (length (toks_of cut.now)) links) }
    ensures accepted { IfOk result (λ _. first_fault (name_faults (spelling_in src.now cut.now) (occurrences_of c.now)) ≡ None) }
    ensures bad { IfErr result (λ e. IfBad e (λ b. first_fault (name_faults (spelling_in src.now cut.now) (occurrences_of c.now)) ≡ Some b)) }
{
    let os = occurrences(alloc, c)?;
    resolve_read(alloc, src, cut, c, os.as_slice())
}

/// The same, where what the chunk says is read already.
pub fn resolve_read(
    alloc: Global,
    src: &[u8],
    cut: &Cut,
    c: &Chunk,
    os: &[Occurrence],
) -> Result<Links, ScopeErr>
    requires cut { IsCut src.now cut.now }
    requires tree { IsChunk (toks_of cut.now) c.now }
    requires read { os.now ≡ occurrences_of c.now }
    ensures ok { IfOk result (λ links. AreLinks (spelling_in src.now cut.now) (occurrences_of c.now) (length (toks_of cut.now)) links) }
    ensures accepted { IfOk result (λ _. first_fault (name_faults (spelling_in src.now cut.now) (occurrences_of c.now)) ≡ None) }
    ensures bad { IfErr result (λ e. IfBad e (λ b. first_fault (name_faults (spelling_in src.now cut.now) (occurrences_of c.now)) ≡ Some b)) }
{
    links_of(alloc, src, cut, os)
}

/// Whether the names of a chunk have a fault, where its outline is read already. Of a chunk without attributes no name is
/// looked up; of another all that it says is read.
///
/// # Errors
///
/// As `resolve`.
pub fn check_names(
    alloc: Global,
    src: &[u8],
    cut: &Cut,
    c: &Chunk,
    os: &[Occurrence],
) -> Result<(), ScopeErr>
    requires cut { IsCut src.now cut.now }
    requires tree { IsChunk (toks_of cut.now) c.now }
    requires read { os.now ≡ outline_of c.now }
    ensures accepted { IfOk result (λ _. first_fault (name_faults (spelling_in src.now cut.now) (occurrences_of c.now)) ≡ None) }
    ensures bad { IfErr result (λ e. IfBad e (λ b. first_fault (name_faults (spelling_in src.now cut.now) (occurrences_of c.now)) ≡ Some b)) }
{
    if any_attribute(os) {
        return match resolve(alloc, src, cut, c) {
            Ok(_) => Ok(()),
            Err(e) => Err(e),
        };
    }
    match plain_name_fault(alloc, os)? {
        Some(bad) => Err(ScopeErr::Bad(bad)),
        None => Ok(()),
    }
}

fn links_of(alloc: Global, src: &[u8], cut: &Cut, os: &[Occurrence]) -> Result<Links, ScopeErr>
    requires cut { IsCut src.now cut.now }
    requires order { AreOrdered 0 (length (toks_of cut.now)) (length (toks_of cut.now)) os.now }
    ensures ok { IfOk result (λ links. AreLinks (spelling_in src.now cut.now) os.now (length (toks_of cut.now)) links) }
    ensures accepted { IfOk result (λ _. first_fault (name_faults (spelling_in src.now cut.now) os.now) ≡ None) }
    ensures bad { IfErr result (λ e. IfBad e (λ b. first_fault (name_faults (spelling_in src.now cut.now) os.now) ≡ Some b)) }
{
    let tokens = cut.tokens();
    let Variables {
        binders,
        names,
        scopes,
    } = variables_of(alloc, src, cut, os)?;
    let meanings = meanings_of(alloc, src, cut, os, names, scopes)?;
    match name_fault(alloc, src, cut, os, meanings.as_slice(), binders.as_slice())? {
        Some(bad) => Err(ScopeErr::Bad(bad)),
        None => {
            let roles = roles_of(alloc, os, meanings.as_slice())?;
            Ok(Links::of(tokens, roles, binders))
        }
    }
}

// What each occurrence means that names a variable, where these are the numbers of names and the scopes.
fn meanings_of<'a>(
    alloc: Global,
    src: &'a [u8],
    cut: &Cut,
    os: &[Occurrence],
    names: Names<'a>,
    scopes: Vec<Scope>,
) -> Result<Vec<Option<u32>>, Memory>
    requires cut { IsCut src.now cut.now }
    requires order { AreOrdered 0 (length (toks_of cut.now)) (length (toks_of cut.now)) os.now }
    requires names { (name : List ℕ) → number_in names.buckets.items name ≡ name_number (locals_of (spelling_in src.now cut.now) os.now) name }
    requires scopes { scopes.items ≡ scopes_from (name_number (locals_of (spelling_in src.now cut.now) os.now)) 0 (locals_of (spelling_in src.now cut.now) os.now) }
    ensures { let spelled = spelling_in src.now cut.now in IfOk result (λ found. found.items ≡ map (meaning_of spelled (locals_of spelled os.now)) os.now) }
{
    let scopes = in_order(scopes)?;
    let found = meanings(alloc, src, cut, os, &names, scopes.as_slice())?;
    Ok(found)
}
