// Where the jumps of a chunk go, or their first fault.
ghost use Rattle.std.specs.Prelude.{◌≡◌, None, Some, IfOk, IfErr};
ghost use Rattle.luf_lex.specs.Cut.{IsCut};
ghost use Rattle.luf_lex.specs.Tokens.{toks_of};
ghost use Rattle.luf_tree.specs.Grammar.{IsChunk};
ghost use Rattle.luf_scope.specs.Fault.{first_fault, jump_faults};
ghost use Rattle.luf_scope.specs.Links.{spelling_in, occurrences_of, IfBad};
ghost use Rattle.luf_scope.specs.Outline.{AreReadOf};
ghost use Rattle.luf_goto.specs.Jumps.{AreJumps};
ghost use Rattle.luf_goto.specs.inner.Sites.{IsInOrder};
ghost use Rattle.luf_goto.specs.inner.Targets.{targets_in};

use crate::faults::first_bad;
use crate::leaps::{first_entering, first_missing};
use crate::naming::name_sites;
use crate::outside::first_outside;
use crate::scopes::scopes_of;
use crate::sites::sites_of;
use crate::targets::targets_of;
use crate::twice::first_twice;
use crate::{Jumps, Memory};
use luf_lex::Cut;
use luf_scope::{Occurrence, ScopeBad, ScopeErr, occurrences};
use luf_tree::Chunk;
use std::alloc::Global;

/// What the names of labels refer to in the chunk of a cut. Time is that of sorting its labels, gotos and local variables,
/// and memory is linear.
///
/// # Errors
///
/// `Bad` with the first fault of a jump: a label that is told twice, a `goto` that sees no label or goes into the scope of
/// a local variable, or a `break` outside a loop. `Memory`.
pub fn labels(alloc: Global, src: &[u8], cut: &Cut, c: &Chunk) -> Result<Jumps, ScopeErr>
    requires cut { IsCut src.now cut.now }
    requires tree { IsChunk (toks_of cut.now) c.now }
    ensures ok { IfOk result (λ j. AreJumps (spelling_in src.now cut.now) (occurrences_of c.now) j) }
    ensures accepted { IfOk result (λ _. first_fault (jump_faults (spelling_in src.now cut.now) (occurrences_of c.now)) ≡ None) }
    ensures bad { IfErr result (λ e. IfBad e (λ b. first_fault (jump_faults (spelling_in src.now cut.now) (occurrences_of c.now)) ≡ Some b)) }
{
    let os = occurrences(alloc, c)?;
    labels_read(alloc, src, cut, c, os.as_slice())
}

/// The same, where what the chunk says is read already, or its outline.
pub fn labels_read(
    alloc: Global,
    src: &[u8],
    cut: &Cut,
    c: &Chunk,
    os: &[Occurrence],
) -> Result<Jumps, ScopeErr>
    requires cut { IsCut src.now cut.now }
    requires tree { IsChunk (toks_of cut.now) c.now }
    requires read { AreReadOf os.now c.now }
    ensures ok { IfOk result (λ j. AreJumps (spelling_in src.now cut.now) (occurrences_of c.now) j) }
    ensures accepted { IfOk result (λ _. first_fault (jump_faults (spelling_in src.now cut.now) (occurrences_of c.now)) ≡ None) }
    ensures bad { IfErr result (λ e. IfBad e (λ b. first_fault (jump_faults (spelling_in src.now cut.now) (occurrences_of c.now)) ≡ Some b)) }
{
    // Each token has a number, and so has the place behind the last one.
    let _tokens = cut.tokens();
    jumps_of(alloc, src, cut, os)
}

fn jumps_of(alloc: Global, src: &[u8], cut: &Cut, os: &[Occurrence]) -> Result<Jumps, ScopeErr>
    requires cut { IsCut src.now cut.now }
    requires order { IsInOrder os.now }
    ensures ok { IfOk result (λ j. AreJumps (spelling_in src.now cut.now) os.now j) }
    ensures accepted { IfOk result (λ _. first_fault (jump_faults (spelling_in src.now cut.now) os.now) ≡ None) }
    ensures bad { IfErr result (λ e. IfBad e (λ b. first_fault (jump_faults (spelling_in src.now cut.now) os.now) ≡ Some b)) }
{
    let checked = check(alloc, src, cut, os)?;
    match checked.bad {
        Some(bad) => Err(ScopeErr::Bad(bad)),
        None => Ok(Jumps::of(alloc, os, checked.targets.as_slice())?),
    }
}

// The number of the label that each goto goes to, and the first fault.
#[derive(Drop)]
struct Checked {
    targets: Vec<Option<u32>>,
    bad: Option<ScopeBad>,
}

fn check(alloc: Global, src: &[u8], cut: &Cut, os: &[Occurrence]) -> Result<Checked, Memory>
    requires cut { IsCut src.now cut.now }
    requires order { IsInOrder os.now }
    ensures targets { IfOk result (λ k. k.targets.items ≡ targets_in (spelling_in src.now cut.now) os.now) }
    ensures bad { IfOk result (λ k. k.bad ≡ first_fault (jump_faults (spelling_in src.now cut.now) os.now)) }
{
    let s = sites_of(alloc, os)?;
    let named = name_sites(alloc, src, cut, s.labels.as_slice(), s.gotos.as_slice())?;
    let labels = named.labels.as_slice();
    let gotos = named.gotos.as_slice();
    let names = labels.len() + gotos.len();
    let targets = targets_of(alloc, labels, gotos, names)?;
    let scopes = scopes_of(alloc, os, labels)?;
    let twice = first_twice(alloc, labels, names)?;
    let outside = first_outside(alloc, s.loops.as_slice(), s.breaks.as_slice(), os.len() + 1)?;
    let missing = first_missing(gotos, targets.as_slice());
    let entering = first_entering(gotos, targets.as_slice(), labels, scopes.as_slice());
    let bad = first_bad(twice, missing, entering, outside);
    Ok(Checked { targets, bad })
}
