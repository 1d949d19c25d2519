// The numbers of the new names of local variables.
ghost use Rattle.std.specs.Prelude.{◌≡◌, ℕ, ◌<◌, ◌≤◌, [], IfOk, length, replicate};
ghost use Rattle.luf_lex.specs.Cut.{IsCut};
ghost use Rattle.luf_lex.specs.Tokens.{toks_of};
ghost use Rattle.luf_scope.specs.Links.{spelling_in, AreLinks};
ghost use Rattle.luf_scope.specs.Order.{AreOrdered};
ghost use Rattle.luf_interf.specs.inner.Owners.{AreLocalNames};
ghost use Rattle.luf_interf.specs.inner.Uses.{nowhere};

use crate::Memory;
use crate::barring::heads_of;
use crate::naming::Table;
use crate::owners::count_references;
use crate::scoping::{in_order, scopes_of};
use luf_lex::Cut;
use luf_scope::{Links, Occurrence};
use std::alloc::Global;

/// More than there are barred names.
const BARRED: usize = 25;

/// The numbers of the new names of local variables, by their own numbers; for those that keep their names any number.
pub fn local_names(
    alloc: Global,
    src: &[u8],
    cut: &Cut,
    os: &[Occurrence],
    l: &Links,
) -> Result<Vec<u32>, Memory>
    requires cut { IsCut src.now cut.now }
    requires order { AreOrdered 0 (length (toks_of cut.now)) (length (toks_of cut.now)) os.now }
    requires links { AreLinks (spelling_in src.now cut.now) os.now (length (toks_of cut.now)) l.now }
    requires few { length (toks_of cut.now) ≤ 16777216 }
    ensures { IfOk result (λ numbers. AreLocalNames (spelling_in src.now cut.now) os.now numbers.items) }
{
    let count = l.binders().len();
    let mut firsts = nowheres(alloc, count)?;
    let mut table = Table {
        heads: heads_of(alloc, count_references(os) + BARRED)?,
        uses: Vec::new(alloc),
        names: nowheres(alloc, count)?,
        behind: nowheres(alloc, count)?,
    };
    table.read(src, cut, os, l, firsts.as_mut_slice())?;
    let scopes = in_order(scopes_of(alloc, os, l.binders())?)?;
    table.give_all(firsts.as_slice(), scopes.as_slice());
    Ok(table.names)
}

fn nowheres(alloc: Global, count: usize) -> Result<Vec<u32>, Memory>
    ensures { IfOk result (λ found. found.items ≡ replicate count nowhere) }
{
    let found = vec![in alloc; u32::MAX; count]?;
    Ok(found)
}
