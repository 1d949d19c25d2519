// The labels and gotos with a number for each name in its function.
ghost use Rattle.std.specs.Prelude.{◌≡◌, ◌+◌, ◌<◌, ◌≤◌, ◌^◌, ◌++◌, length, map, IfOk};
ghost use Rattle.luf_lex.specs.Cut.{IsCut};
ghost use Rattle.luf_scope.specs.Links.{spelling_in};
ghost use Rattle.luf_goto.specs.inner.Names.{name_of, first_place, names_in, numbered_label, numbered_goto, labels_numbered, gotos_numbered};

use crate::Memory;
use crate::names::{Name, number_names};
use crate::sites::{GotoRow, LabelRow};
use luf_lex::Cut;
use std::alloc::Global;

// Labels and gotos of which two have the same class where they have the same name in the same function.
#[derive(Drop)]
pub struct Named {
    pub labels: Vec<LabelRow>,
    pub gotos: Vec<GotoRow>,
}

pub fn name_sites(
    alloc: Global,
    src: &[u8],
    cut: &Cut,
    labels: &[LabelRow],
    gotos: &[GotoRow],
) -> Result<Named, Memory>
    requires { IsCut src.now cut.now }
    ensures labels { IfOk result (λ n. n.labels.items ≡ map (numbered_label (spelling_in src.now cut.now) (names_in (spelling_in src.now cut.now) labels.now gotos.now)) labels.now) }
    ensures gotos { IfOk result (λ n. n.gotos.items ≡ map (numbered_goto (spelling_in src.now cut.now) (names_in (spelling_in src.now cut.now) labels.now gotos.now)) gotos.now) }
    ensures few { IfOk result (λ n. length labels.now + length gotos.now < 2 ^ 32) }
{
    let names = names_of(alloc, src, cut, labels, gotos)?;
    let numbers = number_names(alloc, names.as_slice())?;
    let named_labels = number_labels(alloc, labels, numbers.as_slice())?;
    let named_gotos = number_gotos(alloc, gotos, labels.len(), numbers.as_slice())?;
    Ok(Named {
        labels: named_labels,
        gotos: named_gotos,
    })
}

fn names_of<'a>(
    alloc: Global,
    src: &'a [u8],
    cut: &Cut,
    labels: &[LabelRow],
    gotos: &[GotoRow],
) -> Result<Vec<Name<'a>>, Memory>
    requires { IsCut src.now cut.now }
    ensures { IfOk result (λ names. map name_of names.items ≡ names_in (spelling_in src.now cut.now) labels.now gotos.now) }
{
    let mut names = Vec::new(alloc);
    for l in labels {
        names.push((l.class, spelling(src, cut, l.name)))?;
    }
    for g in gotos {
        names.push((g.class, spelling(src, cut, g.name)))?;
    }
    Ok(names)
}

// How a token is spelled; beyond the last one nothing is.
fn spelling<'a>(src: &'a [u8], cut: &Cut, token: u32) -> &'a [u8]
    requires { IsCut src.now cut.now }
    ensures { result.now ≡ spelling_in src.now cut.now token }
{
    match cut.spelling(src, token) {
        Some(spelling) => spelling,
        None => &[],
    }
}

fn number_labels(
    alloc: Global,
    labels: &[LabelRow],
    numbers: &[u32],
) -> Result<Vec<LabelRow>, Memory>
    requires { length labels.now ≤ length numbers.now }
    ensures { IfOk result (λ rows. rows.items ≡ labels_numbered numbers.now 0 labels.now) }
{
    let mut rows = Vec::new(alloc);
    for (i, l) in labels.iter().enumerate() {
        rows.push(LabelRow {
            class: numbers[i],
            ..*l
        })?;
    }
    Ok(rows)
}

// The first goto has the number at `first`.
fn number_gotos(
    alloc: Global,
    gotos: &[GotoRow],
    first: usize,
    numbers: &[u32],
) -> Result<Vec<GotoRow>, Memory>
    requires { first + length gotos.now ≤ length numbers.now }
    ensures { IfOk result (λ rows. rows.items ≡ gotos_numbered numbers.now first gotos.now) }
{
    let mut rows = Vec::new(alloc);
    for (i, g) in gotos.iter().enumerate() {
        rows.push(GotoRow {
            class: numbers[first + i],
            ..*g
        })?;
    }
    Ok(rows)
}
