// What a gap without notes writes.
ghost use Rattle.std.specs.Prelude.{◌≡◌, ◌↔◌, List, [], map, IsTrue};
ghost use Rattle.luf_doc.specs.declared.doc.Chance.TheVariants.{Tight};
ghost use Rattle.luf_draft.specs.Draft.{Border as Place};
ghost use Rattle.luf_draft.specs.Flat.{gap_of_kind, shown};
ghost use Rattle.luf_style.specs.Filled.{IsChance};
ghost use Rattle.luf_style.specs.inner.Chances.{noted_chance};
ghost use Rattle.luf_style.specs.inner.Running.{text_of, first_flat};
ghost use Rattle.luf_style.specs.inner.Written.{AreTexts, IsText};

use crate::word::{first_text, needs_blank, text_of};
use crate::written::Written;
use luf_doc::{Chance, Remark};
use luf_draft::{GapKind, Mark};

/// The chance of a gap of this kind with these notes, behind the text of `last` and before the marks `rest`.
pub(crate) fn chance_between(
    written: &Written,
    last: Mark,
    kind: GapKind,
    notes: &[Remark],
    rest: &[Mark],
) -> Chance
    requires { AreTexts written.now }
    ensures { IsChance (text_of (shown written.now last)) (first_flat (map (shown written.now) rest.now)) notes.now (gap_of_kind kind).border (gap_of_kind kind).chance result }
{
    if !notes.is_empty() {
        return chance_with_notes(kind);
    }
    let chance = chance_of(kind);
    if is_tight(chance) {
        return chance_of_tight(text_of(written, last), first_text(written, rest));
    }
    chance
}

fn chance_of(kind: GapKind) -> Chance
    ensures { result ≡ (gap_of_kind kind).chance }
{
    match kind {
        GapKind::Tight | GapKind::TightEnd => Chance::Tight,
        GapKind::Space | GapKind::EmptyBlock => Chance::Space,
        GapKind::Soft | GapKind::SoftEnd => Chance::Soft,
        GapKind::Line | GapKind::LineEnd => Chance::Line,
        GapKind::FirstStatement
        | GapKind::LaterStatement
        | GapKind::BlockEnd
        | GapKind::SourceEnd
        | GapKind::EmptySource => Chance::Hard,
    }
}

/// Whether the notes of a gap stand one level deeper.
pub(crate) fn is_deeper(kind: GapKind) -> bool
    ensures { result ≡ (gap_of_kind kind).deeper }
{
    matches!(
        kind,
        GapKind::TightEnd
            | GapKind::SoftEnd
            | GapKind::LineEnd
            | GapKind::BlockEnd
            | GapKind::EmptyBlock
    )
}

/// The same of a gap with notes.
fn chance_with_notes(kind: GapKind) -> Chance
    ensures { result ≡ noted_chance (gap_of_kind kind).border (gap_of_kind kind).chance }
{
    match kind {
        GapKind::EmptyBlock | GapKind::EmptySource => Chance::Hard,
        GapKind::Tight
        | GapKind::Space
        | GapKind::Soft
        | GapKind::Line
        | GapKind::TightEnd
        | GapKind::SoftEnd
        | GapKind::LineEnd
        | GapKind::FirstStatement
        | GapKind::LaterStatement
        | GapKind::BlockEnd
        | GapKind::SourceEnd => chance_of(kind),
    }
}

fn is_tight(chance: Chance) -> bool
    ensures { IsTrue result ↔ (chance ≡ Tight) }
{
    matches!(chance, Chance::Tight)
}

/// What a tight gap without notes writes between two texts.
fn chance_of_tight(before: &[u8], after: &[u8]) -> Chance
    requires before { IsText before.now }
    requires after { IsText after.now }
    ensures { (border : Place) → IsChance before.now after.now [] border Tight result }
{
    if needs_blank(before, after) {
        Chance::Space
    } else {
        Chance::Tight
    }
}
