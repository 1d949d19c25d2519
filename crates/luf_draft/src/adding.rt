// How marks are added to a draft, and what stands before a part of a list.
ghost use Rattle.std.specs.Prelude.{◌≡◌, ◌++◌, ◌∷◌, [], OnOk};
ghost use Rattle.luf_draft.specs.inner.Marks.{before_part, comma_and};
ghost use Rattle.luf_draft.specs.inner.Runs.{comma_line, elseif_word};

use crate::mark::{GapKind, Mark};
use luf_lex::{Sign, Word};
use luf_memory::Memory;

pub(crate) fn add(mark: Mark, into: &mut Vec<Mark>) -> Result<(), Memory>
    ensures { OnOk result (into.new.items ≡ into.old.items ++ mark ∷ []) }
{
    into.push(mark)?;
    Ok(())
}

pub(crate) fn add_all(marks: &[Mark], into: &mut Vec<Mark>) -> Result<(), Memory>
    ensures { OnOk result (into.new.items ≡ into.old.items ++ marks.now) }
{
    into.extend_from_slice(marks)?;
    Ok(())
}

/// What stands before a part of a list: nothing before the first.
pub(crate) fn separate(first: bool, between: &[Mark], into: &mut Vec<Mark>) -> Result<(), Memory>
    ensures { OnOk result (into.new.items ≡ into.old.items ++ before_part between.now first) }
{
    if first {
        return Ok(());
    }
    add_all(between, into)
}

/// A `,` and that gap.
pub(crate) fn add_comma(gap: GapKind, into: &mut Vec<Mark>) -> Result<(), Memory>
    ensures { OnOk result (into.new.items ≡ into.old.items ++ comma_and gap) }
{
    let marks = [
        Mark::Gap(GapKind::Tight),
        Mark::Sign(Sign::Comma),
        Mark::Gap(gap),
    ];
    add_all(&marks, into)
}

/// A `,` and that gap before each part but the first.
pub(crate) fn separate_by_comma(
    first: bool,
    gap: GapKind,
    into: &mut Vec<Mark>,
) -> Result<(), Memory>
    ensures { OnOk result (into.new.items ≡ into.old.items ++ before_part (comma_and gap) first) }
{
    if first {
        return Ok(());
    }
    add_comma(gap, into)
}

/// A `,` and a gap that breaks before each field but the first.
pub(crate) fn separate_fields(first: bool, into: &mut Vec<Mark>) -> Result<(), Memory>
    ensures { OnOk result (into.new.items ≡ into.old.items ++ before_part comma_line first) }
{
    let marks = [Mark::Sign(Sign::Comma), Mark::Gap(GapKind::Line)];
    separate(first, &marks, into)
}

/// `elseif` before each arm but the first.
pub(crate) fn separate_arms(first: bool, into: &mut Vec<Mark>) -> Result<(), Memory>
    ensures { OnOk result (into.new.items ≡ into.old.items ++ before_part elseif_word first) }
{
    separate(first, &[Mark::Word(Word::ElseIf)], into)
}
