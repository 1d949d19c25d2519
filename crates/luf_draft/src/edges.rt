// What opens a part of a draft, what closes it, and what stands between two of its parts.
ghost use Rattle.std.specs.Prelude.{◌≡◌, ◌++◌, OnOk};
ghost use Rattle.luf_draft.specs.inner.Marks.{is_none};
ghost use Rattle.luf_draft.specs.inner.Runs as runs;

use crate::adding::{add, add_all};
use crate::mark::{GapKind, Mark, Part};
use luf_lex::{Sign, Word};
use luf_memory::Memory;
use luf_tree::{Expr, Field};

/// A part that begins with that word.
pub(crate) fn open_word(word: Word, into: &mut Vec<Mark>) -> Result<(), Memory>
    ensures { OnOk result (into.new.items ≡ into.old.items ++ runs.word_opened word) }
{
    let marks = [Mark::Open(Part::Sequence), Mark::Word(word)];
    add_all(&marks, into)
}

/// The same, and a space behind it.
pub(crate) fn open_spaced(word: Word, into: &mut Vec<Mark>) -> Result<(), Memory>
    ensures { OnOk result (into.new.items ≡ into.old.items ++ runs.word_spaced word) }
{
    let marks = [
        Mark::Open(Part::Sequence),
        Mark::Word(word),
        Mark::Gap(GapKind::Space),
    ];
    add_all(&marks, into)
}

/// A part that ends with that word.
pub(crate) fn close_word(word: Word, into: &mut Vec<Mark>) -> Result<(), Memory>
    ensures { OnOk result (into.new.items ≡ into.old.items ++ runs.word_closed word) }
{
    let marks = [Mark::Word(word), Mark::Close];
    add_all(&marks, into)
}

pub(crate) fn add_space_word(word: Word, into: &mut Vec<Mark>) -> Result<(), Memory>
    ensures { OnOk result (into.new.items ≡ into.old.items ++ runs.space_word word) }
{
    let marks = [Mark::Gap(GapKind::Space), Mark::Word(word)];
    add_all(&marks, into)
}

pub(crate) fn add_word_space(word: Word, into: &mut Vec<Mark>) -> Result<(), Memory>
    ensures { OnOk result (into.new.items ≡ into.old.items ++ runs.word_space word) }
{
    let marks = [Mark::Word(word), Mark::Gap(GapKind::Space)];
    add_all(&marks, into)
}

pub(crate) fn add_between(word: Word, into: &mut Vec<Mark>) -> Result<(), Memory>
    ensures { OnOk result (into.new.items ≡ into.old.items ++ runs.word_between word) }
{
    let marks = [
        Mark::Gap(GapKind::Space),
        Mark::Word(word),
        Mark::Gap(GapKind::Space),
    ];
    add_all(&marks, into)
}

pub(crate) fn add_equals(into: &mut Vec<Mark>) -> Result<(), Memory>
    ensures { OnOk result (into.new.items ≡ into.old.items ++ runs.equals) }
{
    let marks = [
        Mark::Gap(GapKind::Space),
        Mark::Sign(Sign::Assign),
        Mark::Gap(GapKind::Space),
    ];
    add_all(&marks, into)
}

pub(crate) fn open_paren(into: &mut Vec<Mark>) -> Result<(), Memory>
    ensures { OnOk result (into.new.items ≡ into.old.items ++ runs.paren_opened) }
{
    let marks = [
        Mark::Open(Part::Sequence),
        Mark::Sign(Sign::LeftParen),
        Mark::Gap(GapKind::Tight),
    ];
    add_all(&marks, into)
}

pub(crate) fn close_paren(into: &mut Vec<Mark>) -> Result<(), Memory>
    ensures { OnOk result (into.new.items ≡ into.old.items ++ runs.paren_closed) }
{
    let marks = [
        Mark::Gap(GapKind::Tight),
        Mark::Sign(Sign::RightParen),
        Mark::Close,
    ];
    add_all(&marks, into)
}

pub(crate) fn open_bracket(into: &mut Vec<Mark>) -> Result<(), Memory>
    ensures { OnOk result (into.new.items ≡ into.old.items ++ runs.bracket_opened) }
{
    let marks = [Mark::Sign(Sign::LeftBracket), Mark::Gap(GapKind::Tight)];
    add_all(&marks, into)
}

pub(crate) fn close_bracket(into: &mut Vec<Mark>) -> Result<(), Memory>
    ensures { OnOk result (into.new.items ≡ into.old.items ++ runs.bracket_closed) }
{
    let marks = [Mark::Gap(GapKind::Tight), Mark::Sign(Sign::RightBracket)];
    add_all(&marks, into)
}

pub(crate) fn open_group(into: &mut Vec<Mark>) -> Result<(), Memory>
    ensures { OnOk result (into.new.items ≡ into.old.items ++ runs.group_opened) }
{
    let marks = [Mark::Open(Part::Group), Mark::Open(Part::Sequence)];
    add_all(&marks, into)
}

pub(crate) fn open_nest(into: &mut Vec<Mark>) -> Result<(), Memory>
    ensures { OnOk result (into.new.items ≡ into.old.items ++ runs.nest_opened) }
{
    let marks = [Mark::Open(Part::Nest), Mark::Open(Part::Sequence)];
    add_all(&marks, into)
}

/// A nest in a group, and the group.
pub(crate) fn close_nested_group(into: &mut Vec<Mark>) -> Result<(), Memory>
    ensures { OnOk result (into.new.items ≡ into.old.items ++ runs.all_closed) }
{
    let marks = [Mark::Close, Mark::Close, Mark::Close, Mark::Close];
    add_all(&marks, into)
}

/// The `^` between two operands.
pub(crate) fn add_power_sign(sign: u32, into: &mut Vec<Mark>) -> Result<(), Memory>
    ensures { OnOk result (into.new.items ≡ into.old.items ++ runs.power_sign sign) }
{
    let marks = [
        Mark::Gap(GapKind::Space),
        Mark::Token(sign),
        Mark::Gap(GapKind::Space),
    ];
    add_all(&marks, into)
}

/// The operator before an operand of a chain.
pub(crate) fn add_step_sign(sign: u32, into: &mut Vec<Mark>) -> Result<(), Memory>
    ensures { OnOk result (into.new.items ≡ into.old.items ++ runs.step_sign sign) }
{
    let marks = [
        Mark::Gap(GapKind::Line),
        Mark::Token(sign),
        Mark::Gap(GapKind::Space),
    ];
    add_all(&marks, into)
}

/// The name of a field, and `=`.
pub(crate) fn add_named(name: u32, into: &mut Vec<Mark>) -> Result<(), Memory>
    ensures { OnOk result (into.new.items ≡ into.old.items ++ runs.named_field name) }
{
    let marks = [
        Mark::Token(name),
        Mark::Gap(GapKind::Space),
        Mark::Sign(Sign::Assign),
        Mark::Gap(GapKind::Space),
    ];
    add_all(&marks, into)
}

pub(crate) fn add_dot(name: u32, into: &mut Vec<Mark>) -> Result<(), Memory>
    ensures { OnOk result (into.new.items ≡ into.old.items ++ runs.dot_suffix name) }
{
    let marks = [
        Mark::Gap(GapKind::Tight),
        Mark::Sign(Sign::Dot),
        Mark::Gap(GapKind::Tight),
        Mark::Token(name),
    ];
    add_all(&marks, into)
}

pub(crate) fn open_table(fields: &[Field], into: &mut Vec<Mark>) -> Result<(), Memory>
    ensures { OnOk result (into.new.items ≡ into.old.items ++ runs.table_opened (is_none fields.now)) }
{
    match fields {
        [] => add_all(
            &[
                Mark::Open(Part::Sequence),
                Mark::Sign(Sign::LeftBrace),
                Mark::Gap(GapKind::TightEnd),
            ],
            into,
        ),
        [_, ..] => add_all(
            &[
                Mark::Open(Part::Group),
                Mark::Open(Part::Sequence),
                Mark::Sign(Sign::LeftBrace),
                Mark::Open(Part::Nest),
                Mark::Open(Part::Sequence),
                Mark::Gap(GapKind::Line),
            ],
            into,
        ),
    }
}

pub(crate) fn close_table(fields: &[Field], into: &mut Vec<Mark>) -> Result<(), Memory>
    ensures { OnOk result (into.new.items ≡ into.old.items ++ runs.table_closed (is_none fields.now)) }
{
    match fields {
        [] => add_all(&[Mark::Sign(Sign::RightBrace), Mark::Close], into),
        [_, ..] => add_all(
            &[
                Mark::Trail,
                Mark::Close,
                Mark::Close,
                Mark::Gap(GapKind::LineEnd),
                Mark::Sign(Sign::RightBrace),
                Mark::Close,
                Mark::Close,
            ],
            into,
        ),
    }
}

/// The `=` before values, if there are any.
pub(crate) fn open_values(values: &[Expr], into: &mut Vec<Mark>) -> Result<(), Memory>
    ensures { OnOk result (into.new.items ≡ into.old.items ++ runs.values_opened (is_none values.now)) }
{
    match values {
        [] => Ok(()),
        [_, ..] => add_all(
            &[
                Mark::Gap(GapKind::Space),
                Mark::Sign(Sign::Assign),
                Mark::Gap(GapKind::Space),
            ],
            into,
        ),
    }
}

pub(crate) fn open_return(values: &[Expr], into: &mut Vec<Mark>) -> Result<(), Memory>
    ensures { OnOk result (into.new.items ≡ into.old.items ++ runs.return_opened (is_none values.now)) }
{
    match values {
        [] => add(Mark::Word(Word::Return), into),
        [_, ..] => add_all(
            &[
                Mark::Open(Part::Sequence),
                Mark::Word(Word::Return),
                Mark::Gap(GapKind::Space),
            ],
            into,
        ),
    }
}

pub(crate) fn close_return(values: &[Expr], into: &mut Vec<Mark>) -> Result<(), Memory>
    ensures { OnOk result (into.new.items ≡ into.old.items ++ runs.return_closed (is_none values.now)) }
{
    match values {
        [] => Ok(()),
        [_, ..] => add(Mark::Close, into),
    }
}

/// Before the statements of a block, or in place of them.
pub(crate) fn open_body(none: bool, into: &mut Vec<Mark>) -> Result<(), Memory>
    ensures { OnOk result (into.new.items ≡ into.old.items ++ runs.body_opened none) }
{
    match none {
        true => add(Mark::Gap(GapKind::EmptyBlock), into),
        false => add_all(&[Mark::Open(Part::Nest), Mark::Open(Part::Sequence)], into),
    }
}

pub(crate) fn close_body(none: bool, into: &mut Vec<Mark>) -> Result<(), Memory>
    ensures { OnOk result (into.new.items ≡ into.old.items ++ runs.body_closed none) }
{
    match none {
        true => Ok(()),
        false => add_all(
            &[Mark::Close, Mark::Close, Mark::Gap(GapKind::BlockEnd)],
            into,
        ),
    }
}

/// The same of the main block.
pub(crate) fn open_source(none: bool, into: &mut Vec<Mark>) -> Result<(), Memory>
    ensures { OnOk result (into.new.items ≡ into.old.items ++ runs.source_opened none) }
{
    match none {
        true => add(Mark::Gap(GapKind::EmptySource), into),
        false => add(Mark::Open(Part::Sequence), into),
    }
}

pub(crate) fn close_source(none: bool, into: &mut Vec<Mark>) -> Result<(), Memory>
    ensures { OnOk result (into.new.items ≡ into.old.items ++ runs.source_closed none) }
{
    match none {
        true => Ok(()),
        false => add_all(&[Mark::Gap(GapKind::SourceEnd), Mark::Close], into),
    }
}
