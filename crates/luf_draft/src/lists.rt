// Names, and what stands round them, with the marks that open the statements in which they stand.
ghost use Rattle.std.specs.Prelude.{◌≡◌, ◌++◌, true, OnOk};
ghost use Rattle.luf_tree.specs.SyntaxOf.{declared_of};
ghost use Rattle.luf_draft.specs.inner.Marks.{listed, before_part, comma_and, dot_marks, token_mark, declared_mark, dots_behind, method_marks};
ghost use Rattle.luf_draft.specs.inner.Runs as runs;

use crate::adding::{add, add_all, separate, separate_by_comma};
use crate::edges::open_spaced;
use crate::mark::{GapKind, Mark, Part};
use luf_lex::{Sign, Word};
use luf_memory::Memory;
use luf_tree::Declared;

/// Names with `,` between them.
fn add_names(names: &[u32], gap: GapKind, into: &mut Vec<Mark>) -> Result<(), Memory>
    ensures { OnOk result (into.new.items ≡ into.old.items ++ listed (comma_and gap) token_mark true names.now) }
{
    let mut first = true;
    for name in names {
        separate_by_comma(first, gap, into)?;
        add(Mark::Token(*name), into)?;
        first = false;
    }
    Ok(())
}

/// The parameters of a function, in parentheses.
pub(crate) fn add_parameters(
    names: &[u32],
    vararg: bool,
    into: &mut Vec<Mark>,
) -> Result<(), Memory>
    ensures { OnOk result (into.new.items ≡ into.old.items ++ runs.parameters_before names.now vararg) }
{
    let none = has_none(names, vararg);
    open_parameters(none, into)?;
    add_names(names, GapKind::Line, into)?;
    add_dots(names, vararg, into)?;
    close_parameters(none, into)
}

/// Whether there is neither a name nor `...`.
fn has_none(names: &[u32], vararg: bool) -> bool
    ensures { result ≡ runs.no_parameters names.now vararg }
{
    match (vararg, names) {
        (false, []) => true,
        (false, [_, ..]) => false,
        (true, _) => false,
    }
}

fn open_parameters(none: bool, into: &mut Vec<Mark>) -> Result<(), Memory>
    ensures { OnOk result (into.new.items ≡ into.old.items ++ runs.parameters_opened none) }
{
    match none {
        true => add_all(
            &[
                Mark::Gap(GapKind::Tight),
                Mark::Sign(Sign::LeftParen),
                Mark::Gap(GapKind::TightEnd),
            ],
            into,
        ),
        false => add_all(
            &[
                Mark::Gap(GapKind::Tight),
                Mark::Open(Part::Group),
                Mark::Open(Part::Sequence),
                Mark::Sign(Sign::LeftParen),
                Mark::Open(Part::Nest),
                Mark::Open(Part::Sequence),
                Mark::Gap(GapKind::Soft),
            ],
            into,
        ),
    }
}

fn close_parameters(none: bool, into: &mut Vec<Mark>) -> Result<(), Memory>
    ensures { OnOk result (into.new.items ≡ into.old.items ++ runs.parameters_closed none) }
{
    match none {
        true => add(Mark::Sign(Sign::RightParen), into),
        false => add_all(
            &[
                Mark::Close,
                Mark::Close,
                Mark::Gap(GapKind::SoftEnd),
                Mark::Sign(Sign::RightParen),
                Mark::Close,
                Mark::Close,
            ],
            into,
        ),
    }
}

/// The `...` behind these parameters.
fn add_dots(names: &[u32], vararg: bool, into: &mut Vec<Mark>) -> Result<(), Memory>
    ensures { OnOk result (into.new.items ≡ into.old.items ++ dots_behind names.now vararg) }
{
    match (vararg, names) {
        (false, _) => Ok(()),
        (true, []) => add(Mark::Sign(Sign::Dots), into),
        (true, [_, ..]) => add_all(
            &[
                Mark::Gap(GapKind::Tight),
                Mark::Sign(Sign::Comma),
                Mark::Gap(GapKind::Line),
                Mark::Sign(Sign::Dots),
            ],
            into,
        ),
    }
}

/// `local` and the names that it declares, with their attributes.
pub(crate) fn open_local(names: &[Declared], into: &mut Vec<Mark>) -> Result<(), Memory>
    ensures { OnOk result (into.new.items ≡ into.old.items ++ runs.local_opened names.now) }
{
    open_spaced(Word::Local, into)?;
    add_all_declared(names, into)
}

fn add_all_declared(names: &[Declared], into: &mut Vec<Mark>) -> Result<(), Memory>
    ensures { OnOk result (into.new.items ≡ into.old.items ++ runs.declared_listed names.now) }
{
    let mut first = true;
    for d in names {
        separate_by_comma(first, GapKind::Space, into)?;
        add_declared(*d, into)?;
        first = false;
    }
    Ok(())
}

fn add_declared(d: Declared, into: &mut Vec<Mark>) -> Result<(), Memory>
    ensures { OnOk result (into.new.items ≡ into.old.items ++ declared_mark (declared_of d)) }
{
    add(Mark::Token(d.name), into)?;
    match d.attribute {
        None => Ok(()),
        Some(name) => add_all(
            &[
                Mark::Gap(GapKind::Space),
                Mark::Sign(Sign::Less),
                Mark::Gap(GapKind::Tight),
                Mark::Token(name),
                Mark::Gap(GapKind::Tight),
                Mark::Sign(Sign::Greater),
            ],
            into,
        ),
    }
}

/// `function` and the names of the function's path.
pub(crate) fn open_function(path: &[u32], into: &mut Vec<Mark>) -> Result<(), Memory>
    ensures { OnOk result (into.new.items ≡ into.old.items ++ runs.function_opened path.now) }
{
    open_spaced(Word::Function, into)?;
    add_path(path, into)
}

fn add_path(path: &[u32], into: &mut Vec<Mark>) -> Result<(), Memory>
    ensures { OnOk result (into.new.items ≡ into.old.items ++ runs.path_listed path.now) }
{
    let mut first = true;
    for name in path {
        separate_by_dot(first, into)?;
        add(Mark::Token(*name), into)?;
        first = false;
    }
    Ok(())
}

/// `.` before each name but the first.
fn separate_by_dot(first: bool, into: &mut Vec<Mark>) -> Result<(), Memory>
    ensures { OnOk result (into.new.items ≡ into.old.items ++ before_part dot_marks first) }
{
    let marks = [
        Mark::Gap(GapKind::Tight),
        Mark::Sign(Sign::Dot),
        Mark::Gap(GapKind::Tight),
    ];
    separate(first, &marks, into)
}

/// The method that a function's name ends with, if it does.
pub(crate) fn add_method(method: Option<u32>, into: &mut Vec<Mark>) -> Result<(), Memory>
    ensures { OnOk result (into.new.items ≡ into.old.items ++ method_marks method) }
{
    match method {
        None => Ok(()),
        Some(name) => add_all(
            &[
                Mark::Gap(GapKind::Tight),
                Mark::Sign(Sign::Colon),
                Mark::Gap(GapKind::Tight),
                Mark::Token(name),
            ],
            into,
        ),
    }
}

/// `local function` and its name.
pub(crate) fn open_local_function(name: u32, into: &mut Vec<Mark>) -> Result<(), Memory>
    ensures { OnOk result (into.new.items ≡ into.old.items ++ runs.local_function_opened name) }
{
    let marks = [
        Mark::Open(Part::Sequence),
        Mark::Word(Word::Local),
        Mark::Gap(GapKind::Space),
        Mark::Word(Word::Function),
        Mark::Gap(GapKind::Space),
        Mark::Token(name),
    ];
    add_all(&marks, into)
}

/// `for` with its variable, up to behind the `=`.
pub(crate) fn open_for(name: u32, into: &mut Vec<Mark>) -> Result<(), Memory>
    ensures { OnOk result (into.new.items ≡ into.old.items ++ runs.for_opened name) }
{
    let marks = [
        Mark::Open(Part::Sequence),
        Mark::Word(Word::For),
        Mark::Gap(GapKind::Space),
        Mark::Token(name),
        Mark::Gap(GapKind::Space),
        Mark::Sign(Sign::Assign),
        Mark::Gap(GapKind::Space),
    ];
    add_all(&marks, into)
}

/// `for` with its variables.
pub(crate) fn open_for_in(names: &[u32], into: &mut Vec<Mark>) -> Result<(), Memory>
    ensures { OnOk result (into.new.items ≡ into.old.items ++ runs.for_in_opened names.now) }
{
    open_spaced(Word::For, into)?;
    add_names(names, GapKind::Space, into)
}

pub(crate) fn add_label(name: u32, into: &mut Vec<Mark>) -> Result<(), Memory>
    ensures { OnOk result (into.new.items ≡ into.old.items ++ runs.label_of name) }
{
    let marks = [
        Mark::Open(Part::Sequence),
        Mark::Sign(Sign::DoubleColon),
        Mark::Gap(GapKind::Tight),
        Mark::Token(name),
        Mark::Gap(GapKind::Tight),
        Mark::Sign(Sign::DoubleColon),
        Mark::Close,
    ];
    add_all(&marks, into)
}

pub(crate) fn add_goto(name: u32, into: &mut Vec<Mark>) -> Result<(), Memory>
    ensures { OnOk result (into.new.items ≡ into.old.items ++ runs.goto_of name) }
{
    let marks = [
        Mark::Open(Part::Sequence),
        Mark::Word(Word::Goto),
        Mark::Gap(GapKind::Space),
        Mark::Token(name),
        Mark::Close,
    ];
    add_all(&marks, into)
}
