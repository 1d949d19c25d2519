// How the arguments of a call are written, and what stands round them.
ghost use Rattle.std.specs.Prelude.{◌≡◌, ◌++◌, map, OnOk};
ghost use Rattle.luf_tree.specs.SyntaxOf.{syntax_of_expr, expressions_of};
ghost use Rattle.luf_quote.specs.Parens.{keeps_round_string, keeps_round_table};
ghost use Rattle.luf_draft.specs.Form.{items_of, kind_of_one, last_kind};
ghost use Rattle.luf_draft.specs.inner.Arguments.{lone_shape, last_shape, shape_of, arguments_opened, arguments_gap, arguments_closed};

use crate::adding::{add, add_all};
use crate::mark::{GapKind, Mark, Part};
use luf_lex::Sign;
use luf_memory::Memory;
use luf_quote::{CallStyle, Lone, keeps_parens};
use luf_tree::{Expr, ExprKind};

/// How arguments are written.
#[derive(Clone, Copy, Debug, PartialEq, Eq)]
pub(crate) enum Shape {
    /// There are none.
    Empty,
    /// One string or table without parentheses.
    Bare,
    /// One string or table in parentheses.
    Round,
    /// Several of which the last is a function or a table.
    Hugged,
    /// Others: a group, which can be broken.
    Spread,
}

/// How these are written, where they had parentheses or not.
pub(crate) fn shape_for(calls: CallStyle, items: &[Expr], had: bool) -> Shape
    ensures { result ≡ shape_of (keeps_round_string calls) (keeps_round_table calls) had (items_of (expressions_of (map syntax_of_expr items.now))) }
{
    match items {
        [] => Shape::Empty,
        [e] => shape_of_one(calls, e, had),
        [_, .., last] => shape_by_last(last),
    }
}

fn shape_of_one(calls: CallStyle, e: &Expr, had: bool) -> Shape
    ensures { result ≡ shape_of (keeps_round_string calls) (keeps_round_table calls) had (kind_of_one (syntax_of_expr e.now)) }
{
    match &e.what {
        ExprKind::Str => lone(keeps_parens(calls, Lone::Str, had)),
        ExprKind::Table(_) => lone(keeps_parens(calls, Lone::Table, had)),
        ExprKind::Function(_) => Shape::Hugged,
        ExprKind::Nil
        | ExprKind::True
        | ExprKind::False
        | ExprKind::Number
        | ExprKind::Vararg
        | ExprKind::Name
        | ExprKind::Paren(_)
        | ExprKind::Unary(_)
        | ExprKind::Chain { .. }
        | ExprKind::Power { .. }
        | ExprKind::NameSuffixed(_)
        | ExprKind::Suffixed { .. } => Shape::Spread,
    }
}

fn shape_by_last(last: &Expr) -> Shape
    ensures { result ≡ last_shape (last_kind (syntax_of_expr last.now)) }
{
    match &last.what {
        ExprKind::Table(_) | ExprKind::Function(_) => Shape::Hugged,
        ExprKind::Str
        | ExprKind::Nil
        | ExprKind::True
        | ExprKind::False
        | ExprKind::Number
        | ExprKind::Vararg
        | ExprKind::Name
        | ExprKind::Paren(_)
        | ExprKind::Unary(_)
        | ExprKind::Chain { .. }
        | ExprKind::Power { .. }
        | ExprKind::NameSuffixed(_)
        | ExprKind::Suffixed { .. } => Shape::Spread,
    }
}

fn lone(round: bool) -> Shape
    ensures { result ≡ lone_shape round }
{
    match round {
        true => Shape::Round,
        false => Shape::Bare,
    }
}

/// The gap behind each `,`.
pub(crate) fn gap_in(shape: Shape) -> GapKind
    ensures { result ≡ arguments_gap shape }
{
    match shape {
        Shape::Empty | Shape::Bare | Shape::Round | Shape::Hugged => GapKind::Space,
        Shape::Spread => GapKind::Line,
    }
}

pub(crate) fn open_arguments(shape: Shape, into: &mut Vec<Mark>) -> Result<(), Memory>
    ensures { OnOk result (into.new.items ≡ into.old.items ++ arguments_opened shape) }
{
    match shape {
        Shape::Empty => add_all(
            &[
                Mark::Gap(GapKind::Tight),
                Mark::Sign(Sign::LeftParen),
                Mark::Gap(GapKind::TightEnd),
            ],
            into,
        ),
        Shape::Bare => add(Mark::Gap(GapKind::Space), into),
        Shape::Round => add_all(
            &[Mark::Sign(Sign::LeftParen), Mark::Gap(GapKind::Tight)],
            into,
        ),
        Shape::Hugged => add_all(
            &[
                Mark::Gap(GapKind::Tight),
                Mark::Sign(Sign::LeftParen),
                Mark::Gap(GapKind::Tight),
            ],
            into,
        ),
        Shape::Spread => add_all(
            &[
                Mark::Gap(GapKind::Tight),
                Mark::Open(Part::Group),
                Mark::Open(Part::Sequence),
                Mark::Sign(Sign::LeftParen),
                Mark::Open(Part::Nest),
                Mark::Open(Part::Sequence),
                Mark::Gap(GapKind::Soft),
            ],
            into,
        ),
    }
}

pub(crate) fn close_arguments(shape: Shape, into: &mut Vec<Mark>) -> Result<(), Memory>
    ensures { OnOk result (into.new.items ≡ into.old.items ++ arguments_closed shape) }
{
    match shape {
        Shape::Empty | Shape::Round => add(Mark::Sign(Sign::RightParen), into),
        Shape::Bare => Ok(()),
        Shape::Hugged => add_all(
            &[Mark::Gap(GapKind::TightEnd), Mark::Sign(Sign::RightParen)],
            into,
        ),
        Shape::Spread => add_all(
            &[
                Mark::Close,
                Mark::Close,
                Mark::Gap(GapKind::SoftEnd),
                Mark::Sign(Sign::RightParen),
                Mark::Close,
                Mark::Close,
            ],
            into,
        ),
    }
}
