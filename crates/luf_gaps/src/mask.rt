// Single tokens that are marked in a mask, and what is looked at for them.
ghost use Rattle.std.specs.Prelude.{◌≡◌, ◌+◌, ◌∷◌, map, length, slice_set, true};
ghost use Rattle.luf_tree.specs.SyntaxOf.{syntax_of_expr, syntax_of_field, expressions_of};
ghost use Rattle.luf_bare.specs.Dropped as dropped;
ghost use Rattle.luf_bare.specs.Lone as lone;
ghost use Rattle.luf_gaps.specs.inner.Marked.{Marks};

use luf_tree::{Expr, ExprKind, Field};

/// Marks token `n`, if there is one.
pub(crate) fn mark(n: u32, mask: &mut [bool])
    ensures { Marks (λ more. n ∷ more) mask.old mask.new }
{
    set_true(n as usize, mask);
}

fn set_true(n: usize, mask: &mut [bool])
    ensures { mask.new ≡ slice_set mask.old n true }
{
    if n < mask.len() {
        mask[n] = true;
    }
}

/// Marks token `n` if it is dropped.
pub(crate) fn mark_if(drops: bool, n: u32, mask: &mut [bool])
    ensures { Marks (dropped.if_dropped drops n) mask.old mask.new }
{
    if drops {
        mark(n, mask);
    }
}

/// Marks the token between two places, if there is one.
pub(crate) fn mark_between(from: u32, to: u32, mask: &mut [bool])
    ensures { Marks (dropped.between from to) mask.old mask.new }
{
    if from < to {
        mark(from, mask);
    }
}

/// Marks the `;` of a `return` from one place to another with these values.
pub(crate) fn mark_return(from: u32, to: u32, values: &[Expr], mask: &mut [bool])
    ensures { Marks (dropped.between (dropped.end_of_expressions (from + 1) (expressions_of (map syntax_of_expr values.now))) to) mask.old mask.new }
{
    match values {
        [] => {
            if from < to {
                mark_between(from + 1, to, mask);
            }
        }
        [.., last] => mark_between(end_of_expr(last), to, mask),
    }
}

fn end_of_expr(e: &Expr) -> u32
    ensures { result ≡ dropped.end_of_expression (syntax_of_expr e.now) }
{
    e.to
}

/// The place behind a field.
pub(crate) fn end_of_field(f: &Field) -> u32
    ensures { result ≡ dropped.end_of_field (syntax_of_field f.now) }
{
    match f {
        Field::Item(value) => end_of_expr(value),
        Field::Named { value, .. } => end_of_expr(value),
        Field::Keyed { value, .. } => end_of_expr(value),
    }
}

/// Whether the parentheses of these arguments are dropped, if they have any.
pub(crate) fn drops_parentheses(parens: bool, items: &[Expr]) -> bool
    ensures { result ≡ dropped.both parens (lone.is_lone (expressions_of (map syntax_of_expr items.now))) }
{
    parens && is_lone(items)
}

/// Whether these are one string or one table.
fn is_lone(items: &[Expr]) -> bool
    ensures { result ≡ lone.is_lone (expressions_of (map syntax_of_expr items.now)) }
{
    match items {
        [] => false,
        [e] => is_lone_item(e),
        [_, _, ..] => false,
    }
}

fn is_lone_item(e: &Expr) -> bool
    ensures { result ≡ lone.is_lone_item (syntax_of_expr e.now) }
{
    match &e.what {
        ExprKind::Str | ExprKind::Table(_) => true,
        ExprKind::Nil
        | ExprKind::True
        | ExprKind::False
        | ExprKind::Number
        | ExprKind::Vararg
        | ExprKind::Name
        | ExprKind::Paren(_)
        | ExprKind::Function(_)
        | ExprKind::Unary(_)
        | ExprKind::Chain { .. }
        | ExprKind::Power { .. }
        | ExprKind::NameSuffixed(_)
        | ExprKind::Suffixed { .. } => false,
    }
}
