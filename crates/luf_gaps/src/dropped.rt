// The tokens of a chunk that its bare program has not, marked in a mask. Each function marks those of its part.
ghost use Rattle.std.specs.Prelude.{◌≡◌, [], map, replicate, false, IfOk};
ghost use Rattle.luf_tree.specs.SyntaxOf.{syntax_of, syntax_of_expr, syntax_of_field, syntax_of_suffix, syntax_of_step, syntax_of_stat, syntax_of_arm, syntax_of_args, syntax_of_block, syntax_of_body, expressions_of, operations_of, suffixes_of, fields_of, statements_of, arms_of};
ghost use Rattle.luf_bare.specs.Dropped.{dropped_expression, dropped_expressions, dropped_operation, dropped_operations, dropped_suffix, dropped_suffixes, dropped_arguments, dropped_field, dropped_fields, dropped_statement, dropped_statements, dropped_arm, dropped_arms, dropped_block, dropped_body};
ghost use Rattle.luf_gaps.specs.inner.Marked.{marked, Marks};

use crate::mask::{drops_parentheses, end_of_field, mark, mark_between, mark_if, mark_return};
use luf_memory::Memory;
use luf_tree::{
    Args, Arm, Block, Chunk, Expr, ExprKind, Field, FuncBody, Stat, StatKind, Step, Suffix,
};
use std::alloc::Global;

/// Of so many tokens which are dropped: a flag for each. The only error is that no memory was found.
pub(crate) fn dropped_tokens(alloc: Global, count: usize, c: &Chunk) -> Result<Vec<bool>, Memory>
    ensures { IfOk result (λ mask. mask.items ≡ marked (dropped_block (syntax_of c.now) []) (replicate count false)) }
{
    let mut mask = none_marked(alloc, count)?;
    of_block(&c.block, mask.as_mut_slice());
    Ok(mask)
}

fn none_marked(alloc: Global, count: usize) -> Result<Vec<bool>, Memory>
    ensures { IfOk result (λ mask. mask.items ≡ replicate count false) }
{
    Ok(vec![in alloc; false; count]?)
}

#[cycle(drops)]
fn of_block(b: &Block, mask: &mut [bool])
    ensures { Marks (dropped_block (syntax_of_block b.now)) mask.old mask.new }
{
    of_stats(b.stats.as_slice(), mask)
}

#[cycle(drops)]
fn of_stats(stats: &[Stat], mask: &mut [bool])
    ensures { Marks (dropped_statements (statements_of (map syntax_of_stat stats.now))) mask.old mask.new }
{
    for s in stats {
        of_stat(s, mask);
    }
}

#[cycle(drops)]
fn of_stat(s: &Stat, mask: &mut [bool])
    ensures { Marks (dropped_statement (syntax_of_stat s.now)) mask.old mask.new }
{
    match &s.what {
        StatKind::Empty => mark(s.from, mask),
        StatKind::Local { values, .. } => of_exprs(values.as_slice(), mask),
        StatKind::Assign { targets, values } => {
            of_exprs(targets.as_slice(), mask);
            of_exprs(values.as_slice(), mask)
        }
        StatKind::Call(call) => of_expr(call, mask),
        StatKind::Do(body) => of_block(body.get(), mask),
        StatKind::While { test, body } => {
            of_expr(test.get(), mask);
            of_block(body.get(), mask)
        }
        StatKind::Repeat { body, test } => {
            of_block(body, mask);
            of_expr(test.get(), mask)
        }
        StatKind::If { arms, last } => {
            of_arms(arms.as_slice(), mask);
            match last {
                Some(body) => of_block(body.get(), mask),
                None => {}
            }
        }
        StatKind::For {
            first,
            limit,
            step,
            body,
            ..
        } => {
            of_expr(first.get(), mask);
            of_expr(limit.get(), mask);
            match step {
                Some(step) => {
                    of_expr(step.get(), mask);
                    of_block(body.get(), mask)
                }
                None => of_block(body.get(), mask),
            }
        }
        StatKind::ForIn { values, body, .. } => {
            of_exprs(values.as_slice(), mask);
            of_block(body.get(), mask)
        }
        StatKind::Function { body, .. } => of_body(body.get(), mask),
        StatKind::LocalFunction { body, .. } => of_body(body.get(), mask),
        StatKind::Label(_) | StatKind::Goto(_) | StatKind::Break => {}
        StatKind::Return(values) => {
            of_exprs(values.as_slice(), mask);
            mark_return(s.from, s.to, values.as_slice(), mask)
        }
    }
}

#[cycle(drops)]
fn of_arms(arms: &[Arm], mask: &mut [bool])
    ensures { Marks (dropped_arms (arms_of (map syntax_of_arm arms.now))) mask.old mask.new }
{
    for a in arms {
        of_arm(a, mask);
    }
}

#[cycle(drops)]
fn of_arm(a: &Arm, mask: &mut [bool])
    ensures { Marks (dropped_arm (syntax_of_arm a.now)) mask.old mask.new }
{
    of_expr(&a.test, mask);
    of_block(&a.body, mask)
}

#[cycle(drops)]
fn of_body(f: &FuncBody, mask: &mut [bool])
    ensures { Marks (dropped_body (syntax_of_body f.now)) mask.old mask.new }
{
    of_block(&f.body, mask)
}

#[cycle(drops)]
fn of_exprs(exprs: &[Expr], mask: &mut [bool])
    ensures { Marks (dropped_expressions (expressions_of (map syntax_of_expr exprs.now))) mask.old mask.new }
{
    for e in exprs {
        of_expr(e, mask);
    }
}

#[cycle(drops)]
fn of_expr(e: &Expr, mask: &mut [bool])
    ensures { Marks (dropped_expression (syntax_of_expr e.now)) mask.old mask.new }
{
    match &e.what {
        ExprKind::Nil
        | ExprKind::True
        | ExprKind::False
        | ExprKind::Number
        | ExprKind::Str
        | ExprKind::Vararg
        | ExprKind::Name => {}
        ExprKind::Paren(inner) => of_expr(inner.get(), mask),
        ExprKind::Function(body) => of_body(body.get(), mask),
        ExprKind::Table(fields) => of_fields(fields.as_slice(), e.to.saturating_sub(1), mask),
        ExprKind::Unary(operand) => of_expr(operand.get(), mask),
        ExprKind::Chain { first, rest } => {
            of_expr(first.get(), mask);
            of_steps(rest.as_slice(), mask)
        }
        ExprKind::Power { base, exponent, .. } => {
            of_expr(base.get(), mask);
            of_expr(exponent.get(), mask)
        }
        ExprKind::NameSuffixed(suffixes) => of_suffixes(suffixes.as_slice(), mask),
        ExprKind::Suffixed { head, suffixes } => {
            of_expr(head.get(), mask);
            of_suffixes(suffixes.as_slice(), mask)
        }
    }
}

#[cycle(drops)]
fn of_steps(steps: &[Step], mask: &mut [bool])
    ensures { Marks (dropped_operations (operations_of (map syntax_of_step steps.now))) mask.old mask.new }
{
    for s in steps {
        of_step(s, mask);
    }
}

#[cycle(drops)]
fn of_step(s: &Step, mask: &mut [bool])
    ensures { Marks (dropped_operation (syntax_of_step s.now)) mask.old mask.new }
{
    of_expr(&s.right, mask)
}

#[cycle(drops)]
fn of_suffixes(suffixes: &[Suffix], mask: &mut [bool])
    ensures { Marks (dropped_suffixes (suffixes_of (map syntax_of_suffix suffixes.now))) mask.old mask.new }
{
    for s in suffixes {
        of_suffix(s, mask);
    }
}

#[cycle(drops)]
fn of_suffix(s: &Suffix, mask: &mut [bool])
    ensures { Marks (dropped_suffix (syntax_of_suffix s.now)) mask.old mask.new }
{
    match s {
        Suffix::Dot(_) => {}
        Suffix::Index(index) => of_expr(index.get(), mask),
        Suffix::Call(args) => of_args(args, mask),
        Suffix::Method { args, .. } => of_args(args, mask),
    }
}

#[cycle(drops)]
fn of_args(a: &Args, mask: &mut [bool])
    ensures { Marks (dropped_arguments (syntax_of_args a.now)) mask.old mask.new }
{
    let items = a.items.as_slice();
    let drops = drops_parentheses(a.parens, items);
    mark_if(drops, a.from, mask);
    of_exprs(items, mask);
    mark_if(drops, a.to.saturating_sub(1), mask)
}

// Fields, of a table whose `}` is this token.
#[cycle(drops)]
fn of_fields(fields: &[Field], last: u32, mask: &mut [bool])
    ensures { Marks (λ more. dropped_fields (fields_of (map syntax_of_field fields.now)) last more) mask.old mask.new }
{
    for f in fields {
        of_field(f, mask);
        mark_between(end_of_field(f), last, mask);
    }
}

#[cycle(drops)]
fn of_field(f: &Field, mask: &mut [bool])
    ensures { Marks (dropped_field (syntax_of_field f.now)) mask.old mask.new }
{
    match f {
        Field::Item(value) => of_expr(value, mask),
        Field::Named { value, .. } => of_expr(value, mask),
        Field::Keyed { key, value } => {
            of_expr(key.get(), mask);
            of_expr(value, mask)
        }
    }
}
