// What a chunk says of names, functions, loops and jumps, read off its tree. Each function adds what its part says: all of
// it, or its outline.
ghost use Rattle.std.specs.Prelude.{◌≡◌, ◌∷◌, map, IfOk, OnOk};
ghost use Rattle.luf_tree.specs.SyntaxOf.{syntax_of, syntax_of_expr, syntax_of_field, syntax_of_suffix, syntax_of_step, syntax_of_stat, syntax_of_arm, syntax_of_block, syntax_of_body, expressions_of, operations_of, suffixes_of, fields_of, statements_of, arms_of};
ghost use Rattle.luf_scope.specs.Occurrences.{span_of, loop_of, target_of, occurrences_in_expression, occurrences_in_expressions, occurrences_in_targets, occurrences_in_operation, occurrences_in_operations, occurrences_in_suffix, occurrences_in_suffixes, occurrences_in_field, occurrences_in_fields, occurrences_in_statement, occurrences_in_statements, occurrences_in_arm, occurrences_in_arms, occurrences_in_block, occurrences_in_repeated, occurrences_in_body};
ghost use Rattle.luf_scope.specs.Outline.{outlined};
ghost use Rattle.luf_scope.specs.inner.Kept.{Adds};
ghost use Rattle.luf_scope.specs.inner.Parts.{held_by};

use crate::adding::{
    add, add_locals, add_loop_variables, add_method, add_parameters, add_path, is_at_end,
    is_void_statement, plain_variable,
};
use crate::{Memory, Occurrence};
use luf_tree::{Arm, Block, Chunk, Expr, ExprKind, Field, FuncBody, Stat, StatKind, Step, Suffix};
use std::alloc::Global;

/// What a chunk says of names, functions, loops and jumps, in the order of its tokens.
pub fn occurrences(alloc: Global, c: &Chunk) -> Result<Vec<Occurrence>, Memory>
    ensures { IfOk result (λ found. found.items ≡ occurrences_in_block (syntax_of c.now)) }
{
    let mut found = Vec::new(alloc);
    of_block(true, &c.block, &mut found)?;
    Ok(found)
}

/// The same without what only names that are used say: what is declared, functions, loops, jumps and `...`.
pub fn outline(alloc: Global, c: &Chunk) -> Result<Vec<Occurrence>, Memory>
    ensures { IfOk result (λ found. found.items ≡ outlined (occurrences_in_block (syntax_of c.now))) }
{
    let mut found = Vec::new(alloc);
    of_block(false, &c.block, &mut found)?;
    Ok(found)
}

// The block that holds a statement: its tokens, up to where its names are active, and whether it is that of `repeat`.
#[derive(Clone, Copy)]
struct Holder {
    from: u32,
    to: u32,
    end: u32,
    until: bool,
}

#[cycle(reading)]
fn of_block(all: bool, b: &Block, into: &mut Vec<Occurrence>) -> Result<(), Memory>
    ensures { OnOk result (Adds all into.old.items into.new.items (occurrences_in_block (syntax_of_block b.now))) }
{
    let holder = Holder {
        from: b.from,
        to: b.to,
        end: b.to,
        until: false,
    };
    of_stats(all, holder, b.stats.as_slice(), into)
}

#[cycle(reading)]
fn of_repeated(all: bool, end: u32, b: &Block, into: &mut Vec<Occurrence>) -> Result<(), Memory>
    ensures { OnOk result (Adds all into.old.items into.new.items (occurrences_in_repeated end (syntax_of_block b.now))) }
{
    let holder = Holder {
        from: b.from,
        to: b.to,
        end,
        until: true,
    };
    of_stats(all, holder, b.stats.as_slice(), into)
}

#[cycle(reading)]
fn of_loop(all: bool, b: &Block, into: &mut Vec<Occurrence>) -> Result<(), Memory>
    ensures { OnOk result (Adds all into.old.items into.new.items (loop_of (span_of (syntax_of_block b.now)) ∷ occurrences_in_block (syntax_of_block b.now))) }
{
    add(
        all,
        Occurrence::Loop {
            from: b.from,
            to: b.to,
        },
        into,
    )?;
    of_block(all, b, into)
}

#[cycle(reading)]
fn of_stats(
    all: bool,
    holder: Holder,
    stats: &[Stat],
    into: &mut Vec<Occurrence>,
) -> Result<(), Memory>
    ensures { OnOk result (Adds all into.old.items into.new.items (occurrences_in_statements (held_by holder) (statements_of (map syntax_of_stat stats.now)))) }
{
    let mut solid = stats.iter().filter(|s| !is_void_statement(s)).count();
    for s in stats {
        if !is_void_statement(s) {
            solid -= 1;
        }
        of_stat(all, holder, solid == 0, s, into)?;
    }
    Ok(())
}

#[cycle(reading)]
fn of_stat(
    all: bool,
    holder: Holder,
    ended: bool,
    s: &Stat,
    into: &mut Vec<Occurrence>,
) -> Result<(), Memory>
    ensures { OnOk result (Adds all into.old.items into.new.items (occurrences_in_statement (held_by holder) ended (syntax_of_stat s.now))) }
{
    match &s.what {
        StatKind::Empty => Ok(()),
        StatKind::Local { names, values } => {
            add_locals(all, s.to, holder.end, names.as_slice(), into)?;
            of_exprs(all, values.as_slice(), into)
        }
        StatKind::Assign { targets, values } => {
            of_targets(all, targets.as_slice(), into)?;
            of_exprs(all, values.as_slice(), into)
        }
        StatKind::Call(call) => of_expr(all, call, into),
        StatKind::Do(body) => of_block(all, body.get(), into),
        StatKind::While { test, body } => {
            of_expr(all, test.get(), into)?;
            of_loop(all, body.get(), into)
        }
        StatKind::Repeat { body, test } => {
            add(
                all,
                Occurrence::Loop {
                    from: body.from,
                    to: body.to,
                },
                into,
            )?;
            of_repeated(all, s.to, body, into)?;
            of_expr(all, test.get(), into)
        }
        StatKind::If { arms, last } => {
            of_arms(all, arms.as_slice(), into)?;
            match last {
                Some(body) => of_block(all, body.get(), into),
                None => Ok(()),
            }
        }
        StatKind::For {
            name,
            first,
            limit,
            step,
            body,
        } => {
            let body = body.get();
            add_loop_variables(all, body.from, body.to, &[*name], into)?;
            of_expr(all, first.get(), into)?;
            of_expr(all, limit.get(), into)?;
            match step {
                Some(step) => {
                    of_expr(all, step.get(), into)?;
                    of_loop(all, body, into)
                }
                None => of_loop(all, body, into),
            }
        }
        StatKind::ForIn {
            names,
            values,
            body,
        } => {
            let body = body.get();
            add_loop_variables(all, body.from, body.to, names.get().as_slice(), into)?;
            of_exprs(all, values.as_slice(), into)?;
            of_loop(all, body, into)
        }
        StatKind::Function { path, method, body } => {
            let body = body.get();
            add_path(all, path.as_slice(), *method, into)?;
            add_method(all, body.body.from, body.body.to, *method, into)?;
            of_body(all, body, into)
        }
        StatKind::LocalFunction { name, body } => {
            let body = body.get();
            let one = Occurrence::LocalFunction {
                name: *name,
                from: body.from,
                to: holder.end,
            };
            add(all, one, into)?;
            of_body(all, body, into)
        }
        StatKind::Label(name) => {
            let one = Occurrence::Label {
                name: *name,
                from: holder.from,
                to: holder.to,
                at_end: is_at_end(holder.until, ended),
            };
            add(all, one, into)
        }
        StatKind::Goto(name) => {
            let one = Occurrence::Goto {
                token: s.from,
                name: *name,
            };
            add(all, one, into)
        }
        StatKind::Break => add(all, Occurrence::Break(s.from), into),
        StatKind::Return(values) => of_exprs(all, values.as_slice(), into),
    }
}

#[cycle(reading)]
fn of_arms(all: bool, arms: &[Arm], into: &mut Vec<Occurrence>) -> Result<(), Memory>
    ensures { OnOk result (Adds all into.old.items into.new.items (occurrences_in_arms (arms_of (map syntax_of_arm arms.now)))) }
{
    for a in arms {
        of_arm(all, a, into)?;
    }
    Ok(())
}

#[cycle(reading)]
fn of_arm(all: bool, a: &Arm, into: &mut Vec<Occurrence>) -> Result<(), Memory>
    ensures { OnOk result (Adds all into.old.items into.new.items (occurrences_in_arm (syntax_of_arm a.now))) }
{
    of_expr(all, &a.test, into)?;
    of_block(all, &a.body, into)
}

#[cycle(reading)]
fn of_body(all: bool, f: &FuncBody, into: &mut Vec<Occurrence>) -> Result<(), Memory>
    ensures { OnOk result (Adds all into.old.items into.new.items (occurrences_in_body (syntax_of_body f.now))) }
{
    let one = Occurrence::Function {
        from: f.from,
        to: f.to,
        vararg: f.vararg,
    };
    add(all, one, into)?;
    add_parameters(all, f.body.from, f.body.to, f.params.as_slice(), into)?;
    of_block(all, &f.body, into)
}

#[cycle(reading)]
fn of_exprs(all: bool, exprs: &[Expr], into: &mut Vec<Occurrence>) -> Result<(), Memory>
    ensures { OnOk result (Adds all into.old.items into.new.items (occurrences_in_expressions (expressions_of (map syntax_of_expr exprs.now)))) }
{
    for e in exprs {
        of_expr(all, e, into)?;
    }
    Ok(())
}

#[cycle(reading)]
fn of_targets(all: bool, exprs: &[Expr], into: &mut Vec<Occurrence>) -> Result<(), Memory>
    ensures { OnOk result (Adds all into.old.items into.new.items (occurrences_in_targets (expressions_of (map syntax_of_expr exprs.now)))) }
{
    for e in exprs {
        of_target(all, e, into)?;
    }
    Ok(())
}

#[cycle(reading)]
fn of_target(all: bool, e: &Expr, into: &mut Vec<Occurrence>) -> Result<(), Memory>
    ensures { OnOk result (Adds all into.old.items into.new.items (target_of (syntax_of_expr e.now) (occurrences_in_expression (syntax_of_expr e.now)))) }
{
    match plain_variable(e) {
        Some(name) => add(all, Occurrence::Assigns(name), into),
        None => of_expr(all, e, into),
    }
}

#[cycle(reading)]
fn of_expr(all: bool, e: &Expr, into: &mut Vec<Occurrence>) -> Result<(), Memory>
    ensures { OnOk result (Adds all into.old.items into.new.items (occurrences_in_expression (syntax_of_expr e.now))) }
{
    match &e.what {
        ExprKind::Nil => Ok(()),
        ExprKind::True => Ok(()),
        ExprKind::False => Ok(()),
        ExprKind::Number => Ok(()),
        ExprKind::Str => Ok(()),
        ExprKind::Vararg => add(all, Occurrence::Varargs(e.from), into),
        ExprKind::Name => add(all, Occurrence::Reads(e.from), into),
        ExprKind::Paren(inner) => of_expr(all, inner.get(), into),
        ExprKind::Function(body) => of_body(all, body.get(), into),
        ExprKind::Table(fields) => of_fields(all, fields.as_slice(), into),
        ExprKind::Unary(operand) => of_expr(all, operand.get(), into),
        ExprKind::Chain { first, rest } => {
            of_expr(all, first.get(), into)?;
            of_steps(all, rest.as_slice(), into)
        }
        ExprKind::Power { base, exponent, .. } => {
            of_expr(all, base.get(), into)?;
            of_expr(all, exponent.get(), into)
        }
        ExprKind::NameSuffixed(suffixes) => {
            add(all, Occurrence::Reads(e.from), into)?;
            of_suffixes(all, suffixes.as_slice(), into)
        }
        ExprKind::Suffixed { head, suffixes } => {
            of_expr(all, head.get(), into)?;
            of_suffixes(all, suffixes.as_slice(), into)
        }
    }
}

#[cycle(reading)]
fn of_steps(all: bool, steps: &[Step], into: &mut Vec<Occurrence>) -> Result<(), Memory>
    ensures { OnOk result (Adds all into.old.items into.new.items (occurrences_in_operations (operations_of (map syntax_of_step steps.now)))) }
{
    for s in steps {
        of_step(all, s, into)?;
    }
    Ok(())
}

#[cycle(reading)]
fn of_step(all: bool, s: &Step, into: &mut Vec<Occurrence>) -> Result<(), Memory>
    ensures { OnOk result (Adds all into.old.items into.new.items (occurrences_in_operation (syntax_of_step s.now))) }
{
    of_expr(all, &s.right, into)
}

#[cycle(reading)]
fn of_suffixes(all: bool, suffixes: &[Suffix], into: &mut Vec<Occurrence>) -> Result<(), Memory>
    ensures { OnOk result (Adds all into.old.items into.new.items (occurrences_in_suffixes (suffixes_of (map syntax_of_suffix suffixes.now)))) }
{
    for s in suffixes {
        of_suffix(all, s, into)?;
    }
    Ok(())
}

#[cycle(reading)]
fn of_suffix(all: bool, s: &Suffix, into: &mut Vec<Occurrence>) -> Result<(), Memory>
    ensures { OnOk result (Adds all into.old.items into.new.items (occurrences_in_suffix (syntax_of_suffix s.now))) }
{
    match s {
        Suffix::Dot(name) => add(all, Occurrence::Field(*name), into),
        Suffix::Index(index) => of_expr(all, index.get(), into),
        Suffix::Call(args) => of_exprs(all, args.items.as_slice(), into),
        Suffix::Method { name, args } => {
            add(all, Occurrence::Field(*name), into)?;
            of_exprs(all, args.items.as_slice(), into)
        }
    }
}

#[cycle(reading)]
fn of_fields(all: bool, fields: &[Field], into: &mut Vec<Occurrence>) -> Result<(), Memory>
    ensures { OnOk result (Adds all into.old.items into.new.items (occurrences_in_fields (fields_of (map syntax_of_field fields.now)))) }
{
    for f in fields {
        of_field(all, f, into)?;
    }
    Ok(())
}

#[cycle(reading)]
fn of_field(all: bool, f: &Field, into: &mut Vec<Occurrence>) -> Result<(), Memory>
    ensures { OnOk result (Adds all into.old.items into.new.items (occurrences_in_field (syntax_of_field f.now))) }
{
    match f {
        Field::Item(value) => of_expr(all, value, into),
        Field::Named { name, value } => {
            add(all, Occurrence::Field(*name), into)?;
            of_expr(all, value, into)
        }
        Field::Keyed { key, value } => {
            of_expr(all, key.get(), into)?;
            of_expr(all, value, into)
        }
    }
}
