// The items of a chunk, read off its tree. Each function adds what is written of its part.
ghost use Rattle.std.specs.Prelude.{◌≡◌, ◌++◌, map, IfOk, OnOk, false};
ghost use Rattle.luf_lex.specs.Tokens.{toks_of};
ghost use Rattle.luf_tree.specs.SyntaxOf.{syntax_of, syntax_of_expr, syntax_of_field, syntax_of_suffix, syntax_of_step, syntax_of_stat, syntax_of_arm, syntax_of_args, syntax_of_block, syntax_of_body, expressions_of, operations_of, suffixes_of, fields_of, statements_of, arms_of};
ghost use Rattle.luf_min.specs.inner.Items.{items_in_expression, items_in_expressions, items_in_values, items_in_operation, items_in_operations, items_in_suffix, items_in_suffixes, items_in_arguments, items_in_field, items_in_fields, items_in_statement, items_in_statements, items_in_arm, items_in_arms, items_in_block, items_to_end, items_in_do, items_in_body};

use crate::item::{Item, add_sign, add_token, add_word, separate};
use crate::lists::{
    add_for, add_for_in, add_function, add_goto, add_label, add_local, add_local_function,
    add_parameters,
};
use crate::starts::{add_guard, is_lone, is_still_first};
use luf_lex::{Cut, Sign, Word};
use luf_memory::Memory;
use luf_tree::{
    Args, Arm, Block, Chunk, Expr, ExprKind, Field, FuncBody, Stat, StatKind, Step, Suffix,
};
use std::alloc::Global;

/// The items of a chunk.
pub(crate) fn items(alloc: Global, cut: &Cut, c: &Chunk) -> Result<Vec<Item>, Memory>
    ensures { IfOk result (λ found. found.items ≡ items_in_block (toks_of cut.now) (syntax_of c.now)) }
{
    let mut found = Vec::new(alloc);
    of_block(cut, &c.block, &mut found)?;
    Ok(found)
}

#[cycle(walk)]
fn of_block(cut: &Cut, b: &Block, into: &mut Vec<Item>) -> Result<(), Memory>
    ensures { OnOk result (into.new.items ≡ into.old.items ++ items_in_block (toks_of cut.now) (syntax_of_block b.now)) }
{
    of_stats(cut, b.stats.as_slice(), into)
}

// A block and its `end`.
#[cycle(walk)]
fn of_block_to_end(cut: &Cut, b: &Block, into: &mut Vec<Item>) -> Result<(), Memory>
    ensures { OnOk result (into.new.items ≡ into.old.items ++ items_to_end (toks_of cut.now) (syntax_of_block b.now)) }
{
    of_block(cut, b, into)?;
    add_word(Word::End, into)
}

// A block between `do` and `end`.
#[cycle(walk)]
fn of_do(cut: &Cut, b: &Block, into: &mut Vec<Item>) -> Result<(), Memory>
    ensures { OnOk result (into.new.items ≡ into.old.items ++ items_in_do (toks_of cut.now) (syntax_of_block b.now)) }
{
    add_word(Word::Do, into)?;
    of_block_to_end(cut, b, into)
}

#[cycle(walk)]
fn of_stats(cut: &Cut, stats: &[Stat], into: &mut Vec<Item>) -> Result<(), Memory>
    ensures { OnOk result (into.new.items ≡ into.old.items ++ items_in_statements (toks_of cut.now) false (statements_of (map syntax_of_stat stats.now))) }
{
    let mut first = true;
    for s in stats {
        add_guard(first, cut, s, into)?;
        of_stat(cut, s, into)?;
        first = is_still_first(first, s);
    }
    Ok(())
}

#[cycle(walk)]
fn of_stat(cut: &Cut, s: &Stat, into: &mut Vec<Item>) -> Result<(), Memory>
    ensures { OnOk result (into.new.items ≡ into.old.items ++ items_in_statement (toks_of cut.now) (syntax_of_stat s.now)) }
{
    match &s.what {
        StatKind::Empty => Ok(()),
        StatKind::Local { names, values } => {
            add_local(names.as_slice(), into)?;
            of_values(cut, values.as_slice(), into)
        }
        StatKind::Assign { targets, values } => {
            of_exprs(cut, targets.as_slice(), into)?;
            add_sign(Sign::Assign, into)?;
            of_exprs(cut, values.as_slice(), into)
        }
        StatKind::Call(call) => of_expr(cut, call, into),
        StatKind::Do(body) => of_do(cut, body.get(), into),
        StatKind::While { test, body } => {
            add_word(Word::While, into)?;
            of_expr(cut, test.get(), into)?;
            of_do(cut, body.get(), into)
        }
        StatKind::Repeat { body, test } => {
            add_word(Word::Repeat, into)?;
            of_block(cut, body, into)?;
            add_word(Word::Until, into)?;
            of_expr(cut, test.get(), into)
        }
        StatKind::If { arms, last } => {
            add_word(Word::If, into)?;
            of_arms(cut, arms.as_slice(), into)?;
            match last {
                Some(body) => {
                    add_word(Word::Else, into)?;
                    of_block_to_end(cut, body.get(), into)
                }
                None => add_word(Word::End, into),
            }
        }
        StatKind::For {
            name,
            first,
            limit,
            step,
            body,
        } => {
            add_for(*name, into)?;
            of_expr(cut, first.get(), into)?;
            add_sign(Sign::Comma, into)?;
            of_expr(cut, limit.get(), into)?;
            match step {
                Some(step) => {
                    add_sign(Sign::Comma, into)?;
                    of_expr(cut, step.get(), into)?;
                    of_do(cut, body.get(), into)
                }
                None => of_do(cut, body.get(), into),
            }
        }
        StatKind::ForIn {
            names,
            values,
            body,
        } => {
            add_for_in(names.get().as_slice(), into)?;
            of_exprs(cut, values.as_slice(), into)?;
            of_do(cut, body.get(), into)
        }
        StatKind::Function { path, method, body } => {
            add_function(path.as_slice(), *method, into)?;
            of_body(cut, body.get(), into)
        }
        StatKind::LocalFunction { name, body } => {
            add_local_function(*name, into)?;
            of_body(cut, body.get(), into)
        }
        StatKind::Label(name) => add_label(*name, into),
        StatKind::Goto(name) => add_goto(*name, into),
        StatKind::Break => add_word(Word::Break, into),
        StatKind::Return(values) => {
            add_word(Word::Return, into)?;
            of_exprs(cut, values.as_slice(), into)
        }
    }
}

// The values of a `local`, behind `=`.
#[cycle(walk)]
fn of_values(cut: &Cut, values: &[Expr], into: &mut Vec<Item>) -> Result<(), Memory>
    ensures { OnOk result (into.new.items ≡ into.old.items ++ items_in_values (toks_of cut.now) (expressions_of (map syntax_of_expr values.now))) }
{
    match values {
        [] => Ok(()),
        [_, ..] => {
            add_sign(Sign::Assign, into)?;
            of_exprs(cut, values, into)
        }
    }
}

#[cycle(walk)]
fn of_arms(cut: &Cut, arms: &[Arm], into: &mut Vec<Item>) -> Result<(), Memory>
    ensures { OnOk result (into.new.items ≡ into.old.items ++ items_in_arms (toks_of cut.now) (arms_of (map syntax_of_arm arms.now))) }
{
    let mut first = true;
    for a in arms {
        separate(first, Item::Word(Word::ElseIf), into)?;
        of_arm(cut, a, into)?;
        first = false;
    }
    Ok(())
}

#[cycle(walk)]
fn of_arm(cut: &Cut, a: &Arm, into: &mut Vec<Item>) -> Result<(), Memory>
    ensures { OnOk result (into.new.items ≡ into.old.items ++ items_in_arm (toks_of cut.now) (syntax_of_arm a.now)) }
{
    of_expr(cut, &a.test, into)?;
    add_word(Word::Then, into)?;
    of_block(cut, &a.body, into)
}

#[cycle(walk)]
fn of_body(cut: &Cut, f: &FuncBody, into: &mut Vec<Item>) -> Result<(), Memory>
    ensures { OnOk result (into.new.items ≡ into.old.items ++ items_in_body (toks_of cut.now) (syntax_of_body f.now)) }
{
    add_parameters(f.params.as_slice(), f.vararg, into)?;
    of_block_to_end(cut, &f.body, into)
}

#[cycle(walk)]
fn of_exprs(cut: &Cut, exprs: &[Expr], into: &mut Vec<Item>) -> Result<(), Memory>
    ensures { OnOk result (into.new.items ≡ into.old.items ++ items_in_expressions (toks_of cut.now) (expressions_of (map syntax_of_expr exprs.now))) }
{
    let mut first = true;
    for e in exprs {
        separate(first, Item::Sign(Sign::Comma), into)?;
        of_expr(cut, e, into)?;
        first = false;
    }
    Ok(())
}

#[cycle(walk)]
fn of_expr(cut: &Cut, e: &Expr, into: &mut Vec<Item>) -> Result<(), Memory>
    ensures { OnOk result (into.new.items ≡ into.old.items ++ items_in_expression (toks_of cut.now) (syntax_of_expr e.now)) }
{
    match &e.what {
        ExprKind::Nil => add_word(Word::Nil, into),
        ExprKind::True => add_word(Word::True, into),
        ExprKind::False => add_word(Word::False, into),
        ExprKind::Number => add_token(e.from, into),
        ExprKind::Str => add_token(e.from, into),
        ExprKind::Vararg => add_sign(Sign::Dots, into),
        ExprKind::Name => add_token(e.from, into),
        ExprKind::Paren(inner) => {
            add_sign(Sign::LeftParen, into)?;
            of_expr(cut, inner.get(), into)?;
            add_sign(Sign::RightParen, into)
        }
        ExprKind::Function(body) => {
            add_word(Word::Function, into)?;
            of_body(cut, body.get(), into)
        }
        ExprKind::Table(fields) => {
            add_sign(Sign::LeftBrace, into)?;
            of_fields(cut, fields.as_slice(), into)?;
            add_sign(Sign::RightBrace, into)
        }
        ExprKind::Unary(operand) => {
            add_token(e.from, into)?;
            of_expr(cut, operand.get(), into)
        }
        ExprKind::Chain { first, rest } => {
            of_expr(cut, first.get(), into)?;
            of_steps(cut, rest.as_slice(), into)
        }
        ExprKind::Power {
            base,
            sign,
            exponent,
        } => {
            of_expr(cut, base.get(), into)?;
            add_token(*sign, into)?;
            of_expr(cut, exponent.get(), into)
        }
        ExprKind::NameSuffixed(suffixes) => {
            add_token(e.from, into)?;
            of_suffixes(cut, suffixes.as_slice(), into)
        }
        ExprKind::Suffixed { head, suffixes } => {
            of_expr(cut, head.get(), into)?;
            of_suffixes(cut, suffixes.as_slice(), into)
        }
    }
}

#[cycle(walk)]
fn of_steps(cut: &Cut, steps: &[Step], into: &mut Vec<Item>) -> Result<(), Memory>
    ensures { OnOk result (into.new.items ≡ into.old.items ++ items_in_operations (toks_of cut.now) (operations_of (map syntax_of_step steps.now))) }
{
    for s in steps {
        of_step(cut, s, into)?;
    }
    Ok(())
}

#[cycle(walk)]
fn of_step(cut: &Cut, s: &Step, into: &mut Vec<Item>) -> Result<(), Memory>
    ensures { OnOk result (into.new.items ≡ into.old.items ++ items_in_operation (toks_of cut.now) (syntax_of_step s.now)) }
{
    add_token(s.sign, into)?;
    of_expr(cut, &s.right, into)
}

#[cycle(walk)]
fn of_suffixes(cut: &Cut, suffixes: &[Suffix], into: &mut Vec<Item>) -> Result<(), Memory>
    ensures { OnOk result (into.new.items ≡ into.old.items ++ items_in_suffixes (toks_of cut.now) (suffixes_of (map syntax_of_suffix suffixes.now))) }
{
    for s in suffixes {
        of_suffix(cut, s, into)?;
    }
    Ok(())
}

#[cycle(walk)]
fn of_suffix(cut: &Cut, s: &Suffix, into: &mut Vec<Item>) -> Result<(), Memory>
    ensures { OnOk result (into.new.items ≡ into.old.items ++ items_in_suffix (toks_of cut.now) (syntax_of_suffix s.now)) }
{
    match s {
        Suffix::Dot(name) => {
            add_sign(Sign::Dot, into)?;
            add_token(*name, into)
        }
        Suffix::Index(index) => {
            add_sign(Sign::LeftBracket, into)?;
            of_expr(cut, index.get(), into)?;
            add_sign(Sign::RightBracket, into)
        }
        Suffix::Call(args) => of_args(cut, args, into),
        Suffix::Method { name, args } => {
            add_sign(Sign::Colon, into)?;
            add_token(*name, into)?;
            of_args(cut, args, into)
        }
    }
}

#[cycle(walk)]
fn of_args(cut: &Cut, a: &Args, into: &mut Vec<Item>) -> Result<(), Memory>
    ensures { OnOk result (into.new.items ≡ into.old.items ++ items_in_arguments (toks_of cut.now) (syntax_of_args a.now)) }
{
    let items = a.items.as_slice();
    if is_lone(items) {
        return of_exprs(cut, items, into);
    }
    add_sign(Sign::LeftParen, into)?;
    of_exprs(cut, items, into)?;
    add_sign(Sign::RightParen, into)
}

#[cycle(walk)]
fn of_fields(cut: &Cut, fields: &[Field], into: &mut Vec<Item>) -> Result<(), Memory>
    ensures { OnOk result (into.new.items ≡ into.old.items ++ items_in_fields (toks_of cut.now) (fields_of (map syntax_of_field fields.now))) }
{
    let mut first = true;
    for f in fields {
        separate(first, Item::Sign(Sign::Comma), into)?;
        of_field(cut, f, into)?;
        first = false;
    }
    Ok(())
}

#[cycle(walk)]
fn of_field(cut: &Cut, f: &Field, into: &mut Vec<Item>) -> Result<(), Memory>
    ensures { OnOk result (into.new.items ≡ into.old.items ++ items_in_field (toks_of cut.now) (syntax_of_field f.now)) }
{
    match f {
        Field::Item(value) => of_expr(cut, value, into),
        Field::Named { name, value } => {
            add_token(*name, into)?;
            add_sign(Sign::Assign, into)?;
            of_expr(cut, value, into)
        }
        Field::Keyed { key, value } => {
            add_sign(Sign::LeftBracket, into)?;
            of_expr(cut, key.get(), into)?;
            add_sign(Sign::RightBracket, into)?;
            add_sign(Sign::Assign, into)?;
            of_expr(cut, value, into)
        }
    }
}
