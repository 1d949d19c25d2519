// The marks of a chunk, read off its tree. Each function adds the marks of its part.
ghost use Rattle.std.specs.Prelude.{◌≡◌, ◌++◌, map, IfOk, OnOk, false};
ghost use Rattle.luf_lex.specs.Tokens.{toks_of};
ghost use Rattle.luf_tree.specs.SyntaxOf.{syntax_of, syntax_of_expr, syntax_of_field, syntax_of_suffix, syntax_of_step, syntax_of_stat, syntax_of_arm, syntax_of_args, syntax_of_block, syntax_of_body, expressions_of, operations_of, suffixes_of, fields_of, statements_of, arms_of};
ghost use Rattle.luf_quote.specs.Parens.{keeps_round_string, keeps_round_table};
ghost use Rattle.luf_draft.specs.inner.Marks.{marks_in_main, marks_in_expression, marks_in_expressions, marks_in_values, marks_in_operation, marks_in_operations, marks_in_suffix, marks_in_suffixes, marks_in_arguments, marks_in_field, marks_in_fields, marks_in_function, marks_in_statement, marks_in_statements, marks_in_arm, marks_in_arms, marks_in_body};
ghost use Rattle.luf_draft.specs.inner.Wholes.{key_marks, body_to_end, do_to_end, table_marks, return_marks};

use crate::adding::{add, add_comma, separate_arms, separate_by_comma, separate_fields};
use crate::arguments::{close_arguments, gap_in, open_arguments, shape_for};
use crate::edges::{
    add_between, add_dot, add_equals, add_named, add_power_sign, add_space_word, add_step_sign,
    add_word_space, close_body, close_bracket, close_nested_group, close_paren, close_return,
    close_source, close_table, close_word, open_body, open_bracket, open_group, open_nest,
    open_paren, open_return, open_source, open_spaced, open_table, open_values, open_word,
};
use crate::lists::{
    add_goto, add_label, add_method, add_parameters, open_for, open_for_in, open_function,
    open_local, open_local_function,
};
use crate::mark::{GapKind, Mark, Part};
use crate::starts::{add_guard, are_empty, is_still_first, open_unary};
use luf_lex::{Cut, Sign, Word};
use luf_memory::Memory;
use luf_quote::CallStyle;
use luf_tree::{
    Args, Arm, Block, Chunk, Expr, ExprKind, Field, FuncBody, Stat, StatKind, Step, Suffix,
};
use std::alloc::Global;

// The marks of a chunk, by what its tokens are.
pub(crate) fn read(
    alloc: Global,
    cut: &Cut,
    c: &Chunk,
    calls: CallStyle,
) -> Result<Vec<Mark>, Memory>
    ensures { IfOk result (λ found. found.items ≡ marks_in_main (toks_of cut.now) (keeps_round_string calls) (keeps_round_table calls) (syntax_of c.now)) }
{
    let mut found = Vec::new(alloc);
    of_main(cut, calls, &c.block, &mut found)?;
    Ok(found)
}

fn of_main(cut: &Cut, calls: CallStyle, b: &Block, into: &mut Vec<Mark>) -> Result<(), Memory>
    ensures { OnOk result (into.new.items ≡ into.old.items ++ marks_in_main (toks_of cut.now) (keeps_round_string calls) (keeps_round_table calls) (syntax_of_block b.now)) }
{
    let stats = b.stats.as_slice();
    let none = are_empty(stats);
    open_source(none, into)?;
    of_stats(cut, calls, stats, into)?;
    close_source(none, into)
}

// A block between the words round it.
#[cycle(drafting)]
fn of_body(cut: &Cut, calls: CallStyle, b: &Block, into: &mut Vec<Mark>) -> Result<(), Memory>
    ensures { OnOk result (into.new.items ≡ into.old.items ++ marks_in_body (toks_of cut.now) (keeps_round_string calls) (keeps_round_table calls) (syntax_of_block b.now)) }
{
    let stats = b.stats.as_slice();
    let none = are_empty(stats);
    open_body(none, into)?;
    of_stats(cut, calls, stats, into)?;
    close_body(none, into)
}

// A block and its `end`.
#[cycle(drafting)]
fn of_body_to_end(
    cut: &Cut,
    calls: CallStyle,
    b: &Block,
    into: &mut Vec<Mark>,
) -> Result<(), Memory>
    ensures { OnOk result (into.new.items ≡ into.old.items ++ body_to_end (toks_of cut.now) (keeps_round_string calls) (keeps_round_table calls) (syntax_of_block b.now)) }
{
    of_body(cut, calls, b, into)?;
    add(Mark::Word(Word::End), into)
}

// A block between `do` and `end`, where a statement ends.
#[cycle(drafting)]
fn of_do(cut: &Cut, calls: CallStyle, b: &Block, into: &mut Vec<Mark>) -> Result<(), Memory>
    ensures { OnOk result (into.new.items ≡ into.old.items ++ do_to_end (toks_of cut.now) (keeps_round_string calls) (keeps_round_table calls) (syntax_of_block b.now)) }
{
    add_space_word(Word::Do, into)?;
    of_body(cut, calls, b, into)?;
    close_word(Word::End, into)
}

#[cycle(drafting)]
fn of_stats(cut: &Cut, calls: CallStyle, stats: &[Stat], into: &mut Vec<Mark>) -> Result<(), Memory>
    ensures { OnOk result (into.new.items ≡ into.old.items ++ marks_in_statements (toks_of cut.now) (keeps_round_string calls) (keeps_round_table calls) false (statements_of (map syntax_of_stat stats.now))) }
{
    let mut first = true;
    for s in stats {
        add_guard(first, cut, s, into)?;
        of_stat(cut, calls, s, into)?;
        first = is_still_first(first, s);
    }
    Ok(())
}

#[cycle(drafting)]
fn of_stat(cut: &Cut, calls: CallStyle, s: &Stat, into: &mut Vec<Mark>) -> Result<(), Memory>
    ensures { OnOk result (into.new.items ≡ into.old.items ++ marks_in_statement (toks_of cut.now) (keeps_round_string calls) (keeps_round_table calls) (syntax_of_stat s.now)) }
{
    match &s.what {
        StatKind::Empty => Ok(()),
        StatKind::Local { names, values } => {
            open_local(names.as_slice(), into)?;
            of_values(cut, calls, values.as_slice(), into)?;
            add(Mark::Close, into)
        }
        StatKind::Assign { targets, values } => {
            add(Mark::Open(Part::Sequence), into)?;
            of_exprs(cut, calls, GapKind::Space, targets.as_slice(), into)?;
            of_values(cut, calls, values.as_slice(), into)?;
            add(Mark::Close, into)
        }
        StatKind::Call(call) => of_expr(cut, calls, call, into),
        StatKind::Do(body) => {
            open_word(Word::Do, into)?;
            of_body(cut, calls, body.get(), into)?;
            close_word(Word::End, into)
        }
        StatKind::While { test, body } => {
            open_spaced(Word::While, into)?;
            of_expr(cut, calls, test.get(), into)?;
            of_do(cut, calls, body.get(), into)
        }
        StatKind::Repeat { body, test } => {
            open_word(Word::Repeat, into)?;
            of_body(cut, calls, body, into)?;
            add_word_space(Word::Until, into)?;
            of_expr(cut, calls, test.get(), into)?;
            add(Mark::Close, into)
        }
        StatKind::If { arms, last } => {
            open_word(Word::If, into)?;
            of_arms(cut, calls, arms.as_slice(), into)?;
            match last {
                Some(body) => {
                    add(Mark::Word(Word::Else), into)?;
                    of_body(cut, calls, body.get(), into)?;
                    close_word(Word::End, into)
                }
                None => close_word(Word::End, into),
            }
        }
        StatKind::For {
            name,
            first,
            limit,
            step,
            body,
        } => {
            open_for(*name, into)?;
            of_expr(cut, calls, first.get(), into)?;
            add_comma(GapKind::Space, into)?;
            of_expr(cut, calls, limit.get(), into)?;
            match step {
                Some(step) => {
                    add_comma(GapKind::Space, into)?;
                    of_expr(cut, calls, step.get(), into)?;
                    of_do(cut, calls, body.get(), into)
                }
                None => of_do(cut, calls, body.get(), into),
            }
        }
        StatKind::ForIn {
            names,
            values,
            body,
        } => {
            open_for_in(names.get().as_slice(), into)?;
            add_between(Word::In, into)?;
            of_exprs(cut, calls, GapKind::Space, values.as_slice(), into)?;
            of_do(cut, calls, body.get(), into)
        }
        StatKind::Function { path, method, body } => {
            open_function(path.as_slice(), into)?;
            add_method(*method, into)?;
            of_function(cut, calls, body.get(), into)?;
            add(Mark::Close, into)
        }
        StatKind::LocalFunction { name, body } => {
            open_local_function(*name, into)?;
            of_function(cut, calls, body.get(), into)?;
            add(Mark::Close, into)
        }
        StatKind::Label(name) => add_label(*name, into),
        StatKind::Goto(name) => add_goto(*name, into),
        StatKind::Break => add(Mark::Word(Word::Break), into),
        StatKind::Return(values) => of_return(cut, calls, values.as_slice(), into),
    }
}

#[cycle(drafting)]
fn of_return(
    cut: &Cut,
    calls: CallStyle,
    values: &[Expr],
    into: &mut Vec<Mark>,
) -> Result<(), Memory>
    ensures { OnOk result (into.new.items ≡ into.old.items ++ return_marks (toks_of cut.now) (keeps_round_string calls) (keeps_round_table calls) values.now) }
{
    open_return(values, into)?;
    of_exprs(cut, calls, GapKind::Space, values, into)?;
    close_return(values, into)
}

// Values behind `=`.
#[cycle(drafting)]
fn of_values(
    cut: &Cut,
    calls: CallStyle,
    values: &[Expr],
    into: &mut Vec<Mark>,
) -> Result<(), Memory>
    ensures { OnOk result (into.new.items ≡ into.old.items ++ marks_in_values (toks_of cut.now) (keeps_round_string calls) (keeps_round_table calls) (expressions_of (map syntax_of_expr values.now))) }
{
    open_values(values, into)?;
    of_exprs(cut, calls, GapKind::Space, values, into)
}

#[cycle(drafting)]
fn of_arms(cut: &Cut, calls: CallStyle, arms: &[Arm], into: &mut Vec<Mark>) -> Result<(), Memory>
    ensures { OnOk result (into.new.items ≡ into.old.items ++ marks_in_arms (toks_of cut.now) (keeps_round_string calls) (keeps_round_table calls) (arms_of (map syntax_of_arm arms.now))) }
{
    let mut first = true;
    for a in arms {
        separate_arms(first, into)?;
        of_arm(cut, calls, a, into)?;
        first = false;
    }
    Ok(())
}

#[cycle(drafting)]
fn of_arm(cut: &Cut, calls: CallStyle, a: &Arm, into: &mut Vec<Mark>) -> Result<(), Memory>
    ensures { OnOk result (into.new.items ≡ into.old.items ++ marks_in_arm (toks_of cut.now) (keeps_round_string calls) (keeps_round_table calls) (syntax_of_arm a.now)) }
{
    add(Mark::Gap(GapKind::Space), into)?;
    of_expr(cut, calls, &a.test, into)?;
    add_space_word(Word::Then, into)?;
    of_body(cut, calls, &a.body, into)
}

// A function from its parameters to its `end`.
#[cycle(drafting)]
fn of_function(
    cut: &Cut,
    calls: CallStyle,
    f: &FuncBody,
    into: &mut Vec<Mark>,
) -> Result<(), Memory>
    ensures { OnOk result (into.new.items ≡ into.old.items ++ marks_in_function (toks_of cut.now) (keeps_round_string calls) (keeps_round_table calls) (syntax_of_body f.now)) }
{
    add_parameters(f.params.as_slice(), f.vararg, into)?;
    of_body_to_end(cut, calls, &f.body, into)
}

// Expressions with that gap behind each `,`.
#[cycle(drafting)]
fn of_exprs(
    cut: &Cut,
    calls: CallStyle,
    gap: GapKind,
    exprs: &[Expr],
    into: &mut Vec<Mark>,
) -> Result<(), Memory>
    ensures { OnOk result (into.new.items ≡ into.old.items ++ marks_in_expressions (toks_of cut.now) (keeps_round_string calls) (keeps_round_table calls) gap (expressions_of (map syntax_of_expr exprs.now))) }
{
    let mut first = true;
    for e in exprs {
        separate_by_comma(first, gap, into)?;
        of_expr(cut, calls, e, into)?;
        first = false;
    }
    Ok(())
}

#[cycle(drafting)]
fn of_expr(cut: &Cut, calls: CallStyle, e: &Expr, into: &mut Vec<Mark>) -> Result<(), Memory>
    ensures { OnOk result (into.new.items ≡ into.old.items ++ marks_in_expression (toks_of cut.now) (keeps_round_string calls) (keeps_round_table calls) (syntax_of_expr e.now)) }
{
    match &e.what {
        ExprKind::Nil => add(Mark::Word(Word::Nil), into),
        ExprKind::True => add(Mark::Word(Word::True), into),
        ExprKind::False => add(Mark::Word(Word::False), into),
        ExprKind::Number => add(Mark::Token(e.from), into),
        ExprKind::Str => add(Mark::Token(e.from), into),
        ExprKind::Vararg => add(Mark::Sign(Sign::Dots), into),
        ExprKind::Name => add(Mark::Token(e.from), into),
        ExprKind::Paren(inner) => {
            open_paren(into)?;
            of_expr(cut, calls, inner.get(), into)?;
            close_paren(into)
        }
        ExprKind::Function(body) => {
            open_word(Word::Function, into)?;
            of_function(cut, calls, body.get(), into)?;
            add(Mark::Close, into)
        }
        ExprKind::Table(fields) => of_table(cut, calls, fields.as_slice(), into),
        ExprKind::Unary(operand) => {
            open_unary(cut, e.from, into)?;
            of_expr(cut, calls, operand.get(), into)?;
            add(Mark::Close, into)
        }
        ExprKind::Chain { first, rest } => {
            open_group(into)?;
            of_expr(cut, calls, first.get(), into)?;
            open_nest(into)?;
            of_steps(cut, calls, rest.as_slice(), into)?;
            close_nested_group(into)
        }
        ExprKind::Power {
            base,
            sign,
            exponent,
        } => {
            add(Mark::Open(Part::Sequence), into)?;
            of_expr(cut, calls, base.get(), into)?;
            add_power_sign(*sign, into)?;
            of_expr(cut, calls, exponent.get(), into)?;
            add(Mark::Close, into)
        }
        ExprKind::NameSuffixed(suffixes) => {
            add(Mark::Open(Part::Sequence), into)?;
            add(Mark::Token(e.from), into)?;
            of_suffixes(cut, calls, suffixes.as_slice(), into)?;
            add(Mark::Close, into)
        }
        ExprKind::Suffixed { head, suffixes } => {
            add(Mark::Open(Part::Sequence), into)?;
            of_expr(cut, calls, head.get(), into)?;
            of_suffixes(cut, calls, suffixes.as_slice(), into)?;
            add(Mark::Close, into)
        }
    }
}

#[cycle(drafting)]
fn of_steps(cut: &Cut, calls: CallStyle, steps: &[Step], into: &mut Vec<Mark>) -> Result<(), Memory>
    ensures { OnOk result (into.new.items ≡ into.old.items ++ marks_in_operations (toks_of cut.now) (keeps_round_string calls) (keeps_round_table calls) (operations_of (map syntax_of_step steps.now))) }
{
    for s in steps {
        of_step(cut, calls, s, into)?;
    }
    Ok(())
}

#[cycle(drafting)]
fn of_step(cut: &Cut, calls: CallStyle, s: &Step, into: &mut Vec<Mark>) -> Result<(), Memory>
    ensures { OnOk result (into.new.items ≡ into.old.items ++ marks_in_operation (toks_of cut.now) (keeps_round_string calls) (keeps_round_table calls) (syntax_of_step s.now)) }
{
    add_step_sign(s.sign, into)?;
    of_expr(cut, calls, &s.right, into)
}

#[cycle(drafting)]
fn of_suffixes(
    cut: &Cut,
    calls: CallStyle,
    suffixes: &[Suffix],
    into: &mut Vec<Mark>,
) -> Result<(), Memory>
    ensures { OnOk result (into.new.items ≡ into.old.items ++ marks_in_suffixes (toks_of cut.now) (keeps_round_string calls) (keeps_round_table calls) (suffixes_of (map syntax_of_suffix suffixes.now))) }
{
    for s in suffixes {
        of_suffix(cut, calls, s, into)?;
    }
    Ok(())
}

#[cycle(drafting)]
fn of_suffix(cut: &Cut, calls: CallStyle, s: &Suffix, into: &mut Vec<Mark>) -> Result<(), Memory>
    ensures { OnOk result (into.new.items ≡ into.old.items ++ marks_in_suffix (toks_of cut.now) (keeps_round_string calls) (keeps_round_table calls) (syntax_of_suffix s.now)) }
{
    match s {
        Suffix::Dot(name) => add_dot(*name, into),
        Suffix::Index(index) => {
            add(Mark::Gap(GapKind::Tight), into)?;
            of_key(cut, calls, index.get(), into)
        }
        Suffix::Call(args) => of_args(cut, calls, args, into),
        Suffix::Method { name, args } => {
            add_method(Some(*name), into)?;
            of_args(cut, calls, args, into)
        }
    }
}

// An expression in brackets.
#[cycle(drafting)]
fn of_key(cut: &Cut, calls: CallStyle, key: &Expr, into: &mut Vec<Mark>) -> Result<(), Memory>
    ensures { OnOk result (into.new.items ≡ into.old.items ++ key_marks (toks_of cut.now) (keeps_round_string calls) (keeps_round_table calls) (syntax_of_expr key.now)) }
{
    open_bracket(into)?;
    of_expr(cut, calls, key, into)?;
    close_bracket(into)
}

#[cycle(drafting)]
fn of_args(cut: &Cut, calls: CallStyle, a: &Args, into: &mut Vec<Mark>) -> Result<(), Memory>
    ensures { OnOk result (into.new.items ≡ into.old.items ++ marks_in_arguments (toks_of cut.now) (keeps_round_string calls) (keeps_round_table calls) (syntax_of_args a.now)) }
{
    let items = a.items.as_slice();
    let shape = shape_for(calls, items, a.parens);
    open_arguments(shape, into)?;
    of_exprs(cut, calls, gap_in(shape), items, into)?;
    close_arguments(shape, into)
}

#[cycle(drafting)]
fn of_table(
    cut: &Cut,
    calls: CallStyle,
    fields: &[Field],
    into: &mut Vec<Mark>,
) -> Result<(), Memory>
    ensures { OnOk result (into.new.items ≡ into.old.items ++ table_marks (toks_of cut.now) (keeps_round_string calls) (keeps_round_table calls) fields.now) }
{
    open_table(fields, into)?;
    of_fields(cut, calls, fields, into)?;
    close_table(fields, into)
}

#[cycle(drafting)]
fn of_fields(
    cut: &Cut,
    calls: CallStyle,
    fields: &[Field],
    into: &mut Vec<Mark>,
) -> Result<(), Memory>
    ensures { OnOk result (into.new.items ≡ into.old.items ++ marks_in_fields (toks_of cut.now) (keeps_round_string calls) (keeps_round_table calls) (fields_of (map syntax_of_field fields.now))) }
{
    let mut first = true;
    for f in fields {
        separate_fields(first, into)?;
        of_field(cut, calls, f, into)?;
        first = false;
    }
    Ok(())
}

#[cycle(drafting)]
fn of_field(cut: &Cut, calls: CallStyle, f: &Field, into: &mut Vec<Mark>) -> Result<(), Memory>
    ensures { OnOk result (into.new.items ≡ into.old.items ++ marks_in_field (toks_of cut.now) (keeps_round_string calls) (keeps_round_table calls) (syntax_of_field f.now)) }
{
    match f {
        Field::Item(value) => of_expr(cut, calls, value, into),
        Field::Named { name, value } => {
            add_named(*name, into)?;
            of_expr(cut, calls, value, into)
        }
        Field::Keyed { key, value } => {
            of_key(cut, calls, key.get(), into)?;
            add_equals(into)?;
            of_expr(cut, calls, value, into)
        }
    }
}
