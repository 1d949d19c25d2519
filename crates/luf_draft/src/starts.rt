// What is looked at before a part is written: the token that a statement starts with, whether statements are empty.
ghost use Rattle.std.specs.Prelude.{◌≡◌, ◌&&◌, ◌++◌, ◌↔◌, IsTrue, not, map, OnOk};
ghost use Rattle.luf_lex.specs.Tokens.{toks_of};
ghost use Rattle.luf_bare.specs.Writing as writing;
ghost use Rattle.luf_tree.specs.SyntaxOf.{syntax_of_expr, syntax_of_stat, statements_of};
ghost use Rattle.luf_draft.specs.Flat as flat;
ghost use Rattle.luf_draft.specs.inner.Marks as marks;
ghost use Rattle.luf_draft.specs.inner.Runs.{unary_opened};
ghost use Rattle.luf_draft.specs.inner.Starts as starts;

use crate::adding::{add, add_all};
use crate::mark::{GapKind, Mark, Part};
use luf_lex::{Cut, Sign, Tok, Word};
use luf_memory::Memory;
use luf_tree::{Expr, ExprKind, Stat, StatKind};

/// Whether no statement was written, if none was before this one: one that is a `;` by itself is not written.
pub(crate) fn is_still_first(first: bool, s: &Stat) -> bool
    ensures { result ≡ (first && marks.is_empty (syntax_of_stat s.now)) }
{
    first && is_empty(s)
}

fn is_empty(s: &Stat) -> bool
    ensures { result ≡ marks.is_empty (syntax_of_stat s.now) }
{
    matches!(&s.what, StatKind::Empty)
}

/// Whether no statement of these is written.
pub(crate) fn are_empty(stats: &[Stat]) -> bool
    ensures { result ≡ marks.are_empty (statements_of (map syntax_of_stat stats.now)) }
{
    for s in stats {
        if !is_empty(s) {
            return false;
        }
    }
    true
}

/// What stands before the statement that is written next; before one that is not written, nothing.
pub(crate) fn add_guard(
    first: bool,
    cut: &Cut,
    s: &Stat,
    into: &mut Vec<Mark>,
) -> Result<(), Memory>
    ensures { OnOk result (into.new.items ≡ into.old.items ++ starts.guard_of (toks_of cut.now) (not first) (syntax_of_stat s.now)) }
{
    if is_empty(s) {
        return Ok(());
    }
    add_before(first, opens_statement(cut, s), into)
}

/// The gap before a statement, and a `;` where others are before it and it begins with `(`.
fn add_before(first: bool, opening: bool, into: &mut Vec<Mark>) -> Result<(), Memory>
    ensures { OnOk result (into.new.items ≡ into.old.items ++ marks.guard_marks (not first) opening) }
{
    match (first, opening) {
        (true, _) => add(Mark::Gap(GapKind::FirstStatement), into),
        (false, true) => add_all(
            &[
                Mark::Gap(GapKind::LaterStatement),
                Mark::Sign(Sign::Semicolon),
            ],
            into,
        ),
        (false, false) => add(Mark::Gap(GapKind::LaterStatement), into),
    }
}

/// Whether a statement begins with `(`.
fn opens_statement(cut: &Cut, s: &Stat) -> bool
    ensures { result ≡ starts.opens_statement (toks_of cut.now) (syntax_of_stat s.now) }
{
    is_paren(statement_start(cut, s))
}

fn is_paren(t: Tok) -> bool
    ensures { IsTrue result ↔ (t ≡ Tok.Sign Sign.LeftParen) }
{
    matches!(t, Tok::Sign(Sign::LeftParen))
}

/// The token that a statement starts with, or a keyword for each that starts with no expression.
fn statement_start(cut: &Cut, s: &Stat) -> Tok
    ensures { writing.opens result ≡ starts.opens_statement (toks_of cut.now) (syntax_of_stat s.now) }
{
    match &s.what {
        StatKind::Call(call) => expression_start(cut, call),
        StatKind::Assign { targets, .. } => match targets.as_slice() {
            [first, ..] => expression_start(cut, first),
            [] => Tok::Sign(Sign::Assign),
        },
        StatKind::Empty
        | StatKind::Local { .. }
        | StatKind::Do(_)
        | StatKind::While { .. }
        | StatKind::Repeat { .. }
        | StatKind::If { .. }
        | StatKind::For { .. }
        | StatKind::ForIn { .. }
        | StatKind::Function { .. }
        | StatKind::LocalFunction { .. }
        | StatKind::Label(_)
        | StatKind::Goto(_)
        | StatKind::Break
        | StatKind::Return(_) => Tok::Word(Word::Do),
    }
}

/// The token that an expression starts with, or a keyword for each that starts with one.
fn expression_start(cut: &Cut, e: &Expr) -> Tok
    ensures { writing.opens result ≡ starts.opens_expression (toks_of cut.now) (syntax_of_expr e.now) }
{
    match &e.what {
        ExprKind::Number
        | ExprKind::Str
        | ExprKind::Name
        | ExprKind::Unary(_)
        | ExprKind::NameSuffixed(_) => token_at(cut, e.from),
        ExprKind::Paren(_) => Tok::Sign(Sign::LeftParen),
        ExprKind::Nil
        | ExprKind::True
        | ExprKind::False
        | ExprKind::Vararg
        | ExprKind::Function(_)
        | ExprKind::Table(_) => Tok::Word(Word::Function),
        ExprKind::Chain { first, .. } => expression_start(cut, first.get()),
        ExprKind::Power { base, .. } => expression_start(cut, base.get()),
        ExprKind::Suffixed { head, .. } => expression_start(cut, head.get()),
    }
}

/// The operator of a unary operation, and the gap behind it.
pub(crate) fn open_unary(cut: &Cut, n: u32, into: &mut Vec<Mark>) -> Result<(), Memory>
    ensures { OnOk result (into.new.items ≡ into.old.items ++ unary_opened (toks_of cut.now) n) }
{
    let gap = behind_sign(token_at(cut, n));
    let marks = [Mark::Open(Part::Sequence), Mark::Token(n), Mark::Gap(gap)];
    add_all(&marks, into)
}

fn behind_sign(t: Tok) -> GapKind
    ensures { result ≡ marks.behind_sign t }
{
    if is_not(t) {
        return GapKind::Space;
    }
    GapKind::Tight
}

fn is_not(t: Tok) -> bool
    ensures { IsTrue result ↔ (t ≡ Tok.Word Word.Not) }
{
    matches!(t, Tok::Word(Word::Not))
}

/// The token that stands there; behind the last stands a name.
fn token_at(cut: &Cut, n: u32) -> Tok
    ensures { result ≡ flat.token_at (toks_of cut.now) n }
{
    cut.token(n).unwrap_or(Tok::Name)
}
