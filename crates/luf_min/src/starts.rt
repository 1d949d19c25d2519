// What is looked at before a part is written: the token that a statement starts with, whether an argument is lone.
ghost use Rattle.std.specs.Prelude.{◌≡◌, ◌&&◌, ◌++◌, not, map, OnOk};
ghost use Rattle.luf_lex.specs.Tokens.{toks_of};
ghost use Rattle.luf_bare.specs.Writing.{opens};
ghost use Rattle.luf_bare.specs.Lone as lone;
ghost use Rattle.luf_tree.specs.SyntaxOf.{syntax_of_expr, syntax_of_stat, expressions_of};
ghost use Rattle.luf_min.specs.inner.Items.{token_at, opens_first, items_in_expression, items_in_statement, guard_of};
ghost use Rattle.luf_min.specs.inner.Starts as starts;

use crate::item::{Item, add_sign};
use luf_guard::needs_guard;
use luf_lex::{Cut, Sign, Tok, Word};
use luf_memory::Memory;
use luf_tree::{Expr, ExprKind, Stat, StatKind};

/// Whether no statement was written, if none was before this one: one that is a `;` by itself is not written.
pub(crate) fn is_still_first(first: bool, s: &Stat) -> bool
    ensures { result ≡ (first && starts.is_empty (syntax_of_stat s.now)) }
{
    first && is_empty(s)
}

fn is_empty(s: &Stat) -> bool
    ensures { result ≡ starts.is_empty (syntax_of_stat s.now) }
{
    matches!(&s.what, StatKind::Empty)
}

/// A `;` where the statement that is written next needs one before it.
pub(crate) fn add_guard(
    first: bool,
    cut: &Cut,
    s: &Stat,
    into: &mut Vec<Item>,
) -> Result<(), Memory>
    ensures { OnOk result (into.new.items ≡ into.old.items ++ guard_of (toks_of cut.now) (not first) (items_in_statement (toks_of cut.now) (syntax_of_stat s.now))) }
{
    if needs_guard(first, statement_start(cut, s)) {
        return add_sign(Sign::Semicolon, into);
    }
    Ok(())
}

/// The token that a statement starts with, or a keyword for each that starts with no expression.
fn statement_start(cut: &Cut, s: &Stat) -> Tok
    ensures { opens result ≡ starts.opens_statement (toks_of cut.now) (syntax_of_stat s.now) }
{
    match &s.what {
        StatKind::Call(call) => expression_start(cut, call),
        StatKind::Assign { targets, .. } => match targets.as_slice() {
            [first, ..] => expression_start(cut, first),
            [] => Tok::Sign(Sign::Assign),
        },
        StatKind::Empty
        | StatKind::Local { .. }
        | StatKind::Do(_)
        | StatKind::While { .. }
        | StatKind::Repeat { .. }
        | StatKind::If { .. }
        | StatKind::For { .. }
        | StatKind::ForIn { .. }
        | StatKind::Function { .. }
        | StatKind::LocalFunction { .. }
        | StatKind::Label(_)
        | StatKind::Goto(_)
        | StatKind::Break
        | StatKind::Return(_) => Tok::Word(Word::Do),
    }
}

/// The token that an expression starts with, or a keyword for each that starts with one.
fn expression_start(cut: &Cut, e: &Expr) -> Tok
    ensures { opens result ≡ opens_first (toks_of cut.now) (items_in_expression (toks_of cut.now) (syntax_of_expr e.now)) }
{
    match &e.what {
        ExprKind::Number
        | ExprKind::Str
        | ExprKind::Name
        | ExprKind::Unary(_)
        | ExprKind::NameSuffixed(_) => token_at(cut, e.from),
        ExprKind::Paren(_) => Tok::Sign(Sign::LeftParen),
        ExprKind::Nil
        | ExprKind::True
        | ExprKind::False
        | ExprKind::Vararg
        | ExprKind::Function(_)
        | ExprKind::Table(_) => Tok::Word(Word::Function),
        ExprKind::Chain { first, .. } => expression_start(cut, first.get()),
        ExprKind::Power { base, .. } => expression_start(cut, base.get()),
        ExprKind::Suffixed { head, .. } => expression_start(cut, head.get()),
    }
}

/// The token that stands there; behind the last stands a name.
fn token_at(cut: &Cut, n: u32) -> Tok
    ensures { result ≡ token_at (toks_of cut.now) n }
{
    cut.token(n).unwrap_or(Tok::Name)
}

/// Whether these arguments are one string or one table, which may stand without parentheses.
pub(crate) fn is_lone(exprs: &[Expr]) -> bool
    ensures { result ≡ lone.is_lone (expressions_of (map syntax_of_expr exprs.now)) }
{
    match exprs {
        [] => false,
        [e] => is_lone_item(e),
        [_, _, ..] => false,
    }
}

fn is_lone_item(e: &Expr) -> bool
    ensures { result ≡ lone.is_lone_item (syntax_of_expr e.now) }
{
    match &e.what {
        ExprKind::Str | ExprKind::Table(_) => true,
        ExprKind::Nil
        | ExprKind::True
        | ExprKind::False
        | ExprKind::Number
        | ExprKind::Vararg
        | ExprKind::Name
        | ExprKind::Paren(_)
        | ExprKind::Function(_)
        | ExprKind::Unary(_)
        | ExprKind::Chain { .. }
        | ExprKind::Power { .. }
        | ExprKind::NameSuffixed(_)
        | ExprKind::Suffixed { .. } => false,
    }
}
