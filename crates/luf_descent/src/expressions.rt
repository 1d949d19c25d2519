// Expressions, by precedence.
ghost use Rattle.std.specs.Prelude.{◌≡◌, ◌+◌, ◌<◌, ◌≤◌, map, IfOk, IfErr, IfSome, length};
ghost use Rattle.luf_lex.specs.Tokens.{toks_of};
ghost use Rattle.luf_lex.specs.declared.token.Word.TheVariants as word;
ghost use Rattle.luf_tree.specs.declared.tree.Expr.{out-Expr};
ghost use Rattle.luf_tree.specs.Grammar.{IsToken, IsExpr, IsOperand, IsSimple, AreExprs};
ghost use Rattle.luf_tree.specs.Level.{deepest, expr_levels};
ghost use Rattle.luf_descent.specs.Follow as follow;
ghost use Rattle.luf_descent.specs.Reads.{Found};
ghost use Rattle.luf_descent.specs.Shapes.{IsLeaf, leaf_kind};
ghost use Rattle.luf_descent.specs.Stops.{Known};
ghost use Rattle.luf_descent.specs.PartStops.{StopsChain, StopsExpr, StopsExprs, StopsOperand, StopsSimple};
ghost use Rattle.luf_descent.specs.Parts.{ReadChain, ReadExpr, ReadExprs, ReadFunction, ReadOperand, ReadPower, ReadSimple};

use crate::blocks::func_body;
use crate::growing::Growing;
use crate::prefixes::prefix;
use crate::tables::table_expr;
use crate::tokens::{eat, enter, is_unary, precedence_at, refusal, take};
use crate::{ParseErr, made};
use luf_lex::{Cut, Sign, Tok, Word};
use luf_tree::{Expr, ExprKind, Step};
use sqlite_items::Items;
use std::alloc::Global;

/// An expression whose binary operators are of precedence `least` or a higher one.
#[cycle(parse)]
pub fn expr(alloc: Global, cut: &Cut, left: u32, at: u32, least: u8) -> Result<Expr, ParseErr>
    requires low { 0 < least }
    requires high { least ≤ 11 }
    ensures ok { IfOk result (λ e. Found (toks_of cut.now) (at + 1) (out-Expr e).to left (expr_levels e) (IsExpr (toks_of cut.now) least at (out-Expr e).to e)) }
    ensures ends { IfOk result (λ e. follow.precedence_at (toks_of cut.now) (out-Expr e).to < least) }
    ensures known { IfOk result (λ e. Known (toks_of cut.now) (out-Expr e).to (λ l n. ReadExpr l least n at) e) }
    ensures stops { at ≤ length (toks_of cut.now) → IfErr result (StopsExpr (toks_of cut.now) least left at) }
{
    let mut whole = operand(alloc, cut, left, at)?;
    'chains: loop {
        let precedence = precedence_at(cut, whole.to);
        if precedence < least {
            return Ok(whole);
        }
        whole = chain(alloc, cut, left, at, whole, precedence)?;
    }
}

/// A chain of operators of one precedence, the first of which stands behind `first`.
#[cycle(parse)]
fn chain(
    alloc: Global,
    cut: &Cut,
    left: u32,
    at: u32,
    first: Expr,
    precedence: u8,
) -> Result<Expr, ParseErr>
    requires low { 0 < precedence }
    requires high { precedence ≤ 10 }
    requires first { Found (toks_of cut.now) (at + 1) (out-Expr first).to left (expr_levels first) (IsExpr (toks_of cut.now) (precedence + 1) at (out-Expr first).to first) }
    requires next { follow.precedence_at (toks_of cut.now) (out-Expr first).to ≡ precedence }
    ensures ok { IfOk result (λ e. Found (toks_of cut.now) (at + 1) (out-Expr e).to left (expr_levels e) (IsExpr (toks_of cut.now) precedence at (out-Expr e).to e)) }
    ensures ends { IfOk result (λ e. follow.precedence_at (toks_of cut.now) (out-Expr e).to < precedence) }
    ensures further { IfOk result (λ e. (out-Expr first).to ≤ (out-Expr e).to) }
    ensures known { IfOk result (λ e. Known (toks_of cut.now) (out-Expr e).to (λ l n. ReadChain l precedence n at first) e) }
    ensures stops { IfErr result (StopsChain (toks_of cut.now) precedence left at first) }
{
    let mut rest = Growing::new(alloc);
    let mut sign = first.to;
    loop {
        let Some((_, next)) = take(cut, sign) else {
            return Err(refusal(cut, sign));
        };
        let right = expr(alloc, cut, left, next, precedence + 1)?;
        let to = right.to;
        rest.push(Step { sign, right })?;
        if precedence_at(cut, to) != precedence {
            return made::chain(alloc, at, to, first, rest.exact());
        }
        sign = to;
    }
}

/// What stands between binary operators.
#[cycle(parse)]
fn operand(alloc: Global, cut: &Cut, left: u32, at: u32) -> Result<Expr, ParseErr>
    ensures ok { IfOk result (λ e. Found (toks_of cut.now) (at + 1) (out-Expr e).to left (expr_levels e) (IsOperand (toks_of cut.now) at (out-Expr e).to e)) }
    ensures known { IfOk result (λ e. Known (toks_of cut.now) (out-Expr e).to (λ l n. ReadOperand l n at) e) }
    ensures stops { at ≤ length (toks_of cut.now) → IfErr result (StopsOperand (toks_of cut.now) left at (λ l n. ReadOperand l n at)) }
{
    let Some((tok, next)) = take(cut, at) else {
        return Err(refusal(cut, at));
    };
    if is_unary(tok) {
        let inner = enter(cut, left, at)?;
        let operand = operand(alloc, cut, inner, next)?;
        return made::unary(alloc, at, operand);
    }
    power(alloc, cut, left, at)
}

/// A simple expression, or its power.
#[cycle(parse)]
fn power(alloc: Global, cut: &Cut, left: u32, at: u32) -> Result<Expr, ParseErr>
    ensures ok { IfOk result (λ e. Found (toks_of cut.now) (at + 1) (out-Expr e).to left (expr_levels e) (IsOperand (toks_of cut.now) at (out-Expr e).to e)) }
    ensures known { IfOk result (λ e. Known (toks_of cut.now) (out-Expr e).to (λ l n. ReadPower l n at) e) }
    ensures stops { at ≤ length (toks_of cut.now) → IfErr result (StopsOperand (toks_of cut.now) left at (λ l n. ReadPower l n at)) }
{
    let base = simple(alloc, cut, left, at)?;
    let sign = base.to;
    let Some(next) = eat(cut, sign, Tok::Sign(Sign::Caret)) else {
        return Ok(base);
    };
    let inner = enter(cut, left, sign)?;
    let exponent = operand(alloc, cut, inner, next)?;
    made::power(alloc, at, base, sign, exponent)
}

/// An expression without operators.
#[cycle(parse)]
fn simple(alloc: Global, cut: &Cut, left: u32, at: u32) -> Result<Expr, ParseErr>
    ensures ok { IfOk result (λ e. Found (toks_of cut.now) (at + 1) (out-Expr e).to left (expr_levels e) (IsSimple (toks_of cut.now) at (out-Expr e).to e)) }
    ensures known { IfOk result (λ e. Known (toks_of cut.now) (out-Expr e).to (λ l n. ReadSimple l n at) e) }
    ensures stops { at ≤ length (toks_of cut.now) → IfErr result (StopsSimple (toks_of cut.now) left at (λ l n. ReadSimple l n at)) }
{
    let Some((tok, to)) = take(cut, at) else {
        return Err(refusal(cut, at));
    };
    if let Some(what) = leaf(tok) {
        return Ok(Expr { from: at, to, what });
    }
    if let Some(next) = eat(cut, at, Tok::Word(Word::Function)) {
        return function(alloc, cut, left, at, next);
    }
    if cut.is_at(at, Tok::Sign(Sign::LeftBrace)) {
        return table_expr(alloc, cut, left, at);
    }
    let found = prefix(alloc, cut, left, at)?;
    Ok(found.expr)
}

/// What a token is that is an expression by itself.
fn leaf(tok: Tok) -> Option<ExprKind>
    ensures leaf { IfSome result (λ kind. IsLeaf tok kind) }
    ensures kind { result ≡ leaf_kind tok }
{
    match tok {
        Tok::Word(Word::Nil) => Some(ExprKind::Nil),
        Tok::Word(Word::True) => Some(ExprKind::True),
        Tok::Word(Word::False) => Some(ExprKind::False),
        Tok::Number => Some(ExprKind::Number),
        Tok::Short => Some(ExprKind::Str),
        Tok::Long => Some(ExprKind::Str),
        Tok::Sign(Sign::Dots) => Some(ExprKind::Vararg),
        _ => None,
    }
}

/// `function` and a body.
#[cycle(parse)]
fn function(alloc: Global, cut: &Cut, left: u32, at: u32, next: u32) -> Result<Expr, ParseErr>
    requires word { IsToken (toks_of cut.now) at (Tok.Word word.Function) next }
    ensures ok { IfOk result (λ e. Found (toks_of cut.now) (at + 1) (out-Expr e).to left (expr_levels e) (IsSimple (toks_of cut.now) at (out-Expr e).to e)) }
    ensures known { IfOk result (λ e. Known (toks_of cut.now) (out-Expr e).to (λ l n. ReadFunction l n at next) e) }
    ensures stops { next ≤ length (toks_of cut.now) → IfErr result (StopsSimple (toks_of cut.now) left at (λ l n. ReadFunction l n at next)) }
{
    let inner = enter(cut, left, at)?;
    let body = func_body(alloc, cut, inner, next)?;
    made::function(alloc, at, body)
}

/// `exp {',' exp}`, and the place after it.
#[cycle(parse)]
pub fn exprs(
    alloc: Global,
    cut: &Cut,
    left: u32,
    mut at: u32,
) -> Result<(Items<Expr>, u32), ParseErr>
    ensures ok { IfOk result (λ r. Found (toks_of cut.now) (at + 1) r.1 left (deepest (map expr_levels r.0)) (AreExprs (toks_of cut.now) at r.1 r.0)) }
    ensures known { IfOk result (λ r. Known (toks_of cut.now) r.1 (λ l n. ReadExprs l n at) r) }
    ensures stops { at ≤ length (toks_of cut.now) → IfErr result (StopsExprs (toks_of cut.now) left at) }
{
    let mut found = Growing::new(alloc);
    loop {
        let one = expr(alloc, cut, left, at, 1)?;
        let to = one.to;
        found.push(one)?;
        match eat(cut, to, Tok::Sign(Sign::Comma)) {
            Some(next) => at = next,
            None => return Ok((found.exact(), to)),
        }
    }
}
