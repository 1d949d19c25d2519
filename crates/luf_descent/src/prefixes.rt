// Prefix expressions: variables, calls and expressions in parentheses.
ghost use Rattle.std.specs.Prelude.{◌≡◌, ◌+◌, ◌≤◌, cond, nat_eq, map, length, IfOk, IfErr, IfSome, IfNone};
ghost use Rattle.luf_lex.specs.Tokens.{toks_of};
ghost use Rattle.luf_lex.specs.declared.token.Sign.TheVariants as sign;
ghost use Rattle.luf_tree.specs.declared.tree.Expr.{out-Expr};
ghost use Rattle.luf_tree.specs.declared.tree.ExprKind.TheViews.{out-ExprKind};
ghost use Rattle.luf_tree.specs.declared.tree.Args.{out-Args};
ghost use Rattle.luf_tree.specs.Grammar.{suffixed, is_name_from, is_name_kind, IsToken, IsString, NoParenFollows, IsHead, IsParen, AreSuffixes, IsSuffix, IsArgs};
ghost use Rattle.luf_tree.specs.Level.{deepest, expr_levels, suffix_levels, args_levels};
ghost use Rattle.luf_descent.specs.Reads.{Found};
ghost use Rattle.luf_descent.specs.Shapes.{IsShaped, suffixed_shape, lone_args};
ghost use Rattle.luf_descent.specs.Stops.{Known};
ghost use Rattle.luf_descent.specs.PartStops.{StopsArgs, StopsHead, StopsParen, StopsPrefix, StopsSuffix, StopsSuffixes};
ghost use Rattle.luf_descent.specs.Follow.{NotString};
ghost use Rattle.luf_descent.specs.Parts.{ReadArgs, ReadHead, ReadListArgs, ReadLoneArg, ReadParen, ReadPrefix, ReadSuffix, ReadSuffixes};

use crate::expressions::{expr, exprs};
use crate::growing::Growing;
use crate::tables::table;
use crate::tokens::{begins_suffix, eat, enter, expect, refusal, take};
use crate::{ParseErr, made};
use luf_lex::{Cut, Sign, Tok};
use luf_tree::{Args, Expr, ExprKind, Suffix};
use sqlite_items::{Boxed, Items};
use std::alloc::Global;

/// What a prefix expression is (Lua 5.4 manual, 9).
#[derive(Clone, Copy, Debug, PartialEq, Eq)]
pub enum Shape {
    Variable,
    Call,
    Paren,
}

/// A prefix expression.
#[derive(Debug, Drop)]
pub struct PrefixExpr {
    pub shape: Shape,
    pub expr: Expr,
}

/// A prefix expression: a variable, a call, or an expression in parentheses.
#[cycle(parse)]
pub fn prefix(alloc: Global, cut: &Cut, left: u32, at: u32) -> Result<PrefixExpr, ParseErr>
    ensures ok { IfOk result (λ p. Found (toks_of cut.now) (at + 1) (out-Expr p.expr).to left (expr_levels p.expr) (IsShaped (toks_of cut.now) at (out-Expr p.expr).to p.shape p.expr)) }
    ensures closed { IfOk result (λ p. NoParenFollows (toks_of cut.now) (out-Expr p.expr).to) }
    ensures known { IfOk result (λ p. Known (toks_of cut.now) (out-Expr p.expr).to (λ l n. ReadPrefix l n at) p) }
    ensures stops { at ≤ length (toks_of cut.now) → IfErr result (StopsPrefix (toks_of cut.now) left at) }
{
    let head = head(alloc, cut, left, at)?;
    if !begins_suffix(cut, head.expr.to) {
        return Ok(head);
    }
    let (found, calls, to) = suffixes(alloc, cut, left, head.expr.to)?;
    suffixed(alloc, at, to, calls, head.expr, found)
}

/// A head with suffixes, the last of which makes a call or not.
fn suffixed(
    alloc: Global,
    from: u32,
    to: u32,
    calls: bool,
    head: Expr,
    suffixes: Items<Suffix>,
) -> Result<PrefixExpr, ParseErr>
    ensures made { IfOk result (λ p. p ≡ record { shape = suffixed_shape calls; expr = suffixed from to head suffixes }) }
    ensures memory { IfErr result (λ e. e ≡ ParseErr.Memory) }
{
    Ok(PrefixExpr {
        shape: if calls { Shape::Call } else { Shape::Variable },
        expr: Expr {
            from,
            to,
            what: suffixed_kind(alloc, from, head, suffixes)?,
        },
    })
}

/// A head that begins at `from`, with suffixes. A name needs no box: it is the first token.
fn suffixed_kind(
    alloc: Global,
    from: u32,
    head: Expr,
    suffixes: Items<Suffix>,
) -> Result<ExprKind, ParseErr>
    ensures made { IfOk result (λ kind. kind ≡ cond (is_name_from from head) (ExprKind.NameSuffixed suffixes) (ExprKind.Suffixed head suffixes)) }
    ensures memory { IfErr result (λ e. e ≡ ParseErr.Memory) }
{
    if is_name_from(from, &head) {
        return Ok(ExprKind::NameSuffixed(suffixes));
    }
    Ok(ExprKind::Suffixed {
        head: Boxed::new(alloc, head)?,
        suffixes,
    })
}

/// Whether an expression is the name from a place on.
fn is_name_from(from: u32, e: &Expr) -> bool
    ensures { result ≡ is_name_from from e.now }
{
    e.from == from && is_next(from, e.to) && is_name(&e.what)
}

/// Whether a place is the one behind another.
fn is_next(from: u32, to: u32) -> bool
    ensures { result ≡ nat_eq to (from + 1) }
{
    to > from && to - from == 1
}

fn is_name(what: &ExprKind) -> bool
    ensures { result ≡ is_name_kind (out-ExprKind what.now) }
{
    matches!(what, ExprKind::Name)
}

/// A name, or an expression in parentheses.
#[cycle(parse)]
fn head(alloc: Global, cut: &Cut, left: u32, at: u32) -> Result<PrefixExpr, ParseErr>
    ensures ok { IfOk result (λ p. Found (toks_of cut.now) (at + 1) (out-Expr p.expr).to left (expr_levels p.expr) (IsShaped (toks_of cut.now) at (out-Expr p.expr).to p.shape p.expr)) }
    ensures head { IfOk result (λ p. IsHead (toks_of cut.now) at (out-Expr p.expr).to p.expr) }
    ensures known { IfOk result (λ p. Known (toks_of cut.now) (out-Expr p.expr).to (λ l n. ReadHead l n at) p) }
    ensures stops { at ≤ length (toks_of cut.now) → IfErr result (StopsHead (toks_of cut.now) left at) }
{
    if let Some(to) = eat(cut, at, Tok::Name) {
        let expr = Expr {
            from: at,
            to,
            what: ExprKind::Name,
        };
        return Ok(PrefixExpr {
            shape: Shape::Variable,
            expr,
        });
    }
    let Some(next) = eat(cut, at, Tok::Sign(Sign::LeftParen)) else {
        return Err(refusal(cut, at));
    };
    let expr = paren(alloc, cut, left, at, next)?;
    Ok(PrefixExpr {
        shape: Shape::Paren,
        expr,
    })
}

/// `'(' exp ')'` behind its `(`.
#[cycle(parse)]
fn paren(alloc: Global, cut: &Cut, left: u32, at: u32, next: u32) -> Result<Expr, ParseErr>
    requires sign { IsToken (toks_of cut.now) at (Tok.Sign sign.LeftParen) next }
    ensures ok { IfOk result (λ e. Found (toks_of cut.now) (at + 1) (out-Expr e).to left (expr_levels e) (IsParen (toks_of cut.now) at (out-Expr e).to e)) }
    ensures known { IfOk result (λ e. Known (toks_of cut.now) (out-Expr e).to (λ l n. ReadParen l n at) e) }
    ensures stops { next ≤ length (toks_of cut.now) → IfErr result (StopsParen (toks_of cut.now) left at) }
{
    let inner = enter(cut, left, at)?;
    let inside = expr(alloc, cut, inner, next, 1)?;
    let to = expect(cut, inside.to, Tok::Sign(Sign::RightParen))?;
    made::paren(alloc, at, to, inside)
}

/// Suffixes, as many as there are, whether the last of them makes a call, and the place after it.
#[cycle(parse)]
fn suffixes(
    alloc: Global,
    cut: &Cut,
    left: u32,
    mut at: u32,
) -> Result<(Items<Suffix>, bool, u32), ParseErr>
    ensures ok { IfOk result (λ r. Found (toks_of cut.now) (at + 1) r.2 left (deepest (map suffix_levels r.0)) (AreSuffixes (toks_of cut.now) r.1 at r.2 r.0)) }
    ensures closed { IfOk result (λ r. NoParenFollows (toks_of cut.now) r.2) }
    ensures known { IfOk result (λ r. Known (toks_of cut.now) r.2 (λ l n. ReadSuffixes l n at) r) }
    ensures stops { at ≤ length (toks_of cut.now) → IfErr result (StopsSuffixes (toks_of cut.now) left at) }
{
    let mut found = Growing::new(alloc);
    loop {
        let (one, calls, to) = suffix(alloc, cut, left, at)?;
        found.push(one)?;
        if !begins_suffix(cut, to) {
            return Ok((found.exact(), calls, to));
        }
        at = to;
    }
}

/// A suffix, whether it makes a call, and the place after it.
#[cycle(parse)]
fn suffix(alloc: Global, cut: &Cut, left: u32, at: u32) -> Result<(Suffix, bool, u32), ParseErr>
    ensures ok { IfOk result (λ r. Found (toks_of cut.now) (at + 1) r.2 left (suffix_levels r.0) (IsSuffix (toks_of cut.now) r.1 at r.2 r.0)) }
    ensures known { IfOk result (λ r. Known (toks_of cut.now) r.2 (λ l n. ReadSuffix l n at) r) }
    ensures stops { at ≤ length (toks_of cut.now) → IfErr result (StopsSuffix (toks_of cut.now) left at) }
{
    if let Some(name) = eat(cut, at, Tok::Sign(Sign::Dot)) {
        let to = expect(cut, name, Tok::Name)?;
        return Ok((Suffix::Dot(name), false, to));
    }
    if let Some(inside) = eat(cut, at, Tok::Sign(Sign::LeftBracket)) {
        let inner = enter(cut, left, at)?;
        let key = expr(alloc, cut, inner, inside, 1)?;
        let to = expect(cut, key.to, Tok::Sign(Sign::RightBracket))?;
        return Ok((Suffix::Index(Boxed::new(alloc, key)?), false, to));
    }
    if let Some(name) = eat(cut, at, Tok::Sign(Sign::Colon)) {
        let after = expect(cut, name, Tok::Name)?;
        let given = args(alloc, cut, left, after)?;
        let to = given.to;
        return Ok((Suffix::Method { name, args: given }, true, to));
    }
    let given = args(alloc, cut, left, at)?;
    let to = given.to;
    Ok((Suffix::Call(given), true, to))
}

/// The arguments of a call.
#[cycle(parse)]
fn args(alloc: Global, cut: &Cut, left: u32, at: u32) -> Result<Args, ParseErr>
    ensures ok { IfOk result (λ a. Found (toks_of cut.now) (at + 1) (out-Args a).to left (args_levels a) (IsArgs (toks_of cut.now) at (out-Args a).to a)) }
    ensures known { IfOk result (λ a. Known (toks_of cut.now) (out-Args a).to (λ l n. ReadArgs l n at) a) }
    ensures stops { at ≤ length (toks_of cut.now) → IfErr result (StopsArgs (toks_of cut.now) left at (λ l n. ReadArgs l n at)) }
{
    if let Some(inside) = eat(cut, at, Tok::Sign(Sign::LeftParen)) {
        return list_args(alloc, cut, left, at, inside);
    }
    let item = lone_arg(alloc, cut, left, at)?;
    let to = item.to;
    let mut items = Growing::new(alloc);
    items.push(item)?;
    Ok(Args {
        from: at,
        to,
        parens: false,
        items: items.exact(),
    })
}

/// `'(' [explist] ')'` behind its `(`.
#[cycle(parse)]
fn list_args(alloc: Global, cut: &Cut, left: u32, at: u32, inside: u32) -> Result<Args, ParseErr>
    requires sign { IsToken (toks_of cut.now) at (Tok.Sign sign.LeftParen) inside }
    ensures ok { IfOk result (λ a. Found (toks_of cut.now) (at + 1) (out-Args a).to left (args_levels a) (IsArgs (toks_of cut.now) at (out-Args a).to a)) }
    ensures known { IfOk result (λ a. Known (toks_of cut.now) (out-Args a).to (λ l n. ReadListArgs l n at inside) a) }
    ensures stops { inside ≤ length (toks_of cut.now) → IfErr result (StopsArgs (toks_of cut.now) left at (λ l n. ReadListArgs l n at inside)) }
{
    let inner = enter(cut, left, at)?;
    if let Some(to) = eat(cut, inside, Tok::Sign(Sign::RightParen)) {
        return Ok(Args {
            from: at,
            to,
            parens: true,
            items: Items::new(alloc),
        });
    }
    let (items, close) = exprs(alloc, cut, inner, inside)?;
    let to = expect(cut, close, Tok::Sign(Sign::RightParen))?;
    Ok(Args {
        from: at,
        to,
        parens: true,
        items,
    })
}

/// A string or a table that is the one argument of a call without parentheses.
#[cycle(parse)]
fn lone_arg(alloc: Global, cut: &Cut, left: u32, at: u32) -> Result<Expr, ParseErr>
    ensures ok { IfOk result (λ e. Found (toks_of cut.now) (at + 1) (out-Expr e).to left (expr_levels e + 1) (IsArgs (toks_of cut.now) at (out-Expr e).to (lone_args at e))) }
    ensures known { IfOk result (λ e. Known (toks_of cut.now) (out-Expr e).to (λ l n. ReadLoneArg l n at) e) }
    ensures stops { at ≤ length (toks_of cut.now) → IfErr result (StopsArgs (toks_of cut.now) left at (λ l n. ReadLoneArg l n at)) }
{
    if let Some(to) = string(cut, at) {
        enter(cut, left, at)?;
        return Ok(Expr {
            from: at,
            to,
            what: ExprKind::Str,
        });
    }
    expect(cut, at, Tok::Sign(Sign::LeftBrace))?;
    let inner = enter(cut, left, at)?;
    let (fields, to) = table(alloc, cut, inner, at)?;
    Ok(Expr {
        from: at,
        to,
        what: ExprKind::Table(fields),
    })
}

/// The place after a string.
fn string(cut: &Cut, at: u32) -> Option<u32>
    ensures some { IfSome result (λ to. IsString (toks_of cut.now) at to) }
    ensures forward { IfSome result (λ to. to ≡ at + 1) }
    ensures within { IfSome result (λ to. to ≤ length (toks_of cut.now)) }
    ensures none { IfNone result (NotString (toks_of cut.now) at) }
{
    match take(cut, at)? {
        (Tok::Short, to) => Some(to),
        (Tok::Long, to) => Some(to),
        _ => None,
    }
}
