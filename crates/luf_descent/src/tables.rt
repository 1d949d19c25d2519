// Tables.
ghost use Rattle.std.specs.Prelude.{◌≡◌, ◌+◌, ◌≤◌, map, ℕ, length, IfOk, IfErr, IfSome, IfNone};
ghost use Rattle.luf_lex.specs.Tokens.{toks_of};
ghost use Rattle.luf_lex.specs.declared.token.Sign.TheVariants as sign;
ghost use Rattle.luf_tree.specs.declared.tree.Expr.{out-Expr};
ghost use Rattle.luf_tree.specs.Grammar.{IsToken, IsSimple, IsTable, IsField, AreFields};
ghost use Rattle.luf_tree.specs.Level.{deepest, expr_levels, field_levels};
ghost use Rattle.luf_descent.specs.Reads.{Found};
ghost use Rattle.luf_descent.specs.Stops.{Known};
ghost use Rattle.luf_descent.specs.PartStops.{StopsField, StopsFields, StopsSimple, StopsTable};
ghost use Rattle.luf_descent.specs.Follow.{IsAssigned, NotAssigned, IsSeparator};
ghost use Rattle.luf_descent.specs.Parts.{ReadField, ReadFields, ReadKeyed, ReadTable, ReadTableExpr};

use crate::ParseErr;
use crate::expressions::expr;
use crate::growing::Growing;
use crate::tokens::{eat, enter, expect, take};
use luf_lex::{Cut, Sign, Tok};
use luf_tree::{Expr, ExprKind, Field};
use sqlite_items::{Boxed, Items};
use std::alloc::Global;

/// A table as an expression.
#[cycle(parse)]
pub fn table_expr(alloc: Global, cut: &Cut, left: u32, at: u32) -> Result<Expr, ParseErr>
    ensures ok { IfOk result (λ e. Found (toks_of cut.now) (at + 1) (out-Expr e).to left (expr_levels e) (IsSimple (toks_of cut.now) at (out-Expr e).to e)) }
    ensures known { IfOk result (λ e. Known (toks_of cut.now) (out-Expr e).to (λ l n. ReadTableExpr l n at) e) }
    ensures stops { at ≤ length (toks_of cut.now) → IfErr result (StopsSimple (toks_of cut.now) left at (λ l n. ReadTableExpr l n at)) }
{
    let (fields, to) = table(alloc, cut, left, at)?;
    Ok(Expr {
        from: at,
        to,
        what: ExprKind::Table(fields),
    })
}

/// The fields of a table from its `{`, and the place after its `}`.
#[cycle(parse)]
pub fn table(alloc: Global, cut: &Cut, left: u32, at: u32) -> Result<(Items<Field>, u32), ParseErr>
    ensures ok { IfOk result (λ r. Found (toks_of cut.now) (at + 1) r.1 left (deepest (map field_levels r.0) + 1) (IsTable (toks_of cut.now) at r.1 r.0)) }
    ensures known { IfOk result (λ r. Known (toks_of cut.now) r.1 (λ l n. ReadTable l n at) r) }
    ensures stops { at ≤ length (toks_of cut.now) → IfErr result (StopsTable (toks_of cut.now) left at) }
{
    let first = expect(cut, at, Tok::Sign(Sign::LeftBrace))?;
    let inner = enter(cut, left, at)?;
    let (found, close) = fields(alloc, cut, inner, first)?;
    let to = expect(cut, close, Tok::Sign(Sign::RightBrace))?;
    Ok((found, to))
}

/// The fields of a table up to its `}`, and the place of that.
#[cycle(parse)]
fn fields(alloc: Global, cut: &Cut, left: u32, mut at: u32) -> Result<(Items<Field>, u32), ParseErr>
    requires within { at ≤ length (toks_of cut.now) }
    ensures ok { IfOk result (λ r. Found (toks_of cut.now) at r.1 left (deepest (map field_levels r.0)) (AreFields (toks_of cut.now) at r.1 r.0)) }
    ensures known { IfOk result (λ r. Known (toks_of cut.now) r.1 (λ l n. ReadFields l n at) r) }
    ensures stops { IfErr result (StopsFields (toks_of cut.now) left at) }
{
    let mut found = Growing::new(alloc);
    'fields: loop {
        if cut.is_at(at, Tok::Sign(Sign::RightBrace)) {
            return Ok((found.exact(), at));
        }
        let (one, to) = field(alloc, cut, left, at)?;
        found.push(one)?;
        match separator(cut, to) {
            Some(next) => at = next,
            None => return Ok((found.exact(), to)),
        }
    }
}

/// The place after a `,` or a `;`.
fn separator(cut: &Cut, at: u32) -> Option<u32>
    ensures some { IfSome result (λ next. IsSeparator (toks_of cut.now) at next) }
    ensures forward { IfSome result (λ next. next ≡ at + 1) }
    ensures within { IfSome result (λ next. next ≤ length (toks_of cut.now)) }
    ensures none { IfNone result ((next : ℕ) → IsSeparator (toks_of cut.now) at next → ⊥) }
{
    match take(cut, at)? {
        (Tok::Sign(Sign::Comma), next) => Some(next),
        (Tok::Sign(Sign::Semicolon), next) => Some(next),
        _ => None,
    }
}

/// One field of a table, and the place after it.
#[cycle(parse)]
fn field(alloc: Global, cut: &Cut, left: u32, at: u32) -> Result<(Field, u32), ParseErr>
    ensures ok { IfOk result (λ r. Found (toks_of cut.now) (at + 1) r.1 left (field_levels r.0) (IsField (toks_of cut.now) at r.1 r.0)) }
    ensures known { IfOk result (λ r. Known (toks_of cut.now) r.1 (λ l n. ReadField l n at) r) }
    ensures stops { at ≤ length (toks_of cut.now) → IfErr result (StopsField (toks_of cut.now) left at (λ l n. ReadField l n at)) }
{
    if let Some(inside) = eat(cut, at, Tok::Sign(Sign::LeftBracket)) {
        return keyed(alloc, cut, left, at, inside);
    }
    if let Some(from) = assigned(cut, at) {
        let value = expr(alloc, cut, left, from, 1)?;
        let to = value.to;
        return Ok((Field::Named { name: at, value }, to));
    }
    let value = expr(alloc, cut, left, at, 1)?;
    let to = value.to;
    Ok((Field::Item(value), to))
}

/// The place after a name and a `=`.
pub fn assigned(cut: &Cut, at: u32) -> Option<u32>
    ensures some { IfSome result (λ from. IsAssigned (toks_of cut.now) at from) }
    ensures none { IfNone result (NotAssigned (toks_of cut.now) at) }
{
    let after = eat(cut, at, Tok::Name)?;
    eat(cut, after, Tok::Sign(Sign::Assign))
}

/// `'[' exp ']' '=' exp` behind its `[`.
#[cycle(parse)]
fn keyed(
    alloc: Global,
    cut: &Cut,
    left: u32,
    at: u32,
    inside: u32,
) -> Result<(Field, u32), ParseErr>
    requires sign { IsToken (toks_of cut.now) at (Tok.Sign sign.LeftBracket) inside }
    ensures ok { IfOk result (λ r. Found (toks_of cut.now) (at + 1) r.1 left (field_levels r.0) (IsField (toks_of cut.now) at r.1 r.0)) }
    ensures known { IfOk result (λ r. Known (toks_of cut.now) r.1 (λ l n. ReadKeyed l n inside) r) }
    ensures stops { inside ≤ length (toks_of cut.now) → IfErr result (StopsField (toks_of cut.now) left at (λ l n. ReadKeyed l n inside)) }
{
    let inner = enter(cut, left, at)?;
    let key = expr(alloc, cut, inner, inside, 1)?;
    let close = expect(cut, key.to, Tok::Sign(Sign::RightBracket))?;
    let from = expect(cut, close, Tok::Sign(Sign::Assign))?;
    let value = expr(alloc, cut, left, from, 1)?;
    let to = value.to;
    let key = Boxed::new(alloc, key)?;
    Ok((Field::Keyed { key, value }, to))
}
