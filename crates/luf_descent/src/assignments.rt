// Calls and assignments.
ghost use Rattle.std.specs.Prelude.{◌+◌, ◌≤◌, map, IfOk, IfErr, length};
ghost use Rattle.luf_lex.specs.Tokens.{toks_of};
ghost use Rattle.luf_tree.specs.declared.tree.Stat.{out-Stat};
ghost use Rattle.luf_tree.specs.declared.tree.Expr.{out-Expr};
ghost use Rattle.luf_tree.specs.Grammar.{IsStat, AreTargets, IsVariable};
ghost use Rattle.luf_tree.specs.Level.{deepest, expr_levels, stat_levels};
ghost use Rattle.luf_descent.specs.Reads.{Found};
ghost use Rattle.luf_descent.specs.Stops.{Known};
ghost use Rattle.luf_descent.specs.PartStops.{StopsAssign, StopsStat, StopsTargets, StopsVariable};
ghost use Rattle.luf_descent.specs.Parts.{ReadAssign, ReadExprStat, ReadMoreTargets, ReadVariable};

use crate::ParseErr;
use crate::expressions::exprs;
use crate::growing::Growing;
use crate::prefixes::{Shape, prefix};
use crate::tokens::{eat, expect, refusal};
use luf_lex::{Cut, Sign, Tok};
use luf_tree::{Expr, Stat, StatKind};
use sqlite_items::Items;
use std::alloc::Global;

/// A call, or an assignment.
#[cycle(parse)]
pub fn expr_stat(alloc: Global, cut: &Cut, left: u32, at: u32) -> Result<Stat, ParseErr>
    ensures ok { IfOk result (λ s. Found (toks_of cut.now) (at + 1) (out-Stat s).to left (stat_levels s) (IsStat (toks_of cut.now) at (out-Stat s).to s)) }
    ensures known { IfOk result (λ s. Known (toks_of cut.now) (out-Stat s).to (λ l n. ReadExprStat l n at) s) }
    ensures stops { at ≤ length (toks_of cut.now) → IfErr result (StopsStat (toks_of cut.now) left at (λ l n. ReadExprStat l n at)) }
{
    let first = prefix(alloc, cut, left, at)?;
    let to = first.expr.to;
    match first.shape {
        Shape::Call => Ok(Stat {
            from: at,
            to,
            what: StatKind::Call(first.expr),
        }),
        Shape::Variable => assign(alloc, cut, left, at, first.expr),
        Shape::Paren => Err(refusal(cut, to)),
    }
}

/// An assignment, whose first target was read.
#[cycle(parse)]
fn assign(alloc: Global, cut: &Cut, left: u32, at: u32, first: Expr) -> Result<Stat, ParseErr>
    requires first { Found (toks_of cut.now) (at + 1) (out-Expr first).to left (expr_levels first) (IsVariable (toks_of cut.now) at (out-Expr first).to first) }
    ensures ok { IfOk result (λ s. Found (toks_of cut.now) (at + 1) (out-Stat s).to left (stat_levels s) (IsStat (toks_of cut.now) at (out-Stat s).to s)) }
    ensures further { IfOk result (λ s. (out-Expr first).to ≤ (out-Stat s).to) }
    ensures known { IfOk result (λ s. Known (toks_of cut.now) (out-Stat s).to (λ l n. ReadAssign l n at first) s) }
    ensures stops { IfErr result (StopsAssign (toks_of cut.now) left at first) }
{
    let (targets, end) = targets(alloc, cut, left, at, first)?;
    let from = expect(cut, end, Tok::Sign(Sign::Assign))?;
    let (values, to) = exprs(alloc, cut, left, from)?;
    Ok(Stat {
        from: at,
        to,
        what: StatKind::Assign { targets, values },
    })
}

/// `var {',' var}`, of which the first was read, and the place after it.
#[cycle(parse)]
fn targets(
    alloc: Global,
    cut: &Cut,
    left: u32,
    mut at: u32,
    first: Expr,
) -> Result<(Items<Expr>, u32), ParseErr>
    requires first { Found (toks_of cut.now) (at + 1) (out-Expr first).to left (expr_levels first) (IsVariable (toks_of cut.now) at (out-Expr first).to first) }
    ensures ok { IfOk result (λ r. Found (toks_of cut.now) (at + 1) r.1 left (deepest (map expr_levels r.0)) (AreTargets (toks_of cut.now) at r.1 r.0)) }
    ensures further { IfOk result (λ r. (out-Expr first).to ≤ r.1) }
    ensures known { IfOk result (λ r. Known (toks_of cut.now) r.1 (λ l n. ReadMoreTargets l n at first) r) }
    ensures stops { IfErr result (StopsTargets (toks_of cut.now) left at first) }
{
    let mut found = Growing::new(alloc);
    let mut one = first;
    loop {
        let to = one.to;
        found.push(one)?;
        let Some(next) = eat(cut, to, Tok::Sign(Sign::Comma)) else {
            return Ok((found.exact(), to));
        };
        at = next;
        one = variable(alloc, cut, left, at)?;
    }
}

/// A prefix expression that can be assigned to.
#[cycle(parse)]
fn variable(alloc: Global, cut: &Cut, left: u32, at: u32) -> Result<Expr, ParseErr>
    ensures ok { IfOk result (λ e. Found (toks_of cut.now) (at + 1) (out-Expr e).to left (expr_levels e) (IsVariable (toks_of cut.now) at (out-Expr e).to e)) }
    ensures known { IfOk result (λ e. Known (toks_of cut.now) (out-Expr e).to (λ l n. ReadVariable l n at) e) }
    ensures stops { at ≤ length (toks_of cut.now) → IfErr result (StopsVariable (toks_of cut.now) left at) }
{
    let prefix = prefix(alloc, cut, left, at)?;
    match prefix.shape {
        Shape::Variable => Ok(prefix.expr),
        _ => Err(refusal(cut, prefix.expr.to)),
    }
}
