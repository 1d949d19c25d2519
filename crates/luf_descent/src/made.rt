// Parts of the tree whose large parts stand in boxes. They are made outside the cycle of calls, whose proof is dear.
ghost use Rattle.std.specs.Prelude.{◌≡◌, IfOk, IfErr};
ghost use Rattle.luf_tree.specs.declared.tree.Expr.{out-Expr};
ghost use Rattle.luf_tree.specs.declared.tree.FuncBody.{out-FuncBody};
ghost use Rattle.luf_tree.specs.Grammar.{expression, statement};

use crate::ParseErr;
use luf_tree::{Block, Expr, ExprKind, FuncBody, Stat, StatKind, Step};
use sqlite_items::{Boxed, Items};
use std::alloc::Global;

/// A unary operator at `from` and its operand.
pub fn unary(alloc: Global, from: u32, operand: Expr) -> Result<Expr, ParseErr>
    ensures made { IfOk result (λ e. e ≡ expression from (out-Expr operand).to (ExprKind.Unary operand)) }
    ensures memory { IfErr result (λ e. e ≡ ParseErr.Memory) }
{
    Ok(Expr {
        from,
        to: operand.to,
        what: ExprKind::Unary(Boxed::new(alloc, operand)?),
    })
}

/// `base ^ exponent`.
pub fn power(
    alloc: Global,
    from: u32,
    base: Expr,
    sign: u32,
    exponent: Expr,
) -> Result<Expr, ParseErr>
    ensures made { IfOk result (λ e. e ≡ expression from (out-Expr exponent).to (ExprKind.Power base sign exponent)) }
    ensures memory { IfErr result (λ e. e ≡ ParseErr.Memory) }
{
    Ok(Expr {
        from,
        to: exponent.to,
        what: ExprKind::Power {
            base: Boxed::new(alloc, base)?,
            sign,
            exponent: Boxed::new(alloc, exponent)?,
        },
    })
}

/// An operand and the steps of a chain.
pub fn chain(
    alloc: Global,
    from: u32,
    to: u32,
    first: Expr,
    rest: Items<Step>,
) -> Result<Expr, ParseErr>
    ensures made { IfOk result (λ e. e ≡ expression from to (ExprKind.Chain first rest)) }
    ensures memory { IfErr result (λ e. e ≡ ParseErr.Memory) }
{
    Ok(Expr {
        from,
        to,
        what: ExprKind::Chain {
            first: Boxed::new(alloc, first)?,
            rest,
        },
    })
}

/// An expression in parentheses.
pub fn paren(alloc: Global, from: u32, to: u32, inside: Expr) -> Result<Expr, ParseErr>
    ensures made { IfOk result (λ e. e ≡ expression from to (ExprKind.Paren inside)) }
    ensures memory { IfErr result (λ e. e ≡ ParseErr.Memory) }
{
    Ok(Expr {
        from,
        to,
        what: ExprKind::Paren(Boxed::new(alloc, inside)?),
    })
}

/// A function as an expression.
pub fn function(alloc: Global, from: u32, body: FuncBody) -> Result<Expr, ParseErr>
    ensures made { IfOk result (λ e. e ≡ expression from (out-FuncBody body).to (ExprKind.Function body)) }
    ensures memory { IfErr result (λ e. e ≡ ParseErr.Memory) }
{
    Ok(Expr {
        from,
        to: body.to,
        what: ExprKind::Function(Boxed::new(alloc, body)?),
    })
}

pub fn while_stat(
    alloc: Global,
    from: u32,
    to: u32,
    test: Expr,
    body: Boxed<Block>,
) -> Result<Stat, ParseErr>
    ensures made { IfOk result (λ s. s ≡ statement from to (StatKind.While test body)) }
    ensures memory { IfErr result (λ e. e ≡ ParseErr.Memory) }
{
    Ok(Stat {
        from,
        to,
        what: StatKind::While {
            test: Boxed::new(alloc, test)?,
            body,
        },
    })
}

pub fn repeat_stat(alloc: Global, from: u32, body: Block, test: Expr) -> Result<Stat, ParseErr>
    ensures made { IfOk result (λ s. s ≡ statement from (out-Expr test).to (StatKind.Repeat body test)) }
    ensures memory { IfErr result (λ e. e ≡ ParseErr.Memory) }
{
    Ok(Stat {
        from,
        to: test.to,
        what: StatKind::Repeat {
            body,
            test: Boxed::new(alloc, test)?,
        },
    })
}

/// `for` with a count.
pub fn count_stat(
    alloc: Global,
    from: u32,
    to: u32,
    name: u32,
    first: Expr,
    limit: Expr,
    step: Option<Boxed<Expr>>,
    body: Boxed<Block>,
) -> Result<Stat, ParseErr>
    ensures made { IfOk result (λ s. s ≡ statement from to (StatKind.For name first limit step body)) }
    ensures memory { IfErr result (λ e. e ≡ ParseErr.Memory) }
{
    Ok(Stat {
        from,
        to,
        what: StatKind::For {
            name,
            first: Boxed::new(alloc, first)?,
            limit: Boxed::new(alloc, limit)?,
            step,
            body,
        },
    })
}

/// `for` with names.
pub fn for_in(
    alloc: Global,
    from: u32,
    to: u32,
    names: Items<u32>,
    values: Items<Expr>,
    body: Boxed<Block>,
) -> Result<Stat, ParseErr>
    ensures made { IfOk result (λ s. s ≡ statement from to (StatKind.ForIn names values body)) }
    ensures memory { IfErr result (λ e. e ≡ ParseErr.Memory) }
{
    Ok(Stat {
        from,
        to,
        what: StatKind::ForIn {
            names: Boxed::new(alloc, names)?,
            values,
            body,
        },
    })
}

pub fn function_stat(
    alloc: Global,
    from: u32,
    path: Items<u32>,
    method: Option<u32>,
    body: FuncBody,
) -> Result<Stat, ParseErr>
    ensures made { IfOk result (λ s. s ≡ statement from (out-FuncBody body).to (StatKind.Function path method body)) }
    ensures memory { IfErr result (λ e. e ≡ ParseErr.Memory) }
{
    Ok(Stat {
        from,
        to: body.to,
        what: StatKind::Function {
            path,
            method,
            body: Boxed::new(alloc, body)?,
        },
    })
}

pub fn local_function(alloc: Global, from: u32, name: u32, body: FuncBody) -> Result<Stat, ParseErr>
    ensures made { IfOk result (λ s. s ≡ statement from (out-FuncBody body).to (StatKind.LocalFunction name body)) }
    ensures memory { IfErr result (λ e. e ≡ ParseErr.Memory) }
{
    Ok(Stat {
        from,
        to: body.to,
        what: StatKind::LocalFunction {
            name,
            body: Boxed::new(alloc, body)?,
        },
    })
}
