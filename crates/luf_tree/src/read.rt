// The greatest level of nesting in a tree.
ghost use Rattle.std.specs.Prelude.{◌≡◌, ℕ, ◌+◌, ◌<◌, map, min};
ghost use Rattle.luf_tree.specs.declared.tree.Stat.{out-Stat};
ghost use Rattle.luf_tree.specs.Level.{deepest, depth_of, expr_levels, field_levels, suffix_levels, step_levels, stat_levels, block_levels, arm_levels, args_levels};

use crate::{Args, Arm, Block, Chunk, Expr, ExprKind, Field, Stat, StatKind, Step, Suffix};

/// The greatest level of nesting: the main block has level 0. From `u32::MAX` on it is that number.
pub fn depth(c: &Chunk) -> u32
    ensures { result ≡ min (depth_of c.now) u32.MAX }
{
    of_block(&c.block)
}

#[cycle(depth)]
fn of_block(b: &Block) -> u32
    ensures { result ≡ min (block_levels b.now) u32.MAX }
{
    of_stats(b.stats.as_slice())
}

#[cycle(depth)]
fn of_stats(stats: &[Stat]) -> u32
    ensures { result ≡ min (deepest (map stat_levels stats.now)) u32.MAX }
{
    let mut most = 0;
    for s in stats {
        most = most.max(of_stat(s));
    }
    most
}

#[cycle(depth)]
fn of_stat(s: &Stat) -> u32
    ensures { result ≡ min (stat_levels s.now) u32.MAX }
{
    match &s.what {
        StatKind::Empty | StatKind::Label(_) | StatKind::Goto(_) | StatKind::Break => 0,
        StatKind::Local { values, .. } => of_exprs(values.as_slice()),
        StatKind::Assign { targets, values } => {
            of_exprs(targets.as_slice()).max(of_exprs(values.as_slice()))
        }
        StatKind::Call(e) => of_expr(e),
        StatKind::Do(body) => deeper(of_block(body.get())),
        StatKind::While { test, body } => { of_expr(test.get()).max(deeper(of_block(body.get()))) }
        StatKind::Repeat { body, test } => deeper(of_block(body)).max(of_expr(test.get())),
        StatKind::If { arms, last } => {
            let arms = of_arms(arms.as_slice());
            match last {
                Some(body) => arms.max(deeper(of_block(body.get()))),
                None => arms,
            }
        }
        StatKind::For {
            first,
            limit,
            step,
            body,
            ..
        } => {
            let step = match step {
                Some(e) => of_expr(e.get()),
                None => 0,
            };
            of_expr(first.get())
                .max(of_expr(limit.get()))
                .max(step)
                .max(deeper(of_block(body.get())))
        }
        StatKind::ForIn { values, body, .. } => {
            of_exprs(values.as_slice()).max(deeper(of_block(body.get())))
        }
        StatKind::Function { body, .. } => deeper(of_block(&body.get().body)),
        StatKind::LocalFunction { body, .. } => deeper(of_block(&body.get().body)),
        StatKind::Return(values) => of_exprs(values.as_slice()),
    }
}

#[cycle(depth)]
fn of_arms(arms: &[Arm]) -> u32
    ensures { result ≡ min (deepest (map arm_levels arms.now)) u32.MAX }
{
    let mut most = 0;
    for a in arms {
        most = most.max(of_arm(a));
    }
    most
}

#[cycle(depth)]
fn of_arm(a: &Arm) -> u32
    ensures { result ≡ min (arm_levels a.now) u32.MAX }
{
    of_expr(&a.test).max(deeper(of_block(&a.body)))
}

#[cycle(depth)]
fn of_exprs(exprs: &[Expr]) -> u32
    ensures { result ≡ min (deepest (map expr_levels exprs.now)) u32.MAX }
{
    let mut most = 0;
    for e in exprs {
        most = most.max(of_expr(e));
    }
    most
}

#[cycle(depth)]
fn of_expr(e: &Expr) -> u32
    ensures { result ≡ min (expr_levels e.now) u32.MAX }
{
    match &e.what {
        ExprKind::Nil
        | ExprKind::True
        | ExprKind::False
        | ExprKind::Number
        | ExprKind::Str
        | ExprKind::Vararg
        | ExprKind::Name => 0,
        ExprKind::Paren(inner) => deeper(of_expr(inner.get())),
        ExprKind::Function(body) => deeper(of_block(&body.get().body)),
        ExprKind::Table(fields) => deeper(of_fields(fields.as_slice())),
        ExprKind::Unary(operand) => deeper(of_expr(operand.get())),
        ExprKind::Chain { first, rest } => of_expr(first.get()).max(of_steps(rest.as_slice())),
        ExprKind::Power { base, exponent, .. } => {
            of_expr(base.get()).max(deeper(of_expr(exponent.get())))
        }
        ExprKind::NameSuffixed(suffixes) => of_suffixes(suffixes.as_slice()),
        ExprKind::Suffixed { head, suffixes } => {
            of_expr(head.get()).max(of_suffixes(suffixes.as_slice()))
        }
    }
}

#[cycle(depth)]
fn of_steps(steps: &[Step]) -> u32
    ensures { result ≡ min (deepest (map step_levels steps.now)) u32.MAX }
{
    let mut most = 0;
    for s in steps {
        most = most.max(of_step(s));
    }
    most
}

#[cycle(depth)]
fn of_step(s: &Step) -> u32
    ensures { result ≡ min (step_levels s.now) u32.MAX }
{
    of_expr(&s.right)
}

#[cycle(depth)]
fn of_suffixes(suffixes: &[Suffix]) -> u32
    ensures { result ≡ min (deepest (map suffix_levels suffixes.now)) u32.MAX }
{
    let mut most = 0;
    for s in suffixes {
        most = most.max(of_suffix(s));
    }
    most
}

#[cycle(depth)]
fn of_suffix(s: &Suffix) -> u32
    ensures { result ≡ min (suffix_levels s.now) u32.MAX }
{
    match s {
        Suffix::Dot(_) => 0,
        Suffix::Index(e) => deeper(of_expr(e.get())),
        Suffix::Call(args) => deeper(of_exprs(args.items.as_slice())),
        Suffix::Method { args, .. } => deeper(of_exprs(args.items.as_slice())),
    }
}

#[cycle(depth)]
fn of_fields(fields: &[Field]) -> u32
    ensures { result ≡ min (deepest (map field_levels fields.now)) u32.MAX }
{
    let mut most = 0;
    for f in fields {
        most = most.max(of_field(f));
    }
    most
}

#[cycle(depth)]
fn of_field(f: &Field) -> u32
    ensures { result ≡ min (field_levels f.now) u32.MAX }
{
    match f {
        Field::Item(e) => of_expr(e),
        Field::Named { value, .. } => of_expr(value),
        Field::Keyed { key, value } => deeper(of_expr(key.get())).max(of_expr(value)),
    }
}

// One level more.
fn deeper(levels: u32) -> u32
    ensures { result ≡ min (levels + 1) u32.MAX }
{
    levels.saturating_add(1)
}

/// The first token of a statement.
pub fn first_token(s: &Stat) -> u32
    requires { (out-Stat s.now).from < (out-Stat s.now).to }
    ensures { result ≡ (out-Stat s.now).from }
{
    s.from
}

/// The last token of a statement.
pub fn last_token(s: &Stat) -> u32
    requires { (out-Stat s.now).from < (out-Stat s.now).to }
    ensures { result + 1 ≡ (out-Stat s.now).to }
{
    s.to - 1
}
