// Statements.
ghost use Rattle.std.specs.Prelude.{◌≡◌, ◌+◌, ◌≤◌, map, length, slice_get, IfOk, IfErr, ℕ};
ghost use Rattle.std.specs.Option.{option_map};
ghost use Rattle.luf_lex.specs.Tokens.{toks_of};
ghost use Rattle.luf_lex.specs.declared.token.Word.TheVariants as word;
ghost use Rattle.luf_lex.specs.declared.token.Sign.TheVariants as sign;
ghost use Rattle.luf_tree.specs.declared.tree.Stat.{out-Stat};
ghost use Rattle.luf_tree.specs.Grammar.{IsToken, IsStat, IsArm, AreArms, IsElse};
ghost use Rattle.luf_tree.specs.Level.{deepest, stat_levels, block_levels, arm_levels, block_if_there};
ghost use Rattle.luf_descent.specs.Reads.{Found};
ghost use Rattle.luf_descent.specs.Stops.{Known};
ghost use Rattle.luf_descent.specs.PartStops.{StopsArm, StopsArms, StopsElse, StopsStat};
ghost use Rattle.luf_descent.specs.Follow.{begins_prefix};
ghost use Rattle.luf_descent.specs.Parts.{ReadArm, ReadArms, ReadDo, ReadElse, ReadFunctionStat, ReadGoto, ReadIf, ReadLabel, ReadLocal, ReadRepeat, ReadShort, ReadStat, ReadWhile};

use crate::assignments::expr_stat;
use crate::blocks::{block, ended_block, func_body};
use crate::expressions::{expr, exprs};
use crate::growing::Growing;
use crate::loops::for_stat;
use crate::names::{declared, method, path};
use crate::tokens::{eat, enter, expect, refusal};
use crate::{ParseErr, made};
use luf_lex::{Cut, Sign, Tok, Word};
use luf_tree::{Arm, Block, Stat, StatKind};
use sqlite_items::{Boxed, Items};
use std::alloc::Global;

/// A statement other than `return`.
#[cycle(parse)]
pub fn stat(alloc: Global, cut: &Cut, left: u32, at: u32) -> Result<Stat, ParseErr>
    ensures ok { IfOk result (λ s. Found (toks_of cut.now) (at + 1) (out-Stat s).to left (stat_levels s) (IsStat (toks_of cut.now) at (out-Stat s).to s)) }
    ensures known { IfOk result (λ s. Known (toks_of cut.now) (out-Stat s).to (λ l n. ReadStat l n at) s) }
    ensures stops { at ≤ length (toks_of cut.now) → IfErr result (StopsStat (toks_of cut.now) left at (λ l n. ReadStat l n at)) }
{
    if begins_prefix(cut, at) {
        return expr_stat(alloc, cut, left, at);
    }
    if let Some(next) = eat(cut, at, Tok::Word(Word::Local)) {
        return local_stat(alloc, cut, left, at, next);
    }
    if let Some(next) = eat(cut, at, Tok::Word(Word::If)) {
        return if_stat(alloc, cut, left, at, next);
    }
    if let Some(next) = eat(cut, at, Tok::Word(Word::For)) {
        return for_stat(alloc, cut, left, at, next);
    }
    if let Some(next) = eat(cut, at, Tok::Word(Word::Function)) {
        return function_stat(alloc, cut, left, at, next);
    }
    if let Some(next) = eat(cut, at, Tok::Word(Word::While)) {
        return while_stat(alloc, cut, left, at, next);
    }
    if let Some(next) = eat(cut, at, Tok::Word(Word::Do)) {
        return do_stat(alloc, cut, left, at, next);
    }
    if let Some(next) = eat(cut, at, Tok::Word(Word::Repeat)) {
        return repeat_stat(alloc, cut, left, at, next);
    }
    short_stat(cut, at)
}

/// A statement of words and names alone: `break`, `goto`, a label or a `;`.
fn short_stat(cut: &Cut, at: u32) -> Result<Stat, ParseErr>
    ensures ok { IfOk result (λ s. Found (toks_of cut.now) (at + 1) (out-Stat s).to 0 (stat_levels s) (IsStat (toks_of cut.now) at (out-Stat s).to s)) }
    ensures known { IfOk result (λ s. Known (toks_of cut.now) (out-Stat s).to (λ l n. ReadShort l at) s) }
    ensures stops { (left : ℕ) → at ≤ length (toks_of cut.now) → IfErr result (StopsStat (toks_of cut.now) left at (λ l n. ReadShort l at)) }
{
    if let Some(to) = eat(cut, at, Tok::Word(Word::Break)) {
        return Ok(Stat {
            from: at,
            to,
            what: StatKind::Break,
        });
    }
    if let Some(to) = eat(cut, at, Tok::Sign(Sign::Semicolon)) {
        return Ok(Stat {
            from: at,
            to,
            what: StatKind::Empty,
        });
    }
    if let Some(name) = eat(cut, at, Tok::Word(Word::Goto)) {
        return goto_stat(cut, at, name);
    }
    if let Some(name) = eat(cut, at, Tok::Sign(Sign::DoubleColon)) {
        return label_stat(cut, at, name);
    }
    Err(refusal(cut, at))
}

/// Whether a prefix expression begins at a place.
fn begins_prefix(cut: &Cut, at: u32) -> bool
    ensures { result ≡ begins_prefix (slice_get (toks_of cut.now) at) }
{
    matches!(cut.token(at), Some(Tok::Name | Tok::Sign(Sign::LeftParen)))
}

/// `'::' Name '::'` behind its first `::`.
fn label_stat(cut: &Cut, at: u32, name: u32) -> Result<Stat, ParseErr>
    requires { IsToken (toks_of cut.now) at (Tok.Sign sign.DoubleColon) name }
    ensures ok { IfOk result (λ s. Found (toks_of cut.now) (at + 1) (out-Stat s).to 0 (stat_levels s) (IsStat (toks_of cut.now) at (out-Stat s).to s)) }
    ensures known { IfOk result (λ s. Known (toks_of cut.now) (out-Stat s).to (λ l n. ReadLabel l at name) s) }
    ensures stops { (left : ℕ) → name ≤ length (toks_of cut.now) → IfErr result (StopsStat (toks_of cut.now) left at (λ l n. ReadLabel l at name)) }
{
    let close = expect(cut, name, Tok::Name)?;
    let to = expect(cut, close, Tok::Sign(Sign::DoubleColon))?;
    Ok(Stat {
        from: at,
        to,
        what: StatKind::Label(name),
    })
}

/// `'goto' Name` behind its `goto`.
fn goto_stat(cut: &Cut, at: u32, name: u32) -> Result<Stat, ParseErr>
    requires { IsToken (toks_of cut.now) at (Tok.Word word.Goto) name }
    ensures ok { IfOk result (λ s. Found (toks_of cut.now) (at + 1) (out-Stat s).to 0 (stat_levels s) (IsStat (toks_of cut.now) at (out-Stat s).to s)) }
    ensures known { IfOk result (λ s. Known (toks_of cut.now) (out-Stat s).to (λ l n. ReadGoto l at name) s) }
    ensures stops { (left : ℕ) → name ≤ length (toks_of cut.now) → IfErr result (StopsStat (toks_of cut.now) left at (λ l n. ReadGoto l at name)) }
{
    let to = expect(cut, name, Tok::Name)?;
    Ok(Stat {
        from: at,
        to,
        what: StatKind::Goto(name),
    })
}

/// `'do' block 'end'` behind its `do`.
#[cycle(parse)]
fn do_stat(alloc: Global, cut: &Cut, left: u32, at: u32, next: u32) -> Result<Stat, ParseErr>
    requires within { next ≤ length (toks_of cut.now) }
    requires word { IsToken (toks_of cut.now) at (Tok.Word word.Do) next }
    ensures ok { IfOk result (λ s. Found (toks_of cut.now) (at + 1) (out-Stat s).to left (stat_levels s) (IsStat (toks_of cut.now) at (out-Stat s).to s)) }
    ensures known { IfOk result (λ s. Known (toks_of cut.now) (out-Stat s).to (λ l n. ReadDo l n at next) s) }
    ensures stops { IfErr result (StopsStat (toks_of cut.now) left at (λ l n. ReadDo l n at next)) }
{
    let (body, to) = ended_block(alloc, cut, left, at, next)?;
    Ok(Stat {
        from: at,
        to,
        what: StatKind::Do(body),
    })
}

/// `'while' exp 'do' block 'end'` behind its `while`.
#[cycle(parse)]
fn while_stat(alloc: Global, cut: &Cut, left: u32, at: u32, next: u32) -> Result<Stat, ParseErr>
    requires word { IsToken (toks_of cut.now) at (Tok.Word word.While) next }
    ensures ok { IfOk result (λ s. Found (toks_of cut.now) (at + 1) (out-Stat s).to left (stat_levels s) (IsStat (toks_of cut.now) at (out-Stat s).to s)) }
    ensures known { IfOk result (λ s. Known (toks_of cut.now) (out-Stat s).to (λ l n. ReadWhile l n at next) s) }
    ensures stops { next ≤ length (toks_of cut.now) → IfErr result (StopsStat (toks_of cut.now) left at (λ l n. ReadWhile l n at next)) }
{
    let test = expr(alloc, cut, left, next, 1)?;
    let opener = test.to;
    let inside = expect(cut, opener, Tok::Word(Word::Do))?;
    let (body, to) = ended_block(alloc, cut, left, opener, inside)?;
    made::while_stat(alloc, at, to, test, body)
}

/// `'repeat' block 'until' exp` behind its `repeat`.
#[cycle(parse)]
fn repeat_stat(alloc: Global, cut: &Cut, left: u32, at: u32, next: u32) -> Result<Stat, ParseErr>
    requires within { next ≤ length (toks_of cut.now) }
    requires word { IsToken (toks_of cut.now) at (Tok.Word word.Repeat) next }
    ensures ok { IfOk result (λ s. Found (toks_of cut.now) (at + 1) (out-Stat s).to left (stat_levels s) (IsStat (toks_of cut.now) at (out-Stat s).to s)) }
    ensures known { IfOk result (λ s. Known (toks_of cut.now) (out-Stat s).to (λ l n. ReadRepeat l n at next) s) }
    ensures stops { IfErr result (StopsStat (toks_of cut.now) left at (λ l n. ReadRepeat l n at next)) }
{
    let inner = enter(cut, left, at)?;
    let body = block(alloc, cut, inner, next)?;
    let from = expect(cut, body.to, Tok::Word(Word::Until))?;
    let test = expr(alloc, cut, left, from, 1)?;
    made::repeat_stat(alloc, at, body, test)
}

/// An `if` statement behind its `if`.
#[cycle(parse)]
fn if_stat(alloc: Global, cut: &Cut, left: u32, at: u32, next: u32) -> Result<Stat, ParseErr>
    requires word { IsToken (toks_of cut.now) at (Tok.Word word.If) next }
    ensures ok { IfOk result (λ s. Found (toks_of cut.now) (at + 1) (out-Stat s).to left (stat_levels s) (IsStat (toks_of cut.now) at (out-Stat s).to s)) }
    ensures known { IfOk result (λ s. Known (toks_of cut.now) (out-Stat s).to (λ l n. ReadIf l n at next) s) }
    ensures stops { next ≤ length (toks_of cut.now) → IfErr result (StopsStat (toks_of cut.now) left at (λ l n. ReadIf l n at next)) }
{
    let (arms, after) = arms(alloc, cut, left, next)?;
    let (last, close) = else_block(alloc, cut, left, after)?;
    let to = expect(cut, close, Tok::Word(Word::End))?;
    Ok(Stat {
        from: at,
        to,
        what: StatKind::If { arms, last },
    })
}

/// The arms of an `if`, from its condition, and the place after them.
#[cycle(parse)]
fn arms(alloc: Global, cut: &Cut, left: u32, mut at: u32) -> Result<(Items<Arm>, u32), ParseErr>
    ensures ok { IfOk result (λ r. Found (toks_of cut.now) (at + 1) r.1 left (deepest (map arm_levels r.0)) (AreArms (toks_of cut.now) at r.1 r.0)) }
    ensures known { IfOk result (λ r. Known (toks_of cut.now) r.1 (λ l n. ReadArms l n at) r) }
    ensures stops { at ≤ length (toks_of cut.now) → IfErr result (StopsArms (toks_of cut.now) left at) }
{
    let mut found = Growing::new(alloc);
    loop {
        let (one, to) = arm(alloc, cut, left, at)?;
        found.push(one)?;
        match eat(cut, to, Tok::Word(Word::ElseIf)) {
            Some(next) => at = next,
            None => return Ok((found.exact(), to)),
        }
    }
}

/// `exp 'then' block`, and the place after it.
#[cycle(parse)]
fn arm(alloc: Global, cut: &Cut, left: u32, at: u32) -> Result<(Arm, u32), ParseErr>
    ensures ok { IfOk result (λ r. Found (toks_of cut.now) (at + 1) r.1 left (arm_levels r.0) (IsArm (toks_of cut.now) at r.1 r.0)) }
    ensures known { IfOk result (λ r. Known (toks_of cut.now) r.1 (λ l n. ReadArm l n at) r) }
    ensures stops { at ≤ length (toks_of cut.now) → IfErr result (StopsArm (toks_of cut.now) left at) }
{
    let test = expr(alloc, cut, left, at, 1)?;
    let opener = test.to;
    let inside = expect(cut, opener, Tok::Word(Word::Then))?;
    let inner = enter(cut, left, opener)?;
    let body = block(alloc, cut, inner, inside)?;
    let to = body.to;
    Ok((Arm { test, body }, to))
}

/// `['else' block]`, and the place after it.
#[cycle(parse)]
fn else_block(
    alloc: Global,
    cut: &Cut,
    left: u32,
    at: u32,
) -> Result<(Option<Boxed<Block>>, u32), ParseErr>
    requires within { at ≤ length (toks_of cut.now) }
    ensures ok { IfOk result (λ r. Found (toks_of cut.now) at r.1 left (block_if_there (option_map block_levels r.0)) (IsElse (toks_of cut.now) at r.1 r.0)) }
    ensures known { IfOk result (λ r. Known (toks_of cut.now) r.1 (λ l n. ReadElse l n at) r) }
    ensures stops { IfErr result (StopsElse (toks_of cut.now) left at) }
{
    let Some(inside) = eat(cut, at, Tok::Word(Word::Else)) else {
        return Ok((None, at));
    };
    let inner = enter(cut, left, at)?;
    let body = block(alloc, cut, inner, inside)?;
    let to = body.to;
    Ok((Some(Boxed::new(alloc, body)?), to))
}

/// `'function' Name {'.' Name} [':' Name] body` behind its `function`.
#[cycle(parse)]
fn function_stat(alloc: Global, cut: &Cut, left: u32, at: u32, next: u32) -> Result<Stat, ParseErr>
    requires word { IsToken (toks_of cut.now) at (Tok.Word word.Function) next }
    ensures ok { IfOk result (λ s. Found (toks_of cut.now) (at + 1) (out-Stat s).to left (stat_levels s) (IsStat (toks_of cut.now) at (out-Stat s).to s)) }
    ensures known { IfOk result (λ s. Known (toks_of cut.now) (out-Stat s).to (λ l n. ReadFunctionStat l n at next) s) }
    ensures stops { next ≤ length (toks_of cut.now) → IfErr result (StopsStat (toks_of cut.now) left at (λ l n. ReadFunctionStat l n at next)) }
{
    let inner = enter(cut, left, at)?;
    let (path, dot) = path(alloc, cut, next)?;
    let (method, inside) = method(cut, dot)?;
    let body = func_body(alloc, cut, inner, inside)?;
    made::function_stat(alloc, at, path, method, body)
}

/// `'local' 'function' Name body` or `'local' attnamelist ['=' explist]`, behind its `local`.
#[cycle(parse)]
fn local_stat(alloc: Global, cut: &Cut, left: u32, at: u32, next: u32) -> Result<Stat, ParseErr>
    requires word { IsToken (toks_of cut.now) at (Tok.Word word.Local) next }
    ensures ok { IfOk result (λ s. Found (toks_of cut.now) (at + 1) (out-Stat s).to left (stat_levels s) (IsStat (toks_of cut.now) at (out-Stat s).to s)) }
    ensures known { IfOk result (λ s. Known (toks_of cut.now) (out-Stat s).to (λ l n. ReadLocal l n at next) s) }
    ensures stops { next ≤ length (toks_of cut.now) → IfErr result (StopsStat (toks_of cut.now) left at (λ l n. ReadLocal l n at next)) }
{
    if let Some(name) = eat(cut, next, Tok::Word(Word::Function)) {
        let inner = enter(cut, left, next)?;
        let inside = expect(cut, name, Tok::Name)?;
        let body = func_body(alloc, cut, inner, inside)?;
        return made::local_function(alloc, at, name, body);
    }
    let (names, end) = declared(alloc, cut, next)?;
    let Some(from) = eat(cut, end, Tok::Sign(Sign::Assign)) else {
        return Ok(Stat {
            from: at,
            to: end,
            what: StatKind::Local {
                names,
                values: Items::new(alloc),
            },
        });
    };
    let (values, to) = exprs(alloc, cut, left, from)?;
    Ok(Stat {
        from: at,
        to,
        what: StatKind::Local { names, values },
    })
}
