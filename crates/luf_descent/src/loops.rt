// `for` statements.
ghost use Rattle.std.specs.Prelude.{◌+◌, ◌≤◌, length, IfOk, IfErr};
ghost use Rattle.std.specs.Option.{option_map};
ghost use Rattle.luf_lex.specs.Tokens.{toks_of};
ghost use Rattle.luf_lex.specs.declared.token.Word.TheVariants as word;
ghost use Rattle.luf_tree.specs.declared.tree.Stat.{out-Stat};
ghost use Rattle.luf_tree.specs.Grammar.{IsToken, IsStat, IsForStep};
ghost use Rattle.luf_tree.specs.Level.{expr_levels, stat_levels, if_there};
ghost use Rattle.luf_descent.specs.Reads.{Found};
ghost use Rattle.luf_descent.specs.Stops.{Known};
ghost use Rattle.luf_descent.specs.PartStops.{StopsCount, StopsForStep, StopsStat};
ghost use Rattle.luf_descent.specs.Follow.{IsAssigned};
ghost use Rattle.luf_descent.specs.Parts.{ReadCount, ReadFor, ReadForStep};

use crate::blocks::ended_block;
use crate::expressions::{expr, exprs};
use crate::names::names;
use crate::tables::assigned;
use crate::tokens::{eat, expect};
use crate::{ParseErr, made};
use luf_lex::{Cut, Sign, Tok, Word};
use luf_tree::{Expr, Stat};
use sqlite_items::Boxed;
use std::alloc::Global;

/// A `for` statement behind its `for`.
#[cycle(parse)]
pub fn for_stat(alloc: Global, cut: &Cut, left: u32, at: u32, next: u32) -> Result<Stat, ParseErr>
    requires word { IsToken (toks_of cut.now) at (Tok.Word word.For) next }
    ensures ok { IfOk result (λ s. Found (toks_of cut.now) (at + 1) (out-Stat s).to left (stat_levels s) (IsStat (toks_of cut.now) at (out-Stat s).to s)) }
    ensures known { IfOk result (λ s. Known (toks_of cut.now) (out-Stat s).to (λ l n. ReadFor l n at next) s) }
    ensures stops { next ≤ length (toks_of cut.now) → IfErr result (StopsStat (toks_of cut.now) left at (λ l n. ReadFor l n at next)) }
{
    if let Some(from) = assigned(cut, next) {
        return count_stat(alloc, cut, left, at, next, from);
    }
    let (names, close) = names(alloc, cut, next)?;
    let from = expect(cut, close, Tok::Word(Word::In))?;
    let (values, opener) = exprs(alloc, cut, left, from)?;
    let inside = expect(cut, opener, Tok::Word(Word::Do))?;
    let (body, to) = ended_block(alloc, cut, left, opener, inside)?;
    made::for_in(alloc, at, to, names, values, body)
}

/// `'for' Name '=' exp ',' exp [',' exp] 'do' block 'end'` behind its `=`.
#[cycle(parse)]
fn count_stat(
    alloc: Global,
    cut: &Cut,
    left: u32,
    at: u32,
    name: u32,
    from: u32,
) -> Result<Stat, ParseErr>
    requires word { IsToken (toks_of cut.now) at (Tok.Word word.For) name }
    requires name { IsAssigned (toks_of cut.now) name from }
    ensures ok { IfOk result (λ s. Found (toks_of cut.now) (at + 1) (out-Stat s).to left (stat_levels s) (IsStat (toks_of cut.now) at (out-Stat s).to s)) }
    ensures further { IfOk result (λ s. from ≤ (out-Stat s).to) }
    ensures known { IfOk result (λ s. Known (toks_of cut.now) (out-Stat s).to (λ l n. ReadCount l n at name from) s) }
    ensures stops { from ≤ length (toks_of cut.now) → IfErr result (StopsCount (toks_of cut.now) left at name from) }
{
    let first = expr(alloc, cut, left, from, 1)?;
    let second = expect(cut, first.to, Tok::Sign(Sign::Comma))?;
    let limit = expr(alloc, cut, left, second, 1)?;
    let (step, opener) = for_step(alloc, cut, left, limit.to)?;
    let inside = expect(cut, opener, Tok::Word(Word::Do))?;
    let (body, to) = ended_block(alloc, cut, left, opener, inside)?;
    made::count_stat(alloc, at, to, name, first, limit, step, body)
}

/// `[',' exp]`, and the place after it.
#[cycle(parse)]
fn for_step(
    alloc: Global,
    cut: &Cut,
    left: u32,
    at: u32,
) -> Result<(Option<Boxed<Expr>>, u32), ParseErr>
    requires within { at ≤ length (toks_of cut.now) }
    ensures ok { IfOk result (λ r. Found (toks_of cut.now) at r.1 left (if_there (option_map expr_levels r.0)) (IsForStep (toks_of cut.now) at r.1 r.0)) }
    ensures known { IfOk result (λ r. Known (toks_of cut.now) r.1 (λ l n. ReadForStep l n at) r) }
    ensures stops { IfErr result (StopsForStep (toks_of cut.now) left at) }
{
    let Some(from) = eat(cut, at, Tok::Sign(Sign::Comma)) else {
        return Ok((None, at));
    };
    let step = expr(alloc, cut, left, from, 1)?;
    let to = step.to;
    Ok((Some(Boxed::new(alloc, step)?), to))
}
