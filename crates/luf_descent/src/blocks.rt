// Blocks, and bodies of functions.
ghost use Rattle.std.specs.Prelude.{◌≡◌, ◌+◌, ◌≤◌, length, slice_get, IfOk, IfErr};
ghost use Rattle.luf_lex.specs.Tokens.{toks_of};
ghost use Rattle.luf_lex.specs.declared.token.Word.TheVariants as word;
ghost use Rattle.luf_tree.specs.declared.tree.Block.{out-Block};
ghost use Rattle.luf_tree.specs.declared.tree.Stat.{out-Stat};
ghost use Rattle.luf_tree.specs.declared.tree.FuncBody.{out-FuncBody};
ghost use Rattle.luf_tree.specs.Grammar.{IsToken, IsFuncBody, IsBlock, IsReturn, IsSemicolon};
ghost use Rattle.luf_tree.specs.Level.{stat_levels, block_levels, body_levels};
ghost use Rattle.luf_descent.specs.Reads.{Found};
ghost use Rattle.luf_descent.specs.Stops.{Known};
ghost use Rattle.luf_descent.specs.PartStops.{StopsBlock, StopsEnded, StopsFuncBody, StopsReturn};
ghost use Rattle.luf_descent.specs.Follow.{stops_stats, ends_return};
ghost use Rattle.luf_descent.specs.Parts.{ReadBlock, ReadEnded, ReadFuncBody, ReadReturn, ReadSemicolon};

use crate::ParseErr;
use crate::expressions::exprs;
use crate::growing::Growing;
use crate::names::params;
use crate::statements::stat;
use crate::tokens::{eat, enter, expect};
use luf_lex::{Cut, Sign, Tok, Word};
use luf_tree::{Block, FuncBody, Stat, StatKind};
use sqlite_items::{Boxed, Items};
use std::alloc::Global;

/// A function from the `(` of its parameters to its `end`.
#[cycle(parse)]
pub fn func_body(alloc: Global, cut: &Cut, left: u32, at: u32) -> Result<FuncBody, ParseErr>
    ensures ok { IfOk result (λ f. Found (toks_of cut.now) (at + 1) (out-FuncBody f).to left (body_levels f) (IsFuncBody (toks_of cut.now) at (out-FuncBody f).to f)) }
    ensures known { IfOk result (λ f. Known (toks_of cut.now) (out-FuncBody f).to (λ l n. ReadFuncBody l n at) f) }
    ensures stops { at ≤ length (toks_of cut.now) → IfErr result (StopsFuncBody (toks_of cut.now) left at) }
{
    let first = expect(cut, at, Tok::Sign(Sign::LeftParen))?;
    let (params, vararg, close) = params(alloc, cut, first)?;
    let inside = expect(cut, close, Tok::Sign(Sign::RightParen))?;
    let body = block(alloc, cut, left, inside)?;
    let to = expect(cut, body.to, Tok::Word(Word::End))?;
    Ok(FuncBody {
        from: at,
        to,
        params,
        vararg,
        body,
    })
}

/// The statements up to the end of a block.
#[cycle(parse)]
pub fn block(alloc: Global, cut: &Cut, left: u32, at: u32) -> Result<Block, ParseErr>
    requires within { at ≤ length (toks_of cut.now) }
    ensures ok { IfOk result (λ b. Found (toks_of cut.now) at (out-Block b).to left (block_levels b) (IsBlock (toks_of cut.now) at (out-Block b).to b)) }
    ensures known { IfOk result (λ b. Known (toks_of cut.now) (out-Block b).to (λ l n. ReadBlock l n at) b) }
    ensures stops { IfErr result (StopsBlock (toks_of cut.now) left at) }
{
    let mut stats = Growing::new(alloc);
    let mut to = at;
    while !ends_block(cut, to) {
        let one = stat(alloc, cut, left, to)?;
        to = one.to;
        stats.push(one)?;
    }
    if cut.is_at(to, Tok::Word(Word::Return)) {
        let last = last(alloc, cut, left, to)?;
        let end = last.to;
        stats.push(last)?;
        return Ok(Block {
            from: at,
            to: end,
            stats: stats.exact(),
        });
    }
    Ok(Block {
        from: at,
        to,
        stats: stats.exact(),
    })
}

/// Whether no statement but a `return` may stand at a place.
fn ends_block(cut: &Cut, at: u32) -> bool
    ensures { result ≡ stops_stats (slice_get (toks_of cut.now) at) }
{
    matches!(
        cut.token(at),
        None | Some(Tok::Word(Word::End | Word::Else | Word::ElseIf | Word::Until | Word::Return))
    )
}

/// `'return' [explist] [';']`.
#[cycle(parse)]
fn last(alloc: Global, cut: &Cut, left: u32, at: u32) -> Result<Stat, ParseErr>
    ensures ok { IfOk result (λ s. Found (toks_of cut.now) (at + 1) (out-Stat s).to left (stat_levels s) (IsReturn (toks_of cut.now) at (out-Stat s).to s)) }
    ensures known { IfOk result (λ s. Known (toks_of cut.now) (out-Stat s).to (λ l n. ReadReturn l n at) s) }
    ensures stops { at ≤ length (toks_of cut.now) → IfErr result (StopsReturn (toks_of cut.now) left at) }
{
    let next = expect(cut, at, Tok::Word(Word::Return))?;
    if ends_return(cut, next) {
        return Ok(Stat {
            from: at,
            to: semicolon(cut, next),
            what: StatKind::Return(Items::new(alloc)),
        });
    }
    let (values, end) = exprs(alloc, cut, left, next)?;
    Ok(Stat {
        from: at,
        to: semicolon(cut, end),
        what: StatKind::Return(values),
    })
}

/// Whether a `return` before a place has no values.
fn ends_return(cut: &Cut, at: u32) -> bool
    ensures { result ≡ ends_return (slice_get (toks_of cut.now) at) }
{
    matches!(
        cut.token(at),
        None | Some(
            Tok::Word(Word::End | Word::Else | Word::ElseIf | Word::Until | Word::Return)
                | Tok::Sign(Sign::Semicolon)
        )
    )
}

/// The place after `[';']`.
fn semicolon(cut: &Cut, at: u32) -> u32
    requires { at ≤ length (toks_of cut.now) }
    ensures known { Known (toks_of cut.now) result (λ l n. ReadSemicolon l at) result }
    ensures found { Found (toks_of cut.now) at result 0 0 (IsSemicolon (toks_of cut.now) at result) }
{
    match eat(cut, at, Tok::Sign(Sign::Semicolon)) {
        Some(next) => next,
        None => at,
    }
}

/// A block that the token at `opener` enters, and the place after its `end`.
#[cycle(parse)]
pub fn ended_block(
    alloc: Global,
    cut: &Cut,
    left: u32,
    opener: u32,
    from: u32,
) -> Result<(Boxed<Block>, u32), ParseErr>
    requires within { from ≤ length (toks_of cut.now) }
    ensures ok { IfOk result (λ r. Found (toks_of cut.now) (from + 1) r.1 left (block_levels r.0 + 1) (IsBlock (toks_of cut.now) from (out-Block r.0).to r.0 × IsToken (toks_of cut.now) (out-Block r.0).to (Tok.Word word.End) r.1)) }
    ensures known { IfOk result (λ r. Known (toks_of cut.now) r.1 (λ l n. ReadEnded l n from) r) }
    ensures stops { from ≡ opener + 1 → IfErr result (StopsEnded (toks_of cut.now) left opener from) }
{
    let inner = enter(cut, left, opener)?;
    let body = block(alloc, cut, inner, from)?;
    let to = expect(cut, body.to, Tok::Word(Word::End))?;
    Ok((Boxed::new(alloc, body)?, to))
}
