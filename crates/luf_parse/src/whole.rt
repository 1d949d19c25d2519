// The tree of all tokens.
ghost use Rattle.std.specs.Prelude.{◌≡◌, ◌≤◌, ◌⊎◌, Ok, Err, IfOk, IfErr};
ghost use Rattle.luf_lex.specs.Tokens.{toks_of};
ghost use Rattle.luf_tree.specs.declared.tree.Chunk.{Chunk as Tree};
ghost use Rattle.luf_tree.specs.Grammar.{IsChunk};
ghost use Rattle.luf_tree.specs.Level.{level_limit, depth_of};
ghost use Rattle.luf_exact.specs.Exact.{IsExactCause};
ghost use Rattle.luf_parse.specs.Cause.{IsCause};

use luf_descent::{ParseErr, block, refusal};
use luf_lex::Cut;
use luf_tree::{Chunk, LEVEL_LIMIT};
use std::alloc::Global;

/// The tree of the tokens of a cut, which nests at most 200 levels deep (Lua 5.4 manual, 9). `one_tree` says that
/// tokens have at most one.
///
/// # Errors
///
/// Exactly where there is no such tree: `TooDeep` with the first token that enters a level too many in some list that
/// begins with the tokens up to it and that the grammar derives; else `Syntax` with the first token with which those up
/// to it begin no such list, or with the number of tokens for the end. A list of tokens has at most one such cause
/// (`luf_exact::one_cause`). `Memory`.
pub fn parse(alloc: Global, cut: &Cut) -> Result<Chunk, ParseErr>
    ensures tree { IfOk result (λ chunk. IsChunk (toks_of cut.now) chunk) }
    ensures depth { IfOk result (λ chunk. depth_of chunk ≤ level_limit) }
    ensures exact { IfErr result (IsExactCause (toks_of cut.now)) }
    ensures refused { IfErr result (IsCause (toks_of cut.now)) }
    ensures complete { (tree : Tree) → IsChunk (toks_of cut.now) tree → depth_of tree ≤ level_limit → (result ≡ Ok tree) ⊎ (result ≡ Err ParseErr.Memory) }
{
    whole(alloc, cut)
}

/// The block of all tokens.
fn whole(alloc: Global, cut: &Cut) -> Result<Chunk, ParseErr>
    ensures tree { IfOk result (λ chunk. IsChunk (toks_of cut.now) chunk) }
    ensures depth { IfOk result (λ chunk. depth_of chunk ≤ level_limit) }
    ensures exact { IfErr result (IsExactCause (toks_of cut.now)) }
{
    let block = block(alloc, cut, LEVEL_LIMIT, 0)?;
    if block.to != cut.tokens() {
        return Err(refusal(cut, block.to));
    }
    Ok(Chunk { block })
}
