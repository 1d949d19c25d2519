// Laws of the trees of a list of tokens.
ghost use Rattle.std.specs.Prelude.{◌≡◌, List};
ghost use Rattle.luf_lex.specs.declared.token.Tok.{Tok};
ghost use Rattle.luf_tree.specs.declared.tree.Chunk.{Chunk};
ghost use Rattle.luf_tree.specs.Grammar.{IsChunk};

/// A list of tokens has at most one tree.
pub fn one_tree()
    ensures { (toks : List Tok) (chunk other : Chunk) → IsChunk toks chunk → IsChunk toks other → chunk ≡ other }
{}
