// Laws of trees and of the grammar.
ghost use Rattle.std.specs.Prelude.{◌≡◌, ℕ, ◌++◌, Bool, List, take};
ghost use Rattle.luf_lex.specs.declared.token.Tok.{Tok};
ghost use Rattle.luf_tree.specs.declared.tree.Block.{Block};
ghost use Rattle.luf_tree.specs.declared.tree.Chunk.{Chunk};
ghost use Rattle.luf_tree.specs.declared.tree.Expr.{Expr};
ghost use Rattle.luf_tree.specs.declared.tree.Suffix.{Suffix};
ghost use Rattle.luf_tree.specs.Agree.{Front, IsLocal};
ghost use Rattle.luf_tree.specs.Entry.{entries, greatest_level};
ghost use Rattle.luf_tree.specs.Grammar.{AreSuffixes, IsBlock, IsChunk, IsExpr, IsHead};
ghost use Rattle.luf_tree.specs.Level.{depth_of};
ghost use Rattle.luf_tree.specs.SyntaxOf.{syntax_of};

/// The depth of a chunk is the greatest level that one of its tokens enters.
pub fn depth_is_greatest()
    ensures { (chunk : Chunk) → depth_of chunk ≡ greatest_level (entries chunk) }
{}

/// An expression depends on its own tokens alone, and on whether a `(` stands behind it.
pub fn expression_is_local()
    ensures { (toks : List Tok) (n i j : ℕ) (e : Expr) → IsExpr toks n i j e → IsLocal toks i j (λ other. IsExpr other n i j e) }
{}

/// A block depends on its own tokens alone, and on whether a `(` stands behind it.
pub fn block_is_local()
    ensures { (toks : List Tok) (i j : ℕ) (b : Block) → IsBlock toks i j b → IsLocal toks i j (λ other. IsBlock other i j b) }
{}

/// An expression stands in its tokens alone: where they are cut off at its end.
pub fn expression_alone()
    ensures { (toks : List Tok) (n i j : ℕ) (e : Expr) → IsExpr toks n i j e → IsExpr (take j toks) n i j e }
{}

/// A block stands in its tokens alone: where they are cut off at its end.
pub fn block_alone()
    ensures { (toks : List Tok) (i j : ℕ) (b : Block) → IsBlock toks i j b → IsBlock (take j toks) i j b }
{}

/// The front of a suffixed expression is an expression by itself.
pub fn front_alone()
    ensures { (toks : List Tok) (calls : Bool) (i j k : ℕ) (head : Expr) (front rest : List Suffix) → IsHead toks i j head → AreSuffixes toks calls j k (front ++ rest) → Front toks i k head front }
{}

/// The syntax of a chunk loses nothing of it: two chunks of one syntax are one, whatever tokens each is of.
pub fn one_chunk_of_syntax()
    ensures { (toks other : List Tok) (c d : Chunk) → IsChunk toks c → IsChunk other d → syntax_of c ≡ syntax_of d → c ≡ d }
{}
