// Laws of the exact token of a refusal.
ghost use Rattle.std.specs.Prelude.{◌≡◌, ℕ, ◌<◌, ◌≤◌, List, Contains, length};
ghost use Rattle.luf_lex.specs.declared.token.Tok.{Tok};
ghost use Rattle.luf_tree.specs.declared.tree.Chunk.{Chunk};
ghost use Rattle.luf_tree.specs.Agree.{AgreeBefore};
ghost use Rattle.luf_tree.specs.Entry.{Entry, entries};
ghost use Rattle.luf_tree.specs.Grammar.{IsChunk};
ghost use Rattle.luf_tree.specs.Level.{depth_of, level_limit};
ghost use Rattle.luf_descent.specs.Exact.{OfToken};
ghost use Rattle.luf_descent.specs.declared.error.ParseErr.{ParseErr as Error};
ghost use Rattle.luf_descent.specs.declared.error.ParseErr.TheVariants as error;
ghost use Rattle.luf_exact.specs.Exact.{IsExactCause};

/// Which levels the tokens before a place enter depends on these tokens alone.
pub fn entries_are_local()
    ensures { (toks other : List Tok) (chunk another : Chunk) (place : ℕ) → IsChunk toks chunk → IsChunk other another → AgreeBefore toks other place → (e : Entry) → e.token < place → Contains (entries chunk) e → Contains (entries another) e }
{}

/// A list of tokens has at most one exact cause of a refusal. It names a token or the end, and has none beside a tree
/// within the limit of levels.
pub fn one_cause()
    ensures once { (toks : List Tok) (e other : Error) → IsExactCause toks e → IsExactCause toks other → (e ≡ error.Memory → ⊥) → (other ≡ error.Memory → ⊥) → e ≡ other }
    ensures within { (toks : List Tok) (e : Error) → IsExactCause toks e → OfToken (λ token. token ≤ length toks) e }
    ensures no_tree { (toks : List Tok) (e : Error) (chunk : Chunk) → IsExactCause toks e → (e ≡ error.Memory → ⊥) → IsChunk toks chunk → depth_of chunk ≤ level_limit → ⊥ }
{}
