// Laws of the cut, each on an empty function: each list of bytes has exactly one cut, or exactly one lexical fault.
ghost use Rattle.std.specs.Prelude.{◌≡◌, ◌⊎◌, ℕ, List, flat_map, slice_range};
ghost use Rattle.std.specs.List.{All};
ghost use Rattle.luf_lex.specs.Cut.{IsCut, IsLexFault};
ghost use Rattle.luf_lex.specs.Spelling.{Spells};
ghost use Rattle.luf_lex.specs.declared.fault.LexWhat.{LexWhat};
ghost use Rattle.luf_lex.specs.declared.token.Piece.{Piece};

/// A source has a cut or a lexical fault, and never both.
pub fn one_of_cut_and_fault()
    ensures some { (source : List ℕ) → ((pieces : List Piece) × IsCut source pieces) ⊎ ((at : ℕ) × (what : LexWhat) × IsLexFault source at what) }
    ensures never_both { (source : List ℕ) (pieces : List Piece) (at : ℕ) (what : LexWhat) → IsCut source pieces → IsLexFault source at what → ⊥ }
{}

/// A source has at most one cut.
pub fn one_cut()
    ensures { (source : List ℕ) (pieces others : List Piece) → IsCut source pieces → IsCut source others → pieces ≡ others }
{}

/// A source has at most one lexical fault.
pub fn one_fault()
    ensures { (source : List ℕ) (at place : ℕ) (what other : LexWhat) → IsLexFault source at what → IsLexFault source place other → (at ≡ place) × (what ≡ other) }
{}

/// The pieces of a cut, joined, are the source.
pub fn joined()
    ensures { (source : List ℕ) (pieces : List Piece) → IsCut source pieces → flat_map (λ p. slice_range source p.span.from p.span.to) pieces ≡ source }
{}

/// Each piece of a cut is spelled in the source as its kind is.
pub fn spelled()
    ensures { (source : List ℕ) (pieces : List Piece) → IsCut source pieces → All (λ p. Spells p.kind (slice_range source p.span.from p.span.to)) pieces }
{}
