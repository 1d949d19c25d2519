// Laws of texts that are pieces.
ghost use Rattle.luf_lex.specs.Cut.{IsCut};
ghost use Rattle.std.specs.Prelude.{List};
ghost use Rattle.luf_neat.specs.Pieces.{Bit, Neat, NoHashFirst, joined, pieces_at};

/// A neat list of pieces is the cut of its bytes.
pub fn neat_is_cut()
    ensures { (bits : List Bit) → Neat bits → NoHashFirst bits → IsCut (joined bits) (pieces_at 0 bits) }
{}
