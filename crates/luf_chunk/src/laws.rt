//! Laws of chunks.
ghost use Rattle.std.specs.Prelude.{◌≡◌};
ghost use Rattle.luf_chunk.specs.Worded.{IsWorded};
ghost use Rattle.luf_proto.specs.Function.{Function};

use luf_num::one_float_word;

/// A function is worded in one way at most, so it has one chunk at most.
pub fn one_worded()
    ensures { (f v w : Function) → IsWorded f v → IsWorded f w → v ≡ w }
{
    one_float_word()
}
