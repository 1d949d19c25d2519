//! Laws of chunks.
ghost use Rattle.std.specs.Prelude.{◌≡◌, ◌≤◌, ◌↔◌, ℕ, List, length, Ok, Err};
ghost use Rattle.luf_proto.specs.Function.{Function};
ghost use Rattle.luf_proto.specs.Chunk.{Fits, chunk_bytes};
ghost use Rattle.luf_undump.specs.Answers.{HasCause};
ghost use Rattle.luf_undump.specs.FirstWrong.{AreBytes, IsFirstWrong};
ghost use Rattle.luf_undump.specs.Grammar.{IsChunkOf};
ghost use Rattle.luf_undump.specs.Readable.{IsReadable};
ghost use Rattle.luf_undump.specs.Reading.{Wrong, chunk_at, most_levels};
ghost use Rattle.luf_undump.specs.declared.error.ChunkWhat.{ChunkWhat};
ghost use Rattle.luf_undump.specs.declared.error.UndumpErr.TheVariants.{Bad};

/// Bytes are read as a function exactly where they are its chunk.
pub fn read_is_chunk()
    ensures { (bytes : List ℕ) (f : Function) → (chunk_at bytes ≡ Ok f) ↔ IsChunkOf bytes f }
{}

/// Bytes are the chunk of one function at most.
pub fn one_function()
    ensures { (bytes : List ℕ) (f g : Function) → IsChunkOf bytes f → IsChunkOf bytes g → f ≡ g }
{}

/// The bytes that are written of a function are its chunk, so they are read as that function.
pub fn written_is_read()
    ensures chunk { (f : Function) → Fits f → IsReadable f most_levels → IsChunkOf (chunk_bytes f) f }
    ensures read { (f : Function) → Fits f → IsReadable f most_levels → chunk_at (chunk_bytes f) ≡ Ok f }
{}

/// The chunk of a function has no field that is wrong.
pub fn chunk_not_refused()
    ensures { (bytes : List ℕ) (f : Function) (at : ℕ) (what : ChunkWhat) → IsChunkOf bytes f → HasCause bytes (Bad at what) → ⊥ }
{}

/// Bytes have one first wrong field at most, which is wrong in one way.
pub fn one_cause()
    ensures { (bytes : List ℕ) (at other : ℕ) (what kind : ChunkWhat) → HasCause bytes (Bad at what) → HasCause bytes (Bad other kind) → (at ≡ other) × (what ≡ kind) }
{}

/// A field that is wrong begins among the bytes, or at their end.
pub fn refused_within()
    ensures { (bytes : List ℕ) (e : Wrong) → chunk_at bytes ≡ Err e → e.left ≤ length bytes }
{}

/// A field that is wrong is the first with which no chunk goes on: what stands before it begins some chunk.
pub fn refused_is_first()
    ensures { (bytes : List ℕ) (at : ℕ) (what : ChunkWhat) → AreBytes bytes → HasCause bytes (Bad at what) → IsFirstWrong bytes at what }
{}
