// Why a source is not accepted.
use luf_lex::LexWhat;
use luf_memory::Memory;
use luf_scope::ScopeWhat;
use luf_text::Place;
use luf_undump::ChunkWhat;

/// Why a job gives no text.
#[derive(Clone, Copy, Debug, PartialEq, Eq)]
pub enum Refusal {
    /// The source has more than 4,194,304 bytes.
    TooLarge,
    /// The source has no cut into pieces: where its first fault is, and which.
    Lexical(Place, LexWhat),
    /// The tokens have no tree, and none of them enters a level behind the 200th: where the first token is with which
    /// those up to it begin no list that has a tree, or the end of the source.
    Syntax(Place),
    /// The tokens have no tree of at most 200 levels: where the first token is that enters a level too many.
    TooDeep(Place),
    /// A name or a jump is refused: where the token of the first such fault is, and why.
    Scope(Place, ScopeWhat),
    /// The bytes are no chunk: the first byte of the first field that is wrong, and how it is wrong.
    Chunk(u32, ChunkWhat),
    /// The text would have more than 4,194,304 bytes.
    ResultTooLarge,
    /// No memory was found.
    Memory,
}

impl From<Memory> for Refusal {
    ghost use Rattle.std.specs.Prelude.{◌≡◌};
    ghost use Rattle.luf_work.specs.declared.refusal.Refusal.TheVariants.{Memory};

    ghost from_gives = { λ _ r. r ≡ Memory };

    fn from(_: Memory) -> Refusal {
        Refusal::Memory
    }
}
