// The marks of a draft: what it holds, one after another.

use luf_lex::{Sign, Word};

/// What encloses a part of a draft.
#[derive(Clone, Copy, Debug, PartialEq, Eq)]
pub enum Part {
    Nest,
    Group,
    Sequence,
}

/// The kinds of gap that a draft has.
#[derive(Clone, Copy, Debug, PartialEq, Eq)]
pub enum GapKind {
    Tight,
    Space,
    Soft,
    Line,
    /// Before what ends parameters, arguments or a table: its notes stand one level deeper.
    TightEnd,
    SoftEnd,
    LineEnd,
    /// Before a statement.
    FirstStatement,
    LaterStatement,
    /// Before the word that ends a block, which has statements or has none.
    BlockEnd,
    EmptyBlock,
    /// The same at the end of the source.
    SourceEnd,
    EmptySource,
}

/// One mark of a draft that is written flat.
#[derive(Clone, Copy, Debug, PartialEq, Eq)]
pub enum Mark {
    /// A token of the source, by its number.
    Token(u32),
    Word(Word),
    Sign(Sign),
    Gap(GapKind),
    /// A `,` where the group is broken.
    Trail,
    /// A part begins, and goes on to the `Close` that belongs to it.
    Open(Part),
    Close,
}
