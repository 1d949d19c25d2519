// Documents, as they are built.

use luf_text::Bytes;
use sqlite_items::{Boxed, Items};

/// A document.
#[derive(Debug, Drop)]
pub enum Doc {
    /// Bytes that are written as they are. They may hold line ends, as a long string does.
    Text(Bytes),
    /// What stands between two texts.
    Gap(Gap),
    /// A `,` in a broken group, nothing elsewhere.
    Trail,
    /// What is one level deeper.
    Nest(Boxed<Doc>),
    /// What is either flat, on one line, or broken.
    Group(Boxed<Doc>),
    /// One after another.
    Seq(Items<Doc>),
}

/// What a gap without notes writes, where a break is a line end with the indentation behind it.
#[derive(Clone, Copy, Debug, PartialEq, Eq)]
pub enum Chance {
    /// Nothing.
    Tight,
    /// A space.
    Space,
    /// A break in a broken group, else nothing.
    Soft,
    /// A break in a broken group, else a space.
    Line,
    /// A break.
    Hard,
}

/// What stands between two texts: the notes there, and where a line may end.
#[derive(Debug, Drop)]
pub struct Gap {
    pub chance: Chance,
    pub notes: Items<Remark>,
    /// Whether an empty line stands before what follows the gap, where it breaks there.
    pub blank: bool,
    /// Whether the notes stand one level deeper than what follows the gap.
    pub deeper: bool,
}

/// A note: a comment of the source.
#[derive(Debug, Drop)]
pub struct Remark {
    pub text: Bytes,
    /// Whether a break stands before it.
    pub own_line: bool,
    /// Whether a break stands behind it.
    pub ends_line: bool,
    /// Whether an empty line stands before it, where a break does.
    pub blank: bool,
}
