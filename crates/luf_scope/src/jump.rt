// What the names of labels refer to.

/// What the name of a label is, at the label and in a `goto`. Numbers are those of labels, in the order of their
/// tokens in the whole chunk.
#[derive(Clone, Copy, Debug, PartialEq, Eq)]
pub enum JumpRole {
    /// It is the name of this label.
    Label(u32),
    /// It is in a `goto` to this label.
    Goto(u32),
}
