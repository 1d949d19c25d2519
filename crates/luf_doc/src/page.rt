/// What a layout is written on.
#[derive(Clone, Copy, Debug, PartialEq, Eq)]
pub struct Page {
    /// The columns of a line that a flat group may fill.
    pub width: u32,
    /// Whether a level of indentation is one TAB, and not `unit` spaces.
    pub tabs: bool,
    /// The columns of a level of indentation.
    pub unit: u32,
}
