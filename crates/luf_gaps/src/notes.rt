// What stands in a gap between two significant tokens of a source.

use luf_doc::Remark;
use sqlite_items::Items;

/// What stands in a gap, but for the tokens there that are dropped.
#[derive(Debug, Drop)]
pub struct GapNotes {
    /// The comments, in order.
    pub notes: Items<Remark>,
    /// Whether an empty line stands behind the last comment, or in a gap without comments.
    pub blank: bool,
}
