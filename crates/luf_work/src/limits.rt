// Limits on sizes.

/// The most bytes of a source.
pub const SOURCE_LIMIT: usize = 4194304;

/// The most bytes of a text that is made from a source.
pub const TEXT_LIMIT: usize = 4194304;
