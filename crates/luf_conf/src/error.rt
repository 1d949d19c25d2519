use luf_text::Bytes;
use thiserror::Error;

/// Why a text tells no options.
#[derive(Debug, Drop, Error)]
pub enum ConfErr {
    /// It is not UTF-8, or no TOML.
    #[error("the options are no TOML")]
    NotToml,
    /// The first key that is refused is none of the known ones.
    #[error("a key is not known")]
    UnknownKey(Bytes),
    /// The first key that is refused has a value that it may not have.
    #[error("a key has a value that it may not have")]
    BadValue(Bytes),
    /// No memory was found.
    #[error("out of memory")]
    Memory,
}
