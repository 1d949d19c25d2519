//! The jobs of luafmt, from the bytes of a source to the bytes of a text.
#![tactic(auto)]

mod check;
mod format;
mod hash;
mod laws;
mod limits;
mod list;
mod minify;
mod refusal;
mod room;
mod source;

pub use check::check_bytes;
pub use format::format_bytes;
pub use laws::{
    accepted_not_refused, format_accepted_not_refused, list_accepted_not_refused,
    one_format_refusal, one_formatted_text, one_list_refusal, one_listing, one_refusal,
    one_source_refusal, one_text, source_not_refused,
};
pub use limits::{SOURCE_LIMIT, TEXT_LIMIT};
pub use list::list_bytes;
pub use minify::minify_bytes;
pub use refusal::Refusal;
