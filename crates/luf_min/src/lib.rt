//! The minified text of a source.
#![tactic(auto)]

mod item;
mod laws;
mod lists;
mod spelling;
mod starts;
mod text;
mod walk;
mod writing;

pub use laws::{minified_exists, minified_is_same, one_minified};
pub use writing::minify;
