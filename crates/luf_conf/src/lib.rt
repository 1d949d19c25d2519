//! The options of a layout, and how they are read from a text of TOML.
//!
//! What each key says stands in `specs/Settings.antt`, what a text tells in `specs/Answers.antt`. Each of the empty
//! functions here is a law of these definitions.
#![tactic(auto)]

mod error;
mod keys;
mod laws;
mod reading;
mod settings;
#[cfg(test)]
mod tests;
mod values;

pub use error::ConfErr;
pub use keys::Key;
pub use laws::{one_options, one_refusal, options_in_range, options_not_refused};
pub use reading::options;
pub use settings::Options;
