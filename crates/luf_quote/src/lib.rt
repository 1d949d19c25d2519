//! The quotes of a short string and the parentheses round a lone argument, as a style wants them.
#![tactic(auto)]

mod calls;
mod quotes;
#[cfg(test)]
mod tests;

pub use calls::{CallStyle, Lone, keeps_parens};
pub use quotes::{QuoteStyle, choose};
