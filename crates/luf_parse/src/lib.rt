//! The tree of a source from its tokens.
#![tactic(auto)]

mod laws;
mod whole;

pub use laws::one_tree;
pub use luf_descent::ParseErr;
pub use whole::parse;
