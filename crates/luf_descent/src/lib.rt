//! The recursive descent: the block of a source from its tokens, with one token ahead.
//!
//! `left` is how many levels may still be entered. Recursion follows levels alone: all lists are loops.
#![tactic(auto)]

mod assignments;
mod blocks;
mod error;
mod expressions;
mod growing;
mod loops;
mod made;
mod names;
mod prefixes;
mod statements;
mod tables;
mod tokens;

pub use blocks::block;
pub use error::ParseErr;
pub use tokens::refusal;
