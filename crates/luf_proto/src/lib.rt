//! The prototype of a function of Lua 5.4: its code, its constants, its upvalues, and the functions inside it.
#![tactic(auto)]

mod proto;
mod same;

pub use proto::{Const, Proto, Upval};
pub use same::same_stripped;
