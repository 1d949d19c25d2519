//! The instructions of the virtual machine of Lua 5.4, and the words of 32 bits in which they stand in code.
#![tactic(auto)]

mod form;
mod instr;
mod op;

pub use form::Form;
pub use instr::{Instr, one_instruction};
pub use op::Op;
