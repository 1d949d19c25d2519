//! The listing of a function: its code, its constants and its upvalues, a line for each, and the functions inside.
#![tactic(auto)]

mod code;
mod constants;
mod functions;
#[cfg(test)]
mod tests;

pub use functions::list;
pub use luf_memory::Memory;
