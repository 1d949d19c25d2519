//! What the words of a command line mean: a command, what becomes of its texts, its file of options and its files.
#![tactic(auto)]

mod command;
mod plan;

pub use command::{Command, Manner};
pub use plan::{NoPlan, Plan, plan_of};
