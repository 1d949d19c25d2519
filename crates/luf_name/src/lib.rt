//! Short names for variables, in order, with their numbers, and the names that are barred.
#![tactic(auto)]

mod barred;
mod laws;
mod name;
mod number;
#[cfg(test)]
mod tests;

pub use barred::is_barred;
pub use laws::{names_rise, none_left_out, one_name};
pub use name::{Name, nth};
pub use number::number_of;
