//! New names for local variables and labels: which may have one name, and what a renaming leaves as it is.
#![tactic(auto)]

mod barring;
mod label_names;
mod label_rows;
mod laws;
mod locals;
mod maxima;
mod name_marks;
mod naming;
mod owners;
mod scoping;
mod uses;
mod whole;

pub use laws::{
    captured_or_alike, least_is_free, least_names_exist, least_names_have_no_fault,
    least_names_keep_jumps, least_names_keep_roles, least_names_resolve_alike, one_naming,
};
pub use luf_memory::Memory;
pub use name_marks::Names;
pub use whole::{names, names_read};
