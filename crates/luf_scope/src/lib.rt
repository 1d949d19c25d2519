//! What the names of a chunk mean: each local variable with its scope, and what each name refers to.
#![tactic(auto)]

mod adding;
mod binder;
mod checks;
mod fault;
mod jump;
mod laws;
mod links;
mod locals;
mod marks;
mod meanings;
mod names;
mod occurrence;
mod reading;
mod resolving;
mod roles;
mod scopes;
mod stacks;
mod variables;

pub use binder::{Binder, BinderKind, Role};
pub use fault::{ScopeBad, ScopeErr, ScopeWhat, first_of};
pub use jump::JumpRole;
pub use laws::{label_blocks_are_nested, occurrences_are_ordered};
pub use links::Links;
pub use luf_memory::Memory;
pub use marks::Marks;
pub use occurrence::Occurrence;
pub use reading::{occurrences, outline};
pub use resolving::{check_names, resolve, resolve_read};
