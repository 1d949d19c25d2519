//! Whether two tokens need a space between them, and a statement a `;` before it.
#![tactic(auto)]

mod guard;
mod space;

pub use guard::needs_guard;
pub use space::needs_space;
