//! Documents: texts, and gaps in which lines may break. The layout of a document is defined here; a document is
//! kept as one flat table of its nodes, from which a layout is written in a bounded number of steps.
#![tactic(auto)]

mod doc;
mod laws;
mod page;
mod size;
mod steps;
mod table;

pub use doc::{Chance, Doc, Gap, Remark};
pub use laws::{broken_elsewhere, flat_inside, flat_where_it_fits, layout_joined};
pub use luf_memory::Memory;
pub use page::Page;
pub use size::Size;
pub use std::sync::ledger::Ledger;
pub use steps::Steps;
pub use table::{DocTable, Node, NodeKind};
