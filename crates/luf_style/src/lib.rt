//! The style of a formatted text. `style` makes the document of a source, `lay_table` writes the layout of a document, and
//! `write_styled` writes the layout of the document of a source straight from its tokens, without the document.
#![tactic(auto)]

mod blanks;
mod chance;
mod filling;
mod gap;
mod gap_list;
mod laws;
mod lay;
mod lead;
mod measuring;
mod mode;
mod openings;
mod sheet;
mod spelling;
mod straight;
mod styling;
mod tail;
#[cfg(test)]
mod tests;
mod texts;
mod word;
mod writing;
mod written;

pub use laws::one_formatted;
pub use lay::lay_table;
pub use luf_memory::Memory;
pub use straight::write_styled;
pub use styling::style;
