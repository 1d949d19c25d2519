//! A document as its own layout shows it: its flags are those that a reader finds in the text. That its layout is the
//! layout of the document, and that a cut of the text says of its comments and empty lines what it says.
#![tactic(auto)]

mod laws;

pub use laws::{
    cut_reads, flags_alone, layout_again, notes_again, pieces_stand_beside, text_tells,
};
