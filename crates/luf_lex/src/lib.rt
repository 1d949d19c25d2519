//! The pieces of a source: its tokens and what lies between them, each with its place.
#![tactic(auto)]

mod comment;
mod cutting;
mod fault;
mod first;
mod group;
mod growing;
mod head;
mod laws;
mod note;
mod numeral;
mod pieces;
mod plain;
mod sign;
mod string;
mod token;
mod word;

pub use cutting::cut;
pub use fault::{LexErr, LexWhat};
pub use group::Group;
pub use head::hash_line;
pub use laws::{joined, one_cut, one_fault, one_of_cut_and_fault, spelled};
pub use luf_text::Span;
pub use note::Note;
pub use pieces::Cut;
pub use token::{Kind, Piece, Sign, Tok, Word};
