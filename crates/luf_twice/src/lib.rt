//! That what is formatted twice is formatted once: the document of the text is the document that is read again.
#![tactic(auto)]

mod laws;

pub use laws::{document_is_ready, filled_again, formatted_once, gaps_again, twice_is_once};
