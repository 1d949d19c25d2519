//! The value of a Lua string, its quotes, and its spelling in other quotes (Lua 5.4 manual, 3.1).
//!
//! A spelling is a whole short or long string with its quotes or brackets. That it is one is a `requires` of the calls;
//! whether its escapes are good is what [`first_bad`] and [`value_of`] find out. [`front_of`] reads one part of a short
//! string, and [`short_end`] and [`long_end`] find where a string ends, in a text of which nothing is known.
//!
//! What a spelling, a part and a value are, stands in `specs/`, apart from how they are read. Each of the empty
//! functions here is a law of these definitions.
#![tactic(auto)]

mod brackets;
mod bytes;
mod ends;
mod escapes;
mod fronts;
mod laws;
mod quoting;
mod values;

pub use brackets::{long_end, opens_long};
pub use ends::{ShortEnd, first_bad, short_end};
pub use escapes::Meaning;
pub use fronts::{Front, front_of};
pub use laws::{
    one_bad_place, one_long_end, one_requoted, one_short_end, one_value, spellings_apart,
    value_excludes_bad, value_spelled,
};
pub use quoting::{Counts, Quote, quotes, requote};
pub use values::{StrErr, value_of};
