//! The classes of bytes that the lexis of Lua 5.4 tells apart (manual, 3.1), and its line ends.
#![tactic(auto)]

mod class;
mod line_end;

pub use class::{
    digit_value, is_blank, is_digit, is_hex_digit, is_letter, is_line_byte, is_whitespace,
    is_word_byte,
};
pub use line_end::{is_line_pair, line_end_length};
