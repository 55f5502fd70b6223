//! Texts of lines: numbers in decimal and words are read from a line, or put into one. Nothing here takes memory.
#![tactic(auto)]

mod laws;
mod lines;
mod numbers;
mod parts;

pub use laws::{lines_read_back, numbers_read_back, numbers_spelled_once, words_read_back};
pub use lines::{Line, ROOM, Text};
pub use numbers::{is_number, value_within};
pub use parts::{MOST_WORDS, cut_at, first_line, split_words};
