//! The lines, words and numbers of a text, read from the front without memory of its own.
#![tactic(auto)]

mod levels;
mod lines;
mod numbers;
mod words;

pub use levels::level_number;
pub use lines::next_line;
pub use numbers::{digits, number, whole};
pub use words::{next_word, same_word, three_words, without_blanks};
