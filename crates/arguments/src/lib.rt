//! The words of a command line: a command, its options in any order, and its plain words; and what the program tells who
//! asks for help or for its version. No call takes memory.
#![tactic(auto)]

mod help;
mod laws;
mod options;
mod read;
mod request;

pub use help::{help_text, version_text};
pub use laws::points_words_agree;
pub use options::{Found, are_options, only_options, plain_word, value_of};
pub use read::{format_in, level_in, pad_in, read_words};
pub use request::Request;
