//! What is the same for all programs: the words by which each is asked about itself, how it ends and what it says of that, and
//! what stands round it: its words, the standard streams and its exit status. Only the list of the words takes memory.
#![tactic(auto)]

mod answer;
mod notes;
mod parts;
mod questions;
mod run;
mod verdicts;
mod words;

pub use answer::{Answer, Status, VolumeFault};
pub use notes::{put_note, put_note_by};
pub use questions::{asks_help, asks_version, version_line};
pub use run::{Program, run_given, run_program};
pub use verdicts::verdict_line;
pub use words::{given_words, words_of};
