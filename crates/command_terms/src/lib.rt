//! What all commands share: the bytes of the input, why there is no volume in them, a text that a program tells of itself; and, as
//! definitions, what a command does to its input and its output by its answer.
#![tactic(auto)]

mod input;
mod reasons;
mod texts;

pub use input::{VOLUME_LIMIT, bytes_of_input};
pub use reasons::NoVolume;
pub use texts::tell;
