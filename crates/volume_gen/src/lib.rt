//! The volume that a seed generates, as a list and as a file, and the lines of the soak script of a seed.
#![tactic(auto)]

mod blocks;
mod rows;
mod script_lines;
mod soak;
mod steps;

pub use blocks::generate;
pub use rows::{STAGE_BYTES, put_generated};
pub use soak::SoakLines;
