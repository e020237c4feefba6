//! The rows of a volume at a level, asked for one by one: what the lines of its mesh are made of.
#![tactic(auto)]

mod counts;
mod rows;

pub use counts::Counts;
pub use rows::MeshRows;
