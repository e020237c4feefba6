//! The entries of a brick: which of its cells have a crossing edge, and the case of each.
#![tactic(auto)]

mod block;
mod entries;
mod lanes;
mod signs;
mod slices;

pub use entries::{extract_brick, extract_row};
pub use slices::SignSlice;
