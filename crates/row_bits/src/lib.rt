//! What the bits of a row tell: the crossing edges of its points and the active cells, listed from the flags of the points and the
//! cases of the cells, and words of 64 signs, with the laws of their bits.
#![tactic(auto)]

mod active;
mod edges;
mod words;

pub use active::{CASES, list_active, list_cases};
pub use edges::list_edges;
pub use words::mixed_at;
