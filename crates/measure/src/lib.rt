//! The signed volumes and areas of the components of a list of triangles, and their border edges.
#![tactic(auto)]

mod share;
mod sums;
mod vector;

pub use share::{Measures, Share};
pub use sums::measure;
