//! The verdict on a list of triangles: whether they are a closed surface, a surface with a border, or neither.
#![tactic(auto)]

mod decide;
mod fan;
mod marks;

pub use decide::verdict;
pub use iso_base::Verdict;
