//! Components are labelled in two passes. Row by row loops get labels, and the labels that meet are noted in pairs: of the lattice
//! edges only those of two slices have their labels at hand. Then a walk breadth first finds which labels pairs join.
#![tactic(auto)]

mod chains;
mod front;
mod labels;
mod laws;
mod walk;

pub use front::NO_LABEL;
pub use labels::Labels;
pub use laws::{loop_is_labelled, row_is_left};
pub use walk::least_joined;
