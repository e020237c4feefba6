//! The mesh of a volume at a level, from scratch.
#![tactic(auto)]

mod cases;
mod cells;
mod centres;
mod corners;
mod extract;
mod faces;
mod heights;
mod lattice;
mod mesh;
mod ranks;
mod rows;
mod slices;

pub use cases::cell_case;
pub use centres::Cell;
pub use extract::extract_flat;
pub use heights::Heights;
pub use mesh::{Mesh, VertexName};
pub use rows::cell_row;
