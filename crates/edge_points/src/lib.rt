//! Where a surface crosses lattice edges, the centres of loops, and numbers of rows. Positions are in thousandths of a voxel.
#![tactic(auto)]

mod cell_edges;
mod crossings;
mod loop_centre;
mod row_ranks;
mod sample_places;

pub use cell_edges::{x_in_cell, y_in_cell, z_in_cell};
pub use crossings::place;
pub use loop_centre::{centre, rounded_mean};
pub use row_ranks::RowRanks;
pub use sample_places::sample_place;
