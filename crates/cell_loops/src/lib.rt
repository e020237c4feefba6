//! The loops of the surface in a cell, and how many triangles and centres they have.
//!
//! A loop is the cycle in which the segments of a cell's faces run through its crossing edges. It is listed from its least
//! edge, and the loops of a cell by their least edges. All of them stand in one table.
#![tactic(auto)]

mod loops;
mod table;

pub use loops::{CellLoops, loops_of};
pub use table::{centre_count, loop_count, loop_edges, triangle_count};
