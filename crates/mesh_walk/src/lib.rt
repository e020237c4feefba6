//! The text of the mesh of a volume at a level, or of the part that its lowest slices have, written while its rows are
//! walked: the mesh is never held, and no memory is taken.
#![tactic(auto)]

mod cells;
mod centres;
mod corners;
mod edges;
mod faces;
mod parts;
mod places;
mod ranks;
mod slots;
mod texts;
mod walk;
mod write;

pub use parts::{PartCounts, count_part, write_part_centres, write_part_edges, write_part_faces};
pub use ranks::rank_rows;
pub use walk::{Numbering, Walk};
pub use write::write_mesh;
