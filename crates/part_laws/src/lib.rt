//! Laws of the parts of a mesh: what a report counts and what is measured of them is told by the loops of the cells.
//! Each call says its law and does nothing else.
#![tactic(auto)]

mod borders;
mod labels;
mod lists;
mod loops;
mod meshes;

pub use borders::parts_without_border;
pub use labels::{labelling_grows, labelling_told, parts_by_labels};
pub use lists::edges_by_faces;
pub use loops::{
    classes_by_chains, classes_told, faces_by_steps, loops_meet, loops_moved, sums_by_labels,
};
pub use meshes::{
    components_by_loops, edges_by_cells, edges_by_loops, measures_by_loops, mesh_of_loops,
    summary_by_loops,
};
