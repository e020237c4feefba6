//! Laws of the surface. Each call says its law and does nothing else: a caller of it has the law as its clause.
#![tactic(auto)]

mod cells;
mod grids;
mod lists;
mod volumes;

pub use cells::{cell_successor_is_permutation, face_agrees, wedge};
pub use grids::{
    lines_hold_segments, mesh_by_rows, mesh_sizes, one_vertex, pair_determines_face, plane_of_mesh,
};
pub use lists::{one_verdict, walk_decides_fan};
pub use volumes::{closed_when_padded, directed_once, one_fan, whole_levels_stay};
