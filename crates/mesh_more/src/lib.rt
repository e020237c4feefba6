//! Heads of OFF and VTK texts of meshes. Each call makes exactly its text, or appends it to a sink, and takes no memory.
//! The lines of vertices and faces are those of PLY.
#![tactic(auto)]

mod off;
mod vtk;

pub use off::{off_head_text, put_off_head};
pub use vtk::{put_vtk_faces, put_vtk_head, vtk_faces_text, vtk_head_text};
