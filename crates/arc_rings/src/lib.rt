//! The arcs around each vertex of a list of triangles, for those who look at a mesh vertex by vertex.
#![tactic(auto)]

mod rings;

pub use rings::Rings;
