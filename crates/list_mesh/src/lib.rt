//! The text of the mesh of a volume whose samples are a list, in memory, in the bytes of a file or in a pad, written while its rows
//! are walked: the mesh is never held. The writing takes no memory.
#![tactic(auto)]

mod mesh;
mod part;

pub use mesh::ListMesh;
pub use part::ListPart;
