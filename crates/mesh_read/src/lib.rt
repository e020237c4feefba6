//! Triangle lists from PLY and OBJ texts, read once from the front.
//! Memory is taken for the triangles that are there and for the elements of a header, and for nothing else.
#![tactic(auto)]

mod body;
mod elements;
mod header;
mod heading;
mod obj;
mod plain;
mod ply;

pub use obj::read_obj;
pub use ply::read_ply;
pub use refusals::MeshFault;
