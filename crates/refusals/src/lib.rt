//! Why something that is read is refused: volumes in NRRD files, the padding of one, meshes, and the files of a shelf.
#![tactic(auto)]

mod mesh;
mod nrrd;
mod pad;
mod shelf;

pub use mesh::MeshFault;
pub use nrrd::{EncodingWord, Field, NrrdFault};
pub use pad::PadFault;
pub use shelf::ShelfError;
