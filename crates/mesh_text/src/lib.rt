//! Lines and heads of mesh texts: ASCII PLY 1.0 and Wavefront OBJ. Each call makes exactly its text, appends it to a sink, or
//! puts it behind the lines before, and takes no memory. Coordinates are in thousandths of a voxel and printed with three decimals.
#![tactic(auto)]

mod counter;
mod digits;
mod face;
mod format;
mod fours;
mod head;
mod lines;
mod number;
mod obj;
mod piece;
mod ply;

pub use counter::Counter;
pub use format::TwoWayFormat;
pub use fours::Fours;
pub use head::{ply_head_text, points_head_text, put_ply_head, put_points_head};
pub use lines::Lines;
pub use number::Number;
pub use obj::{put_obj_face, put_obj_vertex};
pub use piece::Piece;
pub use ply::{put_ply_face, put_ply_vertex};
