//! The triangles of a cell by its case, in one table: a loop of three edges is one triangle, and a longer one a fan about its centre.
//! In another the loops that have a centre.
#![tactic(auto)]

mod fans;
mod table;

pub use fans::{fan_numbers, fans_of};
pub use table::{corner_count, corners_before, face_corners};
