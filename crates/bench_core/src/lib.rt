//! The workbench: a volume in bricks, a level, and the log of the last 128 changes, done and undone. Its calls are the
//! steps of a machine over whole volumes and whole earlier and later states: each says what the new state is, or why it
//! is refused, and a refused call changes nothing.
#![tactic(auto)]

mod bench;
mod contour;
mod edits;
mod fault;
mod follow;
mod mesh_numbers;
mod room;
mod surface;
mod windows;

pub use bench::Bench;
pub use fault::BeginFault;
pub use iso_base::{BenchFault, Written};
pub use measure::{Measures, Share};
pub use mesh_cache::Capacity;
pub use mesh_report::{Part, Report};
pub use plane_contour::Contours;
pub use surface::watertight;
