//! The contour lines of a plane of a volume.
#![tactic(auto)]

mod line;
mod lines;
mod plane;
mod text;
mod walk;

pub use line::{Contours, Line};
pub use lines::contours;
pub use text::put_contours;
