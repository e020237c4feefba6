//! Rows of a volume in bricks, each row whole: the flags of its points, where its edges are crossed, and the cases of its cells,
//! which others name brick by brick. Bricks that are not active are not looked at. No call takes memory.
#![tactic(auto)]

mod active;
mod bricks;
mod bricks_at_level;
mod cases;
mod cell_rows;
mod crossings;
mod flags;
mod lanes;
mod points;

pub use active::ActiveRow;
pub use bricks_at_level::BricksAtLevel;
pub use cases::case_row;
pub use cell_rows::CellRows;
pub use crossings::place_row;
pub use mesh_rows::Counts;
pub use points::flag_row;
