//! A volume in bricks of 8x8x8 cells, each with its own copy of every sample at a corner of one of its cells: in one, two, four or
//! eight bytes each, by the kind and the pad.
#![tactic(auto)]

mod boxes;
mod copies;
mod copy_list;
mod filling;
mod flat;
mod numbering;
mod row_samples;
mod rows;
mod store;

pub use boxes::Values;
pub use numbering::{BrickId, brick_at, bricks_along, first_brick_along};
pub use store::BrickStore;
