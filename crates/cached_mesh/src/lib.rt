//! The mesh of a volume in bricks, by what is kept of it.
#![tactic(auto)]

mod counts;
mod entries;
mod files;
mod held;
mod refresh;
mod room;
mod rows;
mod slices;

pub use counts::count_entries;
pub use files::{KeptVolume, write_mesh};
pub use held::{Held, no_signs};
pub use refresh::refresh_bricks;
pub use room::MeshRoom;
pub use rows::CachedRows;
pub use slices::no_slices;
