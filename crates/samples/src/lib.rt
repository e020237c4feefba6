//! The samples of a volume, asked for where they lie: one at a time, in rows, and as signs at a level.
#![tactic(auto)]

mod list;
mod number;
mod samples;
mod signs;

pub use list::{Numbers, convert, copy_all};
pub use number::{Packed, sample_at};
pub use samples::{Samples, all_signs, each_corner};
pub use signs::{fill_signs, sample_sign, sign};
