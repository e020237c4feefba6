//! The rows of a volume at a level whose samples are a list, in memory, in the bytes of a file or in a pad. What is kept are the
//! crossing edges and the active cells of each row, or, where these are many, the flags of its points and the cases of the cells that
//! begin at them; where each edge is crossed; and where each row begins. Asking for rows takes no memory. What the lowest slices have
//! can be counted, too, and nothing is kept then.
//!
//! Why: DECISIONS.md, "Extraction holds no mesh".
#![tactic(auto)]

mod cases;
mod counts;
mod field;
mod lanes;
mod lists;
mod parts;
mod places;
mod row_storage;
mod rows;
mod signs;
mod slice_counts;

pub use rows::ListRows;
pub use slice_counts::{SliceCounts, count_slices};
