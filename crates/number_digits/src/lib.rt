//! Numbers as text: appended to short texts, and their digits written into longer ones, where each call gives the place
//! behind what it wrote. No call takes memory.
#![tactic(auto)]

mod bytes;
mod digit_counts;
mod digits;
mod number;

pub use bytes::{put_array, put_byte};
pub use digit_counts::{Counted, count_short};
pub use digits::Digits;
pub use number::put_number;
