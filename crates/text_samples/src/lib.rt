//! Samples that are read in print: decimal numbers between separators, and the hex digits of their bytes. They are read
//! into a list of numbers, or into bytes in the width of their kind.
//!
//! Why: DECISIONS.md, "Text and hex samples become bytes".
#![tactic(auto)]

mod bits;
mod fault;
mod hex;
mod targets;
mod text;
mod words;

pub use bits::bits_of;
pub use fault::SampleFault;
pub use hex::{read_hex, read_hex_bytes};
pub use text::{read_text, read_text_bytes};
