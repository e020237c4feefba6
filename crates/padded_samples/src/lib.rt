//! The samples of a volume in a pad: a view, of which no list is made.
#![tactic(auto)]

mod ends;
mod pad;
mod rows;
mod slab;

pub use ends::Ends;
pub use pad::Padded;
pub use slab::PaddedSlab;
