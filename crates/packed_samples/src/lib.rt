//! Samples in as few bytes as serve: one, two, four or eight bytes each, by the kind and the pad of their volume.
#![tactic(auto)]

mod list;
mod numbers;
mod run;
mod width;

pub use list::PackedList;
pub use run::PackedRun;
pub use width::Width;
