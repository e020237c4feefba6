//! Changes of a volume and a level, each with what it replaced: what they do, what takes them back, and the log of the
//! last 128 of them, done and undone.
#![tactic(auto)]

mod boxes;
mod change;
mod log;
mod runs;

pub use boxes::fill_area;
pub use change::Change;
pub use log::EditLog;
pub use runs::Runs;
