//! The points at which the surface of a volume crosses lattice edges, as a command: over any input and output, by which answer
//! it ends, and what it then has written; and the program that knows this command alone.
#![tactic(auto)]

mod crossings;
mod files;
mod help;
mod run;
mod texts;
mod words;

pub use crossings::points;
pub use files::put_points_of_file;
pub use run::run_points;
pub use texts::put_points;
