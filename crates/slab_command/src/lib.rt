//! One slab of a volume that is larger than one process takes, as a program: it counts what the slab has of the whole mesh, and
//! writes it in three files, over any input, output and shelf; by which answer it ends, and what it then has written.
#![tactic(auto)]

mod answer;
mod asked;
mod counts;
mod files;
mod help;
mod notes;
mod run;
mod slabs;
mod words;

pub use run::run_slab;
