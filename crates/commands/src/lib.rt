//! All that the program does, over any input, output, notes and shelf: each command, by which status it ends, and what it
//! then has written. The program itself is this library over the standard streams and the files of the system.
#![tactic(auto)]

mod checking;
mod command_line;
mod extracting;
mod generating;
mod sessions;
mod soaking;
mod volumes;

pub use command_line::run;
