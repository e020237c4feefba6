//! Tests of the public calls of the crates that read and print bytes and lines: worked examples, and each call once with
//! ample memory.
#![tactic(auto)]

#[cfg(test)]
mod file_edges;
#[cfg(test)]
mod interrupted;
#[cfg(test)]
mod lines;
#[cfg(test)]
mod mesh_files;
#[cfg(test)]
mod notes;
#[cfg(test)]
mod script_lines;
#[cfg(test)]
mod streams;
#[cfg(test)]
mod volume_files;
#[cfg(test)]
mod words;
