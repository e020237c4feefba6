//! Tests of the public calls of the workbench and the crates of its parts: worked examples, each call once with ample memory,
//! and files of the bench against extraction from scratch.
#![tactic(auto)]

#[cfg(test)]
mod bench;
#[cfg(test)]
mod calls;
#[cfg(test)]
mod measures;
#[cfg(test)]
mod random_volumes;
#[cfg(test)]
mod windows;
