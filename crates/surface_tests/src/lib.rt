//! Tests of the public calls of the crates that make, write and look at meshes: worked examples, and each call once with ample memory.
#![tactic(auto)]

#[cfg(test)]
mod arcs;
#[cfg(test)]
mod basics;
#[cfg(test)]
mod cases;
#[cfg(test)]
mod contours;
#[cfg(test)]
mod crossings;
#[cfg(test)]
mod decider;
#[cfg(test)]
mod extraction;
#[cfg(test)]
mod grids;
#[cfg(test)]
mod lists;
#[cfg(test)]
mod loops;
#[cfg(test)]
mod measures;
#[cfg(test)]
mod mesh_texts;
#[cfg(test)]
mod places;
#[cfg(test)]
mod reports;
#[cfg(test)]
mod signs;
#[cfg(test)]
mod slabs;
#[cfg(test)]
mod texts;
#[cfg(test)]
mod verdicts;
#[cfg(test)]
mod volumes;
