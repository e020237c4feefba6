//! Tests of the public calls of the crates of bricks: worked examples, and each call once with ample memory.
#![tactic(auto)]

#[cfg(test)]
mod bricks;
#[cfg(test)]
mod cache;
#[cfg(test)]
mod changes;
#[cfg(test)]
mod entries;
#[cfg(test)]
mod generation;
#[cfg(test)]
mod pool;
#[cfg(test)]
mod row_numbers;
#[cfg(test)]
mod spans;
#[cfg(test)]
mod stores;
#[cfg(test)]
mod texts;
#[cfg(test)]
mod walks;
#[cfg(test)]
mod widths;
#[cfg(test)]
mod windows;
