//! Tests of the run of the program for slabs, over memory.
#![tactic(auto)]

#[cfg(test)]
mod calls;
#[cfg(test)]
mod faults;
#[cfg(test)]
mod help;
#[cfg(test)]
mod refused;
#[cfg(test)]
mod slabs;
#[cfg(test)]
mod texts;
