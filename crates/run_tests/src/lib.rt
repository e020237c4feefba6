//! Tests of sessions and of the program's run, over memory: worked examples, and each command once with ample memory.
#![tactic(auto)]

#[cfg(test)]
mod calls;
#[cfg(test)]
mod conversions;
#[cfg(test)]
mod encodings;
#[cfg(test)]
mod faults;
#[cfg(test)]
mod generate;
#[cfg(test)]
mod help;
#[cfg(test)]
mod limits;
#[cfg(test)]
mod malformed;
#[cfg(test)]
mod noise;
#[cfg(test)]
mod reads;
#[cfg(test)]
mod scripts;
#[cfg(test)]
mod sessions;
#[cfg(test)]
mod texts;
#[cfg(test)]
mod writings;
