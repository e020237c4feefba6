//! The 656 cases of a cell: their numbering, and where the segments of each run.
//!
//! A case is the signs of the eight corners with a set of ambiguous faces, the joined ones. The cases are numbered by sign
//! byte, and then by the joined set as a binary number whose bits are the ambiguous faces, the least face lowest.
//!
//! One test over the whole table is computed by the checker, and one lemma turns it into the rule at each entry. Each
//! row as an arm of a macro checks too, at ten times the time.
#![tactic(auto)]

mod case;
mod faces;
mod rows;

pub use case::{CaseRow, classify, classify_with, row_of, successors};
pub use faces::{ambiguous_set, joined_faces, joined_faces_of};
