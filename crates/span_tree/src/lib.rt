//! The least and the greatest sample of each brick, and the next brick with a crossing edge.
#![tactic(auto)]

mod bricks;
mod nodes;
mod one_value;
mod span;
mod tree;

pub use tree::SpanTree;
