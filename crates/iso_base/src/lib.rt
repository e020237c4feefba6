//! What every crate speaks of: sizes, points, names of lattice edges, levels, samples, triangle lists, decimals, the counter
//! of cases, and the answers that several crates share.
#![tactic(auto)]

mod decimal;
mod edge;
mod fault;
mod format;
mod kind;
mod level;
mod point;
mod sizes;
mod steps;
mod triangles;
mod verdict;
mod voxels;

pub use decimal::{PAD_SHIFT, Thousandth, put_decimal, put_level};
pub use edge::{CellName, EdgeName, edge_name, edge_of};
pub use fault::{BenchFault, Memory, Written};
pub use format::MeshFormat;
pub use kind::SampleKind;
pub use level::Level;
pub use point::{Point, index, is_inside, point_of};
pub use sizes::{LONGEST_ROW, ROW_EDGES, SizeFault, Sizes};
pub use steps::Steps;
pub use triangles::TriangleList;
pub use verdict::Verdict;
pub use voxels::VoxelData;
