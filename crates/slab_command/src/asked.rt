//! What the program is asked for.

use iso_base::Level;
use mesh_text::TwoWayFormat;
use mesh_walk::Numbering;
use script::FileName;

/// The largest number of a slice, of a vertex and of a triangle.
pub const MOST_NUMBER: u64 = 2_147_483_647;

/// A slab of a volume: the slices from `from` on, counted without padding. All but the last one share their two uppermost slices
/// with the next slab. A pad surrounds the volume, of which the slab has a ring round each slice.
#[derive(Clone, Copy)]
pub struct Slab {
    pub level: Level,
    pub pad: Option<i64>,
    pub from: u32,
    pub is_last: bool,
}

/// The files of a slab's part of the mesh: their format, the numbers in the whole of its first vertex on an edge and of its first
/// centre, and what their names begin with.
#[derive(Drop)]
pub struct SlabFiles {
    pub format: TwoWayFormat,
    pub numbers: Numbering,
    pub name: FileName,
}

/// A slab to be counted, and to be written where there are to be files.
#[derive(Drop)]
pub struct SlabJob {
    pub slab: Slab,
    pub files: Option<SlabFiles>,
}

/// What the program is asked for.
#[derive(Drop)]
pub enum Asked {
    /// To count what a slab owns of the mesh, and to write it where there are to be files.
    Slab { job: SlabJob },
    /// The head of a mesh of so many vertices and triangles.
    Head { vertices: u32, triangles: u32 },
    /// What the program can do.
    Help,
    /// Its version.
    Version,
}
