//! What the program is asked to do.

use iso_base::{Level, Sizes};
use mesh_text::TwoWayFormat;
use script::FileName;

/// What the program is asked to do. A level is in thousandths; a pad is a sample that is put around the volume.
#[derive(Drop)]
pub enum Request {
    /// The points at which the surface crosses lattice edges.
    Points {
        level: Level,
    },
    /// The mesh.
    Extract {
        level: Level,
        pad: Option<i64>,
        format: TwoWayFormat,
    },
    /// The lines of a script, over the volume in the shelf's file of this name. At most so many bricks keep their mesh,
    /// in so many pages.
    Session {
        level: Level,
        pad: Option<i64>,
        name: FileName,
        bricks: u32,
        pages: u32,
    },
    /// The verdict on a mesh in this form.
    Check {
        format: TwoWayFormat,
    },
    /// The volume that a seed generates.
    Gen {
        seed: u64,
        sizes: Sizes,
    },
    /// The soak script of a seed, over the volume that it generates.
    Soak {
        seed: u64,
    },
    /// What the program can do.
    Help,
    /// Its version.
    Version,
}
