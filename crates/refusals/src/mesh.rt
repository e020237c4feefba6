//! Why a text is not read as a mesh.

ghost use Rattle.std.specs.Prelude.{◌≡◌};
ghost use Rattle.refusals.specs.declared.mesh.MeshFault.TheVariants.{Memory};

use std::alloc::{AllocError, AllocFailed};
use thiserror::Error;

/// Why a text is not read as a mesh. Lines are counted from 1.
#[derive(Clone, Copy, Debug, Error)]
pub enum MeshFault {
    /// The first line is not `ply`.
    #[error("not mesh")]
    NotMesh,
    /// The format line names one of the binary formats.
    #[error("binary ply")]
    BinaryPly,
    /// This line of the header is not one that may stand there; or the header has no end, and this would be its next line.
    #[error("bad header")]
    BadHeader { line: u32 },
    /// A word of this line that must be a number is none, or is missing.
    #[error("bad number")]
    BadNumber { line: u32 },
    /// The face on this line has not three corners.
    #[error("not triangle")]
    NotTriangle { line: u32 },
    /// A corner of the face on this line is not one of the vertices.
    #[error("index outside")]
    IndexOutside { line: u32 },
    /// Fewer lines with words stand behind the header than its counts add up to; with both numbers of lines.
    #[error("short mesh")]
    ShortMesh { needed: u64, present: u64 },
    /// A declared count is above 2^30; with that count.
    #[error("too many")]
    TooMany { n: u64 },
    /// Memory could not be had.
    #[error("memory")]
    Memory,
}

impl From<AllocError> for MeshFault {
    ghost from_gives = { λ _ e. e ≡ Memory };

    fn from(_: AllocError) -> MeshFault {
        MeshFault::Memory
    }
}

impl<T: Drop> From<AllocFailed<T>> for MeshFault {
    ghost from_gives = { λ _ e. e ≡ Memory };

    fn from(_: AllocFailed<T>) -> MeshFault {
        MeshFault::Memory
    }
}
