//! Answers that several crates share.

ghost use Rattle.std.specs.Prelude.{◌≡◌};

use std::alloc::{AllocError, AllocFailed};
use thiserror::Error;

/// Memory could not be had.
#[derive(Clone, Copy, Debug, PartialEq, Eq, Error)]
#[error("no memory")]
pub struct Memory;

impl From<AllocError> for Memory {
    fn from(_: AllocError) -> Memory {
        Memory
    }
}

impl<T: Drop> From<AllocFailed<T>> for Memory {
    fn from(_: AllocFailed<T>) -> Memory {
        Memory
    }
}

/// Why a workbench refuses a command.
#[derive(Clone, Copy, Debug, PartialEq, Eq, Error)]
pub enum BenchFault {
    /// Memory could not be had.
    #[error("no memory")]
    Memory,
    /// A point is not in the unpadded volume.
    #[error("outside of the volume")]
    Outside,
    /// A value is not one of the volume's kind; with the range of that kind.
    #[error("value out of range")]
    ValueOutside { least: i64, greatest: i64 },
    /// A level's absolute value is 2^33 times 1,000 thousandths or more.
    #[error("level out of range")]
    LevelOutside,
    /// There is a pad and the level, in thousandths, is not above it.
    #[error("level not above pad")]
    LevelNotAbovePad { level: i64, pad: i64 },
    /// There is no earlier state.
    #[error("nothing to undo")]
    NothingToUndo,
    /// There is no later state.
    #[error("nothing to redo")]
    NothingToRedo,
    /// A box has more points than one command may fill; with their number.
    #[error("box of too many points")]
    FillTooLarge { n: u64 },
    /// A window has only n points along an axis, fewer than two: the first such axis, 0 is x.
    #[error("window too thin")]
    WindowThin { axis: u8, n: u64 },
    /// The shelf did not take the file.
    #[error("file not written")]
    ShelfFailed,
    /// The volume has no such plane.
    #[error("no such plane")]
    NoSuchPlane { k: i64 },
}

impl From<Memory> for BenchFault {
    ghost use Rattle.iso_base.specs.declared.fault.BenchFault.TheVariants.{Memory};

    ghost from_gives = { λ _ fault. fault ≡ Memory };

    fn from(_: Memory) -> BenchFault {
        BenchFault::Memory
    }
}

impl From<AllocError> for BenchFault {
    ghost use Rattle.iso_base.specs.declared.fault.BenchFault.TheVariants.{Memory};

    ghost from_gives = { λ _ fault. fault ≡ Memory };

    fn from(_: AllocError) -> BenchFault {
        BenchFault::Memory
    }
}

/// What was written: the numbers of vertices, of faces, and of bytes.
#[derive(Clone, Copy, Debug, PartialEq, Eq)]
pub struct Written {
    pub vertices: u32,
    pub faces: u32,
    pub bytes: u64,
}
