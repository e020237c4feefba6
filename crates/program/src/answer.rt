//! How the program ends, and which status that is.
ghost use Rattle.std.specs.Prelude.{◌≡◌};
ghost use Rattle.program.specs.Status.{mesh_status, nrrd_status, number_of, status_of, volume_status};

use byte_streams::ReadFault;
use iso_base::SizeFault;
use refusals::{MeshFault, NrrdFault, ShelfError};
use thiserror::Error;

/// How the program ends. Its number is what the system is told.
#[derive(Clone, Copy, Debug, PartialEq, Eq)]
pub enum Status {
    /// The whole output was written.
    Done,
    /// The mesh is no surface; the verdict was written.
    MeshRefused,
    /// The words are no command line.
    BadWords,
    /// The bytes hold no volume, the volume takes no pad, or the level is not above the pad.
    BadVolume,
    /// Reading the input failed.
    InputFault,
    /// The input, or a session's volume file, has too many bytes.
    InputTooLong,
    /// Writing the output failed.
    OutputFault,
    /// Memory could not be had.
    Memory,
    /// A session's volume file could not be read.
    ShelfFault,
    /// The bytes hold no mesh.
    BadMesh,
}

impl Status {
    /// The number of the status, 0 to 9.
    pub fn number(self) -> u8
        ensures { result ≡ number_of self }
    {
        match self {
            Status::Done => 0,
            Status::MeshRefused => 1,
            Status::BadWords => 2,
            Status::BadVolume => 3,
            Status::InputFault => 4,
            Status::InputTooLong => 5,
            Status::OutputFault => 6,
            Status::Memory => 7,
            Status::ShelfFault => 8,
            Status::BadMesh => 9,
        }
    }
}

/// Why there is no volume to work on.
#[derive(Clone, Copy, Debug, Error)]
pub enum VolumeFault {
    /// The bytes hold no volume.
    #[error("no volume")]
    Nrrd(NrrdFault),
    /// The sizes with the pad's layers are not within the limits.
    #[error("sizes out of range with the padding")]
    Pad(SizeFault),
    /// There is a pad and the level, in thousandths, is not above it.
    #[error("level not above pad")]
    LevelNotAbovePad { level: i64, pad: i64 },
}

/// A status, with what its note says.
#[derive(Clone, Copy)]
pub enum Answer {
    Done,
    MeshRefused,
    BadWords,
    BadVolume(VolumeFault),
    InputFault,
    InputTooLong,
    OutputFault,
    Memory,
    ShelfFault,
    BadMesh(MeshFault),
}

impl From<ReadFault> for Answer {
    ghost use Rattle.std.specs.Prelude.{◌≡◌};
    ghost use Rattle.program.specs.Answers.{input_answer};

    ghost from_gives = { λ fault answer. answer ≡ input_answer fault };

    /// What is answered where the input was not read to its end.
    fn from(fault: ReadFault) -> Answer {
        match fault {
            ReadFault::Failed => Answer::InputFault,
            ReadFault::TooLong => Answer::InputTooLong,
            ReadFault::Memory => Answer::Memory,
        }
    }
}

impl From<ShelfError> for Answer {
    ghost use Rattle.std.specs.Prelude.{◌≡◌};
    ghost use Rattle.program.specs.Answers.{shelf_answer};

    ghost from_gives = { λ fault answer. answer ≡ shelf_answer fault };

    /// What is answered where a session's volume file was not read.
    fn from(fault: ShelfError) -> Answer {
        match fault {
            ShelfError::Failed => Answer::ShelfFault,
            ShelfError::TooLong { .. } => Answer::InputTooLong,
            ShelfError::Memory => Answer::Memory,
        }
    }
}

fn status_of_nrrd(fault: NrrdFault) -> Status
    ensures { result ≡ nrrd_status fault }
{
    match fault {
        NrrdFault::Memory => Status::Memory,
        _ => Status::BadVolume,
    }
}

fn status_of_volume(fault: VolumeFault) -> Status
    ensures { result ≡ volume_status fault }
{
    match fault {
        VolumeFault::Nrrd(fault) => status_of_nrrd(fault),
        _ => Status::BadVolume,
    }
}

fn status_of_mesh(fault: MeshFault) -> Status
    ensures { result ≡ mesh_status fault }
{
    match fault {
        MeshFault::Memory => Status::Memory,
        _ => Status::BadMesh,
    }
}

impl Answer {
    /// The status. Want of memory for a volume or a mesh is that of the program.
    pub fn status(self) -> Status
        ensures { result ≡ status_of self }
    {
        match self {
            Answer::Done => Status::Done,
            Answer::MeshRefused => Status::MeshRefused,
            Answer::BadWords => Status::BadWords,
            Answer::BadVolume(fault) => status_of_volume(fault),
            Answer::InputFault => Status::InputFault,
            Answer::InputTooLong => Status::InputTooLong,
            Answer::OutputFault => Status::OutputFault,
            Answer::Memory => Status::Memory,
            Answer::ShelfFault => Status::ShelfFault,
            Answer::BadMesh(fault) => status_of_mesh(fault),
        }
    }
}
