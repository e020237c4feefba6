//! Why a file is not read as a volume.

ghost use Rattle.std.specs.Prelude.{◌≡◌};
ghost use Rattle.refusals.specs.declared.nrrd.NrrdFault.TheVariants.{Memory};

use iso_base::{Memory as NoMemory, SizeFault};
use std::alloc::{AllocError, AllocFailed};
use thiserror::Error;

/// A field of the header that is read.
#[derive(Clone, Copy, Debug)]
pub enum Field {
    /// `dimension`, the number of axes.
    Dimension,
    /// `type`, the kind of the samples.
    Kind,
    /// `sizes`, the numbers of samples along the axes.
    Sizes,
    /// `encoding`, the form of the samples.
    Encoding,
    /// `endian`, the order of a sample's bytes.
    Endian,
    /// `line skip`, how many lines stand before the samples.
    LineSkip,
    /// `byte skip`, how many bytes stand before the samples.
    ByteSkip,
}

/// An encoding that is not read.
#[derive(Clone, Copy, Debug)]
pub enum EncodingWord {
    /// `gz` or `gzip`.
    Gzip,
    /// `bz2` or `bzip2`.
    Bzip2,
    /// Any other word.
    Unknown,
}

/// Why the bytes of a file are not read as a volume. Lines are counted from 1.
#[derive(Clone, Copy, Debug, Error)]
pub enum NrrdFault {
    /// The first line is none of `NRRD0001` to `NRRD0005`.
    #[error("not nrrd")]
    NotNrrd,
    /// The header has more than 65,536 bytes; with its length.
    #[error("header too long")]
    HeaderTooLong { bytes: u64 },
    /// This line of the header has no colon, or begins with one.
    #[error("bad line")]
    BadLine { line: u32 },
    /// A field that is read stands a second time.
    #[error("repeated field")]
    RepeatedField { field: Field },
    /// A field that must be there is not.
    #[error("missing field")]
    MissingField { field: Field },
    /// The value of a field is none that the field may have.
    #[error("bad value")]
    BadValue { field: Field },
    /// The samples are of a type that is not read.
    #[error("unsupported type")]
    UnsupportedKind,
    /// The samples are in an encoding that is not read.
    #[error("unsupported encoding")]
    UnsupportedEncoding { word: EncodingWord },
    /// This line says that the samples are in another file.
    #[error("detached")]
    Detached { line: u32 },
    /// Lines or bytes are to be skipped before the samples.
    #[error("skip unsupported")]
    SkipUnsupported { field: Field },
    /// There are not three axes; with their number.
    #[error("not three axes")]
    NotThreeAxes { n: u64 },
    /// The sizes are not within the limits.
    #[error("sizes out of range")]
    Size(SizeFault),
    /// Samples of more than one byte have no byte order.
    #[error("no endian")]
    NoEndian,
    /// Fewer samples are there than the sizes ask for: how much is needed and how much is there, in bytes of raw samples,
    /// in words of text and in hex digits.
    #[error("short samples")]
    ShortSamples { needed: u64, present: u64 },
    /// Memory could not be had.
    #[error("memory")]
    Memory,
    /// What stands in print for the sample at this place, counted from 0, is none of its kind.
    #[error("bad sample")]
    BadSample { place: u64 },
}

impl From<AllocError> for NrrdFault {
    ghost from_gives = { λ _ e. e ≡ Memory };

    fn from(_: AllocError) -> NrrdFault {
        NrrdFault::Memory
    }
}

impl From<NoMemory> for NrrdFault {
    ghost from_gives = { λ _ e. e ≡ Memory };

    fn from(_: NoMemory) -> NrrdFault {
        NrrdFault::Memory
    }
}

impl<T: Drop> From<AllocFailed<T>> for NrrdFault {
    ghost from_gives = { λ _ e. e ≡ Memory };

    fn from(_: AllocFailed<T>) -> NrrdFault {
        NrrdFault::Memory
    }
}
