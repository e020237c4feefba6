//! Why a text is not read as samples.

ghost use Rattle.std.specs.Prelude.{◌≡◌};
ghost use Rattle.text_samples.specs.declared.fault.SampleFault.TheVariants.{Memory};

use std::alloc::{AllocError, AllocFailed};
use thiserror::Error;

/// Why a text is not read as samples.
#[derive(Clone, Copy, Debug, PartialEq, Eq, Error)]
pub enum SampleFault {
    /// What stands for the sample at this place, counted from 0, is none of the kind.
    #[error("bad sample")]
    Bad { place: u64 },
    /// Fewer words, or digits, are there than needed; with both numbers.
    #[error("short samples")]
    Short { needed: u64, present: u64 },
    /// Memory could not be had.
    #[error("memory")]
    Memory,
}

impl From<AllocError> for SampleFault {
    ghost from_gives = { λ _ e. e ≡ Memory };

    fn from(_: AllocError) -> SampleFault {
        SampleFault::Memory
    }
}

impl<T: Drop> From<AllocFailed<T>> for SampleFault {
    ghost from_gives = { λ _ e. e ≡ Memory };

    fn from(_: AllocFailed<T>) -> SampleFault {
        SampleFault::Memory
    }
}
