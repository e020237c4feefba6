//! Why a volume gets no padding.

use iso_base::SizeFault;
use std::alloc::AllocError;
use thiserror::Error;

/// Why a volume gets no pad.
#[derive(Clone, Copy, Debug, PartialEq, Eq, Error)]
pub enum PadFault {
    /// The sizes with the pad's layers are not within the limits.
    #[error("sizes out of range with the padding")]
    Size(SizeFault),
    /// Memory could not be had.
    #[error("no memory")]
    Memory,
}

impl From<AllocError> for PadFault {
    ghost use Rattle.std.specs.Prelude.{◌≡◌};
    ghost use Rattle.refusals.specs.declared.pad.PadFault.TheVariants.{Memory};

    ghost from_gives = { λ _ fault. fault ≡ Memory };

    fn from(_: AllocError) -> PadFault {
        PadFault::Memory
    }
}
