//! Why a command gets no volume.

use iso_base::Memory;
use program::{Answer, VolumeFault};
use refusals::{NrrdFault, PadFault};

/// Why the bytes of a file hold no volume to work on.
#[derive(Clone, Copy)]
pub enum NoVolume {
    /// They hold none, it takes no pad, or the level is not above the pad.
    Refused(VolumeFault),
    /// Memory could not be had.
    Memory,
}

impl From<NrrdFault> for NoVolume {
    ghost use Rattle.std.specs.Prelude.{◌≡◌};
    ghost use Rattle.command_terms.specs.Volumes.{volume_refusal};

    ghost from_gives = { λ fault reason. reason ≡ volume_refusal fault };

    fn from(fault: NrrdFault) -> NoVolume {
        match fault {
            NrrdFault::Memory => NoVolume::Memory,
            fault => NoVolume::Refused(VolumeFault::Nrrd(fault)),
        }
    }
}

impl From<PadFault> for NoVolume {
    ghost use Rattle.std.specs.Prelude.{◌≡◌};
    ghost use Rattle.command_terms.specs.Volumes.{pad_refusal};

    ghost from_gives = { λ fault reason. reason ≡ pad_refusal fault };

    fn from(fault: PadFault) -> NoVolume {
        match fault {
            PadFault::Size(fault) => NoVolume::Refused(VolumeFault::Pad(fault)),
            PadFault::Memory => NoVolume::Memory,
        }
    }
}

impl From<Memory> for NoVolume {
    ghost use Rattle.std.specs.Prelude.{◌≡◌};
    ghost use Rattle.command_terms.specs.declared.reasons.NoVolume.TheVariants.{Memory};

    ghost from_gives = { λ _ reason. reason ≡ Memory };

    fn from(_: Memory) -> NoVolume {
        NoVolume::Memory
    }
}

impl From<NoVolume> for Answer {
    ghost use Rattle.std.specs.Prelude.{◌≡◌};
    ghost use Rattle.command_terms.specs.Volumes.{volume_answer};

    ghost from_gives = { λ reason answer. answer ≡ volume_answer reason };

    fn from(reason: NoVolume) -> Answer {
        match reason {
            NoVolume::Refused(fault) => Answer::BadVolume(fault),
            NoVolume::Memory => Answer::Memory,
        }
    }
}
