//! How the program ends.

ghost use Rattle.std.specs.Prelude.{◌≡◌};
ghost use Rattle.slab_command.specs.Answers.{slab_status};

use command_terms::NoVolume;
use iso_base::Memory;
use program::{Answer, Status};

/// A status, with what its note says: one of those that all programs share, or why a slab is refused that is a volume.
#[derive(Clone, Copy)]
pub enum SlabAnswer {
    /// As other programs end.
    Common(Answer),
    /// It is not the last slab, and has too few slices to own one beside the two that it shares.
    Thin { slices: u32 },
    /// The number of a vertex would be this one, larger than a mesh file holds.
    Numbers { largest: u64 },
}

impl SlabAnswer {
    /// The status.
    pub fn status(self) -> Status
        ensures { result ≡ slab_status self }
    {
        match self {
            SlabAnswer::Common(answer) => answer.status(),
            SlabAnswer::Thin { .. } | SlabAnswer::Numbers { .. } => Status::BadVolume,
        }
    }
}

impl From<Answer> for SlabAnswer {
    ghost use Rattle.std.specs.Prelude.{◌≡◌};
    ghost use Rattle.slab_command.specs.declared.answer.SlabAnswer.TheVariants.{Common};

    ghost from_gives = { λ answer slab. slab ≡ Common answer };

    fn from(answer: Answer) -> SlabAnswer {
        SlabAnswer::Common(answer)
    }
}

impl From<NoVolume> for SlabAnswer {
    ghost use Rattle.std.specs.Prelude.{◌≡◌};
    ghost use Rattle.command_terms.specs.Volumes.{volume_answer};
    ghost use Rattle.slab_command.specs.declared.answer.SlabAnswer.TheVariants.{Common};

    ghost from_gives = { λ reason slab. slab ≡ Common (volume_answer reason) };

    fn from(reason: NoVolume) -> SlabAnswer {
        SlabAnswer::Common(Answer::from(reason))
    }
}

impl From<Memory> for SlabAnswer {
    ghost use Rattle.std.specs.Prelude.{◌≡◌};
    ghost use Rattle.program.specs.declared.answer.Answer.TheVariants.{Memory};
    ghost use Rattle.slab_command.specs.declared.answer.SlabAnswer.TheVariants.{Common};

    ghost from_gives = { λ _ slab. slab ≡ Common Memory };

    fn from(_: Memory) -> SlabAnswer {
        SlabAnswer::Common(Answer::Memory)
    }
}
