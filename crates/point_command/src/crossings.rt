//! The points at which a surface crosses the lattice edges of a volume.

ghost use Rattle.std.specs.Prelude.{◌≡◌, None, IfOk, IfErr};
ghost use Rattle.byte_streams.specs.Seen.{ReadsWithin};
ghost use Rattle.point_command.specs.Texts.{PutsPointsOf};
ghost use Rattle.point_command.specs.Meaning.{points_given};
ghost use Rattle.point_command.specs.Points.{HoldsPoints};
ghost use Rattle.command_terms.specs.Outcome.{Converts, streams_between};
ghost use Rattle.command_terms.specs.Volumes.{HoldsNone, IsNoVolume, volume_limit};

use crate::files::put_points_of_file;
use byte_streams::{Failed, Sink, Source};
use command_terms::{NoVolume, bytes_of_input};
use iso_base::Level;
use program::Answer;
use std::alloc::Global;

/// Appends the points of the volume of the bytes of a file.
fn put_text<K: Sink>(
    alloc: Global,
    bytes: Vec<u8>,
    level: Level,
    output: &mut K,
) -> Result<Result<(), Failed>, NoVolume>
    ensures text { IfOk result (PutsPointsOf bytes.items level (K.seen output.old) (K.seen output.new)) }
    ensures fault { IfErr result (IsNoVolume None level bytes.items) }
    ensures nothing { IfErr result (λ _. K.seen output.new ≡ K.seen output.old) }
{
    Ok(put_points_of_file(alloc, bytes, level, output)?)
}

/// Appends the points of the volume of the whole input.
fn put_points_of_input<S: Source, K: Sink>(
    alloc: Global,
    level: Level,
    input: &mut S,
    output: &mut K,
) -> Result<Result<(), Failed>, Answer>
    ensures text { IfOk result
        (HoldsPoints level (S.seen input.old) (S.seen input.new) (K.seen output.old) (K.seen output.new)) }
    ensures reading { ReadsWithin volume_limit (S.seen input.old) (S.seen input.new) }
    ensures fault { IfErr result (λ answer. HoldsNone None level (S.seen input.old) (S.seen input.new) answer) }
    ensures nothing { IfErr result (λ _. K.seen output.new ≡ K.seen output.old) }
{
    let bytes = bytes_of_input(alloc, input)?;
    Ok(put_text(alloc, bytes, level, output)?)
}

/// Writes the points at which the surface of a volume crosses lattice edges. Raw samples are not copied out of the bytes of the
/// file; where samples in print were read, these bytes are freed. Nothing is written before all but the output can no longer fail.
pub fn points<S: Source, K: Sink>(
    alloc: Global,
    level: Level,
    input: &mut S,
    output: &mut K,
) -> Answer
    ensures converts { Converts (points_given level)
        (streams_between S.seen K.seen input.old input.new output.old output.new) result }
    ensures reading { ReadsWithin volume_limit (S.seen input.old) (S.seen input.new) }
{
    match put_points_of_input(alloc, level, input, output) {
        Ok(Ok(())) => Answer::Done,
        Ok(Err(Failed)) => Answer::OutputFault,
        Err(answer) => answer,
    }
}
