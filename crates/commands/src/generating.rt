//! Generated volumes.

ghost use Rattle.byte_streams.specs.Seen.{Feed};
ghost use Rattle.commands.specs.Generating.{WritesGenerated};
ghost use Rattle.command_terms.specs.Outcome.{unread_between};

use iso_base::Sizes;
use iso_io::{Failed, Sink};
use program::Answer;
use std::alloc::Global;
use volume_gen::{STAGE_BYTES, put_generated};

/// Writes the file of the generated volume of a seed and sizes, row by row.
pub fn generate<K: Sink>(alloc: Global, seed: u64, sizes: &Sizes, output: &mut K) -> Answer
    ensures { (input : Feed)
        → WritesGenerated seed sizes.now (unread_between input K.seen output.old output.new) result }
{
    let Ok(mut waiting) = Vec::with_capacity(alloc, STAGE_BYTES) else {
        return Answer::Memory;
    };
    match put_generated(output, &mut waiting, seed, sizes) {
        Ok(()) => Answer::Done,
        Err(Failed) => Answer::OutputFault,
    }
}
