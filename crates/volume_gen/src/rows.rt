//! The file of a generated volume, written run by run.
ghost use Rattle.std.specs.Prelude.{◌≡◌, ◌+◌, ◌<◌, ◌≤◌, ◌++◌, [], pos, replicate};
ghost use Rattle.iso_base.specs.declared.kind.SampleKind.TheVariants.{U8};
ghost use Rattle.iso_defs.specs.Grid.{point_count};
ghost use Rattle.byte_streams.specs.Seen.{Puts, Stages};
ghost use Rattle.nrrd.specs.Writing.{samples_text, save_text};
ghost use Rattle.volume_gen.specs.Generated.{first_samples, generated_volume, row_samples};

use crate::blocks::block_sample;
use byte_streams::{Failed, Sink, stage, write_all_of};
use iso_base::{SampleKind, Sizes};
use nrrd::put_nrrd_head;

/// The room of a buffer for `put_generated` that never grows: a block that is staged, and a run of samples behind it.
pub const STAGE_BYTES: usize = 32_768 + 4_096;

/// Puts a sample behind what waits, so many times.
fn stage_run<K: Sink>(
    sink: &mut K,
    waiting: &mut Vec<u8>,
    sample: u8,
    count: usize,
) -> Result<(), Failed>
    requires { count ≤ 8 }
    ensures { Stages (K.seen sink.old) (K.seen sink.new) waiting.old.items waiting.new.items result
        (samples_text U8 (replicate count (pos sample))) }
{
    let run = [sample; 8];
    stage(sink, waiting, &run[..count])
}

/// Puts the samples of a row behind what waits.
fn stage_row<K: Sink>(
    sink: &mut K,
    waiting: &mut Vec<u8>,
    seed: u64,
    nx: u32,
    y: u32,
    z: u32,
) -> Result<(), Failed>
    requires x { nx ≤ 1026 }
    requires y { y < 1026 }
    requires z { z < 1026 }
    ensures { Stages (K.seen sink.old) (K.seen sink.new) waiting.old.items waiting.new.items result
        (samples_text U8 (row_samples seed y z nx)) }
{
    let block = 256 * u64::from(y / 8) + 65_536 * u64::from(z / 8);
    for run in 0..nx.div_ceil(8) {
        let count = (nx - 8 * run).min(8) as usize;
        stage_run(
            sink,
            waiting,
            block_sample(seed, u64::from(run) + block),
            count,
        )?;
    }
    Ok(())
}

/// Puts all samples behind what waits.
fn stage_rows<K: Sink>(
    sink: &mut K,
    waiting: &mut Vec<u8>,
    seed: u64,
    sizes: &Sizes,
) -> Result<(), Failed>
    ensures { Stages (K.seen sink.old) (K.seen sink.new) waiting.old.items waiting.new.items result
        (samples_text U8 (first_samples seed sizes.now (point_count sizes.now))) }
{
    let (nx, ny) = (sizes.nx(), sizes.ny());
    for row in 0..ny * sizes.nz() {
        stage_row(sink, waiting, seed, nx, row % ny, row / ny)?;
    }
    Ok(())
}

/// Puts the samples behind what waits, and then writes what waits.
fn put_rows<K: Sink>(
    sink: &mut K,
    waiting: &mut Vec<u8>,
    seed: u64,
    sizes: &Sizes,
) -> Result<(), Failed>
    requires { waiting.old.items ≡ [] }
    ensures { Puts (K.seen sink.old) (K.seen sink.new) result
        (samples_text U8 (first_samples seed sizes.now (point_count sizes.now))) }
{
    stage_rows(sink, waiting, seed, sizes)?;
    write_all_of(sink, waiting)
}

/// Appends the file of the generated volume of a seed and sizes, row by row. The samples are gathered in `waiting`, which is
/// empty at first: give it the room of a block and a line, and no memory is taken. `Failed` comes only where the sink's
/// count of faults rose; a front of the file was then taken.
pub fn put_generated<K: Sink>(
    sink: &mut K,
    waiting: &mut Vec<u8>,
    seed: u64,
    sizes: &Sizes,
) -> Result<(), Failed>
    requires { waiting.old.items ≡ [] }
    ensures { Puts (K.seen sink.old) (K.seen sink.new) result (save_text (generated_volume seed sizes.now)) }
{
    put_nrrd_head(sink, sizes, SampleKind::U8)?;
    put_rows(sink, waiting, seed, sizes)
}
