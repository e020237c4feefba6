//! A slab of a volume in the input: counted, and written where there are to be files.

ghost use Rattle.std.specs.Prelude.{◌≡◌, All, IfErr, IfOk, IfSome, Ok, Err, None, Some, length};
ghost use Rattle.iso_defs.specs.Grid.{point_count};
ghost use Rattle.iso_base.specs.Volume.{IsSample, Voxels};
ghost use Rattle.flat_mesh.specs.Lattice.{Leveled};
ghost use Rattle.byte_streams.specs.Seen.{ReadsWithin};
ghost use Rattle.iso_io.specs.Shelves.{Store};
ghost use Rattle.command_terms.specs.Volumes.{volume_limit};
ghost use Rattle.slab_command.specs.Outcome.{GivesOutput, IsReason, IsRefusal, MakesFiles, PutsLine, ServesSlab, call_between};
ghost use Rattle.slab_command.specs.Parts.{counts_of, output_by, slab_given, with_files_of};
ghost use Rattle.slab_command.specs.Slabs.{ends_of, owned_part, padded, refused, with_pad};
ghost use Rattle.slab_command.specs.Words.{AreSound};

use crate::answer::SlabAnswer;
use crate::asked::{Slab, SlabFiles, SlabJob};
use crate::counts::{check_numbers, counts_line, owned_slices};
use crate::files::write_files;
use command_terms::{NoVolume, bytes_of_input};
use iso_base::Sizes;
use iso_io::{Failed, Shelf, Sink, Source, write_all_of};
use list_mesh::ListPart;
use mesh_walk::PartCounts;
use nrrd_read::{FileVolume, RawVolume, read_file_volume};
use padded_samples::{Ends, PaddedSlab};
use program::{Answer, VolumeFault};
use raw_samples::with_samples;
use sample_rows::count_slices;
use samples::Samples;
use std::alloc::Global;

/// A refusal that other programs have too.
fn refused(fault: VolumeFault) -> SlabAnswer
    ensures { result ≡ refused fault }
{
    SlabAnswer::from(Answer::BadVolume(fault))
}

/// The samples of a slab in its padding: a ring round each slice, and a layer below the first slice of the volume and above the
/// last one. The level is to be above the pad.
fn in_pad<S: Samples>(
    slab: Slab,
    pad: i64,
    sizes: Sizes,
    samples: &S,
) -> Result<PaddedSlab<'_, S>, SlabAnswer>
    requires count { length (S.list samples.now) ≡ point_count sizes }
    requires range { IsSample pad }
    ensures view { IfOk result (λ p. p
        ≡ record { grid = sizes; samples = S.list samples.now; pad = pad; ends = ends_of slab }) }
    ensures volume { (v : Voxels) → v.grid ≡ sizes
        → IfOk result (λ _. with_pad slab (Some pad) v ≡ owned_part slab (padded slab pad v)) }
    ensures fault { (v : Voxels) → v.grid ≡ sizes
        → IfErr result (λ answer. with_pad slab (Some pad) v ≡ Err answer) }
    ensures refused { IfErr result IsRefusal }
{
    let ends = Ends {
        below: slab.from == 0,
        above: slab.is_last,
    };
    let padded = match PaddedSlab::new(samples, sizes, pad, ends) {
        Ok(padded) => padded,
        Err(fault) => return Err(refused(VolumeFault::Pad(fault))),
    };
    if !slab.level.is_above_pad(pad) {
        let level = slab.level.value();
        return Err(refused(VolumeFault::LevelNotAbovePad { level, pad }));
    }
    Ok(padded)
}

/// The part of the mesh that a slab owns.
fn part_of<S: Samples>(
    alloc: Global,
    slab: Slab,
    sizes: Sizes,
    samples: &S,
) -> Result<ListPart<'_, S>, SlabAnswer>
    requires count { length (S.list samples.now) ≡ point_count sizes }
    requires samples { All IsSample (S.list samples.now) }
    ensures part { (v : Leveled) → v ≡ record { grid = sizes; samples = S.list samples.now; level = slab.level }
        → IfOk result (λ p. owned_part slab v ≡ Ok p) }
    ensures fault { (v : Leveled) → v.grid ≡ sizes → IfErr result (IsReason (owned_part slab v)) }
{
    let slices = owned_slices(slab, sizes.nz())?;
    Ok(ListPart::of(alloc, sizes, samples, slab.level, slices)?)
}

/// Writes the line of what a slab owns.
fn put_line<K: Sink>(line: &str, output: &mut K) -> SlabAnswer
    ensures { PutsLine line.now (K.seen output.old) (K.seen output.new) result }
{
    match write_all_of(output, line.as_bytes()) {
        Ok(()) => SlabAnswer::from(Answer::Done),
        Err(Failed) => SlabAnswer::from(Answer::OutputFault),
    }
}

/// Makes the files of a part that has so many centres.
fn make_files<S: Samples, H: Shelf>(
    part: ListPart<'_, S>,
    centres: u32,
    slab: Slab,
    files: &SlabFiles,
    shelf: &mut H,
) -> Result<(), SlabAnswer>
    requires files { AreSound files.now }
    requires centres { centres ≡ (counts_of part).centres }
    ensures { MakesFiles (with_files_of slab (Some files.now) part.entry) (H.seen shelf.old) (H.seen shelf.new) result }
{
    check_numbers(files, part.volume_edges(), centres)?;
    match write_files(part, slab, files, shelf) {
        Ok(()) => Ok(()),
        Err(Failed) => Err(SlabAnswer::from(Answer::ShelfFault)),
    }
}

/// How many slices a slab owns, and what these have of the mesh, of which no list is made.
fn count_owned<S: Samples>(
    alloc: Global,
    slab: Slab,
    sizes: Sizes,
    samples: &S,
) -> Result<(u32, PartCounts), SlabAnswer>
    requires count { length (S.list samples.now) ≡ point_count sizes }
    requires samples { All IsSample (S.list samples.now) }
    ensures slices { (v : Leveled) → v ≡ record { grid = sizes; samples = S.list samples.now; level = slab.level }
        → IfOk result (λ owned. owned_part slab v ≡ Ok (record { volume = v; slices = owned.0 })) }
    ensures counts { (v : Leveled) → v ≡ record { grid = sizes; samples = S.list samples.now; level = slab.level }
        → IfOk result (λ owned. owned.1 ≡ counts_of (record { volume = v; slices = owned.0 })) }
    ensures fault { (v : Leveled) → v.grid ≡ sizes → IfErr result (IsReason (owned_part slab v)) }
{
    let level = slab.level;
    let slices = owned_slices(slab, sizes.nz())?;
    let counts = count_slices(alloc, sizes, samples, level, slices)?;
    let part = PartCounts {
        edges: counts.edges,
        centres: counts.cells.centres,
        faces: counts.cells.faces,
    };
    Ok((slices, part))
}

/// Counts a slab, and writes the line alone.
fn count_stored<S: Samples, K: Sink>(
    alloc: Global,
    slab: Slab,
    sizes: Sizes,
    samples: &S,
    output: &mut K,
) -> SlabAnswer
    requires count { length (S.list samples.now) ≡ point_count sizes }
    requires samples { All IsSample (S.list samples.now) }
    ensures { (v : Leveled) → v ≡ record { grid = sizes; samples = S.list samples.now; level = slab.level }
        → (store : Store) → GivesOutput (output_by (record { slab = slab; files = None }) (owned_part slab v))
        store store (K.seen output.old) (K.seen output.new) result }
{
    match count_owned(alloc, slab, sizes, samples) {
        Ok((slices, counts)) => put_line(counts_line(slices, counts).as_str(), output),
        Err(answer) => answer,
    }
}

/// Counts a slab, and writes it where there are to be files, from its samples in its padding. Never inlined: what stands on the
/// stack while a mesh is written would stand there twice, in a caller that does so without padding too.
#[inline(never)]
fn serve_stored<S: Samples, K: Sink, H: Shelf>(
    alloc: Global,
    job: &SlabJob,
    sizes: Sizes,
    samples: &S,
    output: &mut K,
    shelf: &mut H,
) -> SlabAnswer
    requires files { IfSome job.now.files AreSound }
    requires count { length (S.list samples.now) ≡ point_count sizes }
    requires samples { All IsSample (S.list samples.now) }
    ensures { (v : Leveled) → v ≡ record { grid = sizes; samples = S.list samples.now; level = job.now.slab.level }
        → GivesOutput (output_by job.now (owned_part job.now.slab v))
        (H.seen shelf.old) (H.seen shelf.new) (K.seen output.old) (K.seen output.new) result }
{
    let files = match &job.files {
        None => return count_stored(alloc, job.slab, sizes, samples, output),
        Some(files) => files,
    };
    let mut part = match part_of(alloc, job.slab, sizes, samples) {
        Ok(part) => part,
        Err(answer) => return answer,
    };
    let counts = part.count();
    let line = counts_line(part.slices(), counts);
    match make_files(part, counts.centres, job.slab, files, shelf) {
        Ok(()) => put_line(line.as_str(), output),
        Err(answer) => answer,
    }
}

/// The same from its samples without the padding, of which no list is made.
fn serve_samples<S: Samples, K: Sink, H: Shelf>(
    alloc: Global,
    job: &SlabJob,
    sizes: Sizes,
    samples: &S,
    output: &mut K,
    shelf: &mut H,
) -> SlabAnswer
    requires pad { IfSome job.now.slab.pad IsSample }
    requires files { IfSome job.now.files AreSound }
    requires count { length (S.list samples.now) ≡ point_count sizes }
    requires samples { All IsSample (S.list samples.now) }
    ensures { (v : Voxels) → v.grid ≡ sizes → v.samples ≡ S.list samples.now
        → GivesOutput (output_by job.now (with_pad job.now.slab job.now.slab.pad v))
        (H.seen shelf.old) (H.seen shelf.new) (K.seen output.old) (K.seen output.new) result }
{
    let Some(pad) = job.slab.pad else {
        return serve_stored(alloc, job, sizes, samples, output, shelf);
    };
    match in_pad(job.slab, pad, sizes, samples) {
        Ok(padded) => serve_stored(alloc, job, padded.sizes(), &padded, output, shelf),
        Err(answer) => answer,
    }
}

/// The same for a volume of a file, from its samples.
fn serve_from<S: Samples, K: Sink, H: Shelf>(
    alloc: Global,
    job: &SlabJob,
    volume: &RawVolume<'_>,
    samples: &S,
    output: &mut K,
    shelf: &mut H,
) -> SlabAnswer
    requires pad { IfSome job.now.slab.pad IsSample }
    requires files { IfSome job.now.files AreSound }
    requires samples { S.list samples.now ≡ volume.now.samples }
    ensures { GivesOutput (output_by job.now (with_pad job.now.slab job.now.slab.pad volume.now))
        (H.seen shelf.old) (H.seen shelf.new) (K.seen output.old) (K.seen output.new) result }
{
    serve_samples(alloc, job, volume.sizes(), samples, output, shelf)
}

/// The same for a volume whose samples lie in bytes.
fn serve_raw<K: Sink, H: Shelf>(
    alloc: Global,
    job: &SlabJob,
    volume: &RawVolume<'_>,
    output: &mut K,
    shelf: &mut H,
) -> SlabAnswer
    requires pad { IfSome job.now.slab.pad IsSample }
    requires files { IfSome job.now.files AreSound }
    ensures { GivesOutput (output_by job.now (with_pad job.now.slab job.now.slab.pad volume.now))
        (H.seen shelf.old) (H.seen shelf.new) (K.seen output.old) (K.seen output.new) result }
{
    with_samples!(volume.samples(), samples => serve_from(alloc, job, volume, &samples, output, shelf))
}

/// The same for the volume in the bytes of a file.
fn serve_bytes<K: Sink, H: Shelf>(
    alloc: Global,
    job: &SlabJob,
    bytes: Vec<u8>,
    output: &mut K,
    shelf: &mut H,
) -> SlabAnswer
    requires pad { IfSome job.now.slab.pad IsSample }
    requires files { IfSome job.now.files AreSound }
    ensures { GivesOutput (slab_given job.now bytes.items)
        (H.seen shelf.old) (H.seen shelf.new) (K.seen output.old) (K.seen output.new) result }
{
    let read = match read_file_volume(alloc, &bytes) {
        Ok((FileVolume::Raw(raw), _)) => return serve_raw(alloc, job, &raw, output, shelf),
        Ok((FileVolume::Read(read), _)) => read,
        Err(fault) => return SlabAnswer::from(NoVolume::from(fault)),
    };
    drop(bytes);
    serve_raw(alloc, job, &read.raw(), output, shelf)
}

/// Counts the slab in the input, and writes its part of the mesh into files, where there are to be any; and then says what it owns.
/// The part is never held. Raw samples stay in the bytes of the input; text and hex samples are read into bytes of their own
/// first, and those of the input are freed. Nothing is written before the last memory is asked for.
pub fn serve_slab<S: Source, K: Sink, H: Shelf>(
    alloc: Global,
    job: &SlabJob,
    input: &mut S,
    output: &mut K,
    shelf: &mut H,
) -> SlabAnswer
    requires pad { IfSome job.now.slab.pad IsSample }
    requires files { IfSome job.now.files AreSound }
    ensures serves { ServesSlab job.now
        (call_between S.seen K.seen H.seen input.old input.new output.old output.new shelf.old shelf.new) result }
    ensures reading { ReadsWithin volume_limit (S.seen input.old) (S.seen input.new) }
{
    match bytes_of_input(alloc, input) {
        Ok(bytes) => serve_bytes(alloc, job, bytes, output, shelf),
        Err(answer) => SlabAnswer::from(answer),
    }
}
