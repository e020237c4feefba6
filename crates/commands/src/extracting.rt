//! The mesh of a volume, from scratch.

ghost use Rattle.std.specs.Prelude.{◌≡◌, ℤ, is_some, length, Ok, All, IfSome};
ghost use Rattle.iso_defs.specs.Grid.{point_count};
ghost use Rattle.iso_base.specs.Volume.{IsVoxels, Volume, unpadded, IsSample};
ghost use Rattle.byte_streams.specs.Seen.{Puts, ReadsWithin};
ghost use Rattle.bench_core.specs.Surface.{IsWatertight};
ghost use Rattle.commands.specs.Headline.{mesh_given, mesh_in, style_of, text_of_volume, WritesWatertight};
ghost use Rattle.program.specs.declared.answer.Answer.TheVariants as answers;
ghost use Rattle.command_terms.specs.Outcome.{Converts, WritesGiven, streams_between};
ghost use Rattle.command_terms.specs.Volumes.{volume_limit, volume_of};

use crate::volumes::in_pad;
use command_terms::{NoVolume, bytes_of_input};
use iso_base::{Level, MeshFormat, Sizes, Written};
use iso_io::{Failed, Sink, Source};
use list_mesh::ListMesh;
use mesh_lines::{Origin, Style};
use mesh_text::TwoWayFormat;
use nrrd_read::{FileVolume, RawVolume, read_file_volume};
use program::Answer;
use raw_samples::with_samples;
use samples::Samples;
use std::alloc::Global;

/// Which mesh of a volume is asked for.
#[derive(Clone, Copy)]
struct MeshRequest {
    level: Level,
    pad: Option<i64>,
    format: TwoWayFormat,
}

impl MeshRequest {
    /// How the mesh is written: with a pad, the pad's layer is taken off each coordinate.
    fn style(self) -> Style
        ensures { result ≡ style_of self.format (is_some self.pad) }
    {
        Style {
            format: MeshFormat::from(self.format),
            origin: Origin::of(self.pad),
        }
    }
}

/// Appends the text of a volume's mesh.
fn put_text<S: Samples, K: Sink>(
    sink: &mut K,
    mesh: &mut ListMesh<'_, S>,
    asked: MeshRequest,
) -> Result<Written, Failed>
    ensures { (v : Volume) (level : ℤ) → is_some asked.pad ≡ is_some v.pad → mesh.old
        ≡ record { grid = v.grid; samples = v.samples; level = level }
        → Puts (K.seen sink.old) (K.seen sink.new) result (text_of_volume asked.format level v) }
{
    mesh.write(asked.style(), sink)
}

/// Writes the mesh of a volume, from its sizes and its samples, those of the pad that is asked for among them. Never inlined: what
/// stands on the stack while a mesh is written would stand there twice, in a caller that writes volumes without a pad too.
#[inline(never)]
fn write_mesh<S: Samples, K: Sink>(
    alloc: Global,
    asked: MeshRequest,
    sizes: Sizes,
    samples: &S,
    output: &mut K,
) -> Answer
    requires count { length (S.list samples.now) ≡ point_count sizes }
    requires samples { All IsSample (S.list samples.now) }
    ensures { (v : Volume) → v.grid ≡ sizes → v.samples ≡ S.list samples.now → is_some asked.pad ≡ is_some v.pad
        → WritesGiven (Ok (text_of_volume asked.format asked.level v)) (K.seen output.old) (K.seen output.new) result }
{
    let Ok(mut mesh) = ListMesh::of(alloc, sizes, samples, asked.level) else {
        return Answer::Memory;
    };
    match put_text(output, &mut mesh, asked) {
        Ok(_) => Answer::Done,
        Err(Failed) => Answer::OutputFault,
    }
}

/// Writes the mesh of a volume in a pad, from the samples without it: no list of the samples in the pad is made.
fn extract_padded<S: Samples, K: Sink>(
    alloc: Global,
    asked: MeshRequest,
    pad: i64,
    sizes: Sizes,
    samples: &S,
    output: &mut K,
) -> Answer
    requires count { length (S.list samples.now) ≡ point_count sizes }
    requires samples { All IsSample (S.list samples.now) }
    requires range { IsSample pad }
    requires pad { asked.pad ≡ Some pad }
    ensures { (v : Volume) → v.grid ≡ sizes → v.samples ≡ S.list samples.now
        → WritesGiven (mesh_in asked.level asked.pad asked.format v) (K.seen output.old) (K.seen output.new) result }
{
    let padded = match in_pad(samples, sizes, pad, asked.level) {
        Ok(padded) => padded,
        Err(reason) => return Answer::from(reason),
    };
    write_mesh(alloc, asked, padded.sizes(), &padded, output)
}

/// Writes the mesh of a volume, in its pad where it is to have one, from the samples without it.
fn extract_samples<S: Samples, K: Sink>(
    alloc: Global,
    asked: MeshRequest,
    sizes: Sizes,
    samples: &S,
    output: &mut K,
) -> Answer
    requires count { length (S.list samples.now) ≡ point_count sizes }
    requires samples { All IsSample (S.list samples.now) }
    requires range { IfSome asked.pad IsSample }
    ensures { (v : Volume) → v.grid ≡ sizes → v.pad ≡ None → v.samples ≡ S.list samples.now
        → WritesGiven (mesh_in asked.level asked.pad asked.format v) (K.seen output.old) (K.seen output.new) result }
{
    match asked.pad {
        Some(pad) => extract_padded(alloc, asked, pad, sizes, samples, output),
        None => write_mesh(alloc, asked, sizes, samples, output),
    }
}

/// Writes the mesh of a volume of a file, from its samples.
fn extract_from<S: Samples, K: Sink>(
    alloc: Global,
    asked: MeshRequest,
    volume: &RawVolume<'_>,
    samples: &S,
    output: &mut K,
) -> Answer
    requires samples { S.list samples.now ≡ volume.now.samples }
    requires range { IfSome asked.pad IsSample }
    ensures text { WritesGiven (mesh_in asked.level asked.pad asked.format (unpadded volume.now))
        (K.seen output.old) (K.seen output.new) result }
    ensures voxels { IsVoxels volume.now }
{
    extract_samples(alloc, asked, volume.sizes(), samples, output)
}

/// Writes the mesh of a volume whose samples lie in bytes.
fn extract_raw<K: Sink>(
    alloc: Global,
    asked: MeshRequest,
    volume: &RawVolume<'_>,
    output: &mut K,
) -> Answer
    requires { IfSome asked.pad IsSample }
    ensures text { WritesGiven (mesh_in asked.level asked.pad asked.format (unpadded volume.now))
        (K.seen output.old) (K.seen output.new) result }
    ensures voxels { IsVoxels volume.now }
{
    with_samples!(volume.samples(), samples => extract_from(alloc, asked, volume, &samples, output))
}

/// Writes the mesh of the volume in the bytes of a file, in its pad where it is to have one.
fn extract_bytes<K: Sink>(
    alloc: Global,
    asked: MeshRequest,
    bytes: Vec<u8>,
    output: &mut K,
) -> Answer
    requires { IfSome asked.pad IsSample }
    ensures text { WritesGiven (mesh_given asked.level asked.pad asked.format bytes.items) (K.seen output.old)
        (K.seen output.new) result }
    ensures surface { result ≡ answers.Done
        → (v : Volume) × (volume_of asked.pad asked.level bytes.items ≡ Ok v) × IsWatertight v asked.level }
{
    let read = match read_file_volume(alloc, &bytes) {
        Ok((FileVolume::Raw(raw), _)) => return extract_raw(alloc, asked, &raw, output),
        Ok((FileVolume::Read(read), _)) => read,
        Err(fault) => return Answer::from(NoVolume::from(fault)),
    };
    drop(bytes);
    extract_raw(alloc, asked, &read.raw(), output)
}

/// Writes the mesh of the volume in the input, which is never held. Raw samples stay in the bytes of the file, with a pad and
/// without; text and hex samples are read into bytes of their own first, in the width of their kind, and those of the file are
/// freed.
pub fn extract<S: Source, K: Sink>(
    alloc: Global,
    level: Level,
    pad: Option<i64>,
    format: TwoWayFormat,
    input: &mut S,
    output: &mut K,
) -> Answer
    requires { IfSome pad IsSample }
    ensures converts { Converts (mesh_given level pad format)
        (streams_between S.seen K.seen input.old input.new output.old output.new) result }
    ensures shows { result ≡ answers.Done → WritesWatertight level pad format
        (streams_between S.seen K.seen input.old input.new output.old output.new) }
    ensures reading { ReadsWithin volume_limit (S.seen input.old) (S.seen input.new) }
{
    match bytes_of_input(alloc, input) {
        Ok(bytes) => {
            let asked = MeshRequest { level, pad, format };
            extract_bytes(alloc, asked, bytes, output)
        }
        Err(answer) => answer,
    }
}
