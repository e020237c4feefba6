//! The whole reader.
ghost use Rattle.std.specs.Prelude.{◌≡◌, length, IfOk};
ghost use Rattle.iso_defs.specs.Grid.{point_count};
ghost use Rattle.text_samples.specs.Text.{text_samples};
ghost use Rattle.text_samples.specs.Hex.{hex_samples};
ghost use Rattle.refusals.specs.declared.nrrd.NrrdFault.TheVariants.{ShortSamples};
ghost use Rattle.nrrd_read.specs.Scanning.{map_ok, fields_and_bytes, measured, seen_fields};
ghost use Rattle.nrrd_read.specs.Nrrd.{fault_of, is_first, split_of, nrrd_of, raw_samples, voxels_of, Answers};
ghost use Rattle.nrrd_read.specs.Files.{file_voxels, seen_volume};

use crate::encoding::Encoding;
use crate::header::{Header, behind_header, read_fields};
use crate::layout::{Layout, read_layout};
use iso_base::VoxelData;
use raw_samples::{RawVolume, ReadVolume};
use refusals::NrrdFault;
use std::alloc::{AllocError, Global};
use text_lines::next_line;
use text_samples::{SampleFault, read_hex_bytes, read_text_bytes};

/// The most bytes that a header may have.
const HEADER_LIMIT: usize = 65_536;

/// Whether a line is one of the five that a volume begins with.
#[tactic(auto, unfolding(crate::specs::Nrrd::is_first))]
fn is_first_line(text: &[u8]) -> bool
    ensures { result ≡ is_first text.now }
{
    text == b"NRRD0001".as_slice()
        || text == b"NRRD0002".as_slice()
        || text == b"NRRD0003".as_slice()
        || text == b"NRRD0004".as_slice()
        || text == b"NRRD0005".as_slice()
}

/// The header's fields, where no line of it has a fault, and the bytes of the samples. Where the header ends is looked for
/// first: one that is too long is refused before its lines are read.
#[tactic(auto, unfolding(crate::specs::Nrrd::split_of))]
fn split(bytes: &[u8]) -> Result<(Header<'_>, &[u8]), NrrdFault>
    ensures { map_ok (λ x. (seen_fields x.0, x.1.now)) result ≡ map_ok fields_and_bytes (split_of bytes.now) }
{
    let Some((first, rest)) = next_line(bytes) else {
        return Err(NrrdFault::NotNrrd);
    };
    if !is_first_line(first) {
        return Err(NrrdFault::NotNrrd);
    }
    let samples = behind_header(rest);
    let length = bytes.len() - samples.len();
    if length > HEADER_LIMIT {
        return Err(NrrdFault::HeaderTooLong {
            bytes: length as u64,
        });
    }
    let header = read_fields(rest)?;
    Ok((header, samples))
}

/// Fewer bytes are there than needed.
fn short_samples(needed: usize, body: &[u8]) -> NrrdFault
    ensures { result ≡ ShortSamples needed (length body.now) }
{
    NrrdFault::ShortSamples {
        needed: needed as u64,
        present: body.len() as u64,
    }
}

/// The volume whose raw samples these bytes begin with, and the number of bytes after them.
fn raw_volume(layout: Layout, body: &[u8]) -> Result<(RawVolume<'_>, u64), NrrdFault>
    ensures { result ≡ voxels_of layout.sizes layout.kind
        (raw_samples layout.kind layout.big_endian (point_count layout.sizes) body.now) }
{
    let needed = layout.kind.width() as usize * layout.sizes.count() as usize;
    if body.len() < needed {
        return Err(short_samples(needed, body));
    }
    let surplus = (body.len() - needed) as u64;
    let volume = RawVolume::new(layout.sizes, layout.kind, layout.big_endian, body);
    Ok((volume, surplus))
}

/// The refusal of samples in print as that of their volume.
fn fault_of(fault: SampleFault) -> NrrdFault
    ensures { result ≡ fault_of fault }
{
    match fault {
        SampleFault::Bad { place } => NrrdFault::BadSample { place },
        SampleFault::Short { needed, present } => NrrdFault::ShortSamples { needed, present },
        SampleFault::Memory => NrrdFault::Memory,
    }
}

/// The volume whose samples these bytes say as numbers, and the number of bytes after them.
fn text_volume(alloc: Global, layout: Layout, body: &[u8]) -> Result<(ReadVolume, u64), NrrdFault>
    ensures { Answers result (voxels_of layout.sizes layout.kind
        (text_samples layout.kind (point_count layout.sizes) body.now)) }
{
    let count = u64::from(layout.sizes.count());
    match read_text_bytes(alloc, body, layout.kind, count) {
        Ok((bytes, surplus)) => {
            let volume = ReadVolume::new(layout.sizes, layout.kind, bytes);
            Ok((volume, surplus))
        }
        Err(fault) => Err(fault_of(fault)),
    }
}

/// The volume whose samples stand in these bytes as hex digits, and the number of bytes after them.
fn hex_volume(alloc: Global, layout: Layout, body: &[u8]) -> Result<(ReadVolume, u64), NrrdFault>
    ensures { Answers result (voxels_of layout.sizes layout.kind
        (hex_samples layout.kind layout.big_endian (point_count layout.sizes) body.now)) }
{
    let count = u64::from(layout.sizes.count());
    match read_hex_bytes(alloc, body, layout.kind, layout.big_endian, count) {
        Ok((bytes, surplus)) => {
            let volume = ReadVolume::new(layout.sizes, layout.kind, bytes);
            Ok((volume, surplus))
        }
        Err(fault) => Err(fault_of(fault)),
    }
}

/// A volume as its file holds it.
#[derive(Drop)]
pub enum FileVolume<'a> {
    /// The samples are raw, and stay in the bytes of the file.
    Raw(RawVolume<'a>),
    /// The samples stood in print, and were read into bytes of their own.
    Read(ReadVolume),
}

/// The volume of a layout in the bytes of its samples, and the number of bytes after them.
fn read_body(alloc: Global, layout: Layout, body: &[u8]) -> Result<(FileVolume<'_>, u64), NrrdFault>
    ensures { Answers (map_ok seen_volume result) (measured layout body.now) }
{
    match layout.encoding {
        Encoding::Raw => {
            let (volume, surplus) = raw_volume(layout, body)?;
            Ok((FileVolume::Raw(volume), surplus))
        }
        Encoding::Text => {
            let (volume, surplus) = text_volume(alloc, layout, body)?;
            Ok((FileVolume::Read(volume), surplus))
        }
        Encoding::Hex => {
            let (volume, surplus) = hex_volume(alloc, layout, body)?;
            Ok((FileVolume::Read(volume), surplus))
        }
    }
}

/// The volume in the bytes of a file, where raw samples stay, and the number of bytes after its samples, which are not
/// read. Samples are listed with x fastest and z slowest.
///
/// The first of these decides. `NotNrrd` and `HeaderTooLong`; then, line by line, `BadLine`, `RepeatedField` and `Detached`;
/// then `MissingField`, in the order dimension, type, sizes, encoding; then the value of the dimension (`BadValue`,
/// `NotThreeAxes`), of the type (`UnsupportedKind`), of the encoding (`UnsupportedEncoding`), of the two skips (`BadValue`,
/// `SkipUnsupported`), of the sizes (`BadValue`, `Size`) and, for samples of more than one byte that are raw or hex digits,
/// of the byte order (`NoEndian`, `BadValue`); then, for samples in print, `BadSample`; then `ShortSamples`; and last
/// `Memory`, which is asked for once, for samples in print alone.
#[tactic(auto, using(crate::proofs::Agreeing::volume_is))]
pub fn read_file_volume(alloc: Global, bytes: &[u8]) -> Result<(FileVolume<'_>, u64), NrrdFault>
    ensures { Answers (map_ok seen_volume result) (nrrd_of bytes.now) }
{
    let (header, body) = split(bytes)?;
    let layout = read_layout(&header)?;
    read_body(alloc, layout, body)
}

/// The volume with its samples in a list.
fn voxels_of_raw(alloc: Global, volume: &RawVolume<'_>) -> Result<VoxelData, AllocError>
    ensures { IfOk result (λ v. v ≡ volume.now) }
{
    let sizes = volume.sizes();
    let samples = volume.part(alloc, 0, sizes.count())?;
    Ok(VoxelData::new(sizes, volume.kind(), samples))
}

/// The volume of a file with its samples in a list, wherever they lie.
fn voxels_of(alloc: Global, volume: &FileVolume<'_>) -> Result<VoxelData, AllocError>
    ensures { IfOk result (λ v. v ≡ file_voxels volume.now) }
{
    match volume {
        FileVolume::Raw(raw) => voxels_of_raw(alloc, raw),
        FileVolume::Read(read) => voxels_of_raw(alloc, &read.raw()),
    }
}

/// Reads a volume from the bytes of a file, and gives the number of bytes after its samples, which are not read.
/// The refusals are those of `read_file_volume`; memory is asked for once for the list of the samples, and for samples in
/// print once before.
pub fn read_volume(alloc: Global, bytes: &[u8]) -> Result<(VoxelData, u64), NrrdFault>
    ensures { Answers result (nrrd_of bytes.now) }
{
    let (volume, surplus) = read_file_volume(alloc, bytes)?;
    let volume = voxels_of(alloc, &volume)?;
    Ok((volume, surplus))
}
