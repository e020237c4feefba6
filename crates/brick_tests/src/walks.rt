//! Meshes written while their volume is walked, beside those of extraction from scratch.
ghost use Rattle.std.specs.Prelude.{◌≡◌, All, false, length};
ghost use Rattle.iso_defs.specs.Bricks.{entries, row_cases};
ghost use Rattle.iso_defs.specs.Grid.{point_count};
ghost use Rattle.iso_base.specs.Volume.{IsSample, field};
ghost use Rattle.span_tree.specs.Spans.{IsRightFor};
ghost use Rattle.brick_rows.specs.Named.{counts_of_entries};
ghost use Rattle.brick_rows.specs.Rows.{at_level};
ghost use Rattle.stitch.specs.Recent.{AreRecent};

use crate::stores::sizes_of;
use crate::texts::{Text, text_of};
use arrayvec::ArrayVec;
use brick_mesh::{extract_brick, extract_row};
use brick_rows::{CellRows, Counts};
use brick_store::{BrickId, BrickStore};
use byte_streams::{Failed, MemSink};
use cached_mesh::count_entries;
use edge_points::RowRanks;
use flat_mesh::extract_flat;
use iso_base::{Level, Memory, MeshFormat, Point, SampleKind, Sizes, Steps, VoxelData, Written};
use list_mesh::ListMesh;
use mesh_lines::{Origin, Style};
use mesh_text::TwoWayFormat;
use samples::Samples;
use span_tree::SpanTree;
use std::alloc::Global;
use std::marker::Brand;
use std::sync::ledger::{Blank, Ledger};
use stitch::{RowRoom, write_obj, write_ply};
use volume_gen::generate;
use voxel_list::VoxelList;

/// More bytes than a text of these tests has.
const SINK_BYTES: u32 = 4_000_000;

/// Names the cases of each row of a brick, and counts in a brick, when it is asked for it.
#[derive(Drop)]
struct FreshRows<'a> {
    store: &'a BrickStore,
    level: Level,
}

impl<'a> CellRows for FreshRows<'a> {
    ghost named = { λ r. record {
      grid = r.store.now.grid;
      cases = row_cases r.store.now.grid (field r.store.now.samples r.level);
      counts = λ brick. counts_of_entries (entries r.store.now.grid (field r.store.now.samples r.level) brick);
      kept = λ _. false;
    } };

    fn row<L: Ledger>(
        &mut self,
        brick: BrickId,
        y: u8,
        z: u8,
        rows: &mut ArrayVec<u16, 8>,
        steps: &mut Steps<L>,
    ) {
        extract_row(self.store, brick, y, z, self.level, rows, steps);
    }

    fn count<L: Ledger>(&mut self, brick: BrickId, steps: &mut Steps<L>) -> Counts {
        let mut entries = ArrayVec::new();
        extract_brick(self.store, brick, self.level, &mut entries, steps);
        count_entries(entries.as_slice())
    }
}

/// A text that a walk wrote, and what it told of it.
#[derive(Drop)]
pub struct Told {
    sink: MemSink,
    written: Result<Written, Failed>,
}

/// A sink with room for each text.
fn empty_sink(alloc: Global) -> Result<MemSink, Memory> {
    MemSink::new(alloc, SINK_BYTES, Vec::new(alloc))
}

/// How a text is written.
fn style_of(format: TwoWayFormat, padded: bool) -> Style {
    let format = match format {
        TwoWayFormat::Ply => MeshFormat::Ply,
        TwoWayFormat::Obj => MeshFormat::Obj,
    };
    let origin = if padded { Origin::Pad } else { Origin::Volume };
    Style { format, origin }
}

/// The text that is written while samples are walked.
pub fn listed_text<S: Samples>(
    alloc: Global,
    sizes: Sizes,
    samples: &S,
    level: Level,
    style: Style,
) -> Result<Told, Memory>
    requires count { length (S.list samples.now) ≡ point_count sizes }
    requires samples { All IsSample (S.list samples.now) }
{
    let mut sink = empty_sink(alloc)?;
    let mut mesh = ListMesh::of(alloc, sizes, samples, level)?;
    let written = mesh.write(style, &mut sink);
    Ok(Told { sink, written })
}

/// The same of a volume.
fn volume_text(
    alloc: Global,
    volume: &VoxelList,
    level: Level,
    format: TwoWayFormat,
) -> Result<Told, Memory> {
    // Reading the samples brings in that they are in the range of samples.
    let _ = volume.samples();
    let style = style_of(format, volume.pad().is_some());
    listed_text(alloc, volume.sizes(), volume, level, style)
}

/// Writes the text of a walk, with one share of the counter's book.
fn counted_walk<L: Ledger>(
    store: &BrickStore,
    tree: &SpanTree,
    level: Level,
    format: TwoWayFormat,
    room: &mut RowRoom,
    sink: &mut MemSink,
    blank: Blank,
) -> Result<Written, Failed>
    requires tree { IsRightFor tree.now store.now }
    requires ranks { room.old.ranks.grid ≡ store.now.grid }
    requires right { AreRecent (at_level store.now level) room.old.known.recent }
    requires named { blank.name ≡ L.name }
    requires shares { blank.parts ≡ L.parts }
    requires one { blank.parts ≡ 1 }
{
    let (book, share) = blank.open::<L>();
    let mut steps = Steps::new(book, share);
    let mut rows = FreshRows { store, level };
    match format {
        TwoWayFormat::Ply => write_ply(store, tree, level, &mut rows, room, sink, &mut steps),
        TwoWayFormat::Obj => write_obj(store, tree, level, &mut rows, room, sink, &mut steps),
    }
}

/// The same, with a counter of its own.
fn put_walk(
    alloc: Global,
    store: &BrickStore,
    tree: &SpanTree,
    level: Level,
    format: TwoWayFormat,
    sink: &mut MemSink,
) -> Result<Result<Written, Failed>, Memory>
    requires { IsRightFor tree.now store.now }
{
    let ranks = RowRanks::new(alloc, &store.sizes())?;
    let mut room = RowRoom::new(alloc, ranks)?;
    let blank = Blank::new(1);
    Ok(counted_walk::<Brand>(store, tree, level, format, &mut room, sink, blank))
}

/// The text of a walk.
fn walked_text(
    alloc: Global,
    store: &BrickStore,
    level: Level,
    format: TwoWayFormat,
) -> Result<Told, Memory> {
    let mut sink = empty_sink(alloc)?;
    let tree = SpanTree::of(alloc, store)?;
    let written = put_walk(alloc, store, &tree, level, format, &mut sink)?;
    Ok(Told { sink, written })
}

/// Whether a walk wrote this text.
pub fn is_text(text: &Text, told: &Told) -> bool {
    let Ok(written) = &told.written else {
        return false;
    };
    *written == text.written() && told.sink.bytes() == text.lines.as_bytes()
}

/// The texts of extraction from scratch.
#[derive(Drop)]
struct Scratch {
    ply: Text,
    obj: Text,
}

fn scratch_texts(alloc: Global, volume: &VoxelList, level: Level) -> Result<Scratch, Memory> {
    let padded = volume.pad().is_some();
    let mesh = extract_flat(alloc, volume, level)?;
    let ply = text_of(alloc, &mesh, TwoWayFormat::Ply, padded)?;
    let obj = text_of(alloc, &mesh, TwoWayFormat::Obj, padded)?;
    Ok(Scratch { ply, obj })
}

/// Whether the texts that are written while the list of samples is walked are those from scratch.
fn are_listed(
    alloc: Global,
    volume: &VoxelList,
    level: Level,
    texts: &Scratch,
) -> Result<bool, Memory> {
    for (format, scratch) in [
        (TwoWayFormat::Ply, &texts.ply),
        (TwoWayFormat::Obj, &texts.obj),
    ] {
        if !is_text(scratch, &volume_text(alloc, volume, level, format)?) {
            return Ok(false);
        }
    }
    Ok(true)
}

/// Whether the texts that are written from brick to brick are those from scratch.
fn are_walked(
    alloc: Global,
    store: &BrickStore,
    level: Level,
    texts: &Scratch,
) -> Result<bool, Memory> {
    for (format, scratch) in [
        (TwoWayFormat::Ply, &texts.ply),
        (TwoWayFormat::Obj, &texts.obj),
    ] {
        if !is_text(scratch, &walked_text(alloc, store, level, format)?) {
            return Ok(false);
        }
    }
    Ok(true)
}

/// Whether all texts of a volume are those from scratch.
fn are_all_same(
    alloc: Global,
    volume: VoxelList,
    level: Level,
    texts: &Scratch,
) -> Result<bool, Memory> {
    if !are_listed(alloc, &volume, level, texts)? {
        return Ok(false);
    }
    let store = BrickStore::of(alloc, volume)?;
    are_walked(alloc, &store, level, texts)
}

/// How many vertices all three ways write, where their texts are the same in both formats: from a mesh, while the list of
/// samples is walked, and from brick to brick.
fn vertices_of(alloc: Global, volume: VoxelList, level: Level) -> Option<u32> {
    let texts = scratch_texts(alloc, &volume, level).ok()?;
    let Ok(true) = are_all_same(alloc, volume, level, &texts) else {
        return None;
    };
    Some(texts.ply.vertices)
}

/// What the samples of a volume look like.
#[derive(Clone, Copy)]
pub enum Pattern {
    /// Like chance: nearly each cell has a crossing edge at level 128.
    Chance,
    /// 0 and 10 in turn along each axis: all faces are ambiguous, and at level 5 each is a tie.
    Checkers,
}

/// The sample of a point.
fn sample_at(pattern: Pattern, p: Point) -> u8 {
    match pattern {
        Pattern::Chance => {
            let mixed = p.x.wrapping_mul(73_856_093)
                ^ p.y.wrapping_mul(19_349_663)
                ^ p.z.wrapping_mul(83_492_791);
            (mixed.wrapping_mul(2_654_435_761) >> 24) as u8
        }
        Pattern::Checkers => 10 * ((p.x % 2 + p.y % 2 + p.z % 2) % 2) as u8,
    }
}

/// Sets a point of a volume of bytes without a pad.
fn set_byte(volume: &mut VoxelList, p: Point, value: u8) {
    let (sizes, pad) = (volume.sizes(), volume.pad());
    let SampleKind::U8 = volume.kind() else {
        return;
    };
    if pad.is_none() && p.x < sizes.nx() && p.y < sizes.ny() && p.z < sizes.nz() {
        volume.set(p, i64::from(value));
    }
}

/// A volume of these sizes, where they are sizes.
pub fn volume_of_pattern(
    alloc: Global,
    pattern: Pattern,
    [nx, ny, nz]: [u32; 3],
) -> Option<VoxelList> {
    let sizes = Sizes::new(u64::from(nx), u64::from(ny), u64::from(nz)).ok()?;
    let mut volume = VoxelList::of(generate(alloc, 0, &sizes).ok()?);
    for z in 0..nz {
        for y in 0..ny {
            for x in 0..nx {
                let p = Point { x, y, z };
                set_byte(&mut volume, p, sample_at(pattern, p));
            }
        }
    }
    Some(volume)
}

/// How many vertices all ways write for a volume of these sizes at a level in thousandths, where their texts are the same.
fn vertices(alloc: Global, pattern: Pattern, sizes: [u32; 3], thousandths: i128) -> Option<u32> {
    let level = Level::new(thousandths)?;
    vertices_of(alloc, volume_of_pattern(alloc, pattern, sizes)?, level)
}

#[test]
fn each_size_along_each_axis(rt: HostRuntime) {
    for n in [2, 3, 5, 7, 9, 11, 13, 15, 17, 19] {
        for sizes in [[n, 5, 4], [4, n, 5], [5, 4, n], [n, n, 3]] {
            let found = vertices(rt.alloc(), Pattern::Chance, sizes, 128_000);
            assert!(rt; found.is_some(), "{sizes:?}");
        }
    }
}

#[test]
fn ambiguous_faces_and_ties(rt: HostRuntime) {
    for thousandths in [4_000, 5_000, 5_001, 10_000] {
        let found = vertices(rt.alloc(), Pattern::Checkers, [10, 9, 17], thousandths);
        assert!(rt; found.is_some(), "{thousandths}");
    }
    let found = vertices(rt.alloc(), Pattern::Checkers, [3, 3, 3], 5_000);
    assert_eq!(rt; found, Some(54));
}

#[test]
fn no_crossing_edge(rt: HostRuntime) {
    let found = vertices(rt.alloc(), Pattern::Chance, [9, 9, 9], 300_000);
    assert_eq!(rt; found, Some(0));
}

/// A volume without a pad with one.
fn padded_volume(alloc: Global, volume: VoxelList, pad: u8) -> Option<VoxelList> {
    if volume.pad().is_some() {
        return None;
    }
    volume.padded(alloc, i64::from(pad)).ok()
}

/// The same as `vertices`, with a pad, at level 128.
fn padded_vertices(alloc: Global, sizes: [u32; 3], pad: u8) -> Option<u32> {
    let volume = volume_of_pattern(alloc, Pattern::Chance, sizes)?;
    let level = Level::new(128_000)?;
    vertices_of(alloc, padded_volume(alloc, volume, pad)?, level)
}

#[test]
fn with_a_pad(rt: HostRuntime) {
    for pad in [0, 255] {
        let found = padded_vertices(rt.alloc(), [7, 8, 15], pad);
        assert!(rt; found.is_some(), "{pad}");
    }
}

/// The greatest and the least samples by turns.
fn extremes(alloc: Global, sizes: Sizes) -> Result<VoxelList, Memory>
    requires { sizes ≡ record { nx = 2; ny = 2; nz = 2 } }
{
    let samples = vec![in alloc;
        4_294_967_295,
        0,
        0,
        4_294_967_295,
        0,
        4_294_967_295,
        4_294_967_295,
        0,
    ]?;
    Ok(VoxelList::of(VoxelData::new(sizes, SampleKind::U32, samples)))
}

/// How many vertices all ways write for them.
fn extreme_vertices(alloc: Global, thousandths: i128) -> Option<u32> {
    let (level, sizes) = (Level::new(thousandths)?, sizes_of(2, 2, 2)?);
    vertices_of(alloc, extremes(alloc, sizes).ok()?, level)
}

#[test]
fn the_greatest_samples(rt: HostRuntime) {
    for thousandths in [1, 2_147_483_647_500, 4_294_967_295_000] {
        let found = extreme_vertices(rt.alloc(), thousandths);
        assert_eq!(rt; found, Some(12), "{thousandths}");
    }
}
