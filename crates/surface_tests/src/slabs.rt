//! Tests of the counts and the stretches of `mesh_walk`: those of the slabs of a volume are together those of the whole.

ghost use Rattle.std.specs.Prelude.{◌≡◌, ◌*◌, ◌≤◌, All, length};
ghost use Rattle.iso_base.specs.Volume.{IsSample};
ghost use Rattle.mesh_walk.specs.Numbers.{AreFirst, AreRowRanks};

use crate::contours::is_small;
use crate::grids::sizes_of;
use byte_streams::{Failed, MemSink, write_all_of};
use edge_points::RowRanks;
use iso_base::{Level, MeshFormat, Point, Written};
use list_mesh::ListMesh;
use mesh_lines::{Origin, Style};
use mesh_rows::MeshRows;
use mesh_walk::{
    Numbering, PartCounts, Walk, count_part, rank_rows, write_part_centres, write_part_edges,
    write_part_faces,
};
use sample_rows::ListRows;
use samples::Numbers;
use std::alloc::Global;
use std::process::Abort;
use std::test::Fail;

/// Four slices of two by two samples, some of them at the level 5.
const SAMPLES: &[i64] = &[0, 0, 0, 4, 5, 0, 10, 6, 4, 0, 5, 10, 4, 0, 5, 6];

/// A slab of three of the slices: the lowest of them, how many it owns, the numbers that its first vertex on an edge and its
/// first centre have in the whole, and how many vertices on edges, centres and triangles it owns.
struct Slab {
    from: u32,
    owned: u32,
    first: (u32, u32),
    counts: (u32, u32, u32),
}

/// The slabs of the volume when it is cut at its slice 1.
const SLABS: &[Slab] = &[
    Slab {
        from: 0,
        owned: 1,
        first: (0, 10),
        counts: (3, 1, 5),
    },
    Slab {
        from: 1,
        owned: 3,
        first: (3, 11),
        counts: (7, 2, 9),
    },
];

/// How many vertices and triangles the slabs own together.
const VERTICES: u32 = 13;

const FACES: u32 = 14;

const PLY_HEAD: &str =
    "ply\nformat ascii 1.0\nelement vertex 13\nproperty float x\nproperty float y\nproperty float z\nelement face 14\nproperty list uchar int vertex_indices\nend_header\n";

/// The stretches of a mesh, in the order in which they stand in its text.
#[derive(Clone, Copy)]
enum Stretch {
    Edges,
    Centres,
    Faces,
}

const STRETCHES: &[Stretch] = &[Stretch::Edges, Stretch::Centres, Stretch::Faces];

/// A stretch of the mesh of a slab, in a format.
#[derive(Clone, Copy)]
struct Part<'a> {
    slab: &'a Slab,
    stretch: Stretch,
    format: MeshFormat,
}

/// Appends a stretch of what the lowest slices have.
fn write_stretch<R: MeshRows>(
    rows: &mut R,
    walk: Walk<'_>,
    stretch: Stretch,
    sink: &mut MemSink,
) -> Result<(), Failed>
    requires ranks { AreRowRanks (R.leveled rows.old) walk.ranks.now walk.total }
    requires numbers { AreFirst walk.numbers }
    requires slices { walk.slices ≤ (R.leveled rows.old).grid.nz }
    ensures { R.leveled rows.new ≡ R.leveled rows.old }
{
    match stretch {
        Stretch::Edges => write_part_edges(rows, walk, sink),
        Stretch::Centres => write_part_centres(rows, walk, sink),
        Stretch::Faces => write_part_faces(rows, walk, sink),
    }
}

/// The numbers of the first vertices of a slab.
fn first_numbers(rt: &impl Abort, slab: &Slab) -> Numbering
    ensures { AreFirst result }
{
    let (first_edge, first_centre) = slab.first;
    assert!(rt; first_edge < 100 && first_centre < 100);
    Numbering {
        first_edge,
        first_centre,
    }
}

/// How many slices of these rows a slab owns.
fn owned_slices<R: MeshRows>(rt: &impl Abort, rows: &R, slab: &Slab) -> u32
    ensures some { 1 ≤ result }
    ensures few { result ≤ (R.leveled rows.now).grid.nz }
{
    let sizes = rows.sizes();
    assert!(rt; 1 <= slab.owned && slab.owned <= sizes.nz());
    slab.owned
}

/// How the mesh of a slab is written: its coordinates are those of the whole.
fn style_of(part: Part<'_>) -> Style {
    let low = Point {
        x: 0,
        y: 0,
        z: part.slab.from,
    };
    Style {
        format: part.format,
        origin: Origin::Window(low),
    }
}

/// Appends a stretch of a slab whose rows these are, and says what the slab owns.
fn put_rows<R: MeshRows>(
    rt: &impl Abort,
    rows: &mut R,
    ranks: &mut RowRanks,
    part: Part<'_>,
    sink: &mut MemSink,
) -> Result<PartCounts, Failed>
    requires { ranks.old.grid ≡ (R.leveled rows.old).grid }
{
    let slices = owned_slices(rt, rows, part.slab);
    let numbers = first_numbers(rt, part.slab);
    let total = rank_rows(rows, ranks);
    let walk = Walk {
        style: style_of(part),
        ranks,
        total,
        slices,
        numbers,
    };
    write_stretch(rows, walk, part.stretch, sink)?;
    Ok(count_part(rows, walk))
}

/// The samples of so many slices from one on.
fn slices_of(rt: &impl Abort, from: u32, count: u32) -> &'static [i64]
    ensures count { length result.now ≡ 4 * count }
    ensures samples { All IsSample result.now }
{
    assert!(rt; from <= 4 && count <= 4 - from);
    let samples = &SAMPLES[4 * from as usize..4 * (from + count) as usize];
    assert!(rt; samples.iter().all(|v| is_small(v)));
    samples
}

/// Appends a stretch of a slab, and says what the slab owns.
fn put_stretch(
    rt: &impl Abort,
    alloc: Global,
    part: Part<'_>,
    sink: &mut MemSink,
) -> Result<PartCounts, Fail> {
    let sizes = sizes_of(2, 2, 3).ok_or("2, 2 and 3 are sizes")?;
    let level = Level::new(5_000).ok_or("5 is a level")?;
    let numbers = slices_of(rt, part.slab.from, 3);
    let samples = Numbers { numbers };
    let mut ranks = RowRanks::new(alloc, &sizes)?;
    let mut rows = ListRows::of(alloc, sizes, &samples, level)?;
    Ok(put_rows(rt, &mut rows, &mut ranks, part, sink)?)
}

/// Appends the whole text.
fn put_whole(
    rt: &impl Abort,
    alloc: Global,
    format: MeshFormat,
    sink: &mut MemSink,
) -> Result<Written, Fail> {
    let sizes = sizes_of(2, 2, 4).ok_or("2, 2 and 4 are sizes")?;
    let level = Level::new(5_000).ok_or("5 is a level")?;
    let numbers = slices_of(rt, 0, 4);
    let samples = Numbers { numbers };
    let style = Style {
        format,
        origin: Origin::Volume,
    };
    let mut mesh = ListMesh::of(alloc, sizes, &samples, level)?;
    Ok(mesh.write(style, sink)?)
}

/// Appends the stretches of the slabs, and looks at what these own.
fn put_stretches(
    rt: &impl Abort,
    alloc: Global,
    format: MeshFormat,
    sink: &mut MemSink,
) -> Result<(), Fail> {
    for stretch in STRETCHES {
        for slab in SLABS {
            let part = Part {
                slab,
                stretch: *stretch,
                format,
            };
            let counts = put_stretch(rt, alloc, part, sink)?;
            assert!(rt; (counts.edges, counts.centres, counts.faces) == slab.counts);
        }
    }
    Ok(())
}

/// Looks whether a head and the stretches of the slabs are the whole text.
fn check_texts(
    rt: &impl Abort,
    alloc: Global,
    (format, head): (MeshFormat, &str),
    whole: &mut MemSink,
    joined: &mut MemSink,
) -> Result<(), Fail> {
    let written = put_whole(rt, alloc, format, whole)?;
    assert!(rt; written.vertices == VERTICES && written.faces == FACES);
    write_all_of(joined, head.as_bytes())?;
    put_stretches(rt, alloc, format, joined)?;
    assert!(rt; joined.bytes() == whole.bytes());
    Ok(())
}

fn check_slabs(rt: &impl Abort, alloc: Global, of: (MeshFormat, &str)) -> Result<(), Fail> {
    let mut whole = MemSink::new(alloc, 1000, Vec::new(alloc))?;
    let mut joined = MemSink::new(alloc, 1000, Vec::new(alloc))?;
    check_texts(rt, alloc, of, &mut whole, &mut joined)
}

#[test]
fn stretches_of_slabs(rt: HostRuntime) -> Result<(), Fail> {
    for of in [(MeshFormat::Ply, PLY_HEAD), (MeshFormat::Obj, "")] {
        check_slabs(&rt, rt.alloc(), of)?;
    }
    Ok(())
}
