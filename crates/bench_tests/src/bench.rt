//! Tests of the workbench: its edits, undos and levels, and the files that it writes.

ghost use Rattle.std.specs.Prelude.{◌≡◌, IfSome, None};

use crate::calls::{
    Edit, SaveAs, begin, change, contour, has_file, report, save, shelf, work, write,
};
use bench_core::{Bench, BenchFault, Capacity, Contours, Part, Report};
use flat_mesh::{Mesh, extract_flat};
use iso_base::{Level, Sizes, Thousandth, Written};
use iso_io::MemShelf;
use mesh_text::TwoWayFormat;
use nrrd_read::read_volume;
use std::alloc::{AllocError, Global};
use std::process::Abort;
use volume_gen::generate;
use voxel_list::VoxelList;

const NO_FACES: &str =
    "ply\nformat ascii 1.0\nelement vertex 0\nproperty float x\nproperty float y\nproperty float z\nelement face 0\nproperty list uchar int vertex_indices\nend_header\n";

const ONE_FACE: &str =
    "ply\nformat ascii 1.0\nelement vertex 3\nproperty float x\nproperty float y\nproperty float z\nelement face 1\nproperty list uchar int vertex_indices\nend_header\n0.500 0.000 0.000\n0.000 0.500 0.000\n0.000 0.000 0.500\n3 0 1 2\n";

const ONE_FACE_OBJ: &str =
    "v 0.500 0.000 0.000\nv 0.000 0.500 0.000\nv 0.000 0.000 0.500\nf 1 2 3\n";

const CORNER: &str =
    "NRRD0004\ntype: uint8\ndimension: 3\nsizes: 2 2 2\nencoding: raw\n\n\n\0\0\0\0\0\0\0";

// Of 27 samples the one in the middle is 10, which is a line feed.
const DOT: &str =
    "NRRD0004\ntype: uint8\ndimension: 3\nsizes: 3 3 3\nencoding: raw\n\n\0\0\0\0\0\0\0\0\0\0\0\0\0\n\0\0\0\0\0\0\0\0\0\0\0\0\0";

const DOT_AS_TEXT: &str =
    "NRRD0004\ntype: uint8\ndimension: 3\nsizes: 3 3 3\nencoding: text\n\n0 0 0\n0 0 0\n0 0 0\n0 0 0\n0 10 0\n0 0 0\n0 0 0\n0 0 0\n0 0 0\n";

const DOT_AS_HEX: &str =
    "NRRD0004\ntype: uint8\ndimension: 3\nsizes: 3 3 3\nencoding: hex\n\n000000\n000000\n000000\n000000\n000a00\n000000\n000000\n000000\n000000\n";

/// The volume of a text, without a pad.
fn volume_of(alloc: Global, text: &[u8]) -> Option<VoxelList>
    ensures { IfSome result (λ v. v.pad ≡ None) }
{
    let (volume, _) = read_volume(alloc, text).ok()?;
    Some(VoxelList::of(volume))
}

/// Most tests keep no more than this.
fn capacity() -> Option<Capacity> {
    Capacity::new(16, 64)
}

/// A bench on two points along each axis, of which the first has the sample 10, at level 5.
pub fn bench(alloc: Global) -> Option<Bench> {
    begin(
        alloc,
        volume_of(alloc, CORNER.as_bytes())?,
        5_000,
        capacity()?,
    )
}

/// Whether a change has the same answer so many times.
fn has_answer(bench: &mut Bench, asked: Edit, times: u32, want: Result<(), BenchFault>) -> bool {
    for _ in 0..times {
        if change(bench, asked) != want {
            return false;
        }
    }
    true
}

fn check_log(rt: &impl Abort, bench: &mut Bench) {
    for (asked, times, want) in [
        (Edit::Set([0, 0, 0], 1), 129, Ok(())),
        (Edit::Undo, 128, Ok(())),
        (Edit::Undo, 1, Err(BenchFault::NothingToUndo)),
        (Edit::Redo, 128, Ok(())),
        (Edit::Redo, 1, Err(BenchFault::NothingToRedo)),
    ] {
        assert!(rt; has_answer(bench, asked, times, want), "{asked:?}");
    }
}

#[test]
fn at_most_128_changes_are_undone_and_made_again(rt: HostRuntime) {
    check_log(&rt, &mut bench(rt.alloc()).expect(&rt, "there is a bench"));
}

/// Changes that a bench of bytes without a past refuses.
const REFUSED: [(Edit, BenchFault); 6] = [
    (Edit::Set([2, 0, 0], 256), BenchFault::Outside),
    (Edit::Set([1, 0, 0], 256), NO_BYTE),
    (Edit::Fill([0, 0, 0, 1, 1, -1], 1), BenchFault::Outside),
    (Edit::Fill([1, 0, 0, 0, 1, 1], -1), NO_BYTE),
    (Edit::Level(8_589_934_592_000), BenchFault::LevelOutside),
    (Edit::Undo, BenchFault::NothingToUndo),
];

const NO_BYTE: BenchFault = BenchFault::ValueOutside {
    least: 0,
    greatest: 255,
};

fn check_refusals(rt: &impl Abort, bench: &mut Bench) {
    for (asked, fault) in REFUSED {
        assert_eq!(rt; change(bench, asked), Err(fault), "{asked:?}");
    }
    let filled = Edit::Fill([1, 0, 0, 0, 1, 1], 255);
    let least = Edit::Level(-8_589_934_591_999);
    for asked in [filled, least, Edit::Undo, Edit::Undo] {
        assert_eq!(rt; change(bench, asked), Ok(()), "{asked:?}");
    }
    let undone = change(bench, Edit::Undo);
    assert_eq!(rt; undone, Err(BenchFault::NothingToUndo));
}

#[test]
fn refusals_have_their_reasons(rt: HostRuntime) {
    check_refusals(&rt, &mut bench(rt.alloc()).expect(&rt, "there is a bench"));
}

pub fn mesh_of(vertices: u32, faces: u32, bytes: u64) -> Result<Written, BenchFault> {
    Ok(Written {
        vertices,
        faces,
        bytes,
    })
}

/// Writes the mesh, and compares the answer and the file.
fn check_mesh(
    rt: &impl Abort,
    bench: &mut Bench,
    shelf: &mut MemShelf,
    (name, format): (&str, TwoWayFormat),
    want: Result<Written, BenchFault>,
    text: &str,
) {
    assert_eq!(rt; write(bench, shelf, name, format), want);
    assert!(rt; has_file(shelf, name, text));
}

fn check_meshes(rt: &impl Abort, bench: &mut Bench, shelf: &mut MemShelf) {
    let (ply, obj) = (TwoWayFormat::Ply, TwoWayFormat::Obj);
    for (order, want, text) in [
        (("a", ply), mesh_of(3, 1, 216), ONE_FACE),
        (("b", ply), Err(BenchFault::ShelfFailed), ""),
        (("c", obj), mesh_of(3, 1, 68), ONE_FACE_OBJ),
    ] {
        check_mesh(rt, bench, shelf, order, want, text);
    }
}

/// The mesh where all is below the level.
fn check_no_mesh(rt: &impl Abort, bench: &mut Bench, shelf: &mut MemShelf) {
    assert!(rt; change(bench, Edit::Level(11_000)).is_ok());
    work(bench, 9);
    let order = ("b", TwoWayFormat::Ply);
    check_mesh(rt, bench, shelf, order, mesh_of(0, 0, 154), NO_FACES);
    assert!(rt; has_file(shelf, "a", ONE_FACE));
}

fn check_both(rt: &impl Abort, bench: &mut Bench, shelf: &mut MemShelf) {
    check_meshes(rt, bench, shelf);
    check_no_mesh(rt, bench, shelf);
}

/// The mesh of the corner, a shelf that fails once, and the mesh where all is below the level.
#[test]
fn meshes_go_to_the_shelf(rt: HostRuntime) {
    let mut shelf = shelf(rt.alloc(), &[4]).expect(&rt, "memory suffices");
    let mut bench = bench(rt.alloc()).expect(&rt, "there is a bench");
    check_both(&rt, &mut bench, &mut shelf);
}

/// A bench on three points along each axis, of which the one in the middle has the sample 10, at level 5.
pub fn dot_bench(alloc: Global) -> Option<Bench> {
    begin(alloc, volume_of(alloc, DOT.as_bytes())?, 5_000, capacity()?)
}

/// The same with the pad 0 around it.
pub fn padded_bench(alloc: Global) -> Option<Bench> {
    let volume = volume_of(alloc, DOT.as_bytes())?.padded(alloc, 0).ok()?;
    begin(alloc, volume, 5_000, capacity()?)
}

/// The state after a state, of numbers that look like chance.
fn next(state: u64) -> u64 {
    state
        .wrapping_mul(6_364_136_223_846_793_005)
        .wrapping_add(1_442_695_040_888_963_407)
}

/// The volume of the seed 0.
fn volume_of_sizes(alloc: Global, nx: u64, ny: u64, nz: u64) -> Option<VoxelList> {
    let sizes = Sizes::new(nx, ny, nz).ok()?;
    Some(VoxelList::of(generate(alloc, 0, &sizes).ok()?))
}

/// Replaces the samples of four points along each axis by 0 or 1, as if by chance.
fn draw_bits(bench: &mut Bench) {
    let mut seed: u64 = 1;
    for i in 0..64 {
        seed = next(seed);
        let point = [i % 4, i / 4 % 4, i / 16];
        let _ = change(bench, Edit::Set(point, (seed >> 63) as i64));
    }
}

/// A bench on four points along each axis, whose samples are 0 or 1 as if by chance, at level 0.5.
pub fn four_a_side(alloc: Global) -> Option<Bench> {
    let mut bench = begin(alloc, volume_of_sizes(alloc, 4, 4, 4)?, 500, capacity()?)?;
    draw_bits(&mut bench);
    Some(bench)
}

/// A bench on 10, 10 and 3 points, which are four bricks, at level 0.5.
fn four_bricks(alloc: Global, bricks: u32, pages: u32) -> Option<Bench> {
    let capacity = Capacity::new(bricks, pages)?;
    begin(alloc, volume_of_sizes(alloc, 10, 10, 3)?, 500, capacity)
}

/// Replaces so many samples by 0 or 1, told by a seed.
fn scatter(bench: &mut Bench, seed: u64, count: u32) {
    let mut seed = seed;
    for _ in 0..count {
        seed = next(seed);
        let place = ((seed >> 33) % 600) as i64;
        let point = [place % 10, place / 10 % 10, place / 100 % 3];
        let _ = change(bench, Edit::Set(point, place / 300));
    }
}

/// Puts a coordinate, which is not negative, behind a text.
fn push_coordinate(text: &mut String, at: Thousandth) -> Result<(), AllocError> {
    write!(text, "{}.{:03}", at.0 / 1000, at.0 % 1000)
}

fn push_vertex(text: &mut String, [x, y, z]: [Thousandth; 3]) -> Result<(), AllocError> {
    push_coordinate(text, x)?;
    text.push_str(" ")?;
    push_coordinate(text, y)?;
    text.push_str(" ")?;
    push_coordinate(text, z)?;
    text.push_str("\n")
}

/// The text of a mesh as PLY, from its lists.
fn text_of(alloc: Global, mesh: &Mesh) -> Result<String, AllocError> {
    let (vertices, faces) = (mesh.vertex_count(), mesh.triangle_count());
    let mut text = format!(in alloc;
        "ply\nformat ascii 1.0\nelement vertex {vertices}\nproperty float x\nproperty float y\nproperty float z\nelement face {faces}\nproperty list uchar int vertex_indices\nend_header\n"
    )?;
    for i in 0..vertices {
        let (_, at) = mesh.vertex(i);
        push_vertex(&mut text, at)?;
    }
    for [a, b, c] in mesh.triangles() {
        write!(text, "3 {a} {b} {c}\n")?;
    }
    Ok(text)
}

/// The text of the mesh of a volume from scratch.
fn scratch_text(alloc: Global, volume: &VoxelList, level: i128) -> Option<String> {
    let mesh = extract_flat(alloc, volume, Level::new(level)?).ok()?;
    text_of(alloc, &mesh).ok()
}

/// Whether the file `mesh` is the extraction from scratch of the volume that is in the file `volume`.
fn is_from_scratch(alloc: Global, shelf: &MemShelf, level: i128) -> Option<bool> {
    let volume = volume_of(alloc, shelf.file("volume")?)?;
    let text = scratch_text(alloc, &volume, level)?;
    Some(has_file(shelf, "mesh", &text))
}

fn check_written(rt: &impl Abort, bench: &mut Bench, shelf: &mut MemShelf) {
    assert!(rt; write(bench, shelf, "mesh", TwoWayFormat::Ply).is_ok());
    assert!(rt; save(bench, shelf, "volume", SaveAs::Raw).is_ok());
}

/// Writes the mesh and the volume, and compares.
fn check_files(rt: &impl Abort, alloc: Global, bench: &mut Bench, level: i128) {
    let mut shelf = shelf(alloc, &[]).expect(rt, "memory suffices");
    check_written(rt, bench, &mut shelf);
    assert_eq!(rt; is_from_scratch(alloc, &shelf, level), Some(true));
}

/// Writes after changes here and there and refresh turns.
fn check_scatters(rt: &impl Abort, alloc: Global, bench: &mut Bench) {
    scatter(bench, 1, 200);
    work(bench, 2);
    check_files(rt, alloc, bench, 500);
    scatter(bench, 2, 3);
    check_files(rt, alloc, bench, 500);
}

/// Writes after each of undo, redo, a filled box and a change of the level.
fn check_edits(rt: &impl Abort, alloc: Global, bench: &mut Bench) {
    for (asked, level) in [
        (Edit::Undo, 500),
        (Edit::Redo, 500),
        (Edit::Fill([7, 7, 0, 9, 9, 1], 1), 500),
        (Edit::Level(250), 250),
    ] {
        assert_eq!(rt; change(bench, asked), Ok(()), "{asked:?}");
        check_files(rt, alloc, bench, level);
    }
}

/// From zeros on.
fn check_script(rt: &impl Abort, alloc: Global, bench: &mut Bench) {
    let zeros = Edit::Fill([0, 0, 0, 9, 9, 2], 0);
    assert_eq!(rt; change(bench, zeros), Ok(()));
    check_scatters(rt, alloc, bench);
    check_edits(rt, alloc, bench);
}

#[test]
fn files_are_extractions(rt: HostRuntime) {
    let mut bench = four_bricks(rt.alloc(), 4096, 65_536).expect(&rt, "there is a bench");
    check_script(&rt, rt.alloc(), &mut bench);
}

#[test]
fn files_are_extractions_where_little_is_kept(rt: HostRuntime) {
    let mut bench = four_bricks(rt.alloc(), 1, 16).expect(&rt, "there is a bench");
    check_script(&rt, rt.alloc(), &mut bench);
}

/// The dot as each kind of file, where two calls of the shelf fail.
fn check_saves(rt: &impl Abort, bench: &Bench, shelf: &mut MemShelf) {
    for (asked, want, text) in [
        (SaveAs::Raw, Err(BenchFault::ShelfFailed), ""),
        (SaveAs::Raw, Ok(89), DOT),
        (SaveAs::Text, Ok(118), DOT_AS_TEXT),
        (SaveAs::Hex, Err(BenchFault::ShelfFailed), ""),
        (SaveAs::Hex, Ok(125), DOT_AS_HEX),
    ] {
        assert_eq!(rt; save(bench, shelf, "a", asked), want, "{asked:?}");
        assert!(rt; has_file(shelf, "a", text), "{asked:?}");
    }
}

#[test]
fn volumes_go_to_the_shelf(rt: HostRuntime) {
    let mut shelf = shelf(rt.alloc(), &[2, 10]).expect(&rt, "memory suffices");
    check_saves(
        &rt,
        &dot_bench(rt.alloc()).expect(&rt, "there is a bench"),
        &mut shelf,
    );
}

#[test]
fn volumes_go_to_the_shelf_without_their_pad(rt: HostRuntime) {
    let mut shelf = shelf(rt.alloc(), &[2, 10]).expect(&rt, "memory suffices");
    check_saves(
        &rt,
        &padded_bench(rt.alloc()).expect(&rt, "there is a bench"),
        &mut shelf,
    );
}

/// The only line is a cycle of four points from this one.
fn check_line(rt: &impl Abort, contours: &Contours, first: (i64, i64)) {
    let lines = contours.lines();
    assert_eq!(rt; lines.len(), 1);
    assert!(rt; lines[0].cycle());
    let points = lines[0].points();
    assert_eq!(rt; points.len(), 4);
    assert_eq!(rt; (points[0].1.0, points[0].2.0), first);
}

fn check_cycle(rt: &impl Abort, bench: &Bench, first: (i64, i64)) {
    let contours = contour(bench, 1).expect(rt, "there are lines");
    check_line(rt, &contours, first);
}

/// The middle plane has one line, and those off the volume are refused.
fn check_planes(rt: &impl Abort, bench: &Bench, is_padded: bool, first: (i64, i64)) {
    assert_eq!(rt; bench.is_padded(), is_padded);
    for k in [3, -1] {
        let fault = contour(bench, k).err();
        assert_eq!(rt; fault, Some(BenchFault::NoSuchPlane { k }));
    }
    check_cycle(rt, bench, first);
}

#[test]
fn the_middle_plane_has_one_line(rt: HostRuntime) {
    let bench = dot_bench(rt.alloc()).expect(&rt, "there is a bench");
    check_planes(&rt, &bench, false, (1000, 500));
}

#[test]
fn the_middle_plane_in_a_pad_has_one_line(rt: HostRuntime) {
    let bench = padded_bench(rt.alloc()).expect(&rt, "there is a bench");
    check_planes(&rt, &bench, true, (2000, 1500));
}

fn check_parts(rt: &impl Abort, report: &Report) {
    let sphere = Part {
        least: 0,
        vertices: 6,
        edges: 12,
        faces: 8,
        border: 0,
        euler: 2,
    };
    assert_eq!(rt; *report.total(), sphere);
    assert_eq!(rt; report.parts(), [sphere].as_slice());
}

fn check_sphere(rt: &impl Abort, bench: &Bench) {
    let report = report(bench).expect(rt, "there is a report");
    check_parts(rt, &report);
}

#[test]
fn the_mesh_round_the_middle_is_one_sphere(rt: HostRuntime) {
    check_sphere(&rt, &dot_bench(rt.alloc()).expect(&rt, "there is a bench"));
}
