//! Windows of the workbench: the worked examples in each format, and the windows of every box of a volume beside the filter of
//! the text of its whole mesh.

use crate::bench::{bench, dot_bench, four_a_side, mesh_of, padded_bench};
use crate::calls::{has_file, shelf, window, write};
use bench_core::{Bench, BenchFault};
use iso_base::{MeshFormat, Verdict};
use iso_io::MemShelf;
use mesh_check::verdict;
use mesh_read::read_ply;
use mesh_text::TwoWayFormat;
use std::alloc::{AllocError, Global};
use std::process::Abort;

const ONE_FACE_OFF: &str =
    "OFF\n3 1 0\n0.500 0.000 0.000\n0.000 0.500 0.000\n0.000 0.000 0.500\n3 0 1 2\n";

const ONE_FACE_VTK: &str =
    "# vtk DataFile Version 3.0\nisobench\nASCII\nDATASET POLYDATA\nPOINTS 3 float\n0.500 0.000 0.000\n0.000 0.500 0.000\n0.000 0.000 0.500\nPOLYGONS 1 4\n3 0 1 2\n";

const LAST_FACE_OBJ: &str =
    "v 1.500 1.000 1.000\nv 1.000 1.500 1.000\nv 1.000 1.000 1.500\nf 1 2 3\n";

fn check_corner(rt: &impl Abort, bench: &Bench, shelf: &mut MemShelf) {
    for (corners, format, bytes, text) in [
        ([1, 1, 1, 0, 0, 0], MeshFormat::Off, 72, ONE_FACE_OFF),
        ([0, 0, 0, 1, 1, 1], MeshFormat::Vtk, 149, ONE_FACE_VTK),
    ] {
        let written = window(bench, shelf, corners, format);
        assert_eq!(rt; written, mesh_of(3, 1, bytes));
        assert!(rt; has_file(shelf, "w", text));
    }
}

#[test]
fn a_corner_in_off_and_vtk(rt: HostRuntime) {
    let mut shelf = shelf(rt.alloc(), &[]).expect(&rt, "memory suffices");
    check_corner(
        &rt,
        &bench(rt.alloc()).expect(&rt, "there is a bench"),
        &mut shelf,
    );
}

/// The verdict on the file `w`.
fn verdict_on(alloc: Global, shelf: &MemShelf) -> Option<Verdict> {
    let text = shelf.file("w")?;
    if text.len() > 65_536 {
        return None;
    }
    let triangles = read_ply(alloc, text).ok()?;
    if triangles.triangles().len() > 65_536 {
        return None;
    }
    verdict(alloc, &triangles).ok()
}

/// The window of a dot among three points along each axis has a border of three edges.
fn check_border(rt: &impl Abort, alloc: Global, bench: &Bench, shelf: &mut MemShelf) {
    let ply = window(bench, shelf, [1, 1, 1, 2, 2, 2], MeshFormat::Ply);
    assert_eq!(rt; ply, mesh_of(3, 1, 216));
    let border = Verdict::Border { edges: 3 };
    assert_eq!(rt; verdict_on(alloc, shelf), Some(border));
}

/// Windows that are refused leave the file before them.
fn check_refusals(rt: &impl Abort, bench: &Bench, shelf: &mut MemShelf) {
    for (corners, want) in [
        ([2, 1, 2, 1, 2, 1], mesh_of(3, 1, 68)),
        (
            [1, 1, 1, 1, 2, 2],
            Err(BenchFault::WindowThin { axis: 0, n: 1 }),
        ),
        ([0, 0, 0, 3, 1, 1], Err(BenchFault::Outside)),
        ([0, 0, -1, 0, 0, 0], Err(BenchFault::Outside)),
    ] {
        let obj = window(bench, shelf, corners, MeshFormat::Obj);
        assert_eq!(rt; obj, want, "{corners:?}");
        assert!(rt; has_file(shelf, "w", LAST_FACE_OBJ), "{corners:?}");
    }
}

fn check_dot(rt: &impl Abort, alloc: Global, bench: &Bench) {
    let mut shelf = shelf(alloc, &[]).expect(rt, "memory suffices");
    check_border(rt, alloc, bench, &mut shelf);
    check_refusals(rt, bench, &mut shelf);
}

#[test]
fn a_dot(rt: HostRuntime) {
    check_dot(
        &rt,
        rt.alloc(),
        &dot_bench(rt.alloc()).expect(&rt, "there is a bench"),
    );
}

#[test]
fn a_dot_in_a_pad(rt: HostRuntime) {
    check_dot(
        &rt,
        rt.alloc(),
        &padded_bench(rt.alloc()).expect(&rt, "there is a bench"),
    );
}

/// The thousandths of a coordinate with three decimals.
fn thousandths(word: &str) -> u32 {
    let mut n: u32 = 0;
    for &byte in word.as_bytes() {
        if byte.is_ascii_digit() {
            n = n.wrapping_mul(10).wrapping_add(u32::from(byte - b'0'));
        }
    }
    n
}

/// Whether a position lies in the box from one corner to another.
fn is_inside(position: &str, low: [u32; 3], high: [u32; 3]) -> bool {
    let mut words = position.split(' ');
    for axis in 0..3 {
        let Some(word) = words.next() else {
            return false;
        };
        let at = u64::from(thousandths(word));
        if at < 1000 * u64::from(low[axis]) || at > 1000 * u64::from(high[axis]) {
            return false;
        }
    }
    true
}

/// A part of a mesh as OFF while it is gathered: its lines, and what number each vertex of the whole has in it, if any.
#[derive(Drop)]
struct Part {
    lines: String,
    numbers: Vec<Option<u32>>,
    vertices: u32,
    faces: u32,
}

fn push_line(lines: &mut String, line: &str) -> Result<(), AllocError> {
    lines.push_str(line)?;
    lines.push_str("\n")
}

fn add_vertex(part: &mut Part, line: &str, is_inside: bool) -> Result<(), AllocError> {
    if is_inside {
        part.numbers.push(Some(part.vertices))?;
        part.vertices = part.vertices.wrapping_add(1);
        push_line(&mut part.lines, line)
    } else {
        part.numbers.push(None)?;
        Ok(())
    }
}

/// The number that a vertex of the whole has in the part.
fn number_in(part: &Part, word: &str) -> Option<u32> {
    let old = word.parse::<u32>().ok()?;
    *part.numbers.get(old as usize)?
}

fn add_number(alloc: Global, line: &mut String, number: u32) -> Result<(), AllocError> {
    line.push_str(&format!(in alloc; " {number}")?)
}

/// The line of a face by the numbers of the part; none where a corner of it has none.
fn face_line(alloc: Global, part: &Part, face: &str) -> Result<Option<String>, AllocError> {
    let mut line = String::from_str(alloc, "3")?;
    for word in face.split(' ').skip(1) {
        let Some(number) = number_in(part, word) else {
            return Ok(None);
        };
        add_number(alloc, &mut line, number)?;
    }
    Ok(Some(line))
}

fn add_face(alloc: Global, part: &mut Part, face: &str) -> Result<(), AllocError> {
    let Some(line) = face_line(alloc, part, face)? else {
        return Ok(());
    };
    part.faces = part.faces.wrapping_add(1);
    push_line(&mut part.lines, &line)
}

/// Adds the lines of the whole mesh as PLY: the vertices in the box, and the faces whose corners are all among them.
fn gather(
    alloc: Global,
    part: &mut Part,
    whole: &str,
    low: [u32; 3],
    high: [u32; 3],
) -> Result<(), AllocError> {
    for line in whole.lines() {
        if line.contains('.') {
            add_vertex(part, line, is_inside(line, low, high))?;
        } else {
            add_face(alloc, part, line)?;
        }
    }
    Ok(())
}

fn gather_part(
    alloc: Global,
    whole: &str,
    low: [u32; 3],
    high: [u32; 3],
) -> Result<Part, AllocError> {
    let mut part = Part {
        lines: String::new(alloc),
        numbers: Vec::new(alloc),
        vertices: 0,
        faces: 0,
    };
    gather(alloc, &mut part, whole, low, high)?;
    Ok(part)
}

fn text_of(alloc: Global, part: &Part) -> Result<String, AllocError> {
    format!(in alloc; "OFF\n{} {} 0\n{}", part.vertices, part.faces, part.lines)
}

/// The part of a mesh in a box as OFF. Each crossing lies in the middle of its edge, so a cell beside the box has a corner
/// outside of it.
fn part_of(
    alloc: Global,
    whole: &str,
    low: [u32; 3],
    high: [u32; 3],
) -> Result<String, AllocError> {
    text_of(alloc, &gather_part(alloc, whole, low, high)?)
}

/// Opposite corners of a box.
fn corners_of([ax, ay, az]: [u32; 3], [bx, by, bz]: [u32; 3]) -> [i64; 6] {
    [bx, ay, bz, ax, by, az].map(i64::from)
}

/// Whether the window of a box is that part of the whole mesh.
fn is_part(
    alloc: Global,
    bench: &Bench,
    shelf: &mut MemShelf,
    whole: &str,
    (low, high): ([u32; 3], [u32; 3]),
) -> Result<bool, AllocError> {
    let written = window(bench, shelf, corners_of(low, high), MeshFormat::Off);
    let part = part_of(alloc, whole, low, high)?;
    Ok(written.is_ok() && has_file(shelf, "w", &part))
}

/// One of four points along each axis.
fn point(number: u32) -> [u32; 3] {
    [number % 4, number / 4 % 4, number / 16]
}

fn is_below(low: [u32; 3], high: [u32; 3]) -> bool {
    low[0] < high[0] && low[1] < high[1] && low[2] < high[2]
}

/// How many boxes of four points along each axis have another window, of those from one point.
fn boxes_apart(
    alloc: Global,
    bench: &Bench,
    shelf: &mut MemShelf,
    whole: &str,
    low: [u32; 3],
) -> Result<u32, AllocError> {
    let mut apart: u32 = 0;
    for last in 0..64 {
        let high = point(last);
        if is_below(low, high) && !is_part(alloc, bench, shelf, whole, (low, high))? {
            apart = apart.wrapping_add(1);
        }
    }
    Ok(apart)
}

/// The lines of the file `w` behind its head.
fn body_of(shelf: &MemShelf) -> Option<&str> {
    let text = std::str::from_utf8(shelf.file("w")?).ok()?;
    let (_, body) = text.split_once("end_header\n")?;
    Some(body)
}

/// The whole mesh, which has more than a hundred faces.
fn whole_mesh(rt: &impl Abort, alloc: Global, bench: &mut Bench, shelf: &mut MemShelf) -> String {
    let written = write(bench, shelf, "w", TwoWayFormat::Ply);
    assert!(rt; written.is_ok_and(|written| written.faces > 100));
    let body = body_of(shelf).expect(rt, "there is a text");
    String::from_str(alloc, body).expect(rt, "memory suffices")
}

/// Writes the whole mesh, and looks at its boxes.
fn check_boxes(rt: &impl Abort, alloc: Global, bench: &mut Bench, shelf: &mut MemShelf) {
    let whole = whole_mesh(rt, alloc, bench, shelf);
    for first in 0..64 {
        let apart = boxes_apart(alloc, bench, shelf, &whole, point(first));
        assert_eq!(rt; apart.ok(), Some(0), "from {first}");
    }
}

#[test]
fn each_box_of_a_volume(rt: HostRuntime) {
    let mut shelf = shelf(rt.alloc(), &[]).expect(&rt, "memory suffices");
    let mut bench = four_a_side(rt.alloc()).expect(&rt, "there is a bench");
    check_boxes(&rt, rt.alloc(), &mut bench, &mut shelf);
}
