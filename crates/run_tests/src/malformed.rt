//! Malformed volumes and meshes, each with its one stated cause.

ghost use Rattle.std.specs.Prelude.{◌≡◌, ◌<◌};

use crate::calls::check_output;
use program::Status;
use std::alloc::{AllocError, Global};
use std::process::Abort;
use std::test::Fail;

/// The head of a volume of three samples along each axis, as a usual tool writes it. The samples have 54 bytes.
const HEAD: [&[u8]; 13] = [
    b"NRRD0004\n",
    b"# Complete NRRD file format specification at:\n",
    b"# http://teem.sourceforge.net/nrrd/format.html\n",
    b"type: short\n",
    b"dimension: 3\n",
    b"space: left-posterior-superior\n",
    b"sizes: 3 3 3\n",
    b"space directions: (1,0,0) (0,1,0) (0,0,1)\n",
    b"kinds: domain domain domain\n",
    b"endian: little\n",
    b"encoding: raw\n",
    b"space origin: (0,0,0)\n",
    b"\n",
];

/// Four points and a face.
const MESH: [&[u8]; 14] = [
    b"ply\n",
    b"format ascii 1.0\n",
    b"element vertex 4\n",
    b"property float x\n",
    b"property float y\n",
    b"property float z\n",
    b"element face 1\n",
    b"property list uchar int vertex_indices\n",
    b"end_header\n",
    b"0.000 0.000 0.000\n",
    b"1.000 0.000 0.000\n",
    b"0.000 1.000 0.000\n",
    b"0.000 0.000 1.000\n",
    b"3 0 1 2\n",
];

/// Lines of which one is replaced, with bytes behind them.
fn change_part(
    alloc: Global,
    lines: &[&[u8]],
    at: usize,
    text: &[u8],
    behind: usize,
) -> Result<Vec<u8>, AllocError> {
    let mut all = Vec::new(alloc);
    for i in 0..lines.len() {
        if i == at {
            all.extend_from_slice(text)?;
        } else {
            all.extend_from_slice(lines[i])?;
        }
    }
    for _ in 0..behind {
        all.push(0)?;
    }
    Ok(all)
}

/// The volume is refused with this note.
fn check_volume(rt: &impl Abort, alloc: Global, volume: &[u8], note: &[u8]) -> Result<(), Fail> {
    let mut notes = Vec::from_slice(alloc, b"isobench: volume ")?;
    notes.extend_from_slice(note)?;
    notes.push(b'\n')?;
    let words = ["points", "--level=5"];
    check_output(rt, alloc, &words, volume, Status::BadVolume, b"", &notes)
}

/// The mesh text is refused with this note.
fn check_mesh(
    rt: &impl Abort,
    alloc: Global,
    format: &str,
    mesh: &[u8],
    note: &[u8],
) -> Result<(), Fail> {
    let mut notes = Vec::from_slice(alloc, b"isobench: mesh ")?;
    notes.extend_from_slice(note)?;
    notes.push(b'\n')?;
    let words = ["check", format];
    check_output(rt, alloc, &words, mesh, Status::BadMesh, b"", &notes)
}

/// Which line of a text is replaced, by what, and the note on it.
type Change = (usize, &'static [u8], &'static [u8]);

const VOLUMES: [Change; 12] = [
    (0, b"NRRD0006\n", b"1 not nrrd"),
    (4, b"dimension 3\n", b"3 bad line 5"),
    (
        6,
        b"sizes: 3 3 3\nsizes: 3 3 3\n",
        b"4 repeated field sizes",
    ),
    (3, b"", b"5 missing field type"),
    (6, b"sizes: 3 3\n", b"6 bad value sizes"),
    (9, b"endian: middle\n", b"6 bad value endian"),
    (3, b"type: float\n", b"7 unsupported type"),
    (
        10,
        b"encoding: raw\nbyte skip: 1\n",
        b"10 skip unsupported byte skip",
    ),
    (4, b"dimension: 4\n", b"11 not three axes 4"),
    (6, b"sizes: 1027 3 3\n", b"12 size axis 0 1027"),
    (6, b"sizes: 1000 1000 1000\n", b"12 size product 1000000000"),
    (9, b"", b"13 no endian"),
];

#[test]
fn volumes_are_refused(rt: HostRuntime) -> Result<(), Fail> {
    let alloc = rt.alloc();
    for change in &VOLUMES {
        let volume = change_part(alloc, &HEAD, change.0, change.1, 54)?;
        check_volume(&rt, alloc, &volume, change.2)?;
    }
    let cut = change_part(alloc, &HEAD[..12], 12, b"", 0)?;
    check_volume(&rt, alloc, &cut, b"14 short samples 54 0")?;
    let mut long = Vec::from_slice(alloc, b"NRRD0004\n")?;
    long.resize(9 + 65_536, b'#')?;
    check_volume(&rt, alloc, &long, b"2 header too long 65545")
}

const MESHES: [Change; 5] = [
    (1, b"format binary_little_endian 1.0\n", b"2 binary ply"),
    (7, b"property list uchar int corners\n", b"3 bad header 7"),
    (13, b"3 0 1 x\n", b"4 bad number 14"),
    (13, b"3 0 1 4\n", b"6 index outside 14"),
    (6, b"element face 2000000000\n", b"8 too many 2000000000"),
];

#[test]
fn meshes_are_refused(rt: HostRuntime) -> Result<(), Fail> {
    let alloc = rt.alloc();
    for change in &MESHES {
        let mesh = change_part(alloc, &MESH, change.0, change.1, 0)?;
        check_mesh(&rt, alloc, "ply", &mesh, change.2)?;
    }
    check_mesh(&rt, alloc, "ply", b"", b"1 not mesh")?;
    let headless = change_part(alloc, &MESH[..8], 14, b"", 0)?;
    check_mesh(&rt, alloc, "ply", &headless, b"3 bad header 9")?;
    let short = change_part(alloc, &MESH[..9], 14, b"", 0)?;
    check_mesh(&rt, alloc, "ply", &short, b"7 short mesh 5 0")?;
    check_mesh(
        &rt,
        alloc,
        "obj",
        b"v 0 0 0\nv 1 0 0\nv 0 1 0\nf 1 2 -4\n",
        b"6 index outside 4",
    )?;
    check_mesh(
        &rt,
        alloc,
        "obj",
        b"v 0 0 0\nv 1 0 0\nv 0 1 0\nf 1 2 3 1\n",
        b"5 not triangle 4",
    )
}
