//! Sessions that measure a mesh, and that write volumes as text and the meshes of windows.

use crate::calls::{NO_FILES, call_of, check_done, check_replies, check_session};
use crate::texts::*;
use std::test::Fail;

/// Volumes, and the measures of their meshes at level 5.
const MEASURED: &[(&[u8], &[u8])] = &[
    (
        CORNER,
        b"measure parts 1\npart 0 six 125000000 area 250000 250000 250000 border 3\nok\n",
    ),
    (NOTHING, b"measure parts 0\nok\n"),
    (
        MIDDLE,
        b"measure parts 1\npart 0 six 1000000000 area 0 0 0 border 0\nok\n",
    ),
];

#[test]
fn measures_of_parts(rt: HostRuntime) -> Result<(), Fail> {
    let alloc = rt.alloc();
    for (volume, replies) in MEASURED {
        check_session(&rt, alloc, *volume, b"measure\n", *replies, NO_FILES)?;
    }
    let mut padded = call_of(&["session", "v", "--level=5", "--pad=0"], b"measure\n");
    padded.volume = SOLID;
    let replies = b"measure parts 1\npart 0 six 34000000000 area 0 0 0 border 0\nok\n";
    check_replies(&rt, alloc, &padded, replies, NO_FILES)
}

#[test]
fn volumes_as_text(rt: HostRuntime) -> Result<(), Fail> {
    check_session(
        &rt,
        rt.alloc(),
        MIDDLE,
        b"savetext a\nsavehex b\nsave c\n",
        b"ok bytes 118\nok bytes 125\nok bytes 89\n",
        [
            Some(
                b"NRRD0004\ntype: uint8\ndimension: 3\nsizes: 3 3 3\nencoding: text\n\n0 0 0\n0 0 0\n0 0 0\n0 0 0\n0 10 0\n0 0 0\n0 0 0\n0 0 0\n0 0 0\n",
            ),
            Some(
                b"NRRD0004\ntype: uint8\ndimension: 3\nsizes: 3 3 3\nencoding: hex\n\n000000\n000000\n000000\n000000\n000a00\n000000\n000000\n000000\n000000\n",
            ),
            Some(MIDDLE),
        ],
    )
}

/// The window of MIDDLE from its middle to its last point, at level 5.
const WINDOW_MESH: &[u8] =
    b"ply\nformat ascii 1.0\nelement vertex 3\nproperty float x\nproperty float y\nproperty float z\nelement face 1\nproperty list uchar int vertex_indices\nend_header\n1.500 1.000 1.000\n1.000 1.500 1.000\n1.000 1.000 1.500\n3 0 1 2\n";

#[test]
fn windows(rt: HostRuntime) -> Result<(), Fail> {
    let alloc = rt.alloc();
    check_session(
        &rt,
        alloc,
        MIDDLE,
        b"window 1 1 1 2 2 2 ply a\nwindow 1 1 1 1 2 2 ply b\nwindow 0 0 0 3 1 1 ply c\n",
        b"ok vertices 3 faces 1 bytes 216\nerror 13 window 0 1\nerror 3 outside\n",
        [Some(WINDOW_MESH), None, None],
    )?;
    check_done(&rt, alloc, &["check", "ply"], WINDOW_MESH, b"border 3\n")?;
    check_session(
        &rt,
        alloc,
        CORNER,
        b"window 1 1 1 0 0 0 off a\nwindow 0 0 0 1 1 1 vtk b\nwindow 1 0 1 0 1 0 obj c\n",
        b"ok vertices 3 faces 1 bytes 72\nok vertices 3 faces 1 bytes 149\nok vertices 3 faces 1 bytes 68\n",
        [
            Some(b"OFF\n3 1 0\n0.500 0.000 0.000\n0.000 0.500 0.000\n0.000 0.000 0.500\n3 0 1 2\n"),
            Some(
                b"# vtk DataFile Version 3.0\nisobench\nASCII\nDATASET POLYDATA\nPOINTS 3 float\n0.500 0.000 0.000\n0.000 0.500 0.000\n0.000 0.000 0.500\nPOLYGONS 1 4\n3 0 1 2\n",
            ),
            Some(CORNER_OBJ),
        ],
    )
}
