//! Commands that turn an input into an output.

use crate::calls::{End, NO_FILES, call_of, check, check_done, check_output, outcome_of};
use crate::scripts::zeros;
use crate::texts::*;
use program::Status;
use std::alloc::Global;
use std::process::Abort;
use std::test::Fail;

#[test]
fn points_of_a_corner(rt: HostRuntime) -> Result<(), Fail> {
    let alloc = rt.alloc();
    check_done(&rt, alloc, &["points", "--level=5"], CORNER, THREE_POINTS)?;
    check_done(&rt, alloc, &["points", "--level=11"], CORNER, NO_POINTS)
}

#[test]
fn worked_meshes(rt: HostRuntime) -> Result<(), Fail> {
    let meshes: [(&str, &[u8], &[u8]); 13] = [
        ("--level=5", CORNER, CORNER_MESH),
        ("--level=5", CORNER_AT_LEVEL, CORNER_AT_LEVEL_MESH),
        ("--level=5", LOWER_HALF, LOWER_HALF_MESH),
        ("--level=1", TIES, TIES_MESH),
        ("--level=5", MIDDLE, MIDDLE_MESH),
        ("--level=5", MIDDLE_BY_TOOL, MIDDLE_MESH),
        ("--level=0", TIE, TIE_MESH),
        ("--level=0", NO_TIE, NO_TIE_MESH),
        ("--level=1", GREATEST, GREATEST_MESH),
        ("--level=11", CORNER, NO_MESH),
        ("--level=0", CORNER, NO_MESH),
        ("--level=2.5", CORNER, CORNER_AT_HALVES),
        ("--level=0.5", TIE, TIE_AT_HALF),
    ];
    for (level, volume, mesh) in meshes {
        check_done(&rt, rt.alloc(), &["extract", level], volume, mesh)?;
    }
    check_done(
        &rt,
        rt.alloc(),
        &["extract", "--level=10.001"],
        CORNER,
        NO_MESH,
    )
}

#[test]
fn worked_meshes_as_obj(rt: HostRuntime) -> Result<(), Fail> {
    for (level, mesh) in [
        ("--level=5", CORNER_OBJ),
        ("--level=11", b"".as_slice()),
        ("--level=0", b"".as_slice()),
    ] {
        check_done(
            &rt,
            rt.alloc(),
            &["extract", "--format=obj", level],
            CORNER,
            mesh,
        )?;
    }
    Ok(())
}

/// The output of a call that is done.
fn output_of<'a>(
    rt: &impl Abort,
    alloc: Global,
    words: &'a [&'a str],
    input: &'a [u8],
) -> Result<Vec<u8>, Fail> {
    let outcome = outcome_of(alloc, &call_of(words, input))?;
    assert_eq!(rt; outcome.status, Status::Done);
    Ok(Vec::from_slice(alloc, outcome.output.bytes())?)
}

/// The front of the mesh of SOLID in a pad of 0.
const PADDED_MESH: &[u8] =
    b"ply\nformat ascii 1.0\nelement vertex 42\nproperty float x\nproperty float y\nproperty float z\nelement face 80\nproperty list uchar int vertex_indices\nend_header\n0.000 0.000 -0.500\n";

#[test]
fn a_mesh_in_a_pad_is_closed(rt: HostRuntime) -> Result<(), Fail> {
    let alloc = rt.alloc();
    let mesh = output_of(&rt, alloc, &["extract", "--pad=0", "--level=5"], SOLID)?;
    assert!(rt; mesh.starts_with(PADDED_MESH));
    check_done(&rt, alloc, &["check", "ply"], &mesh, b"closed\n")
}

#[test]
fn a_pad_may_make_an_axis_too_long(rt: HostRuntime) -> Result<(), Fail> {
    let head = b"NRRD0004\ntype: uint8\ndimension: 3\nsizes: 1025 2 2\nencoding: raw\n\n";
    let volume = zeros(rt.alloc(), head, 4100)?;
    let words = ["extract", "--level=5", "--pad=0"];
    let note = b"isobench: volume 16 pad size axis 0 1027\n";
    check_output(
        &rt,
        rt.alloc(),
        &words,
        &volume,
        Status::BadVolume,
        b"",
        note,
    )
}

#[test]
fn bad_volumes_are_told(rt: HostRuntime) -> Result<(), Fail> {
    let points = ["points", "--level=5"];
    let extract = ["extract", "--level=5"];
    let at_pad = ["extract", "--pad=0", "--level=0"];
    let below_pad = ["extract", "--pad=0", "--level=-0.5"];
    let volumes: [(&[&str], &[u8], &[u8]); 8] = [
        (&points, b"", b"isobench: volume 1 not nrrd\n"),
        (
            &points,
            &CORNER[..69],
            b"isobench: volume 14 short samples 8 7\n",
        ),
        (
            &extract,
            GZIP,
            b"isobench: volume 8 unsupported encoding gzip\n",
        ),
        (
            &extract,
            &MIDDLE_BY_TOOL[..346],
            b"isobench: volume 14 short samples 54 53\n",
        ),
        (&extract, THIN, b"isobench: volume 12 size thin 0 1\n"),
        (&extract, DETACHED, b"isobench: volume 9 detached 5\n"),
        (
            &at_pad,
            SOLID,
            b"isobench: volume 17 level not above pad 0 0\n",
        ),
        (
            &below_pad,
            SOLID,
            b"isobench: volume 17 level not above pad -0.500 0\n",
        ),
    ];
    for (words, input, note) in volumes {
        check_output(&rt, rt.alloc(), words, input, Status::BadVolume, b"", note)?;
    }
    Ok(())
}

#[test]
fn faults_are_told(rt: HostRuntime) -> Result<(), Fail> {
    let alloc = rt.alloc();
    let mut call = call_of(&["points", "--level=5"], CORNER);
    call.reads_failing = &[3];
    let input_fault = End {
        status: Status::InputFault,
        output: b"",
        notes: b"isobench: input fault\n",
        files: NO_FILES,
    };
    check(&rt, alloc, &call, &input_fault)?;
    call.reads_failing = &[];
    // The head and the points go out in one write, of which this output takes the head.
    call.write_piece = 100;
    call.writes_failing = &[2];
    let output_fault = End {
        status: Status::OutputFault,
        output: &THREE_POINTS[..100],
        notes: b"isobench: output fault\n",
        files: NO_FILES,
    };
    check(&rt, alloc, &call, &output_fault)
}

#[test]
fn other_words_are_refused(rt: HostRuntime) -> Result<(), Fail> {
    let lines: [&[&str]; 4] = [
        &["extract"],
        &["points", "--level", "5"],
        &["extract", "--level=5", "--level=5"],
        &["extract", "--level=0.0005"],
    ];
    for words in lines {
        check_output(
            &rt,
            rt.alloc(),
            words,
            CORNER,
            Status::BadWords,
            b"",
            b"isobench: bad words\n",
        )?;
    }
    Ok(())
}

#[test]
fn verdicts_are_told(rt: HostRuntime) -> Result<(), Fail> {
    let alloc = rt.alloc();
    let ply = ["check", "ply"];
    let obj = ["check", "obj"];
    check_done(&rt, alloc, &ply, MIDDLE_MESH, b"closed\n")?;
    check_done(&rt, alloc, &ply, LOWER_HALF_MESH, b"border 4\n")?;
    check_done(&rt, alloc, &obj, CORNER_OBJ, b"border 3\n")?;
    check_done(
        &rt,
        alloc,
        &obj,
        b"v 0 0 0\nv 1 0 0\nv 0 1 0\nf 1/1 2//2 -1\n",
        b"border 3\n",
    )?;
    let refused: [(&[&str], &[u8], &[u8]); 3] = [
        (&ply, SPLIT, b"split vertex 0\n"),
        (
            &obj,
            b"v 0 0 0\nv 1 0 0\nv 0 1 0\nf 1 2 2\n",
            b"repeated corner 0\n",
        ),
        (
            &obj,
            b"v 0 0 0\nv 1 0 0\nv 0 1 0\nf 1 2 3\nf 1 2 3\n",
            b"edge twice 0 1\n",
        ),
    ];
    for (words, input, line) in refused {
        check_output(&rt, alloc, words, input, Status::MeshRefused, line, b"")?;
    }
    let note = b"isobench: mesh 5 not triangle 14\n";
    check_output(&rt, alloc, &ply, FOUR_CORNERS, Status::BadMesh, b"", note)
}
