//! Sessions of the program.

use crate::calls::{
    Call, End, NO_FILES, Outcome, call_of, check, check_replies, check_session, outcome_of,
    session_of,
};
use crate::faults::worked_call;
use crate::texts::*;
use program::Status;
use std::alloc::{AllocError, Global};
use std::process::Abort;
use std::test::Fail;

/// A volume of so many samples, all 0.
pub fn zeros(alloc: Global, head: &[u8], count: usize) -> Result<Vec<u8>, AllocError> {
    let mut volume = Vec::from_slice(alloc, head)?;
    volume.resize(head.len().saturating_add(count), 0)?;
    Ok(volume)
}

/// A text so many times.
fn repeat_text(alloc: Global, text: &[u8], times: usize) -> Result<Vec<u8>, AllocError> {
    let mut all = Vec::new(alloc);
    for _ in 0..times {
        all.extend_from_slice(text)?;
    }
    Ok(all)
}

pub const SEVENTEEN: &[u8] =
    b"NRRD0004\ntype: uint8\ndimension: 3\nsizes: 17 17 17\nencoding: raw\n\n";

#[test]
fn an_edit_and_its_undo(rt: HostRuntime) -> Result<(), Fail> {
    let alloc = rt.alloc();
    let volume = zeros(alloc, SEVENTEEN, 4913)?;
    check_session(
        &rt,
        alloc,
        &volume,
        b"ply a\nset 8 8 8 10\nply b\nundo\nply c\n",
        b"ok vertices 0 faces 0 bytes 154\nok\nok vertices 6 faces 8 bytes 326\nok\nok vertices 0 faces 0 bytes 154\n",
        [Some(NO_MESH), Some(MOVED_MESH), Some(NO_MESH)],
    )
}

/// The file `a` that a session leaves.
fn file_of(alloc: Global, call: &Call<'_>) -> Result<Vec<u8>, Fail> {
    let outcome = outcome_of(alloc, call)?;
    Ok(Vec::from_slice(alloc, outcome.shelf.file("a").unwrap_or(b""))?)
}

/// Two sessions write the same mesh as the file `a`, and one that has vertices.
fn same_meshes(
    rt: &impl Abort,
    alloc: Global,
    call: &Call<'_>,
    other: &Call<'_>,
) -> Result<(), Fail> {
    let mesh = file_of(alloc, call)?;
    assert!(rt; mesh.len() > 154);
    assert_eq!(rt; mesh, file_of(alloc, other)?);
    Ok(())
}

const REFRESHED: &[u8] = b"set 8 8 8 10\nfill 0 0 0 3 3 3 20\nlevel 7\nwork 1\nundo\nply a\n";

const NOT_REFRESHED: &[u8] = b"set 8 8 8 10\nfill 0 0 0 3 3 3 20\nlevel 7\nundo\nply a\n";

/// Neither does the capacity: the second session keeps the least of its mesh that may be kept.
#[test]
fn refresh_turns_change_nothing(rt: HostRuntime) -> Result<(), Fail> {
    let alloc = rt.alloc();
    let volume = zeros(alloc, SEVENTEEN, 4913)?;
    let call = session_of(&volume, REFRESHED);
    same_meshes(&rt, alloc, &call, &session_of(&volume, NOT_REFRESHED))?;
    same_meshes(&rt, alloc, &call, &worked_call(&volume, REFRESHED))
}

const LARGE: &[u8] = b"NRRD0004\ntype: uint8\ndimension: 3\nsizes: 128 128 128\nencoding: raw\n\n";

#[test]
fn a_box_may_be_too_large(rt: HostRuntime) -> Result<(), Fail> {
    let alloc = rt.alloc();
    let volume = zeros(alloc, LARGE, 2_097_152)?;
    check_session(
        &rt,
        alloc,
        &volume,
        b"fill 0 0 0 127 127 127 1\nfill 127 127 63 0 0 0 1\nundo\n",
        b"error 8 fill 2097152\nok\nok\n",
        NO_FILES,
    )
}

#[test]
fn a_change_is_made_again(rt: HostRuntime) -> Result<(), Fail> {
    let alloc = rt.alloc();
    let volume = zeros(alloc, SEVENTEEN, 4913)?;
    check_session(
        &rt,
        alloc,
        &volume,
        b"set 8 8 8 10\nundo\nredo\nply a\nundo\nlevel 7\nredo\nset 99 0 0 1\n",
        b"ok\nok\nok\nok vertices 6 faces 8 bytes 326\nok\nok\nerror 12 nothing to redo\nerror 3 outside\n",
        [Some(MOVED_MESH), None, None],
    )
}

#[test]
fn at_most_128_changes_are_undone_and_made_again(rt: HostRuntime) -> Result<(), Fail> {
    let alloc = rt.alloc();
    let mut script = repeat_text(alloc, b"set 0 0 0 1\n", 129)?;
    script.extend_from_slice(&repeat_text(alloc, b"undo\n", 129)?)?;
    script.extend_from_slice(&repeat_text(alloc, b"redo\n", 129)?)?;
    let mut replies = repeat_text(alloc, b"ok\n", 257)?;
    replies.extend_from_slice(b"error 7 nothing to undo\n")?;
    replies.extend_from_slice(&repeat_text(alloc, b"ok\n", 128)?)?;
    replies.extend_from_slice(b"error 12 nothing to redo\n")?;
    check_session(&rt, alloc, CORNER, &script, &replies, NO_FILES)
}

/// A session on MIDDLE in which this call of the shelf fails; the first opens the volume, the second makes the file and the
/// third writes to it.
fn check_failing<'a>(
    rt: &impl Abort,
    alloc: Global,
    script: &'a [u8],
    failing: &'a [u64],
    end: &End<'a>,
) -> Result<(), Fail> {
    let mut call = session_of(MIDDLE, script);
    call.shelf_failing = failing;
    check(rt, alloc, &call, end)
}

#[test]
fn the_shelf_fails(rt: HostRuntime) -> Result<(), Fail> {
    let alloc = rt.alloc();
    let mut end = End {
        status: Status::Done,
        output: b"error 9 shelf\n",
        notes: b"",
        files: [Some(b""), None, None],
    };
    check_failing(&rt, alloc, b"ply a\n", &[3], &end)?;
    end.output = b"error 9 shelf\nok vertices 6 faces 8 bytes 326\n";
    end.files = [Some(MIDDLE_MESH), None, None];
    check_failing(&rt, alloc, b"ply a\nply a\n", &[3], &end)?;
    let shut = End {
        status: Status::ShelfFault,
        output: b"",
        notes: b"isobench: shelf fault\n",
        files: NO_FILES,
    };
    check_failing(&rt, alloc, b"ply a\n", &[1], &shut)
}

/// The front of the mesh of MIDDLE at level 9.
const MESH_AT_NINE: &[u8] =
    b"ply\nformat ascii 1.0\nelement vertex 6\nproperty float x\nproperty float y\nproperty float z\nelement face 8\nproperty list uchar int vertex_indices\nend_header\n1.000 1.000 0.900\n1.000 0.900 1.000\n0.900 1.000 1.000\n1.100 1.000 1.000\n";

fn check_mesh_at_nine(rt: &impl Abort, outcome: &Outcome) {
    let replies = b"ok\nok vertices 6 faces 8 bytes 326\n";
    assert_eq!(rt; outcome.output.bytes(), replies.as_slice());
    assert!(rt;
        outcome
            .shelf
            .file("a")
            .unwrap_or(b"")
            .starts_with(MESH_AT_NINE)
    );
}

#[test]
fn another_level(rt: HostRuntime) -> Result<(), Fail> {
    let call = session_of(MIDDLE, b"level 9\nply a");
    check_mesh_at_nine(&rt, &outcome_of(rt.alloc(), &call)?);
    Ok(())
}

#[test]
fn lines_and_their_ends(rt: HostRuntime) -> Result<(), Fail> {
    check_session(
        &rt,
        rt.alloc(),
        MIDDLE,
        b"# c\r\n\n  undo \nquit\nply a\n",
        b"error 7 nothing to undo\nok\n",
        NO_FILES,
    )
}

#[test]
fn reports_and_contours(rt: HostRuntime) -> Result<(), Fail> {
    let alloc = rt.alloc();
    check_session(
        &rt,
        alloc,
        MIDDLE,
        b"report\ncontour 1\nsave c\nobj b\nlevel 9\ncontour 3\n",
        b"mesh vertices 6 edges 12 faces 8 border 0 euler 2 parts 1\npart 0 vertices 6 edges 12 faces 8 border 0 euler 2\nok\ncycle 4\n1.000 0.500\n0.500 1.000\n1.000 1.500\n1.500 1.000\nok\nok bytes 89\nok vertices 6 faces 8 bytes 184\nok\nerror 11 plane 3\n",
        [
            None,
            Some(
                b"v 1.000 1.000 0.500\nv 1.000 0.500 1.000\nv 0.500 1.000 1.000\nv 1.500 1.000 1.000\nv 1.000 1.500 1.000\nv 1.000 1.000 1.500\nf 3 1 2\nf 4 2 1\nf 3 5 1\nf 4 1 5\nf 3 2 6\nf 4 6 2\nf 3 6 5\nf 4 5 6\n",
            ),
            Some(MIDDLE),
        ],
    )?;
    check_session(
        &rt,
        alloc,
        CORNER,
        b"contour 0\n",
        b"path 2\n0.000 0.500\n0.500 0.000\nok\n",
        NO_FILES,
    )
}

#[test]
fn a_report_in_a_pad(rt: HostRuntime) -> Result<(), Fail> {
    let mut call = call_of(&["session", "v", "--level=5", "--pad=0"], b"report\n");
    call.volume = SOLID;
    let replies =
        b"mesh vertices 42 edges 120 faces 80 border 0 euler 2 parts 1\npart 0 vertices 42 edges 120 faces 80 border 0 euler 2\nok\n";
    check_replies(&rt, rt.alloc(), &call, replies, NO_FILES)
}

#[test]
fn refusals_in_a_pad(rt: HostRuntime) -> Result<(), Fail> {
    let alloc = rt.alloc();
    let mut script = Vec::from_slice(
        alloc,
        b"set 2 0 0 1\nset 0 0 0 256\nlevel 8589934592\nlevel 0\nundo\ncontour 2\nsett 0 0 0 1\n",
    )?;
    script.extend_from_slice(&repeat_text(alloc, b"x", 4097)?)?;
    script.extend_from_slice(b"\ncontour 0\nlevel 0.5\nlevel -0.5\n")?;
    let mut call = call_of(&["session", "v", "--pad=0", "--level=5"], &script);
    call.volume = CORNER;
    let replies =
        b"error 3 outside\nerror 4 value 0 255\nerror 5 level\nerror 6 pad 0 0\nerror 7 nothing to undo\nerror 11 plane 2\nerror 2 syntax\nerror 10 line 4097\ncycle 4\n0.000 -0.500\n-0.500 0.000\n0.000 0.500\n0.500 0.000\nok\nok\nerror 6 pad -0.500 0\n";
    check_replies(&rt, alloc, &call, replies, NO_FILES)
}
