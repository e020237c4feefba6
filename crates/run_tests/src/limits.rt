//! Volumes with as many points along an axis as there may be: 1,026, or 1,024 and the two layers of a padding. The expected
//! numbers were counted by hand or come from an independent program.

use crate::calls::{Outcome, call_of, check_done, outcome_of, session_of};
use program::Status;
use std::alloc::{AllocError, Global};
use std::process::Abort;
use std::test::Fail;

/// What stands in a volume: a checkerboard, all of whose lattice edges are crossing, or a ridge of points with two coordinates
/// of 0, whose mesh is one component.
#[derive(Clone, Copy)]
enum Pattern {
    Checkerboard,
    Ridge,
}

fn is_above(pattern: Pattern, x: u32, y: u32, z: u32) -> bool {
    match pattern {
        Pattern::Checkerboard => (x ^ y ^ z) % 2 == 1,
        Pattern::Ridge => (x == 0 && y == 0) || (x == 0 && z == 0) || (y == 0 && z == 0),
    }
}

/// A volume of 20 above and 0 below, or of 10 and 0 for a ridge.
fn volume_of(
    alloc: Global,
    head: &[u8],
    sizes: [u32; 3],
    pattern: Pattern,
) -> Result<Vec<u8>, AllocError> {
    let above = match pattern {
        Pattern::Checkerboard => 20,
        Pattern::Ridge => 10,
    };
    let mut volume = Vec::from_slice(alloc, head)?;
    for z in 0..sizes[2] {
        for y in 0..sizes[1] {
            for x in 0..sizes[0] {
                volume.push(if is_above(pattern, x, y, z) { above } else { 0 })?;
            }
        }
    }
    Ok(volume)
}

const LONG_X: &[u8] = b"NRRD0004\ntype: uint8\ndimension: 3\nsizes: 1026 2 2\nencoding: raw\n\n";

const LONG_Y: &[u8] = b"NRRD0004\ntype: uint8\ndimension: 3\nsizes: 2 1026 2\nencoding: raw\n\n";

const LONG_Z: &[u8] = b"NRRD0004\ntype: uint8\ndimension: 3\nsizes: 2 2 1026\nencoding: raw\n\n";

/// A call on a checkerboard: its words, the volume's header and sizes, and how many bytes it writes, how they begin and end,
/// and what `check` says of them.
struct Row {
    words: &'static [&'static str],
    head: &'static [u8],
    sizes: [u32; 3],
    bytes: usize,
    begin: &'static [u8],
    end: &'static [u8],
    verdict: &'static [u8],
}

const POINTS: &[&str] = &["points", "--level=5"];

const EXTRACT: &[&str] = &["extract", "--level=5"];

const PADDED: &[&str] = &["extract", "--pad=0", "--level=5"];

/// There are 1,025 edges along the axis in each of four rows, and across it four at each of 1,026 places. Each of the 1,025
/// cells has four triangles, none with an edge of another.
const POINTS_BEGIN: &[u8] =
    b"ply\nformat ascii 1.0\nelement vertex 8204\nproperty float x\nproperty float y\nproperty float z\nend_header\n0.250 0.000 0.000\n";

const MESH_BEGIN: &[u8] =
    b"ply\nformat ascii 1.0\nelement vertex 8204\nproperty float x\nproperty float y\nproperty float z\nelement face 4100\nproperty list uchar int vertex_indices\nend_header\n0.250 0.000 0.000\n";

const PADDED_BEGIN: &[u8] =
    b"ply\nformat ascii 1.0\nelement vertex 16382\nproperty float x\nproperty float y\nproperty float z\nelement face 32760\nproperty list uchar int vertex_indices\nend_header\n1.000 0.000 -0.750\n";

const ROWS: &[Row] = &[
    Row {
        words: POINTS,
        head: LONG_X,
        sizes: [1026, 2, 2],
        bytes: 163_507,
        begin: POINTS_BEGIN,
        end: b"\n1024.250 1.000 1.000\n",
        verdict: b"",
    },
    Row {
        words: POINTS,
        head: LONG_Y,
        sizes: [2, 1026, 2],
        bytes: 163_507,
        begin: POINTS_BEGIN,
        end: b"\n0.250 1025.000 1.000\n",
        verdict: b"",
    },
    Row {
        words: POINTS,
        head: LONG_Z,
        sizes: [2, 2, 1026],
        bytes: 163_507,
        begin: POINTS_BEGIN,
        end: b"\n0.250 1.000 1025.000\n",
        verdict: b"",
    },
    Row {
        words: EXTRACT,
        head: LONG_X,
        sizes: [1026, 2, 2],
        bytes: 231_422,
        begin: MESH_BEGIN,
        end: b"\n3 8203 5126 7177\n",
        verdict: b"border 8204\n",
    },
    Row {
        words: EXTRACT,
        head: LONG_Y,
        sizes: [2, 1026, 2],
        bytes: 231_497,
        begin: MESH_BEGIN,
        end: b"\n3 8203 5126 8201\n",
        verdict: b"border 8204\n",
    },
    Row {
        words: EXTRACT,
        head: LONG_Z,
        sizes: [2, 2, 1026],
        bytes: 231_609,
        begin: MESH_BEGIN,
        end: b"\n3 8203 8198 8201\n",
        verdict: b"border 8204\n",
    },
    Row {
        words: PADDED,
        head: b"NRRD0004\ntype: uint8\ndimension: 3\nsizes: 1024 2 2\nencoding: raw\n\n",
        sizes: [1024, 2, 2],
        bytes: 919_063,
        begin: PADDED_BEGIN,
        end: b"\n3 12285 12286 12287\n",
        verdict: b"closed\n",
    },
    Row {
        words: PADDED,
        head: b"NRRD0004\ntype: uint8\ndimension: 3\nsizes: 2 1024 2\nencoding: raw\n\n",
        sizes: [2, 1024, 2],
        bytes: 919_064,
        begin: PADDED_BEGIN,
        end: b"\n3 12285 12286 12287\n",
        verdict: b"closed\n",
    },
    Row {
        words: PADDED,
        head: b"NRRD0004\ntype: uint8\ndimension: 3\nsizes: 2 2 1024\nencoding: raw\n\n",
        sizes: [2, 2, 1024],
        bytes: 919_075,
        begin: PADDED_BEGIN,
        end: b"\n3 12285 12286 12287\n",
        verdict: b"closed\n",
    },
];

fn check_text(rt: &impl Abort, outcome: &Outcome, row: &Row) {
    let text = outcome.output.bytes();
    assert_eq!(rt; outcome.status, Status::Done);
    assert_eq!(rt; text.len(), row.bytes);
    assert!(rt; text.starts_with(row.begin) && text.ends_with(row.end));
}

/// Points have no verdict.
fn check_mesh(rt: &impl Abort, alloc: Global, mesh: &[u8], verdict: &[u8]) -> Result<(), Fail> {
    if verdict.is_empty() {
        return Ok(());
    }
    check_done(rt, alloc, &["check", "ply"], mesh, verdict)
}

fn check_row(rt: &impl Abort, alloc: Global, row: &Row) -> Result<(), Fail> {
    let volume = volume_of(alloc, row.head, row.sizes, Pattern::Checkerboard)?;
    let mut call = call_of(row.words, &volume);
    call.room = 1_000_000;
    let outcome = outcome_of(alloc, &call)?;
    check_text(rt, &outcome, row);
    check_mesh(rt, alloc, outcome.output.bytes(), row.verdict)
}

#[test]
fn texts_of_long_volumes(rt: HostRuntime) -> Result<(), Fail> {
    for row in ROWS {
        check_row(&rt, rt.alloc(), row)?;
    }
    Ok(())
}

/// A session on a ridge: the volume's header and sizes, the script and the replies, and the ends of the files `a` and `b`.
struct Turns {
    head: &'static [u8],
    sizes: [u32; 3],
    script: &'static [u8],
    replies: &'static [u8],
    ends: [&'static [u8]; 2],
}

const SESSIONS: &[Turns] = &[
    Turns {
        head: LONG_X,
        sizes: [1026, 2, 2],
        script: b"ply a\nreport\nmeasure\nwindow 1025 1 1 1000 0 0 ply b\n",
        replies: b"ok vertices 3079 faces 4102 bytes 126777\nmesh vertices 3079 edges 7180 faces 4102 border 2054 euler 1 parts 1\npart 0 vertices 3079 edges 7180 faces 4102 border 2054 euler 1\nok\nmeasure parts 1\npart 0 six 514250000000 area 1500000 1025500000 1025500000 border 2054\nok\nok vertices 77 faces 100 bytes 2838\n",
        ends: [b"\n3 2048 2046 3078\n", b"\n3 50 48 76\n"],
    },
    Turns {
        head: LONG_Y,
        sizes: [2, 1026, 2],
        script: b"ply a\nreport\nmeasure\nwindow 1 1025 1 0 1000 0 ply b\n",
        replies: b"ok vertices 3079 faces 4102 bytes 126789\nmesh vertices 3079 edges 7180 faces 4102 border 2054 euler 1 parts 1\npart 0 vertices 3079 edges 7180 faces 4102 border 2054 euler 1\nok\nmeasure parts 1\npart 0 six 514250000000 area 1025500000 1500000 1025500000 border 2054\nok\nok vertices 77 faces 100 bytes 2838\n",
        ends: [b"\n3 2049 2048 3078\n", b"\n3 49 48 76\n"],
    },
    Turns {
        head: LONG_Z,
        sizes: [2, 2, 1026],
        script: b"ply a\nreport\nmeasure\nwindow 1 1 1025 0 0 1000 ply b\n",
        replies: b"ok vertices 3079 faces 4102 bytes 126801\nmesh vertices 3079 edges 7180 faces 4102 border 2054 euler 1 parts 1\npart 0 vertices 3079 edges 7180 faces 4102 border 2054 euler 1\nok\nmeasure parts 1\npart 0 six 514250000000 area 1025500000 1025500000 1500000 border 2054\nok\nok vertices 77 faces 100 bytes 2838\n",
        ends: [b"\n3 2052 2050 3078\n", b"\n3 50 48 76\n"],
    },
];

fn check_turns(rt: &impl Abort, outcome: &Outcome, turns: &Turns) {
    assert_eq!(rt; outcome.status, Status::Done);
    assert_eq!(rt; outcome.output.bytes(), turns.replies);
    for (name, end) in [("a", turns.ends[0]), ("b", turns.ends[1])] {
        assert!(rt;
            outcome.shelf.file(name).unwrap_or(b"").ends_with(end),
            "{name}"
        );
    }
}

fn check_session(rt: &impl Abort, alloc: Global, turns: &Turns) -> Result<(), Fail> {
    let volume = volume_of(alloc, turns.head, turns.sizes, Pattern::Ridge)?;
    let outcome = outcome_of(alloc, &session_of(&volume, turns.script))?;
    check_turns(rt, &outcome, turns);
    check_mesh(
        rt,
        alloc,
        outcome.shelf.file("a").unwrap_or(b""),
        b"border 2054\n",
    )
}

#[test]
fn sessions_on_long_volumes(rt: HostRuntime) -> Result<(), Fail> {
    for turns in SESSIONS {
        check_session(&rt, rt.alloc(), turns)?;
    }
    Ok(())
}
