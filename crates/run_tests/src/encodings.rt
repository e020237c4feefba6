//! Volumes in the two encodings that print their samples, hex digits and text.

use crate::calls::{check_done, check_output, check_session};
use crate::texts::{CORNER_MESH, THREE_POINTS};
use program::Status;
use std::alloc::Global;
use std::process::Abort;
use std::test::Fail;

/// CORNER in both.
const CORNERS: &[&[u8]] = &[
    b"NRRD0004\ntype: uint8\ndimension: 3\nsizes: 2 2 2\nencoding: hex\n\n0A000000 00000000",
    b"NRRD0004\ntype: uint8\ndimension: 3\nsizes: 2 2 2\nencoding: text\n\n10 0 0 0 0 0 0 0\n",
];

/// A volume is read as CORNER is: by `points`, by `extract` and by a session.
fn check_corner(rt: &impl Abort, alloc: Global, volume: &[u8]) -> Result<(), Fail> {
    check_done(rt, alloc, &["points", "--level=5"], volume, THREE_POINTS)?;
    check_done(rt, alloc, &["extract", "--level=5"], volume, CORNER_MESH)?;
    check_session(
        rt,
        alloc,
        volume,
        b"ply a\n",
        b"ok vertices 3 faces 1 bytes 216\n",
        [Some(CORNER_MESH), None, None],
    )
}

#[test]
fn a_corner_in_hex_digits_and_as_text(rt: HostRuntime) -> Result<(), Fail> {
    for volume in CORNERS {
        check_corner(&rt, rt.alloc(), *volume)?;
    }
    Ok(())
}

/// Volumes as text that are refused, and the notes on them.
const REFUSED: &[(&[u8], &[u8])] = &[
    (
        b"NRRD0004\ntype: uint8\ndimension: 3\nsizes: 2 2 2\nencoding: text\n\n10 0 0 0 0 0 0",
        b"isobench: volume 14 short samples 8 7\n",
    ),
    (
        b"NRRD0004\ntype: uint8\ndimension: 3\nsizes: 2 2 2\nencoding: text\n\n10 0 300",
        b"isobench: volume 19 bad sample 2\n",
    ),
];

#[test]
fn bad_texts_are_told(rt: HostRuntime) -> Result<(), Fail> {
    let words = ["points", "--level=5"];
    for (volume, note) in REFUSED {
        check_output(
            &rt,
            rt.alloc(),
            &words,
            volume,
            Status::BadVolume,
            b"",
            note,
        )?;
    }
    Ok(())
}
