//! Tests of the points of volume files, by `point_command`.

use byte_streams::MemSink;
use iso_base::Level;
use point_command::put_points_of_file;
use std::alloc::Global;
use std::process::Abort;
use std::test::Fail;

/// The points at level 2.5 of a file, as a text.
fn check_points(rt: &impl Abort, alloc: Global, text: &[u8], points: &str) -> Result<(), Fail> {
    let level = Level::new(2_500).ok_or("2.5 is a level")?;
    let mut sink = MemSink::new(alloc, 200, Vec::new(alloc))?;
    put_points_of_file(alloc, Vec::from_slice(alloc, text)?, level, &mut sink)??;
    assert!(rt; sink.bytes() == points.as_bytes());
    Ok(())
}

const THREE_QUARTERS: &str =
    "ply\nformat ascii 1.0\nelement vertex 3\nproperty float x\nproperty float y\nproperty float z\nend_header\n0.750 0.000 0.000\n0.000 0.750 0.000\n0.000 0.000 0.750\n";

const THREE_EIGHTHS: &str =
    "ply\nformat ascii 1.0\nelement vertex 3\nproperty float x\nproperty float y\nproperty float z\nend_header\n0.375 0.000 0.000\n0.000 0.375 0.000\n0.000 0.000 0.375\n";

const FOUR_ROUND_A_SAMPLE: &str =
    "ply\nformat ascii 1.0\nelement vertex 4\nproperty float x\nproperty float y\nproperty float z\nend_header\n0.000 0.000 0.250\n0.750 0.000 1.000\n0.000 0.750 1.000\n0.000 0.000 1.750\n";

#[test]
fn points_of_a_corner(rt: HostRuntime) -> Result<(), Fail> {
    let text =
        b"NRRD0004\ntype: uint8\ndimension: 3\nsizes: 2 2 2\nencoding: raw\n\n\x0a\x00\x00\x00\x00\x00\x00\x00";
    check_points(&rt, rt.alloc(), text, THREE_QUARTERS)
}

#[test]
fn points_of_signed_samples(rt: HostRuntime) -> Result<(), Fail> {
    let text =
        b"NRRD0004\ntype: int8\ndimension: 3\nsizes: 2 2 2\nencoding: raw\n\n\x0a\xf6\xf6\xf6\xf6\xf6\xf6\xf6";
    check_points(&rt, rt.alloc(), text, THREE_EIGHTHS)
}

#[test]
fn points_of_numbers_in_print(rt: HostRuntime) -> Result<(), Fail> {
    let text =
        b"NRRD0004\ntype: int8\ndimension: 3\nsizes: 2 2 2\nencoding: text\n\n10 -10 -10 -10 -10 -10 -10 -10\n";
    check_points(&rt, rt.alloc(), text, THREE_EIGHTHS)
}

/// The sample that is above lies in the second of three slices.
#[test]
fn points_of_hex_digits(rt: HostRuntime) -> Result<(), Fail> {
    let text =
        b"NRRD0004\ntype: uint8\ndimension: 3\nsizes: 2 2 3\nencoding: hex\n\n00000000 0A000000 00000000\n";
    check_points(&rt, rt.alloc(), text, FOUR_ROUND_A_SAMPLE)
}
