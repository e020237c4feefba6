//! Tests of `plane_contour`.

ghost use Rattle.std.specs.Prelude.{◌<◌, IsTrue};
ghost use Rattle.iso_defs.specs.Grid.{Grid};
ghost use Rattle.iso_base.specs.Volume.{IsSample};

use byte_streams::MemSink;
use iso_base::{Level, Sizes};
use plane_contour::{Contours, contours, put_contours};
use std::alloc::Global;
use std::process::Abort;
use std::test::Fail;

/// Whether a number can be a sample, as those of these tests are.
pub fn is_small(value: &i64) -> bool
    ensures { IsTrue result → IsSample value.now }
{
    value.unsigned_abs() < 1000
}

/// The lines at level 5 of a plane of that grid.
fn lines_of(rt: &impl Abort, alloc: Global, values: &[i64], sizes: &Sizes) -> Result<Contours, Fail>
    requires { 1 < sizes.now.nz }
{
    let level = Level::new(5_000).ok_or("level")?;
    assert!(rt; values.len() == (sizes.nx() * sizes.ny()) as usize);
    assert!(rt; values.iter().all(|v| is_small(v)));
    Ok(contours(alloc, values, sizes, 1, level)?)
}

/// Appends the lines at level 5 of a plane of a grid with that many points a side.
fn put_plane(
    rt: &impl Abort,
    alloc: Global,
    sink: &mut MemSink,
    values: &[i64],
    side: u64,
    padded: bool,
) -> Result<(), Fail> {
    let sizes = Sizes::new(side, side, 2)?;
    let lines = lines_of(rt, alloc, values, &sizes)?;
    Ok(put_contours(sink, &lines, padded)?)
}

/// A sample in the middle, one in a corner, and one in a plane with a pad.
fn put_planes(rt: &impl Abort, alloc: Global, sink: &mut MemSink) -> Result<(), Fail> {
    put_plane(rt, alloc, sink, &[0, 0, 0, 0, 10, 0, 0, 0, 0], 3, false)?;
    put_plane(rt, alloc, sink, &[10, 0, 0, 0], 2, false)?;
    let layered = &[0, 0, 0, 0, 0, 10, 0, 0, 0, 0, 0, 0, 0, 0, 0, 0];
    put_plane(rt, alloc, sink, layered, 4, true)
}

fn check_planes(rt: &impl Abort, alloc: Global, sink: &mut MemSink) -> Result<(), Fail> {
    put_planes(rt, alloc, sink)?;
    assert!(rt; sink.bytes() == LINES.as_bytes());
    Ok(())
}

const LINES: &str =
    "cycle 4\n1.000 0.500\n0.500 1.000\n1.000 1.500\n1.500 1.000\npath 2\n0.000 0.500\n0.500 0.000\ncycle 4\n0.000 -0.500\n-0.500 0.000\n0.000 0.500\n0.500 0.000\n";

#[test]
fn lines_of_planes(rt: HostRuntime) -> Result<(), Fail> {
    let mut sink = MemSink::new(rt.alloc(), 1000, Vec::new(rt.alloc()))?;
    check_planes(&rt, rt.alloc(), &mut sink)
}
