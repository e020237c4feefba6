//! Sessions on a bench.

ghost use Rattle.std.specs.Prelude.{◌≡◌, ◌<◌};

use crate::texts::CORNER;
use bench_core::{Bench, Capacity};
use iso_base::{Level, Memory, Steps};
use iso_io::{MemShelf, MemSink, MemSource};
use nrrd_read::read_volume;
use session::{Ending, run_session};
use std::alloc::{AllocError, Global};
use std::marker::Brand;
use std::process::Abort;
use std::sync::ledger::{Blank, Ledger};
use std::test::Fail;
use voxel_list::VoxelList;

/// A bench on the volume CORNER at level 5.
fn corner_bench(alloc: Global) -> Option<Bench> {
    let (volume, _) = read_volume(alloc, CORNER).ok()?;
    let capacity = Capacity::new(1, 16)?;
    Bench::begin(alloc, VoxelList::of(volume), Level::new(5000)?, capacity).ok()
}

/// A script in pieces of at most so many bytes; the reads of these numbers fail.
fn source(
    alloc: Global,
    script: &[u8],
    piece: u32,
    failing: &[u64],
) -> Result<MemSource, AllocError>
    requires { 0 < piece }
{
    let script = Vec::from_slice(alloc, script)?;
    Ok(MemSource::new(script, piece, Vec::from_slice(alloc, failing)?))
}

fn counted_ending<L: Ledger>(
    alloc: Global,
    blank: Blank,
    bench: &mut Bench,
    shelf: &mut MemShelf,
    input: &mut MemSource,
    output: &mut MemSink,
) -> Result<Ending, Memory>
    requires name { blank.name ≡ L.name }
    requires parts { blank.parts ≡ L.parts }
    requires some { 0 < blank.parts }
{
    let (book, share) = blank.open::<L>();
    let mut steps = Steps::new(book, share);
    run_session(alloc, bench, shelf, &mut steps, input, output)
}

/// How a script ends, with a counter of its own.
fn ending_of(
    alloc: Global,
    bench: &mut Bench,
    shelf: &mut MemShelf,
    input: &mut MemSource,
    output: &mut MemSink,
) -> Result<Ending, Memory> {
    counted_ending::<Brand>(alloc, Blank::new(1), bench, shelf, input, output)
}

/// Runs a script, and compares the ending, the replies and the size of the file `a`.
fn check_ending(
    rt: &impl Abort,
    alloc: Global,
    bench: &mut Bench,
    input: &mut MemSource,
    want: (Ending, &[u8], usize),
) -> Result<(), Fail> {
    let mut shelf = MemShelf::new(alloc, 2, 256, Vec::new(alloc))?;
    let mut output = MemSink::new(alloc, 4096, Vec::new(alloc))?;
    let ending = ending_of(alloc, bench, &mut shelf, input, &mut output);
    assert_eq!(rt; ending, Ok(want.0));
    assert_eq!(rt; output.bytes(), want.1);
    assert_eq!(rt; shelf.file("a").unwrap_or(b"").len(), want.2);
    Ok(())
}

/// The same on the bench of the corner.
fn check(
    rt: &impl Abort,
    alloc: Global,
    mut input: MemSource,
    want: (Ending, &[u8], usize),
) -> Result<(), Fail> {
    let mut bench = corner_bench(alloc).ok_or("no bench")?;
    check_ending(rt, alloc, &mut bench, &mut input, want)
}

#[test]
fn edits_are_run_and_undone(rt: HostRuntime) -> Result<(), Fail> {
    let script =
        b"# a comment\r\n\nset 0 0 0 1\nply a\nundo\nply a\nlevel 11\nundo\n undo \nredo\nredo\nsett\nquit\nply a\n";
    for piece in [1, 7, 1000] {
        check(
            &rt,
            rt.alloc(),
            source(rt.alloc(), script, piece, &[])?,
            (
                Ending::Done,
                b"ok\nok vertices 0 faces 0 bytes 154\nok\nok vertices 3 faces 1 bytes 216\nok\nok\nerror 7 nothing to undo\nok\nerror 12 nothing to redo\nerror 2 syntax\nok\n",
                216,
            ),
        )?;
    }
    Ok(())
}

#[test]
fn a_read_fails(rt: HostRuntime) -> Result<(), Fail> {
    check(
        &rt,
        rt.alloc(),
        source(rt.alloc(), b"level 11\nply a\nundo\n", 9, &[2])?,
        (Ending::InputFault, b"ok\n", 0),
    )
}
