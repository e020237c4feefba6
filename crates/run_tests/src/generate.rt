//! Generated volumes, and the script that is run on one.

use crate::calls::{Outcome, call_of, check_done, check_output, outcome_on};
use iso_io::{MemShelf, MemSource};
use program::Status;
use std::alloc::Global;
use std::process::Abort;
use std::test::Fail;

/// The volume of seed 0 of two samples along each axis.
const GENERATED: &[u8] =
    b"NRRD0004\ntype: uint8\ndimension: 3\nsizes: 2 2 2\nencoding: raw\n\n\x1a\x1a\x1a\x1a\x1a\x1a\x1a\x1a";

#[test]
fn a_volume_of_a_seed(rt: HostRuntime) -> Result<(), Fail> {
    let alloc = rt.alloc();
    check_done(&rt, alloc, &["gen", "0", "2", "2", "2"], b"", GENERATED)?;
    let thin = ["gen", "0", "1", "2", "2"];
    let note = b"isobench: bad words\n";
    check_output(&rt, alloc, &thin, b"", Status::BadWords, b"", note)
}

/// The replies of the script of seed 7 to its lines that write a mesh.
const REPLIES: &[u8] =
    b"ok vertices 89272 faces 175766 bytes 5271032\nok vertices 144645 faces 284436 bytes 8761578\nok vertices 109001 faces 214680 bytes 6493150\nok vertices 124491 faces 244665 bytes 7468923\nok vertices 86622 faces 169680 bytes 5087901\nok vertices 130068 faces 255633 bytes 7826118\nok vertices 142008 faces 279300 bytes 8595026\nok vertices 96938 faces 190154 bytes 5710893\nok vertices 136739 faces 269006 bytes 8259666\nok vertices 137171 faces 269878 bytes 8288072\n";

/// The bytes of the longest of these meshes, and of the last.
const LONGEST_BYTES: u32 = 8_761_578;

const LAST: usize = 8_288_072;

/// What the script of seed 7 leaves.
fn soak(alloc: Global) -> Result<Outcome, Fail> {
    let shelf = MemShelf::new(alloc, 1, LONGEST_BYTES, Vec::new(alloc))?;
    let mut input = MemSource::new(Vec::new(alloc), 1, Vec::new(alloc));
    outcome_on(alloc, &call_of(&["soak", "7"], b""), &mut input, shelf)
}

fn check_soaked(rt: &impl Abort, outcome: &Outcome) {
    assert!(rt; outcome.status == Status::Done);
    assert!(rt; outcome.output.bytes() == REPLIES);
    assert!(rt; outcome.shelf.file("soak.ply").unwrap_or(b"").len() == LAST);
}

#[test]
fn the_script_of_a_seed_twice(rt: HostRuntime) -> Result<(), Fail> {
    for _ in 0..2 {
        check_soaked(&rt, &soak(rt.alloc())?);
    }
    Ok(())
}
