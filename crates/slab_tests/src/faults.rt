//! A slab that is written, with each call of the outside failing in turn.

use crate::calls::{Call, Files, NO_FILES, Outcome, call_of, check_end, check_files, outcome_of};
use crate::texts::{LOWER_CENTRES, LOWER_COUNTS, LOWER_EDGES, LOWER_TRIANGLES, SLAB};
use program::Status;
use std::alloc::Global;
use std::process::Abort;
use std::test::Fail;

const WORDS: &[&str] = &[
    "write",
    "--level=5",
    "--from=4",
    "--edges=100",
    "--centres=700",
    "x",
];

const EDGES: Option<&'static [u8]> = Some(LOWER_EDGES);

const CENTRES: Option<&'static [u8]> = Some(LOWER_CENTRES);

const ALL: Files = Files {
    edges: EDGES,
    centres: CENTRES,
    triangles: Some(LOWER_TRIANGLES),
};

/// What the shelf holds where its call of this number fails: each file is started by one and appended by the next, which takes
/// four bytes before it fails.
const HELD: &[Files] = &[
    NO_FILES,
    Files {
        edges: Some(b"0.00"),
        centres: None,
        triangles: None,
    },
    Files {
        edges: EDGES,
        centres: None,
        triangles: None,
    },
    Files {
        edges: EDGES,
        centres: Some(b"0.50"),
        triangles: None,
    },
    Files {
        edges: EDGES,
        centres: CENTRES,
        triangles: None,
    },
    Files {
        edges: EDGES,
        centres: CENTRES,
        triangles: Some(b"3 10"),
    },
];

fn check_shelf(rt: &impl Abort, alloc: Global, number: u64, files: Files) -> Result<(), Fail> {
    let numbers = [number];
    let mut call = call_of(WORDS, SLAB);
    call.shelf_failing = &numbers;
    let outcome = outcome_of(alloc, &call)?;
    check_end(
        rt,
        &outcome,
        Status::ShelfFault,
        b"",
        b"isoslab: shelf fault\n",
    );
    check_files(rt, &outcome, files);
    Ok(())
}

#[test]
fn each_call_of_the_shelf_fails(rt: HostRuntime) -> Result<(), Fail> {
    let mut number = 1;
    for files in HELD {
        check_shelf(&rt, rt.alloc(), number, *files)?;
        number = number.saturating_add(1);
    }
    Ok(())
}

/// Nothing failed, and everything is there; or the run ended by this fault, and what it left is a part of that: all files and a
/// prefix of the line where the output failed, nothing where the input did.
fn is_whole(rt: &impl Abort, outcome: &Outcome, fault: Status) -> bool {
    if outcome.status == Status::Done {
        check_end(rt, outcome, Status::Done, LOWER_COUNTS, b"");
        check_files(rt, outcome, ALL);
        return true;
    }
    assert_eq!(rt; outcome.status, fault);
    assert!(rt; LOWER_COUNTS.starts_with(outcome.output.bytes()));
    check_files(
        rt,
        outcome,
        if fault == Status::InputFault {
            NO_FILES
        } else {
            ALL
        },
    );
    false
}

/// The slab where one read, or one write of the line, fails.
fn with_fault(alloc: Global, fault: Status, piece: u32, number: u64) -> Result<Outcome, Fail> {
    let numbers = [number];
    let mut call: Call<'_> = call_of(WORDS, SLAB);
    call.piece = piece;
    if fault == Status::InputFault {
        call.reads_failing = &numbers;
    } else {
        call.writes_failing = &numbers;
    }
    outcome_of(alloc, &call)
}

/// Each read or each write fails in turn, up to a run in which none does. How many runs that took.
fn runs_to_the_end(rt: &impl Abort, alloc: Global, fault: Status, piece: u32) -> Result<u64, Fail> {
    for number in 1..200 {
        if is_whole(rt, &with_fault(alloc, fault, piece, number)?, fault) {
            return Ok(number);
        }
    }
    Ok(200)
}

#[test]
fn each_read_and_each_write_fails(rt: HostRuntime) -> Result<(), Fail> {
    for fault in [Status::InputFault, Status::OutputFault] {
        for piece in [1, 7, 4096] {
            let runs = runs_to_the_end(&rt, rt.alloc(), fault, piece)?;
            assert!(rt; 1 < runs && runs < 200);
        }
    }
    Ok(())
}
