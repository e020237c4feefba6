//! The worked script with each call of the outside failing in turn.

use crate::calls::{Call, Outcome, call_of, outcome_of, session_of};
use crate::scripts::{SEVENTEEN, zeros};
use crate::texts::{MESH_AT_FOUR, MOVED_MESH};
use program::Status;
use std::alloc::{AllocError, Global};
use std::process::Abort;
use std::test::Fail;

const SCRIPT: &[u8] = b"set 8 8 8 10\nply a\nwork 8\nply b\nlevel 4\nply c\nlevel 5\nply d\n";

const MESHED: &[u8] = b"ok vertices 6 faces 8 bytes 326\n";

const REPLIES: &[u8] =
    b"ok\nok vertices 6 faces 8 bytes 326\nok\nok vertices 6 faces 8 bytes 326\nok\nok vertices 6 faces 8 bytes 326\nok\nok vertices 6 faces 8 bytes 326\n";

/// A session at level 5 that keeps the least of its mesh that may be kept.
pub fn worked_call<'a>(volume: &'a [u8], script: &'a [u8]) -> Call<'a> {
    let mut call = call_of(
        &["session", "--level=5", "--bricks=1", "--pages=16", "v"],
        script,
    );
    call.volume = volume;
    call.read_piece = 4096;
    call
}

/// The worked script where reads, writes or calls of the shelf of these numbers fail.
fn failing<'a>(
    volume: &'a [u8],
    reads: &'a [u64],
    writes: &'a [u64],
    shelf: &'a [u64],
) -> Call<'a> {
    let mut call = worked_call(volume, SCRIPT);
    call.reads_failing = reads;
    call.writes_failing = writes;
    call.shelf_failing = shelf;
    call
}

/// The replies where the shelf's call of this number fails: the volume is read by the first call, and each of the four
/// meshes is started by one and appended by the next.
fn replies_but(alloc: Global, number: u64) -> Result<Vec<u8>, AllocError> {
    let mut all = Vec::new(alloc);
    if number == 1 {
        return Ok(all);
    }
    for start in [2, 4, 6, 8] {
        all.extend_from_slice(b"ok\n")?;
        if number == start || number == start + 1 {
            all.extend_from_slice(b"error 9 shelf\n")?;
        } else {
            all.extend_from_slice(MESHED)?;
        }
    }
    Ok(all)
}

/// What a file then holds: nothing where the volume was not read, or the call that starts it failed, and a front where its
/// append failed.
fn held<'a>(mesh: &'a [u8], start: u64, number: u64, front: &'a [u8]) -> Option<&'a [u8]> {
    if number == 1 || number == start {
        None
    } else if number == start.saturating_add(1) {
        Some(front)
    } else {
        Some(mesh)
    }
}

fn check_files(rt: &impl Abort, outcome: &Outcome, number: u64, front: &[u8]) {
    for (name, mesh, start) in [
        ("a", MOVED_MESH, 2),
        ("b", MOVED_MESH, 4),
        ("c", MESH_AT_FOUR, 6),
        ("d", MOVED_MESH, 8),
    ] {
        let want = held(mesh, start, number, front);
        assert_eq!(rt; outcome.shelf.file(name), want, "{name} at {number}");
    }
}

fn check_replies(rt: &impl Abort, outcome: &Outcome, status: Status, replies: &[u8]) {
    assert_eq!(rt; outcome.status, status);
    assert_eq!(rt; outcome.output.bytes(), replies);
}

/// One call of the shelf fails, and takes so many bytes.
fn check_shelf(
    rt: &impl Abort,
    alloc: Global,
    volume: &[u8],
    number: u64,
    front: &[u8],
) -> Result<(), Fail> {
    let replies = replies_but(alloc, number)?;
    let numbers = [number];
    let mut call = failing(volume, &[], &[], &numbers);
    call.cut = if front.is_empty() { 0 } else { 4 };
    let outcome = outcome_of(alloc, &call)?;
    let status = if number == 1 {
        Status::ShelfFault
    } else {
        Status::Done
    };
    check_replies(rt, &outcome, status, &replies);
    check_files(rt, &outcome, number, front);
    Ok(())
}

/// Each of the nine calls of the shelf fails, and in the tenth run none.
#[test]
fn each_call_of_the_shelf_fails(rt: HostRuntime) -> Result<(), Fail> {
    let volume = zeros(rt.alloc(), SEVENTEEN, 4913)?;
    for number in 1..11 {
        for front in [b"".as_slice(), b"ply\n".as_slice()] {
            check_shelf(&rt, rt.alloc(), &volume, number, front)?;
        }
    }
    Ok(())
}

/// The worked script where one read or one write of pieces of a length fails.
fn with_stream_fault(
    alloc: Global,
    volume: &[u8],
    fault: Status,
    piece: u32,
    number: u64,
) -> Result<Outcome, Fail> {
    let numbers = [number];
    if fault == Status::InputFault {
        let mut call = failing(volume, &numbers, &[], &[]);
        call.read_piece = piece;
        outcome_of(alloc, &call)
    } else {
        let mut call = failing(volume, &[], &numbers, &[]);
        call.write_piece = piece;
        outcome_of(alloc, &call)
    }
}

/// Whether nothing failed in a run; it ended by this fault otherwise, and its replies are a front of all.
fn is_whole(rt: &impl Abort, outcome: &Outcome, fault: Status) -> bool {
    if outcome.status == Status::Done {
        assert_eq!(rt; outcome.output.bytes(), REPLIES);
        return true;
    }
    assert_eq!(rt; outcome.status, fault);
    assert!(rt; REPLIES.starts_with(outcome.output.bytes()));
    false
}

/// Each read or each write fails in turn, up to a run in which none does. How many runs that took.
fn runs_to_the_end(
    rt: &impl Abort,
    alloc: Global,
    volume: &[u8],
    fault: Status,
    piece: u32,
) -> Result<u64, Fail> {
    for number in 1..200 {
        if is_whole(
            rt,
            &with_stream_fault(alloc, volume, fault, piece, number)?,
            fault,
        ) {
            return Ok(number);
        }
    }
    Ok(200)
}

#[test]
fn each_read_and_each_write_fails(rt: HostRuntime) -> Result<(), Fail> {
    let volume = zeros(rt.alloc(), SEVENTEEN, 4913)?;
    for fault in [Status::InputFault, Status::OutputFault] {
        for piece in [1, 7, 4096] {
            let runs = runs_to_the_end(&rt, rt.alloc(), &volume, fault, piece)?;
            assert!(rt; 1 < runs && runs < 200);
        }
    }
    Ok(())
}

/// Nothing failed in the worked script.
fn check_worked(rt: &impl Abort, outcome: &Outcome) {
    check_replies(rt, outcome, Status::Done, REPLIES);
    check_files(rt, outcome, 0, b"");
}

fn check_pieces(
    rt: &impl Abort,
    alloc: Global,
    volume: &[u8],
    read_piece: u32,
    write_piece: u32,
) -> Result<(), Fail> {
    let mut call = worked_call(volume, SCRIPT);
    call.read_piece = read_piece;
    call.write_piece = write_piece;
    check_worked(rt, &outcome_of(alloc, &call)?);
    Ok(())
}

#[test]
fn pieces_change_nothing(rt: HostRuntime) -> Result<(), Fail> {
    let volume = zeros(rt.alloc(), SEVENTEEN, 4913)?;
    for read_piece in [1, 7, 4096] {
        for write_piece in [1, 7, 4096] {
            check_pieces(&rt, rt.alloc(), &volume, read_piece, write_piece)?;
        }
    }
    Ok(())
}

/// With the capacity that a session has where no other is asked for, kept bricks are read again.
#[test]
fn the_capacity_changes_nothing(rt: HostRuntime) -> Result<(), Fail> {
    let volume = zeros(rt.alloc(), SEVENTEEN, 4913)?;
    check_worked(&rt, &outcome_of(rt.alloc(), &session_of(&volume, SCRIPT))?);
    Ok(())
}

const EACH_REFUSED: &[u8] =
    b"ok\nerror 9 shelf\nok\nerror 9 shelf\nok\nerror 9 shelf\nok\nerror 9 shelf\n";

/// A shelf that fails at every second call fails each mesh: that of `a` is never started, and those of `b`, `c` and `d` are
/// never appended.
fn check_second(rt: &impl Abort, outcome: &Outcome) {
    check_replies(rt, outcome, Status::Done, EACH_REFUSED);
    assert_eq!(rt; outcome.shelf.file("a"), None);
    assert_eq!(rt; outcome.shelf.file("d"), Some(b"".as_slice()));
}

#[test]
fn every_second_call_of_the_shelf_fails(rt: HostRuntime) -> Result<(), Fail> {
    let volume = zeros(rt.alloc(), SEVENTEEN, 4913)?;
    let call = failing(&volume, &[], &[], &[2, 4, 6, 8, 10, 12]);
    check_second(&rt, &outcome_of(rt.alloc(), &call)?);
    Ok(())
}
