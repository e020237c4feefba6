//! Calls of the program's run over memory. `run` itself is called in one function alone, and that promises nothing, so that what
//! `run` promises is read once and not in each test.

ghost use Rattle.std.specs.Prelude.{◌≡◌, ◌<◌};

use commands::run;
use iso_base::Steps;
use iso_io::{MemShelf, MemSink, MemSource, Source};
use program::Status;
use std::alloc::{AllocError, Global};
use std::marker::Brand;
use std::process::Abort;
use std::sync::ledger::{Blank, Ledger};
use std::test::Fail;

/// A call: its words, its input, and the bytes of the shelf's file `v`; the most bytes that its output has room for, that a
/// read gives, that a write takes and that a failing append takes; and which reads, writes and calls of the shelf fail, counted
/// from 1.
#[derive(Clone, Copy)]
pub struct Call<'a> {
    pub words: &'a [&'a str],
    pub input: &'a [u8],
    pub volume: &'a [u8],
    pub room: u32,
    pub read_piece: u32,
    pub write_piece: u32,
    pub cut: u32,
    pub reads_failing: &'a [u64],
    pub writes_failing: &'a [u64],
    pub shelf_failing: &'a [u64],
}

/// A call whose input comes in pieces of 9 bytes, without a volume or failures.
pub fn call_of<'a>(words: &'a [&'a str], input: &'a [u8]) -> Call<'a> {
    Call {
        words,
        input,
        volume: b"",
        room: 4096,
        read_piece: 9,
        write_piece: 4096,
        cut: 0,
        reads_failing: &[],
        writes_failing: &[],
        shelf_failing: &[],
    }
}

/// A session at level 5 on a volume of the file `v`, whose script is read in pieces of 7 bytes; no call fails.
pub fn session_of<'a>(volume: &'a [u8], script: &'a [u8]) -> Call<'a> {
    let mut call = call_of(&["session", "--level=5", "v"], script);
    call.volume = volume;
    call.read_piece = 7;
    call
}

/// How it is to end, and what the shelf's files `a`, `b` and `c` are then to hold, where there are any.
#[derive(Clone, Copy)]
pub struct End<'a> {
    pub status: Status,
    pub output: &'a [u8],
    pub notes: &'a [u8],
    pub files: [Option<&'static [u8]>; 3],
}

/// None of the three files is there.
pub const NO_FILES: [Option<&'static [u8]>; 3] = [None, None, None];

/// What is left of a call: its status, its output, its notes and the shelf.
#[derive(Drop)]
pub struct Outcome {
    pub status: Status,
    pub output: MemSink,
    pub notes: MemSink,
    pub shelf: MemShelf,
}

fn words_of(alloc: Global, words: &[&str]) -> Result<Vec<String>, AllocError> {
    let mut all = Vec::new(alloc);
    for word in words {
        all.push(String::from_str(alloc, word)?)?;
    }
    Ok(all)
}

/// Reads and writes that are to give and to take something.
fn source_of(alloc: Global, call: &Call<'_>) -> Result<MemSource, AllocError> {
    let input = Vec::from_slice(alloc, call.input)?;
    let failing = Vec::from_slice(alloc, call.reads_failing)?;
    Ok(MemSource::new(input, call.read_piece.max(1), failing))
}

fn sink_of(alloc: Global, room: u32, piece: u32, failing: &[u64]) -> Result<MemSink, Fail> {
    let failing = Vec::from_slice(alloc, failing)?;
    Ok(MemSink::cutting(alloc, room, piece.max(1), failing)?)
}

/// The most bytes of a file on the shelf of a test.
const FILE_BYTES: u32 = 2_200_000;

/// A shelf with the volume as the file `v`.
fn shelf_of(alloc: Global, call: &Call<'_>) -> Result<MemShelf, Fail> {
    let failing = Vec::from_slice(alloc, call.shelf_failing)?;
    let mut shelf = MemShelf::cutting(alloc, 5, FILE_BYTES, call.cut, failing)?;
    if call.volume.len() <= FILE_BYTES as usize {
        shelf.put("v", call.volume);
    }
    Ok(shelf)
}

fn counted_run<S: Source, L: Ledger>(
    alloc: Global,
    blank: Blank,
    words: &[String],
    input: &mut S,
    outcome: &mut Outcome,
) -> Status
    requires name { blank.name ≡ L.name }
    requires parts { blank.parts ≡ L.parts }
    requires some { 0 < blank.parts }
{
    let (book, share) = blank.open::<L>();
    run(
        alloc,
        words,
        input,
        &mut outcome.output,
        &mut outcome.notes,
        &mut outcome.shelf,
        &mut None,
        &mut Steps::new(book, share),
    )
}

/// What is left of a call whose input is another source, over this shelf.
pub fn outcome_on<S: Source>(
    alloc: Global,
    call: &Call<'_>,
    input: &mut S,
    shelf: MemShelf,
) -> Result<Outcome, Fail> {
    let words = words_of(alloc, call.words)?;
    let mut outcome = Outcome {
        status: Status::Done,
        output: sink_of(alloc, call.room, call.write_piece, call.writes_failing)?,
        notes: sink_of(alloc, 4096, 4096, &[])?,
        shelf,
    };
    outcome.status = counted_run::<S, Brand>(alloc, Blank::new(1), &words, input, &mut outcome);
    Ok(outcome)
}

/// What is left of a call whose input is another source.
pub fn outcome_over<S: Source>(
    alloc: Global,
    call: &Call<'_>,
    input: &mut S,
) -> Result<Outcome, Fail> {
    outcome_on(alloc, call, input, shelf_of(alloc, call)?)
}

pub fn outcome_of(alloc: Global, call: &Call<'_>) -> Result<Outcome, Fail> {
    outcome_over(alloc, call, &mut source_of(alloc, call)?)
}

fn check_end(rt: &impl Abort, outcome: &Outcome, end: &End<'_>) {
    assert_eq!(rt; outcome.status, end.status);
    assert_eq!(rt; outcome.output.bytes(), end.output);
    assert_eq!(rt; outcome.notes.bytes(), end.notes);
    for (name, file) in [
        ("a", end.files[0]),
        ("b", end.files[1]),
        ("c", end.files[2]),
    ] {
        assert_eq!(rt; outcome.shelf.file(name), file, "{name}");
    }
}

pub fn check(rt: &impl Abort, alloc: Global, call: &Call<'_>, end: &End<'_>) -> Result<(), Fail> {
    check_end(rt, &outcome_of(alloc, call)?, end);
    Ok(())
}

/// A call that reads its input in pieces of 9 bytes, writes to its output alone, and ends by this status.
pub fn check_output<'a>(
    rt: &impl Abort,
    alloc: Global,
    words: &'a [&'a str],
    input: &'a [u8],
    status: Status,
    output: &'a [u8],
    notes: &'a [u8],
) -> Result<(), Fail> {
    let end = End {
        status,
        output,
        notes,
        files: NO_FILES,
    };
    check(rt, alloc, &call_of(words, input), &end)
}

pub fn check_done<'a>(
    rt: &impl Abort,
    alloc: Global,
    words: &'a [&'a str],
    input: &'a [u8],
    output: &'a [u8],
) -> Result<(), Fail> {
    check_output(rt, alloc, words, input, Status::Done, output, b"")
}

/// A call that is done, with these replies and files.
pub fn check_replies<'a>(
    rt: &impl Abort,
    alloc: Global,
    call: &Call<'a>,
    replies: &'a [u8],
    files: [Option<&'static [u8]>; 3],
) -> Result<(), Fail> {
    let end = End {
        status: Status::Done,
        output: replies,
        notes: b"",
        files,
    };
    check(rt, alloc, call, &end)
}

/// A session at level 5 on a volume of the file `v`.
pub fn check_session<'a>(
    rt: &impl Abort,
    alloc: Global,
    volume: &'a [u8],
    script: &'a [u8],
    replies: &'a [u8],
    files: [Option<&'static [u8]>; 3],
) -> Result<(), Fail> {
    check_replies(rt, alloc, &session_of(volume, script), replies, files)
}
