//! Calls of the program's run over memory. `run_slab` itself is called in one function alone, and that promises nothing, so that what
//! it promises is read once and not in each test.

use iso_io::{MemShelf, MemSink, MemSource};
use program::Status;
use slab_command::run_slab;
use std::alloc::{AllocError, Global};
use std::process::Abort;
use std::test::Fail;

/// A call: its words, its input, and the most bytes that a read gives and that a write takes; and which reads, writes and calls
/// of the shelf fail, counted from 1. A failing append takes four bytes.
#[derive(Clone, Copy)]
pub struct Call<'a> {
    pub words: &'a [&'a str],
    pub input: &'a [u8],
    pub piece: u32,
    pub reads_failing: &'a [u64],
    pub writes_failing: &'a [u64],
    pub shelf_failing: &'a [u64],
}

/// A call by pieces of 9 bytes, without failures.
pub fn call_of<'a>(words: &'a [&'a str], input: &'a [u8]) -> Call<'a> {
    Call {
        words,
        input,
        piece: 9,
        reads_failing: &[],
        writes_failing: &[],
        shelf_failing: &[],
    }
}

/// The files of a slab, where they are there.
#[derive(Clone, Copy)]
pub struct Files {
    pub edges: Option<&'static [u8]>,
    pub centres: Option<&'static [u8]>,
    pub triangles: Option<&'static [u8]>,
}

/// None of them is there.
pub const NO_FILES: Files = Files {
    edges: None,
    centres: None,
    triangles: None,
};

/// What is left of a call: its status, its output, its notes and the shelf.
#[derive(Drop)]
pub struct Outcome {
    pub status: Status,
    pub output: MemSink,
    pub notes: MemSink,
    pub shelf: MemShelf,
}

fn words_of(alloc: Global, words: &[&str]) -> Result<Vec<String>, AllocError> {
    let mut all = Vec::new(alloc);
    for word in words {
        all.push(String::from_str(alloc, word)?)?;
    }
    Ok(all)
}

fn source_of(alloc: Global, call: &Call<'_>) -> Result<MemSource, AllocError> {
    let input = Vec::from_slice(alloc, call.input)?;
    let failing = Vec::from_slice(alloc, call.reads_failing)?;
    Ok(MemSource::new(input, call.piece.max(1), failing))
}

fn sink_of(alloc: Global, piece: u32, failing: &[u64]) -> Result<MemSink, Fail> {
    let failing = Vec::from_slice(alloc, failing)?;
    Ok(MemSink::cutting(alloc, 4096, piece.max(1), failing)?)
}

fn shelf_of(alloc: Global, failing: &[u64]) -> Result<MemShelf, Fail> {
    let failing = Vec::from_slice(alloc, failing)?;
    Ok(MemShelf::cutting(alloc, 4, 4096, 4, failing)?)
}

fn run(alloc: Global, words: &[String], input: &mut MemSource, outcome: &mut Outcome) -> Status {
    run_slab(
        alloc,
        words,
        input,
        &mut outcome.output,
        &mut outcome.notes,
        &mut outcome.shelf,
    )
}

pub fn outcome_of(alloc: Global, call: &Call<'_>) -> Result<Outcome, Fail> {
    let words = words_of(alloc, call.words)?;
    let mut input = source_of(alloc, call)?;
    let mut outcome = Outcome {
        status: Status::Done,
        output: sink_of(alloc, call.piece, call.writes_failing)?,
        notes: sink_of(alloc, 4096, &[])?,
        shelf: shelf_of(alloc, call.shelf_failing)?,
    };
    outcome.status = run(alloc, &words, &mut input, &mut outcome);
    Ok(outcome)
}

pub fn check_files(rt: &impl Abort, outcome: &Outcome, files: Files) {
    for (name, file) in [
        ("x.edges", files.edges),
        ("x.centres", files.centres),
        ("x.triangles", files.triangles),
    ] {
        assert_eq!(rt; outcome.shelf.file(name), file, "{name}");
    }
}

/// How it ended, and what it wrote to its output and of that.
pub fn check_end(rt: &impl Abort, outcome: &Outcome, status: Status, output: &[u8], notes: &[u8]) {
    assert_eq!(rt; outcome.status, status);
    assert_eq!(rt; outcome.output.bytes(), output);
    assert_eq!(rt; outcome.notes.bytes(), notes);
}

fn check_all(
    rt: &impl Abort,
    outcome: &Outcome,
    status: Status,
    output: &[u8],
    notes: &[u8],
    files: Files,
) {
    check_end(rt, outcome, status, output, notes);
    check_files(rt, outcome, files);
}

/// A call that is done, with this output and these files.
pub fn check_done<'a>(
    rt: &impl Abort,
    alloc: Global,
    words: &'a [&'a str],
    input: &'a [u8],
    output: &'a [u8],
    files: Files,
) -> Result<(), Fail> {
    let outcome = outcome_of(alloc, &call_of(words, input))?;
    check_all(rt, &outcome, Status::Done, output, b"", files);
    Ok(())
}

/// A call that makes nothing, and ends by this status with this note.
pub fn check_refused<'a>(
    rt: &impl Abort,
    alloc: Global,
    words: &'a [&'a str],
    input: &'a [u8],
    status: Status,
    notes: &'a [u8],
) -> Result<(), Fail> {
    let outcome = outcome_of(alloc, &call_of(words, input))?;
    check_all(rt, &outcome, status, b"", notes, NO_FILES);
    Ok(())
}
