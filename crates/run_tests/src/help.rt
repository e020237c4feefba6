//! What the program tells of itself: it reads nothing and touches no file.

use crate::calls::{Call, call_of, check_output, outcome_of};
use program::Status;
use std::alloc::Global;
use std::process::Abort;
use std::test::Fail;

const HELP_HEAD: &[u8] =
    b"isobench: a workbench for isosurfaces of integer volumes\n\nUsage:\n  isobench points --level=V\n";

const HELP_END: &[u8] = b"\nManual: README.md and docs/ of the repository isobench.\n";

const OUTPUT_FAULT: &[u8] = b"isobench: output fault\n";

/// A call whose every read and every call of the shelf would fail.
fn question<'a>(words: &'a [&'a str]) -> Call<'a> {
    let mut call = call_of(words, b"");
    call.reads_failing = &[1, 2];
    call.shelf_failing = &[1, 2];
    call
}

/// What is written for words that are answered so.
fn told<'a>(rt: &impl Abort, alloc: Global, words: &'a [&'a str]) -> Result<Vec<u8>, Fail> {
    let outcome = outcome_of(alloc, &question(words))?;
    assert_eq!(rt; outcome.status, Status::Done);
    assert!(rt; outcome.notes.bytes().is_empty());
    Ok(Vec::from_slice(alloc, outcome.output.bytes())?)
}

/// Whether a text has at most 60 lines of at most 80 bytes.
fn fits_a_screen(text: &[u8]) -> bool {
    let mut lines: u64 = 0;
    let mut columns: u64 = 0;
    for byte in text {
        if *byte == b'\n' {
            lines = lines.saturating_add(1);
            columns = 0;
        } else {
            columns = columns.saturating_add(1);
        }
        if columns > 80 {
            return false;
        }
    }
    lines <= 60
}

#[test]
fn help_is_told(rt: HostRuntime) -> Result<(), Fail> {
    let alloc = rt.alloc();
    let text = told(&rt, alloc, &["--help"])?;
    assert!(rt; text.starts_with(HELP_HEAD));
    assert!(rt; text.ends_with(HELP_END));
    assert!(rt; fits_a_screen(&text));
    for command in ["points", "extract", "session", "check", "gen", "soak"] {
        let same = told(&rt, alloc, &[command, "--help"])?;
        assert!(rt; same == text);
    }
    Ok(())
}

#[test]
fn the_version_is_told(rt: HostRuntime) -> Result<(), Fail> {
    let text = told(&rt, rt.alloc(), &["--version"])?;
    assert!(rt; text.as_slice() == b"isobench 1.1.0\n".as_slice());
    Ok(())
}

#[test]
fn other_words_are_bad(rt: HostRuntime) -> Result<(), Fail> {
    let faulty: [&[&str]; 9] = [
        &["help"],
        &["-h"],
        &["--help", "--help"],
        &["--help=1"],
        &["cut", "--help"],
        &["points", "--level=5", "--help"],
        &["points", "--help", "--level=5"],
        &["points", "--version"],
        &["--version", "x"],
    ];
    for words in faulty {
        check_output(
            &rt,
            rt.alloc(),
            words,
            b"",
            Status::BadWords,
            b"",
            b"isobench: bad words\n",
        )?;
    }
    Ok(())
}

/// A text whose third write fails is cut there.
#[test]
fn the_output_fails(rt: HostRuntime) -> Result<(), Fail> {
    let alloc = rt.alloc();
    let text = told(&rt, alloc, &["--help"])?;
    let mut call = question(&["soak", "--help"]);
    call.write_piece = 100;
    call.writes_failing = &[3];
    let outcome = outcome_of(alloc, &call)?;
    assert_eq!(rt; outcome.status, Status::OutputFault);
    assert!(rt; outcome.notes.bytes() == OUTPUT_FAULT);
    assert!(rt; text.starts_with(outcome.output.bytes()));
    assert_eq!(rt; outcome.output.bytes().len(), 200);
    let mut call = question(&["--version"]);
    call.writes_failing = &[1];
    let outcome = outcome_of(alloc, &call)?;
    assert_eq!(rt; outcome.status, Status::OutputFault);
    assert!(rt; outcome.output.bytes().is_empty());
    Ok(())
}
