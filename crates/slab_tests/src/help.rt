//! The head of a mesh, and what the program tells of itself: neither reads anything.

use crate::calls::{Call, NO_FILES, call_of, check_done, check_end, outcome_of};
use program::Status;
use std::alloc::Global;
use std::process::Abort;
use std::test::Fail;

const HEAD: &[u8] =
    b"ply\nformat ascii 1.0\nelement vertex 12\nproperty float x\nproperty float y\nproperty float z\nelement face 2147483647\nproperty list uchar int vertex_indices\nend_header\n";

const NO_HEAD: &[u8] =
    b"ply\nformat ascii 1.0\nelement vertex 0\nproperty float x\nproperty float y\nproperty float z\nelement face 0\nproperty list uchar int vertex_indices\nend_header\n";

const HELP_HEAD: &[u8] =
    b"isoslab: one slab of the mesh of a volume that is larger than one process takes\n\nUsage:\n";

const HELP_END: &[u8] = b"\nManual: README.md and docs/ of the repository isobench.\n";

/// A call whose every read and every call of the shelf would fail.
fn question<'a>(words: &'a [&'a str]) -> Call<'a> {
    let mut call = call_of(words, b"");
    call.reads_failing = &[1, 2];
    call.shelf_failing = &[1, 2];
    call
}

/// What is written for words that are answered so.
fn told<'a>(rt: &impl Abort, alloc: Global, words: &'a [&'a str]) -> Result<Vec<u8>, Fail> {
    let outcome = outcome_of(alloc, &question(words))?;
    assert_eq!(rt; outcome.status, Status::Done);
    assert!(rt; outcome.notes.bytes().is_empty());
    Ok(Vec::from_slice(alloc, outcome.output.bytes())?)
}

#[test]
fn heads_are_told(rt: HostRuntime) -> Result<(), Fail> {
    let rows: [(&[&str], &[u8]); 2] = [
        (&["head", "12", "2147483647"], HEAD),
        (&["head", "0", "0"], NO_HEAD),
    ];
    for (words, output) in rows {
        check_done(&rt, rt.alloc(), words, b"", output, NO_FILES)?;
    }
    Ok(())
}

#[test]
fn help_is_told(rt: HostRuntime) -> Result<(), Fail> {
    let alloc = rt.alloc();
    let text = told(&rt, alloc, &["--help"])?;
    assert!(rt; text.starts_with(HELP_HEAD));
    assert!(rt; text.ends_with(HELP_END));
    for command in ["count", "write", "head"] {
        let same = told(&rt, alloc, &[command, "--help"])?;
        assert!(rt; same == text);
    }
    Ok(())
}

#[test]
fn the_version_is_told(rt: HostRuntime) -> Result<(), Fail> {
    let text = told(&rt, rt.alloc(), &["--version"])?;
    assert!(rt; text.as_slice() == b"isoslab 1.1.0\n".as_slice());
    Ok(())
}

/// A text whose third write fails is cut there.
#[test]
fn the_output_fails(rt: HostRuntime) -> Result<(), Fail> {
    let mut call = question(&["head", "12", "2147483647"]);
    call.writes_failing = &[3];
    let outcome = outcome_of(rt.alloc(), &call)?;
    check_end(
        &rt,
        &outcome,
        Status::OutputFault,
        b"ply\nformat ascii 1",
        b"isoslab: output fault\n",
    );
    Ok(())
}
