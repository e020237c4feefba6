//! Tests of `iso_io`.

use iso_io::{
    Failed, FileShelf, MemShelf, MemSink, MemSource, ReadFault, Shelf, ShelfError, ShelfFile, Sink,
    StdSink, read_all_of, stage, write_all_of,
};
use std::alloc::{AllocError, Global};
use std::process::Abort;
use std::test::Fail;

fn list(alloc: Global, numbers: &[u64]) -> Result<Vec<u64>, AllocError> {
    Vec::from_slice(alloc, numbers)
}

/// How much of five bytes is read in pieces of two, where the read of this number fails.
fn read_up_to(
    alloc: Global,
    limit: u64,
    failing: u64,
) -> Result<Result<usize, ReadFault>, AllocError> {
    let bytes = Vec::from_slice(alloc, b"abcde")?;
    let mut source = MemSource::new(bytes, 2, list(alloc, &[failing])?);
    Ok(match read_all_of(alloc, &mut source, limit) {
        Ok(all) => Ok(all.len()),
        Err(fault) => Err(fault),
    })
}

/// Limits, reads that fail, and how much is read.
const READS: &[(u64, u64, Result<usize, ReadFault>)] = &[
    (5, 9, Ok(5)),
    (4, 9, Err(ReadFault::TooLong)),
    (5, 2, Err(ReadFault::Failed)),
];

#[test]
fn a_source_is_read_to_its_limit(rt: HostRuntime) -> Result<(), Fail> {
    for (limit, failing, want) in READS {
        let read = read_up_to(rt.alloc(), *limit, *failing)?;
        assert!(rt; read == *want, "{limit} {failing}");
    }
    Ok(())
}

fn check_put<K: Sink>(rt: &impl Abort, sink: &mut K, bytes: &[u8], want: Result<(), Failed>) {
    assert!(rt; write_all_of(sink, bytes) == want);
}

fn check_write(rt: &impl Abort, sink: &mut MemSink, bytes: &[u8], want: Result<usize, Failed>) {
    assert!(rt; sink.write(bytes) == want);
}

/// A sink of six bytes, whose second call fails.
fn check_writes(rt: &impl Abort, sink: &mut MemSink) {
    check_put(rt, sink, b"abc", Ok(()));
    check_put(rt, sink, b"def", Err(Failed));
    check_write(rt, sink, b"defg", Err(Failed));
    check_write(rt, sink, b"def", Ok(3));
    assert!(rt; sink.bytes() == b"abcdef".as_slice());
}

#[test]
fn a_sink_fails_where_told(rt: HostRuntime) -> Result<(), Fail> {
    check_writes(
        &rt,
        &mut MemSink::new(rt.alloc(), 6, list(rt.alloc(), &[2])?)?,
    );
    Ok(())
}

/// Stages 9,000 lines of ten bytes.
fn stage_lines(sink: &mut MemSink, waiting: &mut Vec<u8>) -> Result<(), Failed> {
    for _ in 0..9_000 {
        stage(sink, waiting, b"0123456789")?;
    }
    Ok(())
}

/// That many bytes were put, all of them whole lines but for the last.
fn check_lines(rt: &impl Abort, bytes: &[u8], count: usize) {
    assert!(rt; bytes.len() == count);
    for line in bytes.chunks(10) {
        assert!(rt; line == b"0123456789".as_slice());
    }
}

fn check_staged(rt: &impl Abort, sink: &mut MemSink, waiting: &mut Vec<u8>) {
    assert!(rt; stage_lines(sink, waiting).is_ok());
    check_lines(rt, sink.bytes(), 65_540);
    check_put(rt, sink, waiting, Ok(()));
    check_lines(rt, sink.bytes(), 90_000);
}

#[test]
fn staged_bytes_come_in_order(rt: HostRuntime) -> Result<(), Fail> {
    let mut sink = MemSink::new(rt.alloc(), 100_000, Vec::new(rt.alloc()))?;
    check_staged(&rt, &mut sink, &mut Vec::new(rt.alloc()));
    Ok(())
}

fn check_start<H: Shelf>(rt: &impl Abort, shelf: &mut H, name: &str, want: Result<(), Failed>) {
    assert!(rt; shelf.start(name) == want, "{name}");
}

fn check_append<H: Shelf>(
    rt: &impl Abort,
    shelf: &mut H,
    (name, bytes): (&str, &[u8]),
    want: Result<(), Failed>,
) {
    assert!(rt; shelf.append(name, bytes) == want, "{name}");
}

/// The call fails, or the file is missing.
fn check_unread<H: Shelf>(rt: &impl Abort, alloc: Global, shelf: &mut H, name: &str) {
    let fault = shelf.read(alloc, name, 9).err();
    assert!(rt; matches!(fault, Some(ShelfError::Failed)), "{name}");
}

/// The file has more bytes than the limit.
fn check_too_long<H: Shelf>(rt: &impl Abort, alloc: Global, shelf: &mut H, name: &str, most: u64) {
    let fault = shelf.read(alloc, name, most).err();
    assert!(rt;
        matches!(fault, Some(ShelfError::TooLong { limit }) if limit == most),
        "{name}"
    );
}

fn check_file(rt: &impl Abort, shelf: &MemShelf, name: &str, bytes: Option<&[u8]>) {
    assert!(rt; shelf.file(name) == bytes, "{name}");
}

/// A shelf of two files of four bytes, whose third call fails.
fn check_appends(rt: &impl Abort, shelf: &mut MemShelf) {
    check_start(rt, shelf, "a", Ok(()));
    check_append(rt, shelf, ("a", b"abc"), Ok(()));
    check_append(rt, shelf, ("a", b"d"), Err(Failed));
    check_append(rt, shelf, ("a", b"de"), Err(Failed));
    check_append(rt, shelf, ("b", b"xyz"), Ok(()));
    check_start(rt, shelf, "c", Err(Failed));
    check_file(rt, shelf, "a", Some(b"abc"));
}

/// What is then read and made anew.
fn check_reads(rt: &impl Abort, alloc: Global, shelf: &mut MemShelf) {
    check_too_long(rt, alloc, shelf, "b", 2);
    check_unread(rt, alloc, shelf, "c");
    check_start(rt, shelf, "b", Ok(()));
    check_file(rt, shelf, "b", Some(b""));
    check_file(rt, shelf, "c", None);
}

#[test]
fn a_shelf_fails_where_told(rt: HostRuntime) -> Result<(), Fail> {
    let mut shelf = MemShelf::new(rt.alloc(), 2, 4, list(rt.alloc(), &[3])?)?;
    check_appends(&rt, &mut shelf);
    check_reads(&rt, rt.alloc(), &mut shelf);
    Ok(())
}

/// Writes the file `a` in two pieces.
fn write_pieces(rt: &impl Abort, shelf: &mut FileShelf) {
    assert!(rt; shelf.start("a") == Ok(()));
    let mut file = ShelfFile::new(shelf, "a");
    check_put(rt, &mut file, b"abc", Ok(()));
    check_put(rt, &mut file, b"def", Ok(()));
}

/// A file has these bytes.
fn check_read<H: Shelf>(
    rt: &impl Abort,
    alloc: Global,
    shelf: &mut H,
    (name, bytes): (&str, &[u8]),
) {
    match shelf.read(alloc, name, 6) {
        Ok(read) => assert!(rt; read.as_slice() == bytes, "{name}"),
        Err(fault) => panic!(rt; "{name}: {fault:?}"),
    }
}

fn check_pieces(rt: &impl Abort, alloc: Global, shelf: &mut FileShelf) {
    check_unread(rt, alloc, shelf, "a");
    write_pieces(rt, shelf);
    check_too_long(rt, alloc, shelf, "a", 5);
    check_read(rt, alloc, shelf, ("a", b"abcdef"));
    check_start(rt, shelf, "no/such/folder", Err(Failed));
}

// The system's files, in the folder of the tests.
#[test]
fn files_are_written_and_read(rt: HostRuntime) {
    check_pieces(&rt, rt.alloc(), &mut FileShelf::new(&rt));
}

/// Appends in turns to two files that are not there at first, and one that fails. All tests share one folder, so no other test
/// has files of these names.
const TURNS: &[(&str, &[u8], Result<(), Failed>)] = &[
    ("first", b"abc", Ok(())),
    ("second", b"uvw", Ok(())),
    ("first", b"de", Ok(())),
    ("no/such/folder", b"z", Err(Failed)),
    ("first", b"f", Ok(())),
    ("second", b"xyz", Ok(())),
];

fn check_turns(rt: &impl Abort, alloc: Global, shelf: &mut FileShelf) {
    for (name, bytes, want) in TURNS {
        check_append(rt, shelf, (*name, *bytes), *want);
    }
    check_read(rt, alloc, shelf, ("first", b"abcdef"));
    check_read(rt, alloc, shelf, ("second", b"uvwxyz"));
}

/// A file that has bytes is made anew.
fn check_anew(rt: &impl Abort, alloc: Global, shelf: &mut FileShelf) {
    check_start(rt, shelf, "first", Ok(()));
    check_read(rt, alloc, shelf, ("first", b""));
    check_append(rt, shelf, ("first", b"gh"), Ok(()));
    check_read(rt, alloc, shelf, ("first", b"gh"));
}

fn check_changes(rt: &impl Abort, alloc: Global, shelf: &mut FileShelf) {
    check_turns(rt, alloc, shelf);
    check_anew(rt, alloc, shelf);
}

#[test]
fn files_are_appended_to_in_turns_and_made_anew(rt: HostRuntime) {
    check_changes(&rt, rt.alloc(), &mut FileShelf::new(&rt));
}

#[test]
fn nothing_is_written_to_the_output(rt: HostRuntime) {
    check_put(&rt, &mut StdSink::new(rt.stdout()), b"", Ok(()));
}
