//! Tests of script lines.

use iso_base::{BenchFault, MeshFormat, Written};
use iso_io::{Failed, MemSink};
use measure::Share;
use mesh_report::Part;
use script::{Command, FileName, LineFault, Reply, put_measures, put_reply, put_report, read_line};
use std::alloc::Global;
use std::process::Abort;
use std::test::Fail;

// The word of a line of corners, the corners, which for a point are followed by zeros, and the value.
fn corners(line: &[u8]) -> Option<(&'static str, [i64; 6], i64)> {
    match read_line(line) {
        Ok(Some(Command::Set { at, value })) => {
            Some(("set", [at[0], at[1], at[2], 0, 0, 0], value))
        }
        Ok(Some(Command::Fill { corners, value })) => Some(("fill", corners, value)),
        _ => None,
    }
}

// The word of a line with one number or none, and the number. That of a level is in thousandths.
fn word(line: &[u8]) -> (&'static str, i128) {
    match read_line(line) {
        Ok(Some(Command::Level { value })) => ("level", value),
        Ok(Some(Command::Work { n })) => ("work", i128::from(n)),
        Ok(Some(Command::Contour { k })) => ("contour", i128::from(k)),
        Ok(Some(Command::Undo)) => ("undo", 0),
        Ok(Some(Command::Redo)) => ("redo", 0),
        Ok(Some(Command::Report)) => ("report", 0),
        Ok(Some(Command::Measure)) => ("measure", 0),
        Ok(Some(Command::Quit)) => ("quit", 0),
        Ok(None) => ("nothing", 0),
        _ => ("", 0),
    }
}

// The word of a line that writes, and the name of its file.
fn written(line: &[u8]) -> Option<(&'static str, FileName)> {
    match read_line(line) {
        Ok(Some(Command::Ply { name })) => Some(("ply", name)),
        Ok(Some(Command::Obj { name })) => Some(("obj", name)),
        Ok(Some(Command::Save { name })) => Some(("save", name)),
        Ok(Some(Command::SaveText { name })) => Some(("savetext", name)),
        Ok(Some(Command::SaveHex { name })) => Some(("savehex", name)),
        _ => None,
    }
}

// Whether a line is one of this word with this name.
fn writes(line: &[u8], word: &str, name: &str) -> bool {
    match written(line) {
        Some((read, file)) => read == word && file.as_str() == name,
        None => false,
    }
}

// The corners and the format of a window that goes to the file `a`.
fn window(line: &[u8]) -> Option<([i64; 6], MeshFormat)> {
    match read_line(line) {
        Ok(
            Some(
                Command::Window {
                    corners,
                    format,
                    name,
                },
            ),
        ) if name.as_str() == "a" => Some((corners, format)),
        _ => None,
    }
}

fn fault(line: &[u8]) -> Option<LineFault> {
    match read_line(line) {
        Err(fault) => Some(fault),
        Ok(_) => None,
    }
}

/// Lines of several numbers, their words and numbers.
const CORNER_LINES: &[(&str, (&str, [i64; 6], i64))] = &[
    (" set 1\t-2 003 -0 ", ("set", [1, -2, 3, 0, 0, 0], 0)),
    (
        "fill 0 1 2 3 4 5 999999999999999999",
        ("fill", [0, 1, 2, 3, 4, 5], 999_999_999_999_999_999),
    ),
];

#[test]
fn corners_and_values_are_read(rt: HostRuntime) {
    for (line, want) in CORNER_LINES {
        assert!(rt; corners(line.as_bytes()) == Some(*want), "{line}");
    }
}

/// Lines of one number or none, their words and numbers.
const WORD_LINES: &[(&str, &str, i128)] = &[
    ("work 999999999", "work", 999_999_999),
    ("contour -1", "contour", -1),
    ("\tredo ", "redo", 0),
    (" measure", "measure", 0),
    ("undo ", "undo", 0),
    ("quit", "quit", 0),
    ("report\t", "report", 0),
    ("", "nothing", 0),
    (" \t ", "nothing", 0),
    ("# c", "nothing", 0),
    ("\t#set", "nothing", 0),
];

/// Lines of levels, in thousandths.
const LEVEL_LINES: &[(&str, &str, i128)] = &[
    ("level 5", "level", 5_000),
    ("  level 0.5", "level", 500),
    ("level -0.5", "level", -500),
    ("level 2.05", "level", 2_050),
    ("level 10.001", "level", 10_001),
    ("level -0.0", "level", 0),
    ("level 8589934591.999", "level", 8_589_934_591_999),
    ("level 8589934592", "level", 8_589_934_592_000),
    ("level 8589934592.001", "level", 8_589_934_592_001),
    (
        "level -999999999999999999.999",
        "level",
        -999_999_999_999_999_999_999,
    ),
];

fn check_words(rt: &impl Abort, lines: &[(&str, &str, i128)]) {
    for (line, read, number) in lines {
        assert!(rt; word(line.as_bytes()) == (*read, *number), "{line}");
    }
}

#[test]
fn lines_are_read(rt: HostRuntime) {
    check_words(&rt, WORD_LINES);
}

#[test]
fn levels_are_read_in_thousandths(rt: HostRuntime) {
    check_words(&rt, LEVEL_LINES);
}

/// Lines that write to a file, their words and the names of the files.
const WRITING_LINES: &[(&str, &str, &str)] = &[
    ("ply a/b-1._Z", "ply", "a/b-1._Z"),
    ("obj a", "obj", "a"),
    (" save b.nrrd", "save", "b.nrrd"),
    ("savetext t", "savetext", "t"),
    ("savehex\th ", "savehex", "h"),
];

#[test]
fn lines_that_write_are_read(rt: HostRuntime) {
    for (line, word, name) in WRITING_LINES {
        assert!(rt; writes(line.as_bytes(), word, name), "{line}");
    }
}

/// Lines that write windows to the file `a`.
const WINDOW_LINES: &[(&str, ([i64; 6], MeshFormat))] = &[
    (
        "window 1 1 1 2 2 2 ply a",
        ([1, 1, 1, 2, 2, 2], MeshFormat::Ply),
    ),
    (
        "window 5 4 3 2 1 -0 obj a",
        ([5, 4, 3, 2, 1, 0], MeshFormat::Obj),
    ),
    (
        "window 1 1 1 0 0 0 off a",
        ([1, 1, 1, 0, 0, 0], MeshFormat::Off),
    ),
    (
        "\twindow 0 -1 0 1 1 1 vtk a",
        ([0, -1, 0, 1, 1, 1], MeshFormat::Vtk),
    ),
];

#[test]
fn lines_of_windows_are_read(rt: HostRuntime) {
    for (line, want) in WINDOW_LINES {
        assert!(rt; window(line.as_bytes()) == Some(*want), "{line}");
    }
}

/// One line after another.
const OTHER_LEVELS: &str =
    "level 0.0005\nlevel .5\nlevel 5.\nlevel +1\nlevel 1e3\nlevel 1000000000000000000\nlevel 1000000000000000000.5\nlevel -\nlevel --1\nlevel -.5\nlevel 1.5.5\nlevel 1.-5\nlevel 1,5\nlevel 1. 5\nlevel";

/// One line after another.
const OTHER_LINES: &str =
    "sett 0 0 0 1\nset 0 0 0\nset 0 0 0 1 1\nset 0 0 0 +1\nset 0 0 0 1000000000000000000\nset 0 0 0 1.5\nUndo\nredo 1\nwork -1\nwork 1000000000\nply -a\nply a b\nply a*\nobj\nobj a b\nsave -a\nSave a\nsavetext\nsavehex a b\nwindow 0 0 0 1 1 ply a\nwindow 0 0 0 1 1 1 1 ply a\nwindow 0 0 0 1 1 1 stl a\nwindow 0 0 0 1 1 1 PLY a\nwindow 0 0 0 1 1 1 ply\nwindow 0 0 0 1 1 1 ply a b\nmeasure 1\ncontour\ncontour 1 2\ncontour k\nreport 1\nquit\r";

fn check_refused(rt: &impl Abort, lines: &str) {
    for line in lines.split('\n') {
        assert!(rt; fault(line.as_bytes()) == Some(LineFault::Syntax), "{line}");
    }
}

#[test]
fn other_levels_are_refused(rt: HostRuntime) {
    check_refused(&rt, OTHER_LEVELS);
}

#[test]
fn other_lines_are_refused(rt: HostRuntime) {
    check_refused(&rt, OTHER_LINES);
}

/// A comment of 4097 bytes.
fn check_long(rt: &impl Abort, long: &[u8]) {
    assert!(rt; long.len() == 4097);
    assert!(rt; fault(long) == Some(LineFault::LineTooLong { n: 4097 }));
    assert!(rt; word(&long[1..]).0 == "nothing");
}

#[test]
fn long_lines_are_refused(rt: HostRuntime) -> Result<(), Fail> {
    check_long(&rt, &vec![in rt.alloc(); b'#'; 4097]?);
    Ok(())
}

fn is_name(bytes: &[u8]) -> bool {
    FileName::new(bytes).is_some()
}

/// A name of 256 bytes.
fn check_name(rt: &impl Abort, long: &[u8]) {
    assert!(rt; long.len() == 256);
    let found = [is_name(long), is_name(&long[1..]), is_name(b"")];
    assert!(rt; found == [false, true, false]);
}

#[test]
fn long_names_are_refused(rt: HostRuntime) -> Result<(), Fail> {
    check_name(&rt, &vec![in rt.alloc(); b'n'; 256]?);
    Ok(())
}

const REPLIES: &[Reply] = &[
    Reply::Done,
    Reply::Meshed(Written {
        vertices: 6,
        faces: 8,
        bytes: 326,
    }),
    Reply::Saved { bytes: 89 },
    Reply::Refused(BenchFault::Memory),
    Reply::Line(LineFault::Syntax),
    Reply::Refused(BenchFault::Outside),
    Reply::Refused(BenchFault::ValueOutside {
        least: 0,
        greatest: 255,
    }),
    Reply::Refused(BenchFault::LevelOutside),
    Reply::Refused(BenchFault::LevelNotAbovePad {
        level: -500,
        pad: 0,
    }),
    Reply::Refused(BenchFault::LevelNotAbovePad {
        level: -3_000,
        pad: -2,
    }),
    Reply::Refused(BenchFault::NothingToUndo),
    Reply::Refused(BenchFault::FillTooLarge { n: 2_097_152 }),
    Reply::Refused(BenchFault::ShelfFailed),
    Reply::Line(LineFault::LineTooLong { n: 4097 }),
    Reply::Refused(BenchFault::NoSuchPlane { k: -2 }),
    Reply::Refused(BenchFault::NothingToRedo),
    Reply::Refused(BenchFault::WindowThin { axis: 2, n: 1 }),
];

const REPLY_LINES: &str =
    "ok\nok vertices 6 faces 8 bytes 326\nok bytes 89\nerror 1 memory\nerror 2 syntax\nerror 3 outside\nerror 4 value 0 255\nerror 5 level\nerror 6 pad -0.500 0\nerror 6 pad -3 -2\nerror 7 nothing to undo\nerror 8 fill 2097152\nerror 9 shelf\nerror 10 line 4097\nerror 11 plane -2\nerror 12 nothing to redo\nerror 13 window 2 1\n";

const PART: Part = Part {
    least: 0,
    vertices: 6,
    edges: 12,
    faces: 8,
    border: 0,
    euler: 2,
};

const MANY: Part = Part {
    least: 4_294_967_295,
    vertices: 0,
    edges: 18_446_744_073_709_551_615,
    faces: 1,
    border: 2,
    euler: -9_223_372_036_854_775_808,
};

/// A report of one part and one of two.
const REPORT_LINES: &str =
    "mesh vertices 6 edges 12 faces 8 border 0 euler 2 parts 1\npart 0 vertices 6 edges 12 faces 8 border 0 euler 2\nmesh vertices 0 edges 18446744073709551615 faces 1 border 2 euler -9223372036854775808 parts 2\npart 0 vertices 6 edges 12 faces 8 border 0 euler 2\npart 4294967295 vertices 0 edges 18446744073709551615 faces 1 border 2 euler -9223372036854775808\n";

/// A triangle, and what is turned in.
const SHARES: &[Share] = &[
    Share {
        least: 0,
        six: 125_000_000,
        area: [250_000; 3],
        border: 3,
    },
    Share {
        least: 4_294_967_295,
        six: -170_141_183_460_469_231_731_687_303_715_884_105_728,
        area: [-1, 0, 170_141_183_460_469_231_731_687_303_715_884_105_727],
        border: 18_446_744_073_709_551_615,
    },
];

/// Measures of no part and of two.
const MEASURE_LINES: &str =
    "measure parts 0\nmeasure parts 2\npart 0 six 125000000 area 250000 250000 250000 border 3\npart 4294967295 six -170141183460469231731687303715884105728 area -1 0 170141183460469231731687303715884105727 border 18446744073709551615\n";

/// What is written.
#[derive(Clone, Copy)]
enum Told {
    Replies,
    Reports,
    Measures,
}

fn put_replies(sink: &mut MemSink) -> Result<(), Failed> {
    for reply in REPLIES {
        put_reply(sink, reply)?;
    }
    Ok(())
}

fn put(sink: &mut MemSink, told: Told) -> Result<(), Failed> {
    match told {
        Told::Replies => put_replies(sink),
        Told::Reports => {
            put_report(sink, &PART, &[PART])?;
            put_report(sink, &MANY, &[PART, MANY])
        }
        Told::Measures => {
            put_measures(sink, &[])?;
            put_measures(sink, SHARES)
        }
    }
}

fn check_lines(rt: &impl Abort, alloc: Global, told: Told, want: &str) -> Result<(), Fail> {
    let mut sink = MemSink::new(alloc, 1000, Vec::new(alloc))?;
    assert!(rt; put(&mut sink, told).is_ok());
    assert_eq!(rt; sink.bytes(), want.as_bytes());
    Ok(())
}

#[test]
fn replies_are_written(rt: HostRuntime) -> Result<(), Fail> {
    check_lines(&rt, rt.alloc(), Told::Replies, REPLY_LINES)
}

#[test]
fn a_report_is_written(rt: HostRuntime) -> Result<(), Fail> {
    check_lines(&rt, rt.alloc(), Told::Reports, REPORT_LINES)
}

#[test]
fn measures_are_written(rt: HostRuntime) -> Result<(), Fail> {
    check_lines(&rt, rt.alloc(), Told::Measures, MEASURE_LINES)
}

const EMPTY_PART: Part = Part {
    least: 7,
    vertices: 0,
    edges: 0,
    faces: 0,
    border: 0,
    euler: 0,
};

/// Whether a report of so many empty parts was taken.
fn takes_report(alloc: Global, sink: &mut MemSink, parts: usize) -> Result<bool, Fail> {
    let parts = vec![in alloc; EMPTY_PART; parts]?;
    Ok(put_report(sink, &EMPTY_PART, &parts).is_ok())
}

/// Its second write fails.
fn check_long_report(rt: &impl Abort, alloc: Global, sink: &mut MemSink) -> Result<(), Fail> {
    assert!(rt; !takes_report(alloc, sink, 300)?);
    assert_eq!(rt; sink.bytes().len(), 8_168);
    Ok(())
}

#[test]
fn a_long_report_is_written_in_blocks(rt: HostRuntime) -> Result<(), Fail> {
    let failing = Vec::from_slice(rt.alloc(), &[2u64])?;
    check_long_report(
        &rt,
        rt.alloc(),
        &mut MemSink::new(rt.alloc(), 20_000, failing)?,
    )
}
