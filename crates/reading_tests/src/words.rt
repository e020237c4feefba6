//! Tests of command-line arguments.

use arguments::{Request, read_words};
use iso_base::Level;
use mesh_text::TwoWayFormat;
use std::alloc::{AllocError, Global};
use std::process::Abort;
use std::test::Fail;

/// The words of a line, one space between two of them.
fn words_of(alloc: Global, line: &str) -> Result<Vec<String>, AllocError> {
    let mut words = Vec::new(alloc);
    for word in line.split(' ') {
        words.push(String::from_str(alloc, word)?)?;
    }
    Ok(words)
}

fn format_name(format: TwoWayFormat) -> &'static str {
    match format {
        TwoWayFormat::Ply => "ply",
        TwoWayFormat::Obj => "obj",
    }
}

fn told_mesh(
    alloc: Global,
    level: Level,
    pad: Option<i64>,
    format: TwoWayFormat,
) -> Result<String, AllocError> {
    format!(in alloc; "extract {} {pad:?} {}", level.value(), format_name(format))
}

/// Where a session begins, and its bricks and pages.
fn told_session(
    alloc: Global,
    (level, pad): (Level, Option<i64>),
    name: &str,
    (bricks, pages): (u32, u32),
) -> Result<String, AllocError> {
    format!(in alloc; "session {} {pad:?} {name} {bricks} {pages}", level.value())
}

/// A request in words of this test, with the level in thousandths.
fn told(alloc: Global, request: Request) -> Result<String, AllocError> {
    match request {
        Request::Points { level } => format!(in alloc; "points {}", level.value()),
        Request::Extract { level, pad, format } => told_mesh(alloc, level, pad, format),
        Request::Session {
            level,
            pad,
            name,
            bricks,
            pages,
        } => told_session(alloc, (level, pad), name.as_str(), (bricks, pages)),
        Request::Check { format } => format!(in alloc; "check {}", format_name(format)),
        Request::Gen { seed, sizes } => {
            format!(in alloc; "gen {seed} {} {} {}", sizes.nx(), sizes.ny(), sizes.nz())
        }
        Request::Soak { seed } => format!(in alloc; "soak {seed}"),
        Request::Help => String::from_str(alloc, "help"),
        Request::Version => String::from_str(alloc, "version"),
    }
}

/// What a line asks for.
fn read(alloc: Global, line: &str) -> Result<String, AllocError> {
    let words = words_of(alloc, line)?;
    match read_words(&words) {
        None => String::from_str(alloc, "none"),
        Some(request) => told(alloc, request),
    }
}

fn check_line(rt: &impl Abort, alloc: Global, line: &str, want: &str) -> Result<(), Fail> {
    let found = read(alloc, line)?;
    assert!(rt; found.as_str() == want, "{line}");
    Ok(())
}

/// Lines of words, and what they ask for.
const COMMAND_LINES: &[(&str, &str)] = &[
    ("points --level=-0", "points 0"),
    ("points --level=000000000000000005", "points 5000"),
    ("points --level=0.5", "points 500"),
    ("points --level=-0.05", "points -50"),
    ("points --level=10.001", "points 10001"),
    ("points --level=8589934591.999", "points 8589934591999"),
    ("extract --level=5", "extract 5000 None ply"),
    (
        "extract --pad=-2147483648 --format=obj --level=-8589934591.999",
        "extract -8589934591999 Some(-2147483648) obj",
    ),
    (
        "extract --level=0 --pad=4294967295 --format=ply",
        "extract 0 Some(4294967295) ply",
    ),
    ("session --level=5 a", "session 5000 None a 4096 65536"),
    (
        "session --pad=0 a/b-1._Z --level=005.5",
        "session 5500 Some(0) a/b-1._Z 4096 65536",
    ),
    (
        "session --pages=16 --level=5 --bricks=1 a",
        "session 5000 None a 1 16",
    ),
    (
        "session a --bricks=000065536 --pages=1048576 --level=5",
        "session 5000 None a 65536 1048576",
    ),
    ("gen 0 2 2 2", "gen 0 2 2 2"),
    (
        "gen 999999999999999999 1026 0003 4",
        "gen 999999999999999999 1026 3 4",
    ),
    ("soak 0", "soak 0"),
    ("soak 000000000000000007", "soak 7"),
    ("check ply", "check ply"),
    ("check obj", "check obj"),
    ("--help", "help"),
    ("session --help", "help"),
    ("--version", "version"),
];

#[test]
fn command_lines_are_read(rt: HostRuntime) -> Result<(), Fail> {
    for (line, want) in COMMAND_LINES {
        check_line(&rt, rt.alloc(), line, want)?;
    }
    Ok(())
}

/// One line of words after another. The first has none.
const OTHER_WORDS: &str =
    "\nextract\npoints --level 5\nextract --level=5 --level=5\npoints --level=5 --pad=0\nsession --level=5\ncheck ply x\n--level=5 points\npoints --level=\npoints --level=8589934592\npoints --level=8589934592.001\npoints --level=-8589934592\npoints --level=0000000000000000005\npoints --level=0000000000000000005.5\nextract --level=0.0005\npoints --level=.5\npoints --level=5.\npoints --level=+1\npoints --level=1e3\npoints --level=1.5.5\nextract --level=5 --pad=0.5\npoints -- --level=5\npoints --level=5 -\npoints --levels=5\nextract --level=0 --pad=4294967296\nextract --level=0 --pad=-2147483649\nextract --format=PLY --level=5\nsession --level=5 -a\nsession --level=5 a b\nsession --level=5 --bricks=0 a\nsession --level=5 --bricks=65537 a\nsession --level=5 --bricks=0000000001 a\nsession --level=5 --bricks=-1 a\nsession --level=5 --bricks=1 --bricks=1 a\nsession --level=5 --pages=15 a\nsession --level=5 --pages=1048577 a\nsession --level=5 --pages= a\nextract --level=5 --bricks=1\ncheck stl\ncheck --format=ply\ngen 0 1 2 2\ngen 0 2 2\ngen 0 2 2 2 2\ngen -0 2 2 2\ngen 0 2 1027 2\ngen 0 1026 1026 1026\ngen 0 2 2 -2\ngen 1000000000000000000 2 2 2\ngen --seed=0 2 2 2\nsoak\nsoak 7 7\nsoak -0\nsoak 7.5\nsoak 1000000000000000000\nhelp\nversion\n--help points\n--help --help\n--version --help\npoints --version\npoints --help --level=5\npoints --level=5 --help";

#[test]
fn other_words_are_refused(rt: HostRuntime) -> Result<(), Fail> {
    for line in OTHER_WORDS.split('\n') {
        check_line(&rt, rt.alloc(), line, "none")?;
    }
    assert!(rt; read_words(&[]).is_none());
    Ok(())
}
