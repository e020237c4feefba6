//! Words and slabs that are refused: nothing is written then.

use crate::calls::check_refused;
use crate::texts::{SLAB, THIN};
use program::Status;
use std::test::Fail;

/// Words that are no command line.
const BAD_WORDS: &[&[&str]] = &[
    &[],
    &["other"],
    &["count"],
    &["count", "--level=5"],
    &["count", "--from=0"],
    &["count", "--level=5", "--from=0", "--from=0"],
    &["count", "--level=5", "--from=00"],
    &["count", "--level=5", "--from=-1"],
    &["count", "--level=5", "--from=2147483648"],
    &["count", "--level=5", "--from=0", "--last="],
    &["count", "--level=5", "--from=0", "--last", "--last"],
    &["count", "--level=5", "--from=0", "--format=ply"],
    &["count", "--level=5", "--from=0", "--edges=0"],
    &["count", "--level=5", "--from=0", "x"],
    &["count", "--level=5.0001", "--from=0"],
    &["count", "--level=5", "--pad=4294967296", "--from=0"],
    &["write", "--level=5", "--from=0", "--edges=0", "x"],
    &["write", "--level=5", "--from=0", "--centres=0", "x"],
    &["write", "--level=5", "--from=0", "--edges=0", "--centres=0"],
    &[
        "write",
        "--level=5",
        "--from=0",
        "--edges=0",
        "--centres=0",
        "x",
        "y",
    ],
    &[
        "write",
        "--level=5",
        "--from=0",
        "--edges=0",
        "--centres=0",
        "a b",
    ],
    &[
        "write",
        "--level=5",
        "--from=0",
        "--edges=0",
        "--centres=0",
        "--format=off",
        "x",
    ],
    &["head"],
    &["head", "1"],
    &["head", "1", "01"],
    &["head", "1", "2147483648"],
    &["head", "1", "2", "3"],
    &["--help", "--help"],
    &["head", "--version"],
];

#[test]
fn bad_words_are_told(rt: HostRuntime) -> Result<(), Fail> {
    for words in BAD_WORDS {
        check_refused(
            &rt,
            rt.alloc(),
            *words,
            SLAB,
            Status::BadWords,
            b"isoslab: bad words\n",
        )?;
    }
    Ok(())
}

/// Slabs that are refused, and the notes on them.
const BAD_SLABS: &[(&[&str], &[u8], &[u8])] = &[
    (
        &["count", "--level=5", "--from=4"],
        b"neither",
        b"isoslab: volume 1 not nrrd\n",
    ),
    (
        &["count", "--level=5", "--from=4", "--last"],
        b"NRRD0004\ntype: uint8\ndimension: 3\nsizes: 2 2 2\nencoding: raw\n\n\0\0\0\0\0\0\0",
        b"isoslab: volume 14 short samples 8 7\n",
    ),
    (
        &["count", "--level=5", "--from=4", "--pad=5"],
        SLAB,
        b"isoslab: volume 17 level not above pad 5 5\n",
    ),
    (
        &["count", "--level=5", "--from=4", "--pad=6"],
        THIN,
        b"isoslab: volume 17 level not above pad 5 6\n",
    ),
    (
        &["count", "--level=5", "--from=4"],
        THIN,
        b"isoslab: slab thin 2\n",
    ),
    (
        &[
            "write",
            "--level=5",
            "--from=4",
            "--pad=0",
            "--edges=0",
            "--centres=0",
            "x",
        ],
        THIN,
        b"isoslab: slab thin 2\n",
    ),
    (
        &[
            "write",
            "--level=5",
            "--from=4",
            "--last",
            "--edges=2147483642",
            "--centres=0",
            "x",
        ],
        SLAB,
        b"isoslab: slab numbers 2147483648\n",
    ),
    (
        &[
            "write",
            "--level=5",
            "--from=4",
            "--edges=2147483647",
            "--centres=0",
            "x",
        ],
        SLAB,
        b"isoslab: slab numbers 2147483653\n",
    ),
    (
        &[
            "write",
            "--level=5",
            "--from=4",
            "--format=obj",
            "--edges=0",
            "--centres=2147483647",
            "x",
        ],
        SLAB,
        b"isoslab: slab numbers 2147483647\n",
    ),
];

#[test]
fn bad_slabs_are_told(rt: HostRuntime) -> Result<(), Fail> {
    for (words, slab, notes) in BAD_SLABS {
        check_refused(&rt, rt.alloc(), *words, *slab, Status::BadVolume, *notes)?;
    }
    Ok(())
}
