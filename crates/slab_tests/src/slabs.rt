//! Slabs that are counted and written: in each encoding, in both formats, padded and not. Memory is ample, so none is wanted.

use crate::calls::{Files, NO_FILES, check_done};
use crate::texts::*;
use std::test::Fail;

const COUNTS: &[(&[&str], &[u8])] = &[
    (&["count", "--level=5", "--from=4"], LOWER_COUNTS),
    (&["count", "--from=4", "--last", "--level=5"], LAST_COUNTS),
    (
        &["count", "--level=5", "--from=4", "--pad=0"],
        PADDED_COUNTS,
    ),
    (
        &["count", "--level=5", "--pad=0", "--from=0", "--last"],
        b"slab slices 5 edges 22 centres 10 triangles 56\n",
    ),
];

#[test]
fn slabs_are_counted(rt: HostRuntime) -> Result<(), Fail> {
    for (words, output) in COUNTS {
        for slab in SAME_SLABS {
            check_done(&rt, rt.alloc(), *words, *slab, *output, NO_FILES)?;
        }
    }
    Ok(())
}

const LOWER: Files = Files {
    edges: Some(LOWER_EDGES),
    centres: Some(LOWER_CENTRES),
    triangles: Some(LOWER_TRIANGLES),
};

const LOWER_OBJ: Files = Files {
    edges: Some(LOWER_OBJ_EDGES),
    centres: Some(LOWER_OBJ_CENTRES),
    triangles: Some(LOWER_OBJ_TRIANGLES),
};

const LAST: Files = Files {
    edges: Some(LAST_EDGES),
    centres: Some(LOWER_CENTRES),
    triangles: Some(LAST_TRIANGLES),
};

const LARGEST: Files = Files {
    edges: Some(LAST_EDGES),
    centres: Some(LOWER_CENTRES),
    triangles: Some(LARGEST_TRIANGLES),
};

const PADDED: Files = Files {
    edges: Some(PADDED_EDGES),
    centres: Some(PADDED_CENTRES),
    triangles: Some(PADDED_TRIANGLES),
};

const WRITES: &[(&[&str], &[u8], Files)] = &[
    (
        &[
            "write",
            "--level=5",
            "--from=4",
            "--edges=100",
            "--centres=700",
            "x",
        ],
        LOWER_COUNTS,
        LOWER,
    ),
    (
        &[
            "write",
            "x",
            "--format=obj",
            "--centres=700",
            "--edges=100",
            "--from=4",
            "--level=5",
        ],
        LOWER_COUNTS,
        LOWER_OBJ,
    ),
    (
        &[
            "write",
            "--last",
            "--level=5",
            "--from=4",
            "--edges=100",
            "--centres=700",
            "x",
        ],
        LAST_COUNTS,
        LAST,
    ),
    (
        &[
            "write",
            "--last",
            "--level=5",
            "--from=4",
            "--edges=2147483641",
            "--centres=2147483646",
            "x",
        ],
        LAST_COUNTS,
        LARGEST,
    ),
    (
        &[
            "write",
            "--level=5",
            "--from=4",
            "--pad=0",
            "--edges=100",
            "--centres=700",
            "--format=ply",
            "x",
        ],
        PADDED_COUNTS,
        PADDED,
    ),
];

#[test]
fn slabs_are_written(rt: HostRuntime) -> Result<(), Fail> {
    for (words, output, files) in WRITES {
        for slab in SAME_SLABS {
            check_done(&rt, rt.alloc(), *words, *slab, *output, *files)?;
        }
    }
    Ok(())
}
