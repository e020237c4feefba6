//! Tests of `mesh_check`.

use crate::lists::{TETRAHEDRON, list_of};
use mesh_check::{Verdict, verdict};
use std::alloc::Global;
use std::process::Abort;
use std::test::Fail;

fn verdict_on(rt: &impl Abort, alloc: Global, triangles: &[[u32; 3]]) -> Result<Verdict, Fail> {
    Ok(verdict(alloc, &list_of(rt, alloc, triangles)?)?)
}

/// Triangles, and the verdict on them.
const VERDICTS: &[(&[[u32; 3]], Verdict)] = &[
    (TETRAHEDRON, Verdict::Closed),
    (&[[0, 1, 2], [2, 1, 3]], Verdict::Border { edges: 4 }),
    (&[[0, 1, 2], [1, 2, 2]], Verdict::RepeatedCorner { t: 1 }),
    (&[[4, 1, 2], [1, 2, 3]], Verdict::EdgeTwice { a: 1, b: 2 }),
    (&[[5, 1, 2], [3, 5, 4]], Verdict::SplitVertex { v: 5 }),
];

#[test]
fn each_verdict(rt: HostRuntime) -> Result<(), Fail> {
    for (triangles, want) in VERDICTS {
        let found = verdict_on(&rt, rt.alloc(), triangles)?;
        assert!(rt; found == *want, "{found:?}");
    }
    Ok(())
}
