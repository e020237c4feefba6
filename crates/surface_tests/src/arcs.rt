//! Tests of `arc_rings`.

ghost use Rattle.std.specs.Prelude.{◌≡◌, length, IfOk};

use arc_rings::Rings;
use iso_base::Memory;
use std::alloc::Global;
use std::process::Abort;
use std::test::Fail;

/// The arcs around each of five vertices.
const ARCS: &[&[(u32, u32)]; 5] = &[
    &[(1, 2), (3, 2)],
    &[(2, 0), (3, 2)],
    &[(0, 1), (1, 3), (0, 3)],
    &[(2, 1), (2, 0)],
    &[],
];

fn rings_of_five(alloc: Global) -> Result<Rings, Memory>
    ensures { IfOk result (λ r. length r ≡ 5) }
{
    Rings::of(alloc, 5, &[[0, 1, 2], [3, 2, 1], [2, 0, 3]])
}

fn check_arcs(rt: &impl Abort, rings: &Rings)
    requires { length rings.now ≡ 5 }
{
    for v in 0..5 {
        assert!(rt; rings.arcs_round(v) == ARCS[v as usize], "vertex {v}");
    }
}

#[test]
fn arcs_stand_in_the_order_of_the_triangles(rt: HostRuntime) -> Result<(), Fail> {
    check_arcs(&rt, &rings_of_five(rt.alloc())?);
    Ok(())
}
