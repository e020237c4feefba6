//! Triangles of the examples.

ghost use Rattle.std.specs.Prelude.{◌≡◌, ◌≤◌, ◌↔◌, length, All, IfOk, IsTrue};
ghost use Rattle.iso_defs.specs.Manifold.{HasThreeCorners};
ghost use Rattle.iso_base.specs.Triangles.{IsBelow, triangle_of};

use iso_base::TriangleList;
use std::alloc::Global;
use std::process::Abort;
use std::test::Fail;

/// The faces of a tetrahedron.
pub const TETRAHEDRON: &[[u32; 3]] = &[[0, 1, 2], [0, 2, 3], [0, 3, 1], [1, 3, 2]];

fn is_below_nine(t: &[u32; 3]) -> bool
    ensures { IsTrue result → IsBelow 9 (triangle_of t.now) }
{
    t[0] < 9 && t[1] < 9 && t[2] < 9
}

/// At most nine triangles over nine vertices.
pub fn list_of(rt: &impl Abort, alloc: Global, triangles: &[[u32; 3]]) -> Result<TriangleList, Fail>
    ensures vertices { IfOk result (λ m. m.vertex_count ≡ 9) }
    ensures few { IfOk result (λ m. length m.triangles ≤ 9) }
    ensures triangles { IfOk result (λ m. m.triangles ≡ triangles.now) }
{
    assert!(rt; triangles.len() <= 9);
    assert!(rt; triangles.iter().all(|t| is_below_nine(t)));
    Ok(TriangleList::new(9, triangles.to_vec(alloc)?))
}

/// Whether the corners of a triangle are three vertices.
pub fn has_three_corners(t: &[u32; 3]) -> bool
    ensures { IsTrue result ↔ HasThreeCorners (triangle_of t.now) }
{
    t[0] != t[1] && t[1] != t[2] && t[2] != t[0]
}

/// At most nine triangles over nine vertices, none of which repeats a corner.
pub fn surface_of(
    rt: &impl Abort,
    alloc: Global,
    triangles: &[[u32; 3]],
) -> Result<TriangleList, Fail>
    ensures vertices { IfOk result (λ m. m.vertex_count ≡ 9) }
    ensures few { IfOk result (λ m. length m.triangles ≤ 9) }
    ensures different { IfOk result (λ m. All (λ t. HasThreeCorners (triangle_of t)) m.triangles) }
{
    assert!(rt; triangles.iter().all(|t| has_three_corners(t)));
    list_of(rt, alloc, triangles)
}
