//! The verdict on a list of triangles.

ghost use Rattle.std.specs.Prelude.{◌≡◌, ℕ, ◌+◌, ◌<◌, ◌≤◌, ◌^◌, ◌*◌, length, All, IfOk, vec_len, IsTrue, ◌↔◌, IfNone};
ghost use Rattle.std.specs.List.{AllByRecursion};
ghost use Rattle.iso_defs.specs.Manifold.{HasThreeCorners, arcs};
ghost use Rattle.iso_defs.specs.Verdict.{IsVerdict};
ghost use Rattle.iso_base.specs.Triangles.{IsBelow, triangle_of, triangles_of};
ghost use Rattle.mesh_check.specs.Said.{said};
ghost use Rattle.mesh_check.specs.Marks.{IsLeastTwice};
ghost use Rattle.mesh_check.specs.Judged.{IsFirstRepeated, IsJudged, IsFanOf, IsFirstSplit, first_split, summed_of};

use crate::fan::{Fan, fan_of};
use crate::marks::Mark;
use arc_rings::Rings;
use iso_base::{Memory, TriangleList, Verdict};
use std::alloc::Global;

/// The verdict on a list of triangles: the first of the five answers that holds.
///
/// The cost grows with the number of triangles and vertices alone. Vertices that no triangle uses are allowed.
pub fn verdict(alloc: Global, mesh: &TriangleList) -> Result<Verdict, Memory>
    requires { length mesh.now.triangles ≤ 2 ^ 30 }
    ensures { IfOk result (λ v. IsVerdict (triangles_of mesh.now.triangles) (said v)) }
{
    let triangles = mesh.triangles();
    match first_repeated(triangles) {
        Some(t) => Ok(Verdict::RepeatedCorner { t }),
        None => surface_verdict(alloc, mesh.vertex_count(), triangles),
    }
}

fn is_repeated(triangle: &[u32; 3]) -> bool
    ensures { IsTrue result ↔ ¬ HasThreeCorners (triangle_of triangle.now) }
{
    let [a, b, c] = *triangle;
    a == b || b == c || c == a
}

fn first_repeated(triangles: &[[u32; 3]]) -> Option<u32>
    requires { length triangles.now ≤ 2 ^ 30 }
    ensures repeated { IsFirstRepeated (triangles_of triangles.now) result }
    ensures different { IfNone result (All (λ t. HasThreeCorners (triangle_of t)) triangles.now) }
{
    for (t, triangle) in triangles.iter().enumerate() {
        if is_repeated(triangle) {
            return Some(t as u32);
        }
    }
    None
}

/// The verdict on triangles of three corners each: looks at the arcs around each vertex in turn.
fn surface_verdict(alloc: Global, vertices: u32, triangles: &[[u32; 3]]) -> Result<Verdict, Memory>
    requires count { length triangles.now ≤ 2 ^ 30 }
    requires inside { All (λ t. IsBelow vertices (triangle_of t)) triangles.now }
    requires different { All (λ t. HasThreeCorners (triangle_of t)) triangles.now }
    ensures { IfOk result (λ v. IsVerdict (triangles_of triangles.now) (said v)) }
{
    let rings = Rings::of(alloc, vertices, triangles)?;
    let mut all_marks = vec![in alloc; Mark {
        owner: 0,
        to: 0,
        ended: 0
    }; vertices as usize]?;
    let marks = all_marks.as_mut_slice();
    let mut split = None;
    let mut loose = 0u64;
    for v in 0..vertices {
        let arcs = rings.arcs_round(v);
        match fan_of(marks, arcs, v + 1) {
            Fan::Twice(b) => return Ok(Verdict::EdgeTwice { a: v, b }),
            Fan::Whole(n) => loose += u64::from(n),
            Fan::Split(n) => {
                split = first_of(split, v);
                loose += u64::from(n);
            }
        }
    }
    Ok(verdict_of(split, loose))
}

fn first_of(split: Option<u32>, v: u32) -> Option<u32>
    ensures { result ≡ first_split split v }
{
    match split {
        Some(s) => Some(s),
        None => Some(v),
    }
}

/// The verdict, from the first vertex with several fans, if any, and the number of edges that bound one triangle.
fn verdict_of(split: Option<u32>, loose: u64) -> Verdict
    requires { loose < 2 ^ 32 }
    ensures { result ≡ summed_of split loose }
{
    match split {
        Some(v) => Verdict::SplitVertex { v },
        None if loose == 0 => Verdict::Closed,
        None => Verdict::Border {
            edges: loose as u32,
        },
    }
}
