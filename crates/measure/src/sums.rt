//! The measures of a mesh: one pass over its triangles, after the walk that names its components.
//!
//! A determinant is the product of a corner with the normal: each triangle costs one vector product. Sums are of 128
//! bits, so nothing overflows or is rounded.

ghost use Rattle.std.specs.Prelude.{◌≡◌, ◌<◌, ◌≤◌, ◌^◌, length, map, All, IfOk};
ghost use Rattle.iso_defs.specs.Manifold.{HasThreeCorners};
ghost use Rattle.iso_base.specs.Triangles.{triangle_of, triangles_of};
ghost use Rattle.mesh_report.specs.Report.{component_of_each, components};
ghost use Rattle.measure.specs.Measures.{IsWithin, position, vector_of, AreasCancel, VolumesStay, begun_in, measures_of, unmeasured};
ghost use Rattle.mesh_report.specs.Places.{AreDifferent, ArePlaces};

use crate::share::{Measures, Share};
use iso_base::{Memory, TriangleList};
use mesh_report::{Part, Survey, survey_of};
use std::alloc::Global;

/// The signed volume, the area and the border of each component of a list of triangles, whose vertices have these positions.
///
/// Positions are in thousandths, so `six` is in thousandths cubed and `area` in thousandths squared. Where the triangles are a
/// manifold, a component without border has no area, and its volume is the same from every point.
/// The cost grows with the number of triangles and vertices alone: one walk, and one pass over the triangles.
pub fn measure(alloc: Global, mesh: &TriangleList, at: &[[i64; 3]]) -> Result<Measures, Memory>
    requires count { length mesh.now.triangles < 2 ^ 31 }
    requires different { All (λ t. HasThreeCorners (triangle_of t)) mesh.now.triangles }
    requires positions { length at.now ≡ mesh.now.vertex_count }
    requires small { All (λ p. IsWithin (2 ^ 21) (vector_of p)) at.now }
    ensures shares { IfOk result (λ m. m ≡ measures_of mesh.now.vertex_count (triangles_of mesh.now.triangles)
        (position at.now)) }
    ensures areas { IfOk result (λ m. AreasCancel (triangles_of mesh.now.triangles) m) }
    ensures volumes { IfOk result (λ m. VolumesStay mesh.now.vertex_count (triangles_of mesh.now.triangles)
        (position at.now) m) }
{
    let Survey { report, components } = survey_of(alloc, mesh)?;
    let mut shares = begin_all(alloc, report.parts())?;
    let places = places_of(alloc, mesh.vertex_count(), shares.as_slice())?;
    add_all(
        shares.as_mut_slice(),
        mesh,
        at,
        components.as_slice(),
        places.as_slice(),
    );
    Ok(Measures::new(shares))
}

/// The shares of these parts, before any triangle.
fn begin_all(alloc: Global, parts: &[Part]) -> Result<Vec<Share>, Memory>
    ensures { IfOk result (λ ss. ss.items ≡ map unmeasured parts.now) }
{
    Ok(parts.iter().map(Share::of).collect(alloc)?)
}

/// For the least vertex of each share its place in the list.
fn places_of(alloc: Global, vertices: u32, shares: &[Share]) -> Result<Vec<u32>, Memory>
    requires inside { All (λ s. s.least < vertices) shares.now }
    requires different { AreDifferent (map (λ s. s.least) shares.now) }
    requires few { length shares.now ≤ vertices }
    ensures size { IfOk result (λ ps. length ps.items ≡ vertices) }
    ensures places { IfOk result (λ ps. ArePlaces (map (λ s. s.least) shares.now) ps.items) }
{
    let mut places = vec![in alloc; 0u32; vertices as usize]?;
    for (place, share) in shares.iter().enumerate() {
        places[share.least as usize] = place as u32;
    }
    Ok(places)
}

/// Adds each triangle to the share of its component. Vertices have the names of their components.
fn add_all(
    shares: &mut [Share],
    mesh: &TriangleList,
    at: &[[i64; 3]],
    names: &[u32],
    places: &[u32],
)
    requires count { length mesh.now.triangles < 2 ^ 31 }
    requires positions { length at.now ≡ mesh.now.vertex_count }
    requires small { All (λ p. IsWithin (2 ^ 21) (vector_of p)) at.now }
    requires names { names.now ≡ component_of_each mesh.now }
    requires size { length places.now ≡ mesh.now.vertex_count }
    requires places { ArePlaces (components mesh.now.vertex_count (triangles_of mesh.now.triangles)) places.now }
    requires shares { shares.old ≡ begun_in mesh.now (position at.now) }
    ensures { shares.new ≡ measures_of mesh.now.vertex_count (triangles_of mesh.now.triangles) (position at.now) }
{
    for &[a, b, c] in mesh.triangles() {
        let place = places[names[a as usize] as usize] as usize;
        let share = &shares[place];
        shares[place] = share.with(&at[a as usize], &at[b as usize], &at[c as usize]);
    }
}
