//! The report on a mesh, and the component of each vertex.
//!
//! One traversal serves a report and the components of vertices. It names each vertex by its component and counts
//! nothing; the counts are taken afterwards in the order of vertices, when the queue is freed: a byte for each vertex
//! says whether the arcs around the present one met it never, once or more often.

ghost use Rattle.std.specs.Prelude.{◌≡◌, ◌<◌, ◌^◌, length, map, All, IfOk};
ghost use Rattle.iso_defs.specs.Manifold.{HasThreeCorners};
ghost use Rattle.iso_base.specs.Triangles.{triangle_of, triangles_of};
ghost use Rattle.mesh_report.specs.Report.{IsItselfUnused, component_of_each, summary_of};
ghost use Rattle.mesh_report.specs.Tallies.{IsAscending, IsSmall, part_with};

use crate::count::{VertexTallies, counts_of};
use crate::part::{Report, Survey, add_part};
use crate::walk::components_of;
use arc_rings::Rings;
use indexmap::IndexMap;
use iso_base::{Memory, TriangleList};
use std::alloc::Global;

/// The components of a list of triangles, and the numbers of their vertices, edges and faces.
///
/// A component is what edges lead to from its least vertex. Vertices that no triangle uses are allowed, and belong to none.
/// The cost grows with the number of triangles and vertices alone.
pub fn report(alloc: Global, mesh: &TriangleList) -> Result<Report, Memory>
    requires count { length mesh.now.triangles < 2 ^ 31 }
    requires different { All (λ t. HasThreeCorners (triangle_of t)) mesh.now.triangles }
    ensures { IfOk result (λ r. r ≡ summary_of mesh.now.vertex_count (triangles_of mesh.now.triangles)) }
{
    Ok(survey_of(alloc, mesh)?.report)
}

/// For each vertex its component, which is the least vertex to which edges lead from it: for a vertex that no triangle uses, itself.
///
/// The cost grows with the number of triangles and vertices alone.
pub fn parts_of(alloc: Global, mesh: &TriangleList) -> Result<Vec<u32>, Memory>
    requires count { length mesh.now.triangles < 2 ^ 31 }
    requires different { All (λ t. HasThreeCorners (triangle_of t)) mesh.now.triangles }
    ensures components { IfOk result (λ ks. ks.items ≡ component_of_each mesh.now) }
    ensures unused { IfOk result (λ ks. IsItselfUnused (triangles_of mesh.now.triangles) ks.items) }
{
    let rings = Rings::of(alloc, mesh.vertex_count(), mesh.triangles())?;
    Ok(components_of(alloc, mesh, &rings)?)
}

/// The report and the component of each vertex.
pub fn survey_of(alloc: Global, mesh: &TriangleList) -> Result<Survey, Memory>
    requires count { length mesh.now.triangles < 2 ^ 31 }
    requires different { All (λ t. HasThreeCorners (triangle_of t)) mesh.now.triangles }
    ensures report { IfOk result (λ s. s.report ≡ summary_of mesh.now.vertex_count (triangles_of mesh.now.triangles)) }
    ensures components { IfOk result (λ s. s.components.items ≡ component_of_each mesh.now) }
{
    let rings = Rings::of(alloc, mesh.vertex_count(), mesh.triangles())?;
    let components = components_of(alloc, mesh, &rings)?;
    let counts = counts_of(alloc, mesh, &rings, components.as_slice())?;
    let report = report_on(alloc, &counts)?;
    Ok(Survey { report, components })
}

/// The report on what was counted.
fn report_on(alloc: Global, counts: &VertexTallies) -> Result<Report, Memory>
    requires total { IsSmall counts.now.total }
    requires each { All IsSmall counts.now.each.items }
    requires ascending { IsAscending counts.now.each.items }
    ensures { IfOk result (λ r. r ≡ record {
      total = part_with counts.now.total;
      parts = map part_with counts.now.each.items;
    }) }
{
    let mut parts = IndexMap::new(alloc);
    for tally in counts.each.as_slice() {
        add_part(&mut parts, tally.part())?;
    }
    Ok(Report::new(counts.total.part(), parts))
}
