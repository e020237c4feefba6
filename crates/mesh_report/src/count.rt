//! VertexTallies over all vertices, and over those of each component.

ghost use Rattle.std.specs.Prelude.{◌≡◌, ◌<◌, ◌^◌, ◌==◌, ◌&&◌, length, map, All, IfOk, OnOk};
ghost use Rattle.iso_defs.specs.Lists.{below};
ghost use Rattle.std.specs.List.{list_any};
ghost use Rattle.iso_defs.specs.Manifold.{HasThreeCorners, arcs, uses};
ghost use Rattle.iso_base.specs.Triangles.{triangle_of, triangles_of};
ghost use Rattle.mesh_report.specs.Meetings.{AreClear};
ghost use Rattle.mesh_report.specs.Places.{ArePlaces};
ghost use Rattle.mesh_report.specs.Report.{component, component_of_each, components, summary_of};
ghost use Rattle.mesh_report.specs.Tallies.{IsAscending, IsSmall, nothing_of, part_with, tally_of, tally_of_all};

use crate::meet::{Met, edges_from};
use crate::tally::VertexTally;
use arc_rings::Rings;
use iso_base::{Memory, TriangleList};
use std::alloc::Global;

/// What was counted over all vertices, and over those of each component, in the order of their smallest vertices.
#[derive(Drop)]
pub struct VertexTallies {
    pub total: VertexTally,
    pub each: Vec<VertexTally>,
}

/// VertexTallies vertex by vertex, in order, so that lists are gone through from front to back. Vertices have the names of their components.
pub fn counts_of(
    alloc: Global,
    mesh: &TriangleList,
    rings: &Rings,
    names: &[u32],
) -> Result<VertexTallies, Memory>
    requires count { length mesh.now.triangles < 2 ^ 31 }
    requires different { All (λ t. HasThreeCorners (triangle_of t)) mesh.now.triangles }
    requires rings { rings.now ≡ map (arcs (triangles_of mesh.now.triangles)) (below mesh.now.vertex_count) }
    requires names { names.now ≡ component_of_each mesh.now }
    ensures summary { IfOk result (λ c. record { total = part_with c.total; parts = map part_with c.each.items }
        ≡ summary_of mesh.now.vertex_count (triangles_of mesh.now.triangles)) }
    ensures total { IfOk result (λ c. IsSmall c.total) }
    ensures each { IfOk result (λ c. All IsSmall c.each.items) }
    ensures ascending { IfOk result (λ c. IsAscending c.each.items) }
{
    let vertices = mesh.vertex_count() as usize;
    let mut places = vec![in alloc; 0u32; vertices]?;
    let mut each = begin_all(alloc, mesh, rings, names, places.as_mut_slice())?;
    let mut marks = vec![in alloc; Met::Never; vertices]?;
    let total = count_all(
        each.as_mut_slice(),
        mesh,
        rings,
        names,
        places.as_slice(),
        marks.as_mut_slice(),
    );
    Ok(VertexTallies { total, each })
}

/// The tally of each component, before any vertex is counted, and at its smallest vertex the place of it.
fn begin_all(
    alloc: Global,
    mesh: &TriangleList,
    rings: &Rings,
    names: &[u32],
    places: &mut [u32],
) -> Result<Vec<VertexTally>, Memory>
    requires rings { rings.now ≡ map (arcs (triangles_of mesh.now.triangles)) (below mesh.now.vertex_count) }
    requires names { names.now ≡ component_of_each mesh.now }
    requires size { length places.old ≡ mesh.now.vertex_count }
    ensures tallies { IfOk result (λ ts. ts.items
        ≡ map nothing_of (components mesh.now.vertex_count (triangles_of mesh.now.triangles))) }
    ensures places { OnOk result (ArePlaces (components mesh.now.vertex_count (triangles_of mesh.now.triangles))
        places.new) }
{
    let mut tallies = Vec::new(alloc);
    for v in 0..mesh.vertex_count() {
        if is_smallest(mesh, rings, names, v) {
            places[v as usize] = tallies.len() as u32;
            tallies.push(VertexTally::new(v))?;
        }
    }
    Ok(tallies)
}

/// Whether a triangle uses a vertex that has its own name, so that it is the smallest of its component.
fn is_smallest(mesh: &TriangleList, rings: &Rings, names: &[u32], v: u32) -> bool
    requires rings { rings.now ≡ map (arcs (triangles_of mesh.now.triangles)) (below mesh.now.vertex_count) }
    requires names { names.now ≡ component_of_each mesh.now }
    requires vertex { v < mesh.now.vertex_count }
    ensures { result ≡ (list_any (uses v) (triangles_of mesh.now.triangles)
        && component mesh.now.vertex_count (triangles_of mesh.now.triangles) v == v) }
{
    !rings.arcs_round(v).is_empty() && names[v as usize] == v
}

/// VertexTallies each vertex at its component's tally, and answers what is counted over all of them.
fn count_all(
    tallies: &mut [VertexTally],
    mesh: &TriangleList,
    rings: &Rings,
    names: &[u32],
    places: &[u32],
    marks: &mut [Met],
) -> VertexTally
    requires count { length mesh.now.triangles < 2 ^ 31 }
    requires different { All (λ t. HasThreeCorners (triangle_of t)) mesh.now.triangles }
    requires rings { rings.now ≡ map (arcs (triangles_of mesh.now.triangles)) (below mesh.now.vertex_count) }
    requires names { names.now ≡ component_of_each mesh.now }
    requires size { length places.now ≡ mesh.now.vertex_count }
    requires places { ArePlaces (components mesh.now.vertex_count (triangles_of mesh.now.triangles)) places.now }
    requires marks { length marks.old ≡ mesh.now.vertex_count }
    requires clear { AreClear marks.old }
    requires tallies { tallies.old ≡ map nothing_of
        (components mesh.now.vertex_count (triangles_of mesh.now.triangles)) }
    ensures total { result ≡ tally_of_all mesh.now.vertex_count (triangles_of mesh.now.triangles)
        mesh.now.vertex_count }
    ensures each { tallies.new ≡ map (tally_of mesh.now.vertex_count (triangles_of mesh.now.triangles)
        mesh.now.vertex_count)
        (components mesh.now.vertex_count (triangles_of mesh.now.triangles)) }
{
    let mut total = VertexTally::new(0);
    for v in 0..mesh.vertex_count() {
        let arcs = rings.arcs_round(v);
        let edges = edges_from(marks, arcs, v);
        total = total.with(arcs.len(), edges);
        if !arcs.is_empty() {
            let place = places[names[v as usize] as usize] as usize;
            let tally = &tallies[place];
            tallies[place] = tally.with(arcs.len(), edges);
        }
    }
    total
}
