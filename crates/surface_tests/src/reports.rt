//! Tests of `mesh_report`.

use crate::lists::{TETRAHEDRON, surface_of};
use mesh_report::{Part, Report, parts_of, report};
use std::alloc::Global;
use std::process::Abort;
use std::test::Fail;

/// A least vertex, the numbers of vertices, edges, faces and border edges, and the Euler number.
fn part(least: u32, vertices: u32, edges: u64, faces: u32, border: u64, euler: i64) -> Part {
    Part {
        least,
        vertices,
        edges,
        faces,
        border,
        euler,
    }
}

fn report_of(rt: &impl Abort, alloc: Global, triangles: &[[u32; 3]]) -> Result<Report, Fail> {
    let list = surface_of(rt, alloc, triangles)?;
    Ok(report(alloc, &list)?)
}

/// What is counted of the whole of some triangles and of each of their parts.
fn check_report(
    rt: &impl Abort,
    alloc: Global,
    triangles: &[[u32; 3]],
    whole: Part,
    parts: &[Part],
) -> Result<(), Fail> {
    let report = report_of(rt, alloc, triangles)?;
    assert!(rt; *report.total() == whole && report.parts() == parts);
    Ok(())
}

#[test]
fn one_closed_component(rt: HostRuntime) -> Result<(), Fail> {
    let whole = part(0, 4, 6, 4, 0, 2);
    check_report(&rt, rt.alloc(), TETRAHEDRON, whole, &[whole])
}

const TWO_TRIANGLES: &[[u32; 3]] = &[[8, 5, 2], [7, 1, 4]];

#[test]
fn two_triangles_apart(rt: HostRuntime) -> Result<(), Fail> {
    let whole = part(0, 6, 6, 2, 6, 2);
    let parts = &[part(1, 3, 3, 1, 3, 1), part(2, 3, 3, 1, 3, 1)];
    check_report(&rt, rt.alloc(), TWO_TRIANGLES, whole, parts)
}

#[test]
fn the_component_of_each_vertex(rt: HostRuntime) -> Result<(), Fail> {
    let triangles = surface_of(&rt, rt.alloc(), TWO_TRIANGLES)?;
    let parts = parts_of(rt.alloc(), &triangles)?;
    assert!(rt; parts.as_slice() == [0, 1, 2, 3, 1, 2, 6, 1, 2].as_slice());
    Ok(())
}

/// Two tetrahedra that share the vertex 3.
const TWO_TETRAHEDRA: &[[u32; 3]] = &[
    [0, 1, 2],
    [0, 2, 3],
    [0, 3, 1],
    [1, 3, 2],
    [3, 4, 5],
    [3, 5, 6],
    [3, 6, 4],
    [4, 6, 5],
];

#[test]
fn a_shared_vertex(rt: HostRuntime) -> Result<(), Fail> {
    let whole = part(0, 7, 12, 8, 0, 3);
    check_report(&rt, rt.alloc(), TWO_TETRAHEDRA, whole, &[whole])
}

#[test]
fn an_edge_of_three_triangles(rt: HostRuntime) -> Result<(), Fail> {
    let whole = part(0, 5, 7, 3, 6, 1);
    check_report(
        &rt,
        rt.alloc(),
        &[[0, 1, 2], [0, 1, 3], [0, 1, 4]],
        whole,
        &[whole],
    )
}

#[test]
fn no_triangles(rt: HostRuntime) -> Result<(), Fail> {
    check_report(&rt, rt.alloc(), &[], part(0, 0, 0, 0, 0, 0), &[])
}
