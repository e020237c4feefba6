//! Tests of `flat_mesh`.

ghost use Rattle.std.specs.Prelude.{◌≡◌};
ghost use Rattle.iso_defs.specs.Grid.{Grid};

use crate::grids::{three_a_side, two_a_side};
use crate::volumes::one_above;
use flat_mesh::{Mesh, VertexName, extract_flat};
use iso_base::{
    CellName, EdgeName, Level, Memory, SampleKind, Sizes, Thousandth, TriangleList, VoxelData,
};
use std::alloc::{AllocError, Global};
use std::process::Abort;
use std::test::Fail;
use voxel_list::VoxelList;

/// The volume of two by two by two samples, the first of which is 10.
fn volume_of_corner(alloc: Global, sizes: Sizes) -> Result<VoxelList, AllocError>
    requires { sizes ≡ record { nx = 2; ny = 2; nz = 2 } }
{
    let samples = vec![in alloc; 10, 0, 0, 0, 0, 0, 0, 0]?;
    Ok(VoxelList::of(VoxelData::new(sizes, SampleKind::U8, samples)))
}

/// The same, with its sizes.
pub fn corner_volume(alloc: Global) -> Result<VoxelList, Fail> {
    let sizes = two_a_side().ok_or("2, 2 and 2 are sizes")?;
    Ok(volume_of_corner(alloc, sizes)?)
}

/// Its mesh at level 5.
fn corner_at_5(alloc: Global) -> Result<Mesh, Fail> {
    let level = Level::new(5_000).ok_or("5 is a level")?;
    Ok(extract_flat(alloc, &corner_volume(alloc)?, level)?)
}

fn check_corner(rt: &impl Abort, mesh: &Mesh) {
    assert!(rt; mesh.vertex_count() == 3 && mesh.triangle_count() == 1);
    if mesh.vertex_count() == 3 && mesh.triangle_count() == 1 {
        let at = [Thousandth(0), Thousandth(500), Thousandth(0)];
        assert!(rt; mesh.vertex(1) == (VertexName::Edge(EdgeName(1)), at));
        assert!(rt; mesh.triangle(0) == [0, 1, 2]);
    }
}

/// The mesh at a level of two by two by two samples, of which the lower four are 10.
fn lower_mesh(alloc: Global, sizes: Sizes, level: Level) -> Result<Mesh, Memory>
    requires { sizes ≡ record { nx = 2; ny = 2; nz = 2 } }
{
    let samples = vec![in alloc; 10, 10, 10, 10, 0, 0, 0, 0]?;
    let volume = VoxelList::of(VoxelData::new(sizes, SampleKind::U8, samples));
    extract_flat(alloc, &volume, level)
}

/// That mesh at level 5: one loop of four edges around a centre.
fn lower_at_5(alloc: Global) -> Result<Mesh, Fail> {
    let sizes = two_a_side().ok_or("2, 2 and 2 are sizes")?;
    let level = Level::new(5_000).ok_or("5 is a level")?;
    Ok(lower_mesh(alloc, sizes, level)?)
}

fn check_centre(rt: &impl Abort, mesh: &Mesh) {
    assert!(rt; mesh.vertex_count() == 5);
    if mesh.vertex_count() == 5 {
        let centre = VertexName::Centre {
            cell: CellName(0),
            turn: 0,
        };
        assert!(rt; mesh.vertex(4) == (centre, [Thousandth(500); 3]));
    }
}

#[test]
fn a_centre_stands_behind_the_edges(rt: HostRuntime) -> Result<(), Fail> {
    check_centre(&rt, &lower_at_5(rt.alloc())?);
    Ok(())
}

fn check_list(rt: &impl Abort, list: &TriangleList) {
    assert!(rt; list.vertex_count() == 3 && list.triangles() == [[0, 1, 2]].as_slice());
}

#[test]
fn one_corner(rt: HostRuntime) -> Result<(), Fail> {
    check_corner(&rt, &corner_at_5(rt.alloc())?);
    Ok(())
}

fn listed_corner(alloc: Global) -> Result<TriangleList, Fail> {
    let mesh = corner_at_5(alloc)?;
    Ok(mesh.triangle_list(alloc)?)
}

#[test]
fn the_triangles_of_one_corner(rt: HostRuntime) -> Result<(), Fail> {
    check_list(&rt, &listed_corner(rt.alloc())?);
    Ok(())
}

/// The mesh at level 5 around the middle of three points a side.
fn above_at_5(alloc: Global) -> Result<Mesh, Fail> {
    let sizes = three_a_side().ok_or("3, 3 and 3 are sizes")?;
    let level = Level::new(5_000).ok_or("5 is a level")?;
    let volume = one_above(alloc, sizes)?;
    Ok(extract_flat(alloc, &volume, level)?)
}

/// Its vertices: names of edges and places.
const VERTICES: &[(u32, [i64; 3])] = &[
    (14, [1000, 1000, 500]),
    (31, [1000, 500, 1000]),
    (36, [500, 1000, 1000]),
    (39, [1500, 1000, 1000]),
    (40, [1000, 1500, 1000]),
    (41, [1000, 1000, 1500]),
];

const FACES: &[[u32; 3]] = &[
    [2, 0, 1],
    [3, 1, 0],
    [2, 4, 0],
    [3, 0, 4],
    [2, 1, 5],
    [3, 5, 1],
    [2, 5, 4],
    [3, 4, 5],
];

/// The name and the place of a vertex that is on an edge.
fn on_edge((name, [x, y, z]): (VertexName, [Thousandth; 3])) -> Option<(u32, [i64; 3])> {
    match name {
        VertexName::Edge(EdgeName(edge)) => Some((edge, [x.0, y.0, z.0])),
        _ => None,
    }
}

fn check_above(rt: &impl Abort, mesh: &Mesh) {
    for i in 0..mesh.vertex_count() {
        let found = on_edge(mesh.vertex(i));
        assert!(rt; found.as_ref() == VERTICES.get(i as usize), "vertex {i}");
    }
    assert!(rt; mesh.vertex_count() == 6 && mesh.triangles() == FACES);
}

#[test]
fn one_sample_above(rt: HostRuntime) -> Result<(), Fail> {
    check_above(&rt, &above_at_5(rt.alloc())?);
    Ok(())
}
