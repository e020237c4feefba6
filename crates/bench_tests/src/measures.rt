//! What is measured of the mesh of a volume from scratch, at its printed positions.

ghost use Rattle.std.specs.Prelude.{◌^◌, ◌<◌, ◌↔◌, IsTrue, length};
ghost use Rattle.iso_defs.specs.Manifold.{HasThreeCorners};
ghost use Rattle.iso_base.specs.Triangles.{triangle_of};
ghost use Rattle.measure.specs.Measures.{IsWithin, vector_of};

use flat_mesh::{Mesh, extract_flat};
use iso_base::{Level, Memory, PAD_SHIFT, TriangleList};
use measure::{Measures, measure};
use std::alloc::Global;
use std::process::Abort;
use std::test::Fail;
use voxel_list::VoxelList;

/// The position of a vertex of a mesh, as it is printed.
fn position_of(mesh: &Mesh, padded: bool, i: u32) -> [i64; 3]
    requires { i < length mesh.now.vertex_list }
{
    let (_, [x, y, z]) = mesh.vertex(i);
    if padded {
        [x.0 - PAD_SHIFT, y.0 - PAD_SHIFT, z.0 - PAD_SHIFT]
    } else {
        [x.0, y.0, z.0]
    }
}

/// Those of all its vertices.
fn positions_of(alloc: Global, mesh: &Mesh, padded: bool) -> Result<Vec<[i64; 3]>, Memory> {
    let mut positions = Vec::with_capacity(alloc, mesh.vertex_count() as usize)?;
    for i in 0..mesh.vertex_count() {
        positions.push(position_of(mesh, padded, i))?;
    }
    Ok(positions)
}

fn is_small(p: &[i64; 3]) -> bool
    ensures { IsTrue result ↔ IsWithin (2 ^ 21) (vector_of p.now) }
{
    p[0].unsigned_abs() <= 2_097_152
        && p[1].unsigned_abs() <= 2_097_152
        && p[2].unsigned_abs() <= 2_097_152
}

fn has_three_corners(t: &[u32; 3]) -> bool
    ensures { IsTrue result ↔ HasThreeCorners (triangle_of t.now) }
{
    t[0] != t[1] && t[1] != t[2] && t[2] != t[0]
}

/// What is measured of triangles, of which none repeats a corner, at positions that are small.
fn measure_at(
    rt: &impl Abort,
    alloc: Global,
    mesh: &TriangleList,
    at: &[[i64; 3]],
) -> Result<Measures, Fail> {
    assert!(rt; mesh.triangles().len() < 2_147_483_648);
    assert!(rt; mesh.triangles().iter().all(|t| has_three_corners(t)));
    assert!(rt; at.len() == mesh.vertex_count() as usize);
    assert!(rt; at.iter().all(|p| is_small(p)));
    Ok(measure(alloc, mesh, at)?)
}

/// The measures of the mesh of a volume from scratch.
pub fn measured_from_scratch(
    rt: &impl Abort,
    alloc: Global,
    volume: &VoxelList,
    level: Level,
) -> Result<Measures, Fail> {
    let mesh = extract_flat(alloc, volume, level)?;
    let at = positions_of(alloc, &mesh, volume.pad().is_some())?;
    measure_at(rt, alloc, &mesh.triangle_list(alloc)?, at.as_slice())
}
