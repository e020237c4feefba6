//! Tests of `measure`, of triangles and of the meshes of volumes.

ghost use Rattle.std.specs.Prelude.{◌≡◌, ◌^◌, ◌<◌, ◌↔◌, IsTrue, None, IfOk, IfSome, length};
ghost use Rattle.iso_defs.specs.Grid.{Grid};
ghost use Rattle.iso_base.specs.Volume.{IsOfKind, Volume};
ghost use Rattle.iso_base.specs.declared.kind.SampleKind.TheVariants.{U8};
ghost use Rattle.measure.specs.Measures.{IsWithin, vector_of};

use crate::grids::{sizes_of, three_a_side, two_a_side};
use crate::lists::{has_three_corners, surface_of};
use crate::volumes::{one_above, one_below};
use flat_mesh::{Mesh, extract_flat};
use iso_base::{
    Level, Memory, PAD_SHIFT, Point, SampleKind, Sizes, TriangleList, VoxelData, point_of,
};
use measure::{Measures, Share, measure};
use std::alloc::Global;
use std::process::Abort;
use std::test::Fail;
use voxel_list::VoxelList;

/// The share of a part without border, whose least vertex is 0.
fn closed_share(six: i128) -> Share {
    Share {
        least: 0,
        six,
        area: [0; 3],
        border: 0,
    }
}

fn is_small(p: &[i64; 3]) -> bool
    ensures { IsTrue result ↔ IsWithin (2 ^ 21) (vector_of p.now) }
{
    p[0].unsigned_abs() <= 2_097_152
        && p[1].unsigned_abs() <= 2_097_152
        && p[2].unsigned_abs() <= 2_097_152
}

fn measure_moved(
    rt: &impl Abort,
    alloc: Global,
    triangles: &[[u32; 3]],
    at: &[[i64; 3]; 9],
) -> Result<Measures, Fail> {
    assert!(rt; at.iter().all(|p| is_small(p)));
    Ok(measure(alloc, &surface_of(rt, alloc, triangles)?, at)?)
}

/// A tetrahedron, a triangle and two points, far from the origin.
const FAR: [[i64; 3]; 9] = [
    [2_097_000, 2_097_000, -2_097_000],
    [2_097_002, 2_097_000, -2_097_000],
    [2_097_000, 2_097_003, -2_097_000],
    [2_097_000, 2_097_000, -2_096_995],
    [2_097_152, 2_097_152, -2_097_152],
    [-2_097_152, 2_097_152, 2_097_152],
    [2_097_152, -2_097_152, 2_097_152],
    [0, 0, 0],
    [0, 0, 0],
];

fn check_measured(
    rt: &impl Abort,
    alloc: Global,
    triangles: &[[u32; 3]],
    shares: &[Share],
) -> Result<(), Fail> {
    let measures = measure_moved(rt, alloc, triangles, &FAR)?;
    assert!(rt; measures.shares() == shares);
    Ok(())
}

#[test]
fn corners_far_from_the_origin(rt: HostRuntime) -> Result<(), Fail> {
    let triangle = Share {
        least: 4,
        six: -36_893_488_147_419_103_232,
        area: [-17_592_186_044_416; 3],
        border: 3,
    };
    let triangles = &[[0, 1, 2], [0, 2, 3], [5, 4, 6], [0, 3, 1], [1, 3, 2]];
    check_measured(&rt, rt.alloc(), triangles, &[closed_share(-30), triangle])?;
    let turned = &[[1, 0, 2], [2, 0, 3], [3, 0, 1], [3, 1, 2]];
    check_measured(&rt, rt.alloc(), turned, &[closed_share(30)])
}

/// Eight samples, with one value for the first and one for the others.
fn eight(alloc: Global, sizes: Sizes, first: i64, others: i64) -> Result<VoxelList, Memory>
    requires sizes { sizes ≡ record { nx = 2; ny = 2; nz = 2 } }
    requires first { IsOfKind U8 first }
    requires others { IsOfKind U8 others }
    ensures { IfOk result (λ v. v.pad ≡ None) }
{
    let samples = vec![in alloc;
        first, others, others, others, others, others, others, others,
    ]?;
    Ok(VoxelList::of(VoxelData::new(sizes, SampleKind::U8, samples)))
}

/// The position of a vertex of a mesh, as it is printed.
fn position_of(mesh: &Mesh, padded: bool, i: u32) -> [i64; 3]
    requires { i < length mesh.now.vertex_list }
{
    let (_, [x, y, z]) = mesh.vertex(i);
    if padded {
        [x.0 - PAD_SHIFT, y.0 - PAD_SHIFT, z.0 - PAD_SHIFT]
    } else {
        [x.0, y.0, z.0]
    }
}

/// Those of all its vertices.
fn positions_of(alloc: Global, mesh: &Mesh, padded: bool) -> Result<Vec<[i64; 3]>, Memory> {
    let mut positions = Vec::with_capacity(alloc, mesh.vertex_count() as usize)?;
    for i in 0..mesh.vertex_count() {
        positions.push(position_of(mesh, padded, i))?;
    }
    Ok(positions)
}

/// What is measured of triangles, of which none repeats a corner, at positions that are small.
fn measure_at(
    rt: &impl Abort,
    alloc: Global,
    mesh: &TriangleList,
    at: &[[i64; 3]],
) -> Result<Measures, Fail> {
    assert!(rt; mesh.triangles().len() < 2_147_483_648);
    assert!(rt; mesh.triangles().iter().all(|t| has_three_corners(t)));
    assert!(rt; at.len() == mesh.vertex_count() as usize);
    assert!(rt; at.iter().all(|p| is_small(p)));
    Ok(measure(alloc, mesh, at)?)
}

/// The measures of the mesh of a volume at level 5.
fn measured_at_5(rt: &impl Abort, alloc: Global, volume: &VoxelList) -> Result<Measures, Fail> {
    let level = Level::new(5_000).ok_or("5 is a level")?;
    let mesh = extract_flat(alloc, volume, level)?;
    let at = positions_of(alloc, &mesh, volume.pad().is_some())?;
    measure_at(rt, alloc, &mesh.triangle_list(alloc)?, at.as_slice())
}

/// The measures of the mesh of eight samples.
fn measured_eight(rt: &impl Abort, alloc: Global, first: i64, others: i64) -> Result<Measures, Fail>
    requires first { IsOfKind U8 first }
    requires others { IsOfKind U8 others }
{
    let sizes = two_a_side().ok_or("2, 2 and 2 are sizes")?;
    measured_at_5(rt, alloc, &eight(alloc, sizes, first, others)?)
}

fn check_shares(rt: &impl Abort, measures: &Measures, shares: &[Share]) {
    assert!(rt; measures.shares() == shares);
}

#[test]
fn one_corner_has_a_border(rt: HostRuntime) -> Result<(), Fail> {
    let corner = Share {
        least: 0,
        six: 125_000_000,
        area: [250_000; 3],
        border: 3,
    };
    check_shares(&rt, &measured_eight(&rt, rt.alloc(), 10, 0)?, &[corner]);
    Ok(())
}

#[test]
fn nothing_has_no_measures(rt: HostRuntime) -> Result<(), Fail> {
    check_shares(&rt, &measured_eight(&rt, rt.alloc(), 0, 0)?, &[]);
    Ok(())
}

fn measured_above(rt: &impl Abort, alloc: Global) -> Result<Measures, Fail> {
    let sizes = three_a_side().ok_or("3, 3 and 3 are sizes")?;
    measured_at_5(rt, alloc, &one_above(alloc, sizes)?)
}

fn measured_below(rt: &impl Abort, alloc: Global) -> Result<Measures, Fail> {
    let sizes = three_a_side().ok_or("3, 3 and 3 are sizes")?;
    measured_at_5(rt, alloc, &one_below(alloc, sizes)?)
}

#[test]
fn one_sample_above(rt: HostRuntime) -> Result<(), Fail> {
    check_shares(
        &rt,
        &measured_above(&rt, rt.alloc())?,
        &[closed_share(1_000_000_000)],
    );
    Ok(())
}

#[test]
fn above_and_below_exchanged(rt: HostRuntime) -> Result<(), Fail> {
    check_shares(
        &rt,
        &measured_below(&rt, rt.alloc())?,
        &[closed_share(-1_000_000_000)],
    );
    Ok(())
}

fn block_in_a_pad(alloc: Global) -> Result<VoxelList, Fail> {
    let sizes = two_a_side().ok_or("2, 2 and 2 are sizes")?;
    Ok(eight(alloc, sizes, 10, 10)?.padded(alloc, 0)?)
}

#[test]
fn a_block_in_a_pad(rt: HostRuntime) -> Result<(), Fail> {
    let volume = block_in_a_pad(rt.alloc())?;
    check_shares(
        &rt,
        &measured_at_5(&rt, rt.alloc(), &volume)?,
        &[closed_share(34_000_000_000)],
    );
    Ok(())
}

/// Shapes about the middle of a grid of 13 by 13 by 7 points.
#[derive(Clone, Copy)]
enum Shape {
    /// As wide as the grid along x, so that it lies against the pad there.
    Box,
    Ball,
    /// Round the z axis.
    Torus,
}

impl Shape {
    fn holds(self, point: Point) -> bool {
        let x = f64::from(point.x) - 6.0;
        let y = f64::from(point.y) - 6.0;
        let z = f64::from(point.z) - 3.0;
        match self {
            Shape::Box => y.abs() <= 3.0 && z.abs() <= 2.0,
            Shape::Ball => x * x + y * y + z * z <= 12.0,
            Shape::Torus => {
                let tube = (x * x + y * y).sqrt() - 4.0;
                tube * tube + z * z <= 5.0
            }
        }
    }
}

/// Sets the samples in a shape to 10.
fn fill_shape(volume: &mut VoxelList, shape: Shape)
    requires kind { volume.old.kind ≡ U8 }
    requires pad { volume.old.pad ≡ None }
    ensures { volume.new.pad ≡ None }
{
    let sizes = volume.sizes();
    for i in 0..sizes.count() {
        let point = point_of(&sizes, i);
        if shape.holds(point) {
            volume.set(point, 10);
        }
    }
}

fn grid() -> Option<Sizes>
    ensures { IfSome result (λ g. g ≡ record { nx = 13; ny = 13; nz = 7 }) }
{
    sizes_of(13, 13, 7)
}

fn zeros(alloc: Global, sizes: Sizes) -> Result<VoxelList, Memory>
    requires { sizes ≡ record { nx = 13; ny = 13; nz = 7 } }
    ensures kind { IfOk result (λ v. v.kind ≡ U8) }
    ensures pad { IfOk result (λ v. v.pad ≡ None) }
{
    let samples = vec![in alloc; 0; 1183]?;
    Ok(VoxelList::of(VoxelData::new(sizes, SampleKind::U8, samples)))
}

fn volume_of_shape(alloc: Global, shape: Shape) -> Result<VoxelList, Fail>
    ensures { IfOk result (λ v. v.pad ≡ None) }
{
    let mut volume = zeros(alloc, grid().ok_or("13, 13 and 7 are sizes")?)?;
    fill_shape(&mut volume, shape);
    Ok(volume)
}

fn voxels_in(volume: &VoxelList) -> usize {
    volume.samples().iter().filter(|s| **s == 10).count()
}

/// One closed part, whose volume is that of so many voxels but for a twentieth: the mesh cuts their edges and corners off.
fn check_volume(rt: &impl Abort, measures: &Measures, voxels: usize) {
    let voxels = voxels as u128;
    for share in measures.shares() {
        assert!(rt; *share == closed_share(share.six));
        let lost = share.six.abs_diff(6_000_000_000 * voxels as i128);
        assert!(rt; lost <= 300_000_000 * voxels);
    }
    assert!(rt; measures.shares().len() == 1);
}

/// In a pad of 0.
fn expect_volume(rt: &impl Abort, alloc: Global, shape: Shape) -> Result<(), Fail> {
    let volume = volume_of_shape(alloc, shape)?;
    let voxels = voxels_in(&volume);
    let padded = volume.padded(alloc, 0)?;
    check_volume(rt, &measured_at_5(rt, alloc, &padded)?, voxels);
    Ok(())
}

#[test]
fn volumes_are_about_the_count_of_voxels(rt: HostRuntime) -> Result<(), Fail> {
    expect_volume(&rt, rt.alloc(), Shape::Box)?;
    expect_volume(&rt, rt.alloc(), Shape::Ball)?;
    expect_volume(&rt, rt.alloc(), Shape::Torus)
}
