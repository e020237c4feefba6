//! Tests of `crossing_edges`.

use crate::grids::three_a_side;
use crate::volumes::one_above;
use crossing_edges::{
    EdgeRows, EdgeVertices, SliceSigns, edge_vertices, flag_row, point_bits, position_on,
};
use iso_base::{Level, Memory};
use samples::fill_signs;
use std::alloc::Global;
use std::process::Abort;
use std::test::Fail;
use voxel_list::VoxelList;

fn points_of(alloc: Global, volume: &VoxelList, level: Level) -> Result<EdgeVertices, Memory> {
    // Reading the samples brings in that they are in the range of samples.
    let _ = volume.samples();
    let sizes = volume.sizes();
    let bits = point_bits(alloc, &sizes, volume, level)?;
    edge_vertices(alloc, &sizes, volume, level, &bits.flags)
}

/// The edges at level 9 around the middle of three points a side.
fn edges_at_9(alloc: Global) -> Result<EdgeVertices, Fail> {
    let sizes = three_a_side().ok_or("3, 3 and 3 are sizes")?;
    let level = Level::new(9_000).ok_or("9 is a level")?;
    let volume = one_above(alloc, sizes)?;
    Ok(points_of(alloc, &volume, level)?)
}

fn check_edges(rt: &impl Abort, edges: &EdgeVertices) {
    assert!(rt; edges.names.as_slice() == [14, 31, 36, 39, 40, 41].as_slice());
    assert!(rt; edges.places.as_slice() == [900, 900, 900, 100, 100, 100].as_slice());
}

/// How many edges at level 9 there are around the middle of three points a side, counted row by row.
fn count_at_9(alloc: Global) -> Result<u32, Fail> {
    let sizes = three_a_side().ok_or("3, 3 and 3 are sizes")?;
    let level = Level::new(9_000).ok_or("9 is a level")?;
    let volume = one_above(alloc, sizes)?;
    // Reading the samples brings in that they are in the range of samples.
    let _ = volume.samples();
    let sizes = volume.sizes();
    let mut signs = SliceSigns::new(alloc, &sizes)?;
    let mut flags = [0; 1026];
    let rows = EdgeRows::new(sizes, &volume, level);
    Ok(rows.count(&mut signs, &mut flags[..sizes.nx() as usize]))
}

#[test]
fn edges_counted_row_by_row(rt: HostRuntime) -> Result<(), Fail> {
    assert!(rt; count_at_9(rt.alloc())? == 6);
    Ok(())
}

#[test]
fn edges_round_one_sample(rt: HostRuntime) -> Result<(), Fail> {
    check_edges(&rt, &edges_at_9(rt.alloc())?);
    Ok(())
}

#[test]
fn positions_on_edges(rt: HostRuntime) -> Result<(), Fail> {
    let sizes = three_a_side().ok_or("3, 3 and 3 are sizes")?;
    let found = [position_on(&sizes, 14, 900), position_on(&sizes, 39, 100)];
    assert!(rt; found == [[1000, 1000, 900], [1100, 1000, 1000]]);
    Ok(())
}

#[test]
fn signs_of_a_row(rt: HostRuntime) -> Result<(), Fail> {
    let level = Level::new(5_000).ok_or("5 is a level")?;
    let mut signs = [2; 3];
    fill_signs([4u16, 5, 6].as_slice(), level, &mut signs);
    assert!(rt; signs == [0, 1, 1]);
    Ok(())
}

#[test]
fn flags_of_a_row(rt: HostRuntime) {
    let mut flags = [0; 2];
    flag_row(&[0, 1], &[0, 0], &[1, 1], &mut flags);
    assert!(rt; flags == [5, 2]);
}
