//! Bricks by number, x fastest: how many there are, which one has a cell, and which ones hold a point.
ghost use Rattle.std.specs.Prelude.{◌≡◌, ℕ, ◌+◌, ◌-◌, ◌*◌, ◌/◌, ◌<◌, ◌≤◌, ◌^◌, ◌++◌, true, map, min};
ghost use Rattle.std.specs.List.{range_with_len};
ghost use Rattle.arrayvec.specs.ArrayVec.{array_vec_len};
ghost use Rattle.iso_defs.specs.Lists.{below};
ghost use Rattle.iso_defs.specs.Grid.{is_cell, point_count};
ghost use Rattle.iso_defs.specs.Bricks.{bricks_along, brick_count, brick_start};
ghost use Rattle.iso_base.specs.Points.{IsPoint};
ghost use Rattle.iso_base.specs.Volume.{IsGrid};
ghost use Rattle.brick_store.specs.Copies.{first_brick_along};
ghost use Rattle.brick_store.specs.Rows.{reach_end};
ghost use Rattle.brick_store.specs.Holding.{IsCellOf, brick_at, brick_of, first_holding, local_of, points_along, reaches};

use arrayvec::ArrayVec;
use iso_base::{CellName, Point, Sizes, point_of};

/// A brick by its number, x fastest.
#[derive(Clone, Copy, Debug, Default, PartialEq, Eq)]
pub struct BrickId(pub u32);

/// The number of bricks along an axis with this many points.
#[inline(always)]
pub fn bricks_along(points: u32) -> u32
    requires few { points ≤ 1026 }
    ensures value { result ≡ (points + 6) / 8 }
    ensures bound { result ≤ 129 }
{
    (points + 6) / 8
}

/// How many bricks there are.
pub fn brick_count(sizes: &Sizes) -> u32
    ensures value { result ≡ brick_count sizes.now }
    ensures bound { result < 2 ^ 22 }
    ensures grid { IsGrid sizes.now }
{
    bricks_along(sizes.nx()) * bricks_along(sizes.ny()) * bricks_along(sizes.nz())
}

/// The number of the brick that stands so many bricks along x, y and z.
#[tactic(auto, using(crate::proofs::BrickNumbers::brick_in))]
pub fn brick_at(sizes: &Sizes, x: u32, y: u32, z: u32) -> BrickId
    requires x { x < bricks_along sizes.now 0 }
    requires y { y < bricks_along sizes.now 1 }
    requires z { z < bricks_along sizes.now 2 }
    ensures value { result.0 ≡ brick_at sizes.now x y z }
    ensures bound { result.0 < brick_count sizes.now }
    ensures few { brick_count sizes.now < 2 ^ 22 }
    ensures grid { IsGrid sizes.now }
{
    BrickId(x + bricks_along(sizes.nx()) * (y + bricks_along(sizes.ny()) * z))
}

/// The brick that has a cell.
pub fn brick_of(sizes: &Sizes, cell: CellName) -> BrickId
    requires index { cell.0 < point_count sizes.now }
    requires cell { is_cell sizes.now cell.0 ≡ true }
    ensures value { result.0 ≡ brick_of sizes.now cell.0 }
    ensures has { IsCellOf sizes.now result.0 cell.0 (local_of sizes.now cell.0) }
    ensures only { (brick local : ℕ) → IsCellOf sizes.now brick cell.0 local → brick ≡ result.0 }
    ensures grid { IsGrid sizes.now }
{
    let low = point_of(sizes, cell.0);
    brick_at(sizes, low.x / 8, low.y / 8, low.z / 8)
}

/// The first point of a brick.
pub fn first_point(sizes: &Sizes, brick: BrickId) -> Point
    requires { brick.0 < brick_count sizes.now }
    ensures x { result.x ≡ brick_start sizes.now brick.0 0 }
    ensures y { result.y ≡ brick_start sizes.now brick.0 1 }
    ensures z { result.z ≡ brick_start sizes.now brick.0 2 }
    ensures point { IsPoint sizes.now result }
    ensures grid { IsGrid sizes.now }
{
    let (along_x, along_y) = (bricks_along(sizes.nx()), bricks_along(sizes.ny()));
    let row = brick.0 / along_x;
    Point {
        x: 8 * (brick.0 % along_x),
        y: 8 * (row % along_y),
        z: 8 * (brick.0 / (along_x * along_y)),
    }
}

/// How many points a brick has along x, y and z, at most nine along each.
pub fn points_along(sizes: &Sizes, brick: BrickId) -> [u8; 3]
    requires { brick.0 < brick_count sizes.now }
    ensures { result ≡ map (points_along sizes.now brick.0) (below 3) }
{
    let first = first_point(sizes, brick);
    [
        (sizes.nx() - first.x).min(9) as u8,
        (sizes.ny() - first.y).min(9) as u8,
        (sizes.nz() - first.z).min(9) as u8,
    ]
}

/// The first brick along an axis that reaches a coordinate.
pub fn first_brick_along(c: u32) -> u32
    ensures { result ≡ first_brick_along c }
{
    c.saturating_sub(1) / 8
}

/// The bricks along an axis that reach a coordinate: from the first one to before the last.
pub fn bricks_at(points: u32, c: u32) -> (u32, u32)
    requires few { points ≤ 1026 }
    requires inside { c < points }
    requires two { 2 ≤ points }
    ensures first { result.0 ≡ first_brick_along c }
    ensures last { result.1 ≡ min (c / 8 + 1) ((points + 6) / 8) }
    ensures some { result.0 < result.1 }
    ensures two_at_most { result.1 ≤ result.0 + 2 }
{
    (first_brick_along(c), (c / 8 + 1).min(bricks_along(points)))
}

/// Where the bricks along an axis end that reach a coordinate before an end.
pub fn brick_end(points: u32, end: u32) -> u32
    requires points { points ≤ 1026 }
    requires end { end ≤ points }
    ensures { result ≡ reach_end points end }
{
    ((end + 7) / 8).min(bricks_along(points))
}

/// Puts the bricks from one number to before another behind the others.
fn push_run(from: u32, end: u32, held: &mut ArrayVec<BrickId, 8>)
    requires order { from ≤ end }
    requires room { array_vec_len held.old + (end - from) ≤ 8 }
    ensures bricks { map (λ b. b.0) held.new.items ≡ map (λ b. b.0) held.old.items ++ range_with_len from (end - from) }
    ensures length { array_vec_len held.new ≡ array_vec_len held.old + (end - from) }
{
    for brick in from..end {
        held.push(BrickId(brick));
    }
}

/// Puts the bricks of a slice that hold a point behind those of the slices before it.
#[tactic(auto, using(crate::proofs::Reaching::slice_begun))]
fn push_slice(sizes: &Sizes, p: Point, z: u32, held: &mut ArrayVec<BrickId, 8>)
    requires point { IsPoint sizes.now p }
    requires slice { z < bricks_along sizes.now 2 }
    requires reached { reaches (8 * z) p.z ≡ true }
    requires room { array_vec_len held.old ≤ 4 }
    requires before { map (λ b. b.0) held.old.items ≡ first_holding sizes.now p (brick_at sizes.now 0 0 z) }
    ensures bricks { map (λ b. b.0) held.new.items ≡ first_holding sizes.now p (brick_at sizes.now 0 0 (z + 1)) }
    ensures length { array_vec_len held.new ≤ array_vec_len held.old + 4 }
{
    let (first_x, end_x) = bricks_at(sizes.nx(), p.x);
    let (first_y, end_y) = bricks_at(sizes.ny(), p.y);
    let (along_x, along_y) = (bricks_along(sizes.nx()), bricks_along(sizes.ny()));
    for y in first_y..end_y {
        let start = along_x * (y + along_y * z);
        push_run(start + first_x, start + end_x, held);
    }
}

/// The bricks that hold a copy of a point, ascending: at most two along each axis.
pub fn bricks_holding(sizes: &Sizes, p: Point) -> ArrayVec<BrickId, 8>
    requires { IsPoint sizes.now p }
    ensures { map (λ b. b.0) result.items ≡ first_holding sizes.now p (brick_count sizes.now) }
{
    let mut held = ArrayVec::new();
    let (first, end) = bricks_at(sizes.nz(), p.z);
    for z in first..end {
        push_slice(sizes, p, z, &mut held);
    }
    held
}
