//! The copies of samples that the bricks keep, in one list: 729 for each brick, x fastest.
ghost use Rattle.std.specs.Prelude.{◌≡◌, ◌+◌, ◌*◌, ◌/◌, ◌%◌, ◌<◌, ◌^◌, length, map, slice_set, true};
ghost use Rattle.iso_defs.specs.Lists.{below};
ghost use Rattle.iso_defs.specs.Grid.{is_cell, point_count};
ghost use Rattle.iso_defs.specs.Cell.{cell_values};
ghost use Rattle.iso_defs.specs.Bricks.{brick_count};
ghost use Rattle.iso_base.specs.Points.{IsPoint, index_of};
ghost use Rattle.iso_base.specs.Volume.{sample};
ghost use Rattle.brick_store.specs.Holding.{holds_point};
ghost use Rattle.brick_store.specs.Copies.{AreCopies, copy_place, first_copy_place, own_place, samples_of};

use crate::numbering::{self, BrickId};
use iso_base::{CellName, Point, Sizes, point_of};
use packed_samples::PackedList;

/// The place of the copy at these offsets in a brick.
pub fn copy_place(brick: BrickId, x: u32, y: u32, z: u32) -> usize
    requires brick { brick.0 < 2 ^ 22 }
    requires x { x < 9 }
    requires y { y < 9 }
    requires z { z < 9 }
    ensures { result ≡ copy_place brick.0 x y z }
{
    (729 * brick.0 + (x + 9 * (y + 9 * z))) as usize
}

/// The place of the copy of a point in the first brick that holds it.
#[inline(always)]
pub fn first_copy_place(sizes: &Sizes, p: Point) -> usize
    requires { IsPoint sizes.now p }
    ensures value { result ≡ first_copy_place sizes.now p }
    ensures bound { result < 729 * brick_count sizes.now }
{
    // Reading a size brings in that the sizes are those of a grid.
    let _ = sizes.nx();
    let (x, y, z) = (
        numbering::first_brick_along(p.x),
        numbering::first_brick_along(p.y),
        numbering::first_brick_along(p.z),
    );
    let brick = numbering::brick_at(sizes, x, y, z);
    copy_place(brick, p.x - 8 * x, p.y - 8 * y, p.z - 8 * z)
}

/// The sample of a point: its copy in the first brick that holds it.
#[inline(always)]
pub fn get<C: PackedList>(sizes: &Sizes, copies: &C, p: Point) -> i64
    requires copies { AreCopies sizes.now (C.list copies.now) }
    requires point { IsPoint sizes.now p }
    ensures { result ≡ sample (samples_of sizes.now (C.list copies.now)) (index_of sizes.now p) }
{
    copies.at(first_copy_place(sizes, p))
}

/// The samples at the corners of a cell whose lowest copy is at this place.
#[inline(always)]
fn corners_from<C: PackedList>(copies: &C, low: usize) -> [i64; 8]
    requires few { low < 2 ^ 32 }
    requires there { low + 91 < length (C.list copies.now) }
    ensures { result ≡ map (λ c. sample (C.list copies.now) (low + (c % 2 + 9 * (c / 2 % 2 + 9 * (c / 4))))) (below 8) }
{
    [
        copies.at(low),
        copies.at(low + 1),
        copies.at(low + 9),
        copies.at(low + 10),
        copies.at(low + 81),
        copies.at(low + 82),
        copies.at(low + 90),
        copies.at(low + 91),
    ]
}

/// The samples at the corners of a cell, by corner: all in the brick that has the cell.
#[tactic(auto, using(crate::proofs::Standing::few_bricks))]
pub fn cell_values<C: PackedList>(sizes: &Sizes, copies: &C, cell: CellName) -> [i64; 8]
    requires copies { AreCopies sizes.now (C.list copies.now) }
    requires index { cell.0 < point_count sizes.now }
    requires cell { is_cell sizes.now cell.0 ≡ true }
    ensures { result ≡ cell_values sizes.now (sample (samples_of sizes.now (C.list copies.now))) cell.0 }
{
    let low = point_of(sizes, cell.0);
    let brick = numbering::brick_of(sizes, cell);
    corners_from(copies, copy_place(brick, low.x % 8, low.y % 8, low.z % 8))
}

/// Writes the copy of a point in one brick that holds it.
#[tactic(auto, using(crate::proofs::Standing::few_bricks))]
fn write_copy<C: PackedList>(sizes: &Sizes, copies: &mut C, brick: BrickId, p: Point, value: i64)
    requires count { length (C.list copies.old) ≡ 729 * brick_count sizes.now }
    requires brick { brick.0 < brick_count sizes.now }
    requires holds { holds_point sizes.now p brick.0 ≡ true }
    requires fits { C.Fits value }
    ensures { C.list copies.new ≡ slice_set (C.list copies.old) (own_place sizes.now p brick.0) value }
{
    // Reading a size brings in that the sizes are those of a grid.
    let _ = sizes.nx();
    let first = numbering::first_point(sizes, brick);
    let place = copy_place(brick, p.x - first.x, p.y - first.y, p.z - first.z);
    copies.set(place, value);
}

/// Writes the copy of a point in each brick that holds it.
pub fn set<C: PackedList>(sizes: &Sizes, copies: &mut C, p: Point, value: i64)
    requires copies { AreCopies sizes.now (C.list copies.old) }
    requires point { IsPoint sizes.now p }
    requires fits { C.Fits value }
    ensures copies { AreCopies sizes.now (C.list copies.new) }
    ensures samples { samples_of sizes.now (C.list copies.new)
        ≡ slice_set (samples_of sizes.now (C.list copies.old)) (index_of sizes.now p) value }
{
    // Reading a size brings in that the sizes are those of a grid.
    let _ = sizes.nx();
    let held = numbering::bricks_holding(sizes, p);
    for brick in held.as_slice() {
        write_copy(sizes, copies, *brick, p, value);
    }
}
