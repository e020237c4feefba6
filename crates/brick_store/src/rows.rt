//! Samples of a row, along x, written in each brick that holds them.
ghost use Rattle.std.specs.Prelude.{◌≡◌, ◌+◌, ◌*◌, ◌<◌, ◌≤◌, All, length};
ghost use Rattle.iso_defs.specs.Bricks.{brick_count, bricks_along};
ghost use Rattle.iso_base.specs.Points.{IsPoint, index_of};
ghost use Rattle.brick_store.specs.Copies.{AreCopies, first_brick_along, samples_of};
ghost use Rattle.brick_store.specs.Rows.{AreRowWritten, brick_zone, slice_zone, line_zone};
ghost use Rattle.packed_samples.specs.Runs.{row_set};

use crate::copies::copy_place;
use crate::numbering::{brick_at, brick_end, bricks_at, first_brick_along};
use iso_base::{Point, Sizes};
use packed_samples::PackedList;

/// Writes the copies that one brick has of the samples of a row from a point on.
#[tactic(auto, using(crate::proofs::Standing::few_bricks))]
fn write_in_brick<C: PackedList>(
    sizes: &Sizes,
    copies: &mut C,
    x: u32,
    y: u32,
    z: u32,
    p: Point,
    values: &[i64],
)
    requires count { length (C.list copies.old) ≡ 729 * brick_count sizes.now }
    requires x { x < bricks_along sizes.now 0 }
    requires y { y < bricks_along sizes.now 1 }
    requires z { z < bricks_along sizes.now 2 }
    requires inside { p.x + length values.now ≤ sizes.now.nx }
    requires fits { All C.Fits values.now }
    requires x_from { p.x ≤ 8 * x + 8 }
    requires x_to { 8 * x < p.x + length values.now }
    requires y_from { 8 * y ≤ p.y }
    requires y_to { p.y ≤ 8 * y + 8 }
    requires z_from { 8 * z ≤ p.z }
    requires z_to { p.z ≤ 8 * z + 8 }
    ensures { AreRowWritten sizes.now p values.now (brick_zone x y z) (C.list copies.old) (C.list copies.new) }
{
    // Reading a size brings in that the sizes are those of a grid.
    let _ = sizes.nx();
    let from = p.x.max(8 * x);
    let end = (p.x + values.len() as u32).min(8 * x + 9);
    let brick = brick_at(sizes, x, y, z);
    let start = copy_place(brick, from - 8 * x, p.y - 8 * y, p.z - 8 * z);
    let first = (from - p.x) as usize;
    let count = (end - from) as usize;
    copies.put(start, values, first, count);
}

/// Writes the copies of a row in the bricks of a line along x.
fn write_line<C: PackedList>(
    sizes: &Sizes,
    copies: &mut C,
    y: u32,
    z: u32,
    p: Point,
    values: &[i64],
)
    requires count { length (C.list copies.old) ≡ 729 * brick_count sizes.now }
    requires y { y < bricks_along sizes.now 1 }
    requires z { z < bricks_along sizes.now 2 }
    requires some { 0 < length values.now }
    requires inside { p.x + length values.now ≤ sizes.now.nx }
    requires fits { All C.Fits values.now }
    requires y_from { 8 * y ≤ p.y }
    requires y_to { p.y ≤ 8 * y + 8 }
    requires z_from { 8 * z ≤ p.z }
    requires z_to { p.z ≤ 8 * z + 8 }
    ensures { AreRowWritten sizes.now p values.now (line_zone sizes.now p (length values.now) y z)
        (C.list copies.old) (C.list copies.new) }
{
    let first = first_brick_along(p.x);
    let end = brick_end(sizes.nx(), p.x + values.len() as u32);
    for x in first..end {
        write_in_brick(sizes, copies, x, y, z, p, values);
    }
}

/// Writes the copies of a row in the bricks of a slice.
fn write_slice<C: PackedList>(sizes: &Sizes, copies: &mut C, z: u32, p: Point, values: &[i64])
    requires count { length (C.list copies.old) ≡ 729 * brick_count sizes.now }
    requires point { IsPoint sizes.now p }
    requires z { z < bricks_along sizes.now 2 }
    requires some { 0 < length values.now }
    requires inside { p.x + length values.now ≤ sizes.now.nx }
    requires fits { All C.Fits values.now }
    requires z_from { 8 * z ≤ p.z }
    requires z_to { p.z ≤ 8 * z + 8 }
    ensures { AreRowWritten sizes.now p values.now (slice_zone sizes.now p (length values.now) z)
        (C.list copies.old) (C.list copies.new) }
{
    let (first, end) = bricks_at(sizes.ny(), p.y);
    for y in first..end {
        write_line(sizes, copies, y, z, p, values);
    }
}

/// Writes the samples of a row from a point on in each brick that holds them.
pub fn write_row<C: PackedList>(sizes: &Sizes, copies: &mut C, p: Point, values: &[i64])
    requires copies { AreCopies sizes.now (C.list copies.old) }
    requires point { IsPoint sizes.now p }
    requires some { 0 < length values.now }
    requires inside { p.x + length values.now ≤ sizes.now.nx }
    requires fits { All C.Fits values.now }
    ensures copies { AreCopies sizes.now (C.list copies.new) }
    ensures samples { samples_of sizes.now (C.list copies.new)
        ≡ row_set (index_of sizes.now p) values.now (samples_of sizes.now (C.list copies.old)) }
{
    let (first, end) = bricks_at(sizes.nz(), p.z);
    for z in first..end {
        write_slice(sizes, copies, z, p, values);
    }
}
