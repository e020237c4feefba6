//! Samples of a box, written brick by brick: each brick that holds a point of it is written once.
ghost use Rattle.std.specs.Prelude.{◌≡◌, ◌+◌, ◌-◌, ◌*◌, ◌^◌, ◌<◌, ◌≤◌, All, min, length, replicate};
ghost use Rattle.iso_defs.specs.Bricks.{brick_count, brick_start, bricks_along};
ghost use Rattle.iso_base.specs.Points.{IsPoint, index_of};
ghost use Rattle.voxel_list.specs.Areas.{IsArea, area_count};
ghost use Rattle.brick_store.specs.Copies.{AreCopies, first_brick_along, samples_of};
ghost use Rattle.brick_store.specs.Rows.{brick_zone};
ghost use Rattle.brick_store.specs.Boxes.{ArePartWritten, AreBoxWritten, AreAsMany, IsPartOf, AreFitting};
ghost use Rattle.brick_store.specs.Boxes.{area_place, boxed, box_slice, box_line, one_slice, one_row};
ghost use Rattle.brick_store.specs.Parts.{AreRowsPut, HasRows, IsPart};

use crate::copies::copy_place;
use crate::numbering::{BrickId, brick_at, brick_end, first_brick_along, first_point};
use iso_base::{Point, Sizes};
use packed_samples::PackedList;
use voxel_list::FillBox;

/// What the points of a box become: all one value, or each its own, in the order of their indices.
#[derive(Clone, Copy)]
pub enum Values<'a> {
    One(i64),
    Each(&'a [i64]),
}

/// Offsets in a brick: from one to before another along each axis.
#[derive(Clone, Copy)]
struct Part {
    x: u32,
    x_end: u32,
    y: u32,
    y_end: u32,
    z: u32,
    z_end: u32,
}

/// The offsets in a brick that begins here of the points from one coordinate to another.
fn offsets(start: u32, low: u32, high: u32) -> (u32, u32)
    requires bound { high < 1026 }
    requires order { low ≤ high }
    requires from { low ≤ start + 8 }
    requires to { start ≤ high }
    ensures first { result.0 ≡ low - start }
    ensures end { result.1 ≡ min (high + 1 - start) 9 }
{
    (low.saturating_sub(start), (high + 1 - start).min(9))
}

/// The offsets of the points of a box in a brick by its places.
fn part_in(sizes: &Sizes, area: &FillBox, brick: BrickId) -> Part
    requires brick { brick.0 < brick_count sizes.now }
    requires x_from { area.now.low.x ≤ brick_start sizes.now brick.0 0 + 8 }
    requires x_to { brick_start sizes.now brick.0 0 ≤ area.now.high.x }
    requires y_from { area.now.low.y ≤ brick_start sizes.now brick.0 1 + 8 }
    requires y_to { brick_start sizes.now brick.0 1 ≤ area.now.high.y }
    requires z_from { area.now.low.z ≤ brick_start sizes.now brick.0 2 + 8 }
    requires z_to { brick_start sizes.now brick.0 2 ≤ area.now.high.z }
    ensures { IsPartOf sizes.now area.now brick.0 result }
{
    let (low, high) = (area.low(), area.high());
    let first = first_point(sizes, brick);
    let (x, x_end) = offsets(first.x, low.x, high.x);
    let (y, y_end) = offsets(first.y, low.y, high.y);
    let (z, z_end) = offsets(first.z, low.z, high.z);
    Part {
        x,
        x_end,
        y,
        y_end,
        z,
        z_end,
    }
}

/// The number in a box of a point of it.
fn place_in(sizes: &Sizes, area: &FillBox, p: Point) -> usize
    requires point { IsPoint sizes.now p }
    requires x { area.now.low.x ≤ p.x }
    requires y { area.now.low.y ≤ p.y }
    requires z { area.now.low.z ≤ p.z }
    requires x_to { p.x ≤ area.now.high.x }
    requires y_to { p.y ≤ area.now.high.y }
    requires z_to { p.z ≤ area.now.high.z }
    ensures value { result ≡ area_place sizes.now area.now (index_of sizes.now p) }
    ensures area { IsArea area.now }
{
    let (low, high) = (area.low(), area.high());
    let width = high.x - low.x + 1;
    let depth = high.y - low.y + 1;
    let row = p.y - low.y + depth * (p.z - low.z);
    (p.x - low.x + width * row) as usize
}

/// A value as often as a whole row of a brick has points.
fn nine(value: &i64) -> [i64; 9]
    ensures { result ≡ replicate 9 value.now }
{
    [*value; 9]
}

/// Rows of values for the points of a part: from which place on the first one stands, and how many places further the row of the
/// next y and that of the next z begin.
#[derive(Clone, Copy)]
struct Source<'a> {
    values: &'a [i64],
    from: usize,
    row: usize,
    slice: usize,
}

/// Writes a row of a part of a brick.
#[inline(always)]
fn write_row<C: PackedList>(
    copies: &mut C,
    brick: BrickId,
    part: &Part,
    source: Source,
    y: u32,
    z: u32,
)
    requires few { brick.0 < 2 ^ 22 }
    requires room { 729 * brick.0 + 729 ≤ length (C.list copies.old) }
    requires part { IsPart part.now }
    requires rows { HasRows part.now source }
    requires fits { All C.Fits source.values.now }
    requires y_from { part.now.y ≤ y }
    requires y_to { y < part.now.y_end }
    requires z_from { part.now.z ≤ z }
    requires z_to { z < part.now.z_end }
    ensures { AreRowsPut brick.0 part.now source.entry (one_row part.now y z) (C.list copies.old) (C.list copies.new) }
{
    let start = copy_place(brick, part.x, y, z);
    let count = (part.x_end - part.x) as usize;
    let before = (z - part.z) as usize * source.slice;
    let from = source.from + (y - part.y) as usize * source.row + before;
    copies.put(start, source.values, from, count);
}

/// Writes the rows of a slice of a part.
fn write_rows<C: PackedList>(copies: &mut C, brick: BrickId, part: &Part, source: Source, z: u32)
    requires few { brick.0 < 2 ^ 22 }
    requires room { 729 * brick.0 + 729 ≤ length (C.list copies.old) }
    requires part { IsPart part.now }
    requires rows { HasRows part.now source }
    requires fits { All C.Fits source.values.now }
    requires z_from { part.now.z ≤ z }
    requires z_to { z < part.now.z_end }
    ensures { AreRowsPut brick.0 part.now source.entry (one_slice part.now z) (C.list copies.old) (C.list copies.new) }
{
    for y in part.y..part.y_end {
        write_row(copies, brick, part, source, y, z);
    }
}

/// Writes the rows of a part of a brick.
fn write_part<C: PackedList>(copies: &mut C, brick: BrickId, part: &Part, source: Source)
    requires few { brick.0 < 2 ^ 22 }
    requires room { 729 * brick.0 + 729 ≤ length (C.list copies.old) }
    requires part { IsPart part.now }
    requires rows { HasRows part.now source }
    requires fits { All C.Fits source.values.now }
    ensures { AreRowsPut brick.0 part.now source.entry part.now (C.list copies.old) (C.list copies.new) }
{
    for z in part.z..part.z_end {
        write_rows(copies, brick, part, source, z);
    }
}

/// Writes one value as the copies of the points of a box in a brick.
#[tactic(auto, using(crate::proofs::Standing::few_bricks))]
fn write_one<C: PackedList>(
    sizes: &Sizes,
    copies: &mut C,
    area: &FillBox,
    value: i64,
    brick: BrickId,
    part: &Part,
)
    requires count { length (C.list copies.old) ≡ 729 * brick_count sizes.now }
    requires brick { brick.0 < brick_count sizes.now }
    requires fits { C.Fits value }
    requires part { IsPartOf sizes.now area.now brick.0 part.now }
    ensures { ArePartWritten sizes.now area.now (Values.One value) brick.0 part.now (C.list copies.old)
        (C.list copies.new) }
{
    // Reading a size brings in that the sizes are those of a grid.
    let _ = sizes.nx();
    let row = nine(&value);
    let source = Source {
        values: &row,
        from: 0,
        row: 0,
        slice: 0,
    };
    write_part(copies, brick, part, source);
}

/// Writes the values of a box, in the order of their indices, as the copies of its points in a brick.
#[tactic(auto, using(crate::proofs::Standing::few_bricks))]
fn write_each<C: PackedList>(
    sizes: &Sizes,
    copies: &mut C,
    area: &FillBox,
    values: &[i64],
    brick: BrickId,
    part: &Part,
)
    requires count { length (C.list copies.old) ≡ 729 * brick_count sizes.now }
    requires brick { brick.0 < brick_count sizes.now }
    requires high { IsPoint sizes.now area.now.high }
    requires values { length values.now ≡ area_count area.now }
    requires fits { All C.Fits values.now }
    requires part { IsPartOf sizes.now area.now brick.0 part.now }
    ensures { ArePartWritten sizes.now area.now (Values.Each values.entry) brick.0 part.now (C.list copies.old)
        (C.list copies.new) }
{
    let (low, high) = (area.low(), area.high());
    let first = first_point(sizes, brick);
    let p = Point {
        x: first.x + part.x,
        y: first.y + part.y,
        z: first.z + part.z,
    };
    let from = place_in(sizes, area, p);
    let row = (high.x - low.x + 1) as usize;
    let slice = row * (high.y - low.y + 1) as usize;
    let source = Source {
        values,
        from,
        row,
        slice,
    };
    write_part(copies, brick, part, source);
}

/// Writes the copies of the points of a box in the brick that stands so many bricks along x, y and z.
fn write_brick<C: PackedList>(
    sizes: &Sizes,
    copies: &mut C,
    area: &FillBox,
    values: Values,
    x: u32,
    y: u32,
    z: u32,
)
    requires count { length (C.list copies.old) ≡ 729 * brick_count sizes.now }
    requires high { IsPoint sizes.now area.now.high }
    requires values { AreAsMany area.now values }
    requires fits { AreFitting C.Fits values }
    requires x { x < bricks_along sizes.now 0 }
    requires y { y < bricks_along sizes.now 1 }
    requires z { z < bricks_along sizes.now 2 }
    requires x_from { area.now.low.x ≤ 8 * x + 8 }
    requires x_to { 8 * x ≤ area.now.high.x }
    requires y_from { area.now.low.y ≤ 8 * y + 8 }
    requires y_to { 8 * y ≤ area.now.high.y }
    requires z_from { area.now.low.z ≤ 8 * z + 8 }
    requires z_to { 8 * z ≤ area.now.high.z }
    ensures { AreBoxWritten sizes.now area.now values.entry (brick_zone x y z) (C.list copies.old) (C.list copies.new) }
{
    let brick = brick_at(sizes, x, y, z);
    let part = part_in(sizes, area, brick);
    match values {
        Values::One(value) => write_one(sizes, copies, area, value, brick, &part),
        Values::Each(values) => write_each(sizes, copies, area, values, brick, &part),
    }
}

/// Writes the copies of the points of a box in the bricks of a line along x.
fn write_line<C: PackedList>(
    sizes: &Sizes,
    copies: &mut C,
    area: &FillBox,
    values: Values,
    y: u32,
    z: u32,
)
    requires count { length (C.list copies.old) ≡ 729 * brick_count sizes.now }
    requires high { IsPoint sizes.now area.now.high }
    requires values { AreAsMany area.now values }
    requires fits { AreFitting C.Fits values }
    requires y { y < bricks_along sizes.now 1 }
    requires z { z < bricks_along sizes.now 2 }
    requires y_from { area.now.low.y ≤ 8 * y + 8 }
    requires y_to { 8 * y ≤ area.now.high.y }
    requires z_from { area.now.low.z ≤ 8 * z + 8 }
    requires z_to { 8 * z ≤ area.now.high.z }
    ensures { AreBoxWritten sizes.now area.now values.entry (box_line sizes.now area.now y z) (C.list copies.old)
        (C.list copies.new) }
{
    let first = first_brick_along(area.low().x);
    let end = brick_end(sizes.nx(), area.high().x + 1);
    for x in first..end {
        write_brick(sizes, copies, area, values, x, y, z);
    }
}

/// Writes the copies of the points of a box in the bricks of a slice.
fn write_slice<C: PackedList>(sizes: &Sizes, copies: &mut C, area: &FillBox, values: Values, z: u32)
    requires count { length (C.list copies.old) ≡ 729 * brick_count sizes.now }
    requires high { IsPoint sizes.now area.now.high }
    requires values { AreAsMany area.now values }
    requires fits { AreFitting C.Fits values }
    requires z { z < bricks_along sizes.now 2 }
    requires z_from { area.now.low.z ≤ 8 * z + 8 }
    requires z_to { 8 * z ≤ area.now.high.z }
    ensures { AreBoxWritten sizes.now area.now values.entry (box_slice sizes.now area.now z) (C.list copies.old)
        (C.list copies.new) }
{
    let first = first_brick_along(area.low().y);
    let end = brick_end(sizes.ny(), area.high().y + 1);
    for y in first..end {
        write_line(sizes, copies, area, values, y, z);
    }
}

/// Writes the samples of the points of a box in each brick that holds them.
pub fn write_box<C: PackedList>(sizes: &Sizes, copies: &mut C, area: &FillBox, values: Values)
    requires copies { AreCopies sizes.now (C.list copies.old) }
    requires high { IsPoint sizes.now area.now.high }
    requires values { AreAsMany area.now values }
    requires fits { AreFitting C.Fits values }
    ensures copies { AreCopies sizes.now (C.list copies.new) }
    ensures samples { samples_of sizes.now (C.list copies.new)
        ≡ boxed sizes.now area.now values.entry (samples_of sizes.now (C.list copies.old)) }
{
    let first = first_brick_along(area.low().z);
    let end = brick_end(sizes.nz(), area.high().z + 1);
    for z in first..end {
        write_slice(sizes, copies, area, values, z);
    }
}
