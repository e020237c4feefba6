//! Rows of a grid in a pad: the pad, a row of samples and the pad, or all pad.
ghost use Rattle.std.specs.Prelude.{◌≡◌, ℕ, ℤ, ◌+◌, ◌*◌, ◌<◌, ◌≤◌, ◌⊎◌, IfSome, None, length, map, slice_index};
ghost use Rattle.iso_defs.specs.Grid.{point_count};
ghost use Rattle.iso_base.specs.Points.{IsPoint, index_of};
ghost use Rattle.iso_base.specs.Volume.{IsSample, sample};
ghost use Rattle.samples.specs.Cells.{IsLowest};
ghost use Rattle.samples.specs.Signs.{sign_of};
ghost use Rattle.padded_samples.specs.Pads.{InPad, IsInnerRow, IsPadRow};

use iso_base::{Level, Point, Sizes};
use samples::{Packed, Samples};

/// The first point, in the grid without the layer, of a row of the grid with it; none of a row that is all pad.
#[inline(always)]
pub fn inner_row(sizes: &Sizes, y: u32, z: u32) -> Option<Point>
    requires y { y < sizes.now.ny + 2 }
    requires z { z < sizes.now.nz + 2 }
    ensures none { (p : InPad) → p.grid ≡ sizes.now → result ≡ None → IsPadRow p (y + (p.grid.ny + 2) * z) }
    ensures point { IfSome result (λ q. (IsPoint sizes.now q × (q.x ≡ 0))) }
    ensures some { (p : InPad) → p.grid ≡ sizes.now → length p.samples ≡ point_count p.grid
        → IfSome result (λ q. IsInnerRow p (y + (p.grid.ny + 2) * z) (index_of p.grid q)) }
{
    let (ny, nz) = (sizes.ny(), sizes.nz());
    if y == 0 {
        return None;
    }
    if y > ny {
        return None;
    }
    if z == 0 {
        return None;
    }
    if z > nz {
        return None;
    }
    Some(Point {
        x: 0,
        y: y - 1,
        z: z - 1,
    })
}

/// A coordinate in the grid without the layer, of so many points along its axis, where it and the next one lie there.
#[inline(always)]
fn inner_coordinate(coordinate: u32, size: u32) -> Option<u32>
    requires { 0 < size }
    ensures { IfSome result (λ c. (c + 1 < size) × (coordinate ≡ c + 1)) }
{
    if coordinate == 0 {
        return None;
    }
    if coordinate > size - 1 {
        return None;
    }
    Some(coordinate - 1)
}

/// The point of the grid without the layer that a point of the grid with it is, so many slices further up, where it is the lowest
/// of a cell there.
#[inline(always)]
pub fn inner_cell(sizes: &Sizes, low: Point, lift: u32) -> Option<Point>
    ensures { IfSome result (λ q. IsLowest sizes.now q × (low.x ≡ q.x + 1) × (low.y ≡ q.y + 1)
        × (low.z + lift ≡ q.z + 1)) }
{
    let x = inner_coordinate(low.x, sizes.nx())?;
    let y = inner_coordinate(low.y, sizes.ny())?;
    let z = inner_coordinate(low.z.checked_add(lift)?, sizes.nz())?;
    Some(Point { x, y, z })
}

/// How many of so many points of a row from an x on lie in the layer before its inner points.
#[inline(always)]
pub fn points_before(x: u32, count: usize) -> usize
    ensures first { x ≡ 0 → 0 < count → result ≡ 1 }
    ensures none { 0 < x → result ≡ 0 }
    ensures most { result ≤ count }
{
    if x > 0 {
        return 0;
    }
    count.min(1)
}

/// Copies samples of a row over a part of a list.
#[inline(always)]
pub fn copy_inside<S: Samples, T: Packed>(
    samples: &S,
    sizes: &Sizes,
    point: Point,
    from: usize,
    count: usize,
    into: &mut [T],
)
    requires room { from + count ≤ length into.old }
    requires list { length (S.list samples.now) ≡ point_count sizes.now }
    requires point { IsPoint sizes.now point }
    requires row { point.x + count ≤ sizes.now.nx }
    requires fits { (i : ℕ) → i < count → T.Fits (sample (S.list samples.now) (index_of sizes.now point + i)) }
    ensures inside { (i : ℕ) → i < count → sample (map T.value into.new) (from + i)
        ≡ sample (S.list samples.now) (index_of sizes.now point + i) }
    ensures others { (i : ℕ) → (i < from) ⊎ (from + count ≤ i) → sample (map T.value into.new) i
        ≡ sample (map T.value into.old) i }
{
    samples.copy_row(sizes, point, &mut into[from..from + count]);
}

/// Writes the pad over a part of a list.
#[inline(always)]
pub fn fill_pad<T: Packed>(pad: i64, from: usize, to: usize, into: &mut [T])
    requires order { from ≤ to }
    requires room { to ≤ length into.old }
    requires fits { from < to → T.Fits pad }
    ensures inside { (i : ℕ) → from ≤ i → i < to → sample (map T.value into.new) i ≡ pad }
    ensures others { (i : ℕ) → (i < from) ⊎ (to ≤ i) → sample (map T.value into.new) i
        ≡ sample (map T.value into.old) i }
{
    for k in from..to {
        into[k] = T::of(pad);
    }
}

/// Writes the signs of samples over a part of a list.
#[inline(always)]
pub fn fill_inside<S: Samples>(
    samples: &S,
    start: u32,
    level: Level,
    from: usize,
    count: usize,
    into: &mut [u8],
)
    requires room { from + count ≤ length into.old }
    requires there { start + count ≤ length (S.list samples.now) }
    ensures inside { (i : ℕ) → i < count → slice_index into.new (from + i)
        ≡ sign_of level (sample (S.list samples.now) (start + i)) }
    ensures before { (i : ℕ) → i < from → slice_index into.new i ≡ slice_index into.old i }
    ensures after { (i : ℕ) → from + count ≤ i → slice_index into.new i ≡ slice_index into.old i }
{
    samples.fill_signs(start, level, &mut into[from..from + count]);
}

/// Writes a sign over a part of a list.
#[inline(always)]
pub fn repeat_sign(sign: u8, from: usize, count: usize, into: &mut [u8])
    requires { from + count ≤ length into.old }
    ensures inside { (i : ℕ) → i < count → slice_index into.new (from + i) ≡ sign }
    ensures before { (i : ℕ) → i < from → slice_index into.new i ≡ slice_index into.old i }
{
    for k in from..from + count {
        into[k] = sign;
    }
}
