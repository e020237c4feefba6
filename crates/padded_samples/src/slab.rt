//! Slices in a pad, of which no list is made.
//!
//! Why: DECISIONS.md, "A padding is a view".
ghost use Rattle.std.specs.Prelude.{◌≡◌, ℕ, ℤ, ◌+◌, ◌-◌, ◌*◌, ◌<◌, ◌≤◌, ◌↔◌, Err, IfOk, IfSome, None, All, drop, length, map, slice_index, take, true};
ghost use Rattle.iso_defs.specs.Grid.{point_count};
ghost use Rattle.iso_base.specs.Points.{IsPoint, index_of};
ghost use Rattle.iso_base.specs.Volume.{IsSample, sized, sample, grown};
ghost use Rattle.iso_base.specs.declared.sizes.SizeFault.{SizeFault};
ghost use Rattle.samples.specs.Cells.{IsLowest};
ghost use Rattle.samples.specs.Signs.{sign_of};
ghost use Rattle.padded_samples.specs.Pads.{InPad, IsInnerRow, padded_at};
ghost use Rattle.padded_samples.specs.PaddedSlabs.{HoldsPadAround, IsSlabInPad, in_both, layers, ringed, slab_at, slab_list};

use crate::ends::Ends;
use crate::rows::{
    copy_inside, fill_inside, fill_pad, inner_cell, inner_row, points_before, repeat_sign,
};
use iso_base::{Level, Point, SizeFault, Sizes, index, point_of};
use samples::{Packed, Samples, each_corner, sample_sign};
use std::marker::Model;

/// Slices in a ring of the pad each, with a layer of it below the first one and above the last one where there is to be one:
/// so is a slab of a volume in a pad, which has these layers only where it is the lowest and the last. Contracts see the grid
/// without ring and layers, its samples, the pad and the ends.
#[derive(Drop)]
pub struct PaddedSlab<'a, S: Samples> {
    inner: &'a S,
    sizes: Sizes,
    stored: Sizes,
    pad: i64,
    ends: Ends,
}

impl<'a, S: Samples> Model for PaddedSlab<'a, S> {
    ghost use Rattle.std.specs.Prelude.{◌≡◌};
    ghost use Rattle.padded_samples.specs.PaddedSlabs.{IsSlabInPad, SlabInPad, ringed};

    ghost Value = { SlabInPad };

    ghost view = { λ p. record { grid = p.sizes; samples = S.list p.inner.now; pad = p.pad; ends = p.ends } };

    ghost invariant = { λ p.
        IsSlabInPad (record { grid = p.sizes; samples = S.list p.inner.now; pad = p.pad; ends = p.ends })
        × (p.stored ≡ ringed p.ends p.sizes) };
}

/// Whether two grids have the same sizes.
#[inline(always)]
fn are_same(a: &Sizes, b: &Sizes) -> bool
    ensures { result ≡ true → a.now ≡ b.now }
{
    a.nx() == b.nx() && a.ny() == b.ny() && a.nz() == b.nz()
}

impl<'a, S: Samples> PaddedSlab<'a, S> {
    /// The samples of a grid in a pad, with layers at these ends. It is refused exactly where the sizes with ring and layers are.
    pub fn new(
        inner: &'a S,
        sizes: Sizes,
        pad: i64,
        ends: Ends,
    ) -> Result<PaddedSlab<'a, S>, SizeFault>
        requires count { length (S.list inner.now) ≡ point_count sizes }
        requires range { IsSample pad }
        ensures ok { IfOk result
            (λ s. s ≡ record { grid = sizes; samples = S.list inner.now; pad = pad; ends = ends }) }
        ensures size { (fault : SizeFault) → (result ≡ Err fault) ↔ (sized (ringed ends sizes) ≡ Err fault) }
        ensures samples { IfOk result HoldsPadAround }
    {
        let (nx, ny, nz) = (sizes.nx(), sizes.ny(), sizes.nz());
        let (below, above) = (u64::from(ends.below), u64::from(ends.above));
        let stored = Sizes::new(
            u64::from(nx) + 2,
            u64::from(ny) + 2,
            u64::from(nz) + (below + above),
        )?;
        // Reading a size brings in that the sizes are those of a grid.
        let _ = stored.nx();
        Ok(PaddedSlab {
            inner,
            sizes,
            stored,
            pad,
            ends,
        })
    }

    /// The sizes of the grid with ring and layers.
    pub fn sizes(&self) -> Sizes
        ensures value { result ≡ ringed self.now.ends self.now.grid }
        ensures valid { IsSlabInPad self.now }
    {
        self.stored
    }

    /// The sample of the pad.
    #[inline(always)]
    fn pad(&self) -> i64
        ensures { result ≡ self.now.pad }
    {
        self.pad
    }

    /// How many slices further up a slice of the slab would be if there were a layer at both ends. What follows up to `fill_rows`
    /// is over the grid with both, where the coordinates of inner points are one more each.
    #[inline(always)]
    fn lift(&self) -> u32
        ensures { result + layers self.now.ends.below ≡ 1 }
    {
        if self.ends.below { 0 } else { 1 }
    }

    /// The sample of a point of the grid with both layers.
    #[inline(always)]
    fn get(&self, point: Point) -> i64
        requires { IsPoint (grown self.now.grid) point }
        ensures { result ≡ padded_at (in_both self.now) (index_of (grown self.now.grid) point) }
    {
        let Some(row) = inner_row(&self.sizes, point.y, point.z) else {
            return self.pad;
        };
        if point.x == 0 {
            return self.pad;
        }
        if point.x == self.sizes.nx() + 1 {
            return self.pad;
        }
        let x = point.x - 1;
        self.inner.at_point(&self.sizes, Point { x, ..row })
    }

    /// The sample of a point of the slab.
    #[inline(always)]
    fn get_here(&self, point: Point) -> i64
        requires { IsPoint (ringed self.now.ends self.now.grid) point }
        ensures { result ≡ slab_at self.now (index_of (ringed self.now.ends self.now.grid) point) }
    {
        // Reading the sizes brings in that they are so small that the sum fits.
        let _ = self.sizes();
        let z = point.z + self.lift();
        self.get(Point { z, ..point })
    }

    /// The sample of an index of the slab.
    #[inline(always)]
    fn sample(&self, index: u32) -> i64
        requires { index < point_count (ringed self.now.ends self.now.grid) }
        ensures { result ≡ slab_at self.now index }
    {
        let sizes = self.sizes();
        self.get_here(point_of(&sizes, index))
    }

    /// The lowest point of a cell in the grid without the pad, where the grid is that of the slab and the cell lies inside.
    #[inline(always)]
    fn inner_low(&self, sizes: &Sizes, low: Point) -> Option<Point>
        ensures { IfSome result (λ q. (sizes.now ≡ ringed self.now.ends self.now.grid) × IsLowest self.now.grid q
            × (low.x ≡ q.x + 1) × (low.y ≡ q.y + 1) × (low.z ≡ q.z + layers self.now.ends.below)) }
    {
        if are_same(sizes, &self.stored) {
            inner_cell(&self.sizes, low, self.lift())
        } else {
            None
        }
    }

    /// Copies the samples of a row with inner points from a point of the grid with both layers on, where it begins or ends in the
    /// layer: `row` is the first of those inner points, in the grid without the layer.
    fn copy_ends<T: Packed>(&self, row: Point, point: Point, into: &mut [T])
        requires point { IsPoint (grown self.now.grid) point }
        requires begun { IsPoint self.now.grid row × (row.x ≡ 0) }
        requires inner { IsInnerRow (in_both self.now) (point.y + (self.now.grid.ny + 2) * point.z)
            (index_of self.now.grid row) }
        requires row { point.x + length into.old ≤ self.now.grid.nx + 2 }
        requires fits { (i : ℕ) → i < length into.old →
            T.Fits (padded_at (in_both self.now) (index_of (grown self.now.grid) point + i)) }
        ensures { (i : ℕ) → i < length into.old
            → sample (map T.value into.new) i
            ≡ padded_at (in_both self.now) (index_of (grown self.now.grid) point + i) }
    {
        let count = into.len();
        let first = points_before(point.x, count);
        let last = ((self.sizes.nx() + 1 - point.x) as usize).min(count);
        fill_pad(self.pad, 0, first, into);
        fill_pad(self.pad, last, count, into);
        if first < last {
            let x = point.x + first as u32 - 1;
            let point = Point { x, ..row };
            copy_inside(self.inner, &self.sizes, point, first, last - first, into);
        }
    }

    /// Copies the samples of a row from a point of the grid with both layers on. Most parts of rows have inner points alone.
    #[inline(always)]
    fn copy_part<T: Packed>(&self, point: Point, into: &mut [T])
        requires point { IsPoint (grown self.now.grid) point }
        requires row { point.x + length into.old ≤ self.now.grid.nx + 2 }
        requires fits { (i : ℕ) → i < length into.old →
            T.Fits (padded_at (in_both self.now) (index_of (grown self.now.grid) point + i)) }
        ensures { (i : ℕ) → i < length into.old
            → sample (map T.value into.new) i
            ≡ padded_at (in_both self.now) (index_of (grown self.now.grid) point + i) }
    {
        let count = into.len();
        let Some(row) = inner_row(&self.sizes, point.y, point.z) else {
            return fill_pad(self.pad, 0, count, into);
        };
        if point.x == 0 {
            return self.copy_ends(row, point, into);
        }
        if point.x as usize + count.max(1) > self.sizes.nx() as usize + 1 {
            return self.copy_ends(row, point, into);
        }
        let x = point.x - 1;
        let point = Point { x, ..row };
        copy_inside(self.inner, &self.sizes, point, 0, count, into);
    }

    /// Copies samples from an index of the slab on, one by one.
    fn copy_each<T: Packed>(&self, start: u32, into: &mut [T])
        requires room { start + length into.old ≤ point_count (ringed self.now.ends self.now.grid) }
        requires fits { (i : ℕ) → i < length into.old → T.Fits (slab_at self.now (start + i)) }
        ensures { (i : ℕ) → i < length into.old → sample (map T.value into.new) i ≡ slab_at self.now (start + i) }
    {
        // Reading the sizes brings in that the samples are so few that their indices fit.
        let _ = self.sizes();
        for k in 0..into.len() {
            into[k] = T::of(self.sample(start + k as u32));
        }
    }

    /// Writes the signs of a row of the grid with both layers over a part of a list.
    #[inline(always)]
    fn fill_row(&self, y: u32, z: u32, level: Level, from: usize, into: &mut [u8])
        requires y { y < self.now.grid.ny + 2 }
        requires z { z < self.now.grid.nz + 2 }
        requires room { from + (self.now.grid.nx + 2) ≤ length into.old }
        ensures inside { (i : ℕ) → i < self.now.grid.nx + 2 → slice_index into.new (from + i)
            ≡ sign_of level (padded_at (in_both self.now)
            ((self.now.grid.nx + 2) * (y + (self.now.grid.ny + 2) * z) + i)) }
        ensures before { (i : ℕ) → i < from → slice_index into.new i ≡ slice_index into.old i }
    {
        let count = self.sizes.nx() as usize;
        let sign = sample_sign(self.pad(), level);
        let Some(row) = inner_row(&self.sizes, y, z) else {
            return repeat_sign(sign, from, count + 2, into);
        };
        fill_inside(
            self.inner,
            index(&self.sizes, row),
            level,
            from + 1,
            count,
            into,
        );
        into[from] = sign;
        into[from + 1 + count] = sign;
    }

    /// Writes the signs of so many rows of the grid with both layers, from one on.
    fn fill_rows(&self, first: u32, rows: u32, level: Level, into: &mut [u8])
        requires rows { first + rows ≤ (self.now.grid.ny + 2) * (self.now.grid.nz + 2) }
        requires room { length into.old ≡ (self.now.grid.nx + 2) * rows }
        ensures { (i : ℕ) → i < length into.old → slice_index into.new i
            ≡ sign_of level (padded_at (in_both self.now) ((self.now.grid.nx + 2) * first + i)) }
    {
        let width = self.sizes.nx() as usize + 2;
        let height = self.sizes.ny() + 2;
        for k in 0..rows {
            let row = first + k;
            self.fill_row(row % height, row / height, level, width * k as usize, into);
        }
    }

    /// Writes the signs of samples from an index on, one by one.
    fn fill_each(&self, start: u32, level: Level, into: &mut [u8])
        requires { start + length into.old ≤ point_count (ringed self.now.ends self.now.grid) }
        ensures { (i : ℕ) → i < length into.old → slice_index into.new i
            ≡ sign_of level (slab_at self.now (start + i)) }
    {
        // Reading the sizes brings in that the samples are so few that their indices fit.
        let _ = self.sizes();
        for k in 0..into.len() {
            into[k] = sample_sign(self.sample(start + k as u32), level);
        }
    }
}

impl<'a, S: Samples> Samples for PaddedSlab<'a, S> {
    ghost list = { slab_list };

    #[inline(always)]
    fn at(&self, index: u32) -> i64 {
        self.sample(index)
    }

    // A grid with as many points is nearly always this one, whose points need no division.
    #[inline(always)]
    fn at_point(&self, sizes: &Sizes, point: Point) -> i64 {
        if are_same(sizes, &self.stored) {
            self.get_here(point)
        } else {
            self.sample(index(sizes, point))
        }
    }

    // A cell that lies inside the pad.
    #[inline(always)]
    fn corners_at_once(&self, sizes: &Sizes, low: Point) -> Option<[i64; 8]> {
        let inner = self.inner_low(sizes, low)?;
        Some(each_corner(self.inner, &self.sizes, inner))
    }

    #[inline(always)]
    fn copy_row<T: Packed>(&self, sizes: &Sizes, point: Point, into: &mut [T]) {
        if are_same(sizes, &self.stored) {
            let z = point.z + self.lift();
            self.copy_part(Point { z, ..point }, into);
        } else {
            self.copy_each(index(sizes, point), into);
        }
    }

    // Signs are asked for slice by slice, so in whole rows.
    fn fill_signs(&self, start: u32, level: Level, into: &mut [u8]) {
        let width = self.stored.nx();
        let rows = (into.len() / width as usize) as u32;
        if start % width == 0 && into.len() % width as usize == 0 {
            let first = start / width + self.stored.ny() * self.lift();
            self.fill_rows(first, rows, level, into);
        } else {
            self.fill_each(start, level, into);
        }
    }
}
