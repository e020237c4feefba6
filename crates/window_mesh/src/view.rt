//! The samples of a box of a volume in bricks, asked for where they lie.
//!
//! Why: DECISIONS.md, "A window is a view".
ghost use Rattle.std.specs.Prelude.{◌≡◌, ◌≢◌, ℕ, ◌+◌, ◌<◌, ◌≤◌, All, IfErr, IfOk, None, OnOk, drop, length, map, slice_index, take, true};
ghost use Rattle.iso_defs.specs.Grid.{point_count};
ghost use Rattle.iso_base.specs.Points.{IsPoint, index_of};
ghost use Rattle.iso_base.specs.Volume.{IsSample, IsVolume, sample};
ghost use Rattle.samples.specs.Signs.{sign_of};
ghost use Rattle.window_laws.specs.Windows.{IsWindow, thin_axis};
ghost use Rattle.window_mesh.specs.Crops.{IsFaultOf, window_of};
ghost use Rattle.window_mesh.specs.Rows.{row_samples};
ghost use Rattle.window_mesh.specs.Views.{InBox, boxed_at, boxed_list, whole_of, window_at};

use crate::boxes::{WindowFault, window_sizes};
use brick_store::BrickStore;
use iso_base::{LONGEST_ROW, Level, Point, Sizes, index, point_of};
use samples::{Packed, Samples, copy_all, fill_signs, sample_sign};
use std::marker::Model;
use voxel_list::FillBox;

/// The samples of a box of a volume in bricks, the box taken as a volume of its own. They are not copied: each is asked for in
/// the bricks. Contracts see the volume and the box.
#[derive(Drop)]
pub struct BoxSamples<'a> {
    store: &'a BrickStore,
    low: Point,
    sizes: Sizes,
}

impl<'a> Model for BoxSamples<'a> {
    ghost use Rattle.window_laws.specs.Windows.{IsWindow};
    ghost use Rattle.window_mesh.specs.Views.{InBox, window_at};

    ghost Value = { InBox };

    ghost view = { λ b. record { volume = b.store.now; window = window_at b.low b.sizes } };

    ghost invariant = { λ b. IsWindow b.store.now.grid (window_at b.low b.sizes) };
}

/// Whether two grids have the same sizes.
#[inline(always)]
fn are_same(a: &Sizes, b: &Sizes) -> bool
    ensures { result ≡ true → a.now ≡ b.now }
{
    a.nx() == b.nx() && a.ny() == b.ny() && a.nz() == b.nz()
}

/// Writes the signs of samples over a part of a list.
#[inline(always)]
fn fill_part(samples: &[i64], level: Level, from: usize, into: &mut [u8])
    requires { from + length samples.now ≤ length into.old }
    ensures inside { (i : ℕ) → i < length samples.now → slice_index into.new (from + i)
        ≡ sign_of level (sample samples.now i) }
    ensures before { (i : ℕ) → i < from → slice_index into.new i ≡ slice_index into.old i }
{
    fill_signs(samples, level, &mut into[from..from + samples.len()]);
}

impl<'a> BoxSamples<'a> {
    /// The samples of a box that lies in the stored grid. `Thin` comes exactly where the box has fewer than two points along an
    /// axis, with the first such; no other fault does. No memory is taken.
    pub fn new(store: &'a BrickStore, area: &FillBox) -> Result<BoxSamples<'a>, WindowFault>
        requires { IsPoint store.now.grid area.now.high }
        ensures samples { IfOk result (λ b. b ≡ record { volume = store.now; window = window_of area.now }) }
        ensures thick { OnOk result (thin_axis (window_of area.now).grid ≡ None) }
        ensures fault { IfErr result (IsFaultOf (window_of area.now).grid) }
        ensures memory { IfErr result (λ fault. fault ≢ WindowFault.Memory) }
    {
        let low = area.low();
        let sizes = window_sizes(&store.sizes(), area)?;
        Ok(BoxSamples { store, low, sizes })
    }

    /// The sizes of the box. It has a sample for each of its points.
    pub fn sizes(&self) -> Sizes
        ensures value { result ≡ self.now.window.grid }
        ensures window { IsWindow self.now.volume.grid self.now.window }
        ensures volume { IsVolume self.now.volume }
        ensures count { length (boxed_list self.now) ≡ point_count result }
        ensures range { All IsSample (boxed_list self.now) }
    {
        // Reading the sizes brings in what is true of every volume.
        let _ = self.store.sizes();
        // Reading the number of points brings in that the sizes are those of a grid.
        let _ = self.sizes.count();
        self.sizes
    }

    /// The point of the volume that a point of the box is.
    #[inline(always)]
    fn whole(&self, point: Point) -> Point
        requires { IsPoint self.now.window.grid point }
        ensures value { result ≡ whole_of self.now.window point }
        ensures point { IsPoint self.now.volume.grid result }
    {
        // Reading both brings in what is true of every volume and of its grid.
        let _ = self.store.sizes().count();
        Point {
            x: self.low.x + point.x,
            y: self.low.y + point.y,
            z: self.low.z + point.z,
        }
    }

    /// The sample of a point of the box.
    #[inline(always)]
    fn get(&self, point: Point) -> i64
        requires { IsPoint self.now.window.grid point }
        ensures { result ≡ boxed_at self.now (index_of self.now.window.grid point) }
    {
        self.store.get(self.whole(point))
    }

    /// The sample of an index of the box.
    fn sample(&self, index: u32) -> i64
        requires { index < point_count self.now.window.grid }
        ensures { result ≡ boxed_at self.now index }
    {
        self.get(point_of(&self.sizes(), index))
    }

    /// Copies the samples of a row from a point of the box on.
    #[inline(always)]
    fn copy_samples(&self, point: Point, into: &mut [i64])
        requires point { IsPoint self.now.window.grid point }
        requires row { point.x + length into.old ≤ self.now.window.grid.nx }
        ensures { into.new ≡ row_samples self.now.volume (whole_of self.now.window point) (length into.old) }
    {
        self.store.copy_row(self.whole(point), into);
    }

    /// Copies the samples of a row from a point of the box on, in another width.
    fn copy_part<T: Packed>(&self, point: Point, into: &mut [T])
        requires point { IsPoint self.now.window.grid point }
        requires row { point.x + length into.old ≤ self.now.window.grid.nx }
        requires fits { All T.Fits (row_samples self.now.volume (whole_of self.now.window point) (length into.old)) }
        ensures { map T.value into.new ≡ row_samples self.now.volume (whole_of self.now.window point)
            (length into.old) }
    {
        // Reading the sizes brings in what is true of every box of a volume.
        let _ = self.sizes();
        let mut row = [0; LONGEST_ROW];
        let row = &mut row[..into.len()];
        self.copy_samples(point, row);
        copy_all(row, into);
    }

    /// Copies samples from an index of the box on, one by one.
    fn copy_each<T: Packed>(&self, start: u32, into: &mut [T])
        requires room { start + length into.old ≤ point_count self.now.window.grid }
        requires fits { All T.Fits (take (length into.old) (drop start (boxed_list self.now))) }
        ensures { map T.value into.new ≡ take (length into.old) (drop start (boxed_list self.now)) }
    {
        // Reading the sizes brings in that the samples are so few that their indices fit.
        let _ = self.sizes();
        for k in 0..into.len() {
            into[k] = T::of(self.sample(start + k as u32));
        }
    }

    /// Writes the signs of a row of the box over a part of a list. `row` is as long as the row, and what it holds afterwards
    /// is open.
    #[inline(always)]
    fn fill_row(&self, first: Point, level: Level, row: &mut [i64], from: usize, into: &mut [u8])
        requires point { IsPoint self.now.window.grid first }
        requires first { first.x ≡ 0 }
        requires row { length row.old ≡ self.now.window.grid.nx }
        requires room { from + self.now.window.grid.nx ≤ length into.old }
        ensures inside { (i : ℕ) → i < self.now.window.grid.nx
            → slice_index into.new (from + i) ≡ sign_of level
            (boxed_at self.now (index_of self.now.window.grid first + i)) }
        ensures before { (i : ℕ) → i < from → slice_index into.new i ≡ slice_index into.old i }
    {
        self.copy_samples(first, row);
        fill_part(row, level, from, into);
    }

    /// Writes the signs of all samples, row by row.
    fn fill_rows(&self, level: Level, into: &mut [u8])
        requires { length into.old ≡ point_count self.now.window.grid }
        ensures { (i : ℕ) → i < length into.old → slice_index into.new i ≡ sign_of level (boxed_at self.now i) }
    {
        let sizes = self.sizes();
        let (width, height) = (sizes.nx() as usize, sizes.ny());
        let mut row = [0; LONGEST_ROW];
        let row = &mut row[..width];
        for number in 0..height * sizes.nz() {
            let first = Point {
                x: 0,
                y: number % height,
                z: number / height,
            };
            self.fill_row(first, level, row, width * number as usize, into);
        }
    }

    /// Writes the signs of samples from an index on, one by one.
    fn fill_each(&self, start: u32, level: Level, into: &mut [u8])
        requires { start + length into.old ≤ point_count self.now.window.grid }
        ensures { (i : ℕ) → i < length into.old → slice_index into.new i
            ≡ sign_of level (boxed_at self.now (start + i)) }
    {
        // Reading the sizes brings in that the samples are so few that their indices fit.
        let _ = self.sizes();
        for k in 0..into.len() {
            into[k] = sample_sign(self.sample(start + k as u32), level);
        }
    }
}

impl<'a> Samples for BoxSamples<'a> {
    ghost list = { boxed_list };

    #[inline(always)]
    fn at(&self, index: u32) -> i64 {
        self.sample(index)
    }

    // A grid with as many points is nearly always this one, whose points need no division.
    #[inline(always)]
    fn at_point(&self, sizes: &Sizes, point: Point) -> i64 {
        if are_same(sizes, &self.sizes) {
            self.get(point)
        } else {
            self.sample(index(sizes, point))
        }
    }

    fn copy_row<T: Packed>(&self, sizes: &Sizes, point: Point, into: &mut [T]) {
        if are_same(sizes, &self.sizes) {
            self.copy_part(point, into);
        } else {
            self.copy_each(index(sizes, point), into);
        }
    }

    // The signs of all samples are written row by row.
    fn fill_signs(&self, start: u32, level: Level, into: &mut [u8]) {
        if start == 0 && into.len() == self.sizes.count() as usize {
            self.fill_rows(level, into);
        } else {
            self.fill_each(start, level, into);
        }
    }
}
