//! Lists of packed samples.
ghost use Rattle.std.specs.Prelude.{◌≡◌, ◌+◌, ◌<◌, ◌≤◌, ◌^◌, ◌++◌, ℤ, List, All, OnOk, length, map, pos, drop, take, replicate, slice_set};
ghost use Rattle.iso_defs.specs.Grid.{point_count};
ghost use Rattle.iso_base.specs.Points.{IsPoint, index_of};
ghost use Rattle.iso_base.specs.Volume.{sample};
ghost use Rattle.packed_samples.specs.Runs.{row_set};

use crate::numbers::{pack, unpack};
use iso_base::{Point, Sizes};
use samples::{Packed, Samples, sample_at};
use std::alloc::AllocError;

/// A list of samples in one width. Contracts see the samples, and which ones the width has room for.
pub trait PackedList {
    ghost list: { Self → List ℤ };

    ghost Fits: { ℤ → Type 0 };

    /// The sample at a place.
    fn at(&self, place: usize) -> i64
        requires { place < length (list self.now) }
        ensures { result ≡ sample (list self.now) place };

    /// Replaces the sample at a place.
    fn set(&mut self, place: usize, value: i64)
        requires place { place < length (list self.old) }
        requires fits { Fits value }
        ensures { list self.new ≡ slice_set (list self.old) place value };

    /// Copies so many values from a place on over the samples from a place on.
    fn put(&mut self, start: usize, values: &[i64], from: usize, count: usize)
        requires room { start + count ≤ length (list self.old) }
        requires there { from + count ≤ length values.now }
        requires fits { All Fits values.now }
        ensures { list self.new ≡ row_set start (take count (drop from values.now)) (list self.old) };

    /// Copies the samples from a place on over as many numbers as there are.
    fn copy_to(&self, start: usize, into: &mut [i64])
        requires { start + length into.old ≤ length (list self.now) }
        ensures { into.new ≡ take (length into.old) (drop start (list self.now)) };

    /// Puts zeros behind the samples.
    fn add_zeros(&mut self, count: usize) -> Result<(), AllocError>
        requires { length (list self.old) + count < 2 ^ 64 }
        ensures { OnOk result (list self.new ≡ list self.old ++ replicate count (pos 0)) };

    /// Copies so many samples of a row, along x from a point of a grid on, over the samples from a place on.
    fn take_row<S: Samples>(
        &mut self,
        place: usize,
        samples: &S,
        sizes: &Sizes,
        point: Point,
        count: usize,
    )
        requires room { place + count ≤ length (list self.old) }
        requires count { length (S.list samples.now) ≡ point_count sizes.now }
        requires point { IsPoint sizes.now point }
        requires row { point.x + count ≤ sizes.now.nx }
        requires fits { All Fits (S.list samples.now) }
        ensures { list self.new ≡ row_set place (take count (drop (index_of sizes.now point) (S.list samples.now)))
            (list self.old) };
}

// Nine samples, as many as a whole row of a brick has, are copied without a loop or a call, since their number is known; so are
// eight, which stand beside the pad, and where a grid ends.
impl<T: Packed + Drop> PackedList for Vec<T> {
    ghost list = { λ v. map T.value v.items };

    ghost Fits = { T.Fits };

    #[inline(always)]
    fn at(&self, place: usize) -> i64 {
        sample_at(self, place)
    }

    #[inline(always)]
    fn set(&mut self, place: usize, value: i64) {
        self[place] = T::of(value);
    }

    #[inline(always)]
    fn put(&mut self, start: usize, values: &[i64], from: usize, count: usize) {
        if count == 9 {
            pack(&values[from..from + 9], &mut self[start..start + 9]);
        } else {
            pack(&values[from..from + count], &mut self[start..start + count]);
        }
    }

    #[inline(always)]
    fn copy_to(&self, start: usize, into: &mut [i64]) {
        unpack(&self[start..start + into.len()], into);
    }

    fn add_zeros(&mut self, count: usize) -> Result<(), AllocError> {
        self.resize(self.len() + count, T::zero())
    }

    #[inline(always)]
    fn take_row<S: Samples>(
        &mut self,
        place: usize,
        samples: &S,
        sizes: &Sizes,
        point: Point,
        count: usize,
    ) {
        match count {
            9 => samples.copy_row(sizes, point, &mut self[place..place + 9]),
            8 => samples.copy_row(sizes, point, &mut self[place..place + 8]),
            _ => samples.copy_row(sizes, point, &mut self[place..place + count]),
        }
    }
}
