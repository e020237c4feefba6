//! Samples in memory.
ghost use Rattle.std.specs.Prelude.{◌≡◌, ◌+◌, ◌≤◌, All, drop, length, map, take};
ghost use Rattle.iso_defs.specs.Grid.{point_count};
ghost use Rattle.iso_base.specs.Points.{IsPoint, index_of};

use crate::number::{Packed, sample_at};
use crate::samples::Samples;
use crate::signs::fill_signs;
use iso_base::{Level, Point, Sizes, index};

/// Samples in memory, in a width of their own.
#[derive(Clone, Copy, Debug)]
pub struct Numbers<'a, T> {
    pub numbers: &'a [T],
}

/// A number in another width.
#[inline(always)]
pub fn convert<T: Packed, U: Packed>(number: T) -> U
    requires { U.Fits (T.value number) }
    ensures { U.value result ≡ T.value number }
{
    U::of(number.sample())
}

/// Writes numbers over as many of another width.
#[inline(always)]
pub fn copy_all<T: Packed, U: Packed>(numbers: &[T], into: &mut [U])
    requires count { length numbers.now ≡ length into.old }
    requires fits { All U.Fits (map T.value numbers.now) }
    ensures { map U.value into.new ≡ map T.value numbers.now }
{
    for k in 0..numbers.len() {
        into[k] = convert(numbers[k]);
    }
}

/// Writes the numbers of a row from a point of a grid on along x over as many of another width.
#[inline(always)]
fn copy_part<T: Packed, U: Packed>(numbers: &[T], sizes: &Sizes, point: Point, into: &mut [U])
    requires count { length numbers.now ≡ point_count sizes.now }
    requires point { IsPoint sizes.now point }
    requires row { point.x + length into.old ≤ sizes.now.nx }
    requires fits { All U.Fits (take (length into.old) (drop (index_of sizes.now point) (map T.value numbers.now))) }
    ensures { map U.value into.new ≡ take (length into.old)
        (drop (index_of sizes.now point) (map T.value numbers.now)) }
{
    let start = index(sizes, point) as usize;
    copy_all(&numbers[start..start + into.len()], into);
}

impl<'a, T: Packed> Samples for Numbers<'a, T> {
    ghost list = { λ s. map T.value s.numbers.now };

    #[inline(always)]
    fn at(&self, index: u32) -> i64 {
        sample_at(self.numbers, index as usize)
    }

    #[inline(always)]
    fn at_point(&self, sizes: &Sizes, point: Point) -> i64 {
        self.at(index(sizes, point))
    }

    #[inline(always)]
    fn copy_row<U: Packed>(&self, sizes: &Sizes, point: Point, into: &mut [U]) {
        copy_part(self.numbers, sizes, point, into);
    }

    fn fill_signs(&self, start: u32, level: Level, into: &mut [u8]) {
        let start = start as usize;
        fill_signs(&self.numbers[start..start + into.len()], level, into);
    }
}
