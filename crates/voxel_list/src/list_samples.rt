//! The samples of a list, asked for as those of any volume.

ghost use Rattle.std.specs.Prelude.{◌≡◌};

use crate::list::VoxelList;
use iso_base::{Level, Point, Sizes};
use samples::{Numbers, Packed, Samples};

impl VoxelList {
    /// The samples as numbers in memory.
    #[inline(always)]
    fn numbers(&self) -> Numbers<'_, i64>
        ensures { result.numbers.now ≡ self.now.samples }
    {
        Numbers {
            numbers: self.samples(),
        }
    }
}

impl Samples for VoxelList {
    ghost list = { λ v. v.samples };

    #[inline(always)]
    fn at(&self, index: u32) -> i64 {
        self.samples()[index as usize]
    }

    #[inline(always)]
    fn at_point(&self, sizes: &Sizes, point: Point) -> i64 {
        self.numbers().at_point(sizes, point)
    }

    #[inline(always)]
    fn copy_row<U: Packed>(&self, sizes: &Sizes, point: Point, into: &mut [U]) {
        self.numbers().copy_row(sizes, point, into);
    }

    fn fill_signs(&self, start: u32, level: Level, into: &mut [u8]) {
        self.numbers().fill_signs(start, level, into);
    }
}
