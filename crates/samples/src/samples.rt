//! Samples that are asked for where they lie.
ghost use Rattle.std.specs.Prelude.{◌≡◌, ◌+◌, ◌<◌, ◌≤◌, ℤ, All, IfOk, IfSome, List, drop, length, map, take};
ghost use Rattle.iso_defs.specs.Cell.{cell_values};
ghost use Rattle.iso_defs.specs.Grid.{point_count};
ghost use Rattle.iso_base.specs.Points.{IsPoint, index_of};
ghost use Rattle.iso_base.specs.Volume.{sample};
ghost use Rattle.samples.specs.Cells.{IsLowest};
ghost use Rattle.samples.specs.Signs.{sign_of};

use crate::number::Packed;
use iso_base::{Level, Point, Sizes};
use std::alloc::{AllocError, Global};

/// The samples of a volume, listed with x fastest and z slowest: numbers in memory, bytes of a file, or any of these in a pad.
pub trait Samples {
    ghost list: { Self → List ℤ };

    /// The sample of an index.
    fn at(&self, index: u32) -> i64
        requires { index < length (list self.now) }
        ensures { result ≡ sample (list self.now) index };

    /// The sample of a point of a grid that has a point for each sample.
    fn at_point(&self, sizes: &Sizes, point: Point) -> i64
        requires count { length (list self.now) ≡ point_count sizes.now }
        requires point { IsPoint sizes.now point }
        ensures { result ≡ sample (list self.now) (index_of sizes.now point) };

    /// The samples at the corners of a cell of a grid, from its lowest point, where a view finds them all at once: x fastest, then
    /// y, then z. None elsewhere, and in samples that are no view: who wants them there calls `each_corner`.
    #[inline(always)]
    fn corners_at_once(&self, _sizes: &Sizes, _low: Point) -> Option<[i64; 8]>
        ensures { IfSome result (λ c. c ≡ cell_values _sizes.now (sample (list self.now)) (index_of _sizes.now _low)) }
    {
        None
    }

    /// Copies the samples of a row from a point on along x over the numbers of a slice, as many as it has, in the width of these.
    fn copy_row<T: Packed>(&self, sizes: &Sizes, point: Point, into: &mut [T])
        requires count { length (list self.now) ≡ point_count sizes.now }
        requires point { IsPoint sizes.now point }
        requires row { point.x + length into.old ≤ sizes.now.nx }
        requires fits { All T.Fits (take (length into.old) (drop (index_of sizes.now point) (list self.now))) }
        ensures { map T.value into.new ≡ take (length into.old) (drop (index_of sizes.now point) (list self.now)) };

    /// Writes 1 for each sample above the level, and 0 for each other, from an index on, as many as there is room for.
    fn fill_signs(&self, start: u32, level: Level, into: &mut [u8])
        requires { start + length into.old ≤ length (list self.now) }
        ensures { into.new ≡ map (sign_of level) (take (length into.old) (drop start (list self.now))) };
}

/// The samples at the corners of a cell of a grid, from its lowest point, each asked for by its point: x fastest, then y, then z.
#[inline(always)]
pub fn each_corner<S: Samples>(samples: &S, sizes: &Sizes, low: Point) -> [i64; 8]
    requires count { length (S.list samples.now) ≡ point_count sizes.now }
    requires low { IsLowest sizes.now low }
    ensures { result ≡ cell_values sizes.now (sample (S.list samples.now)) (index_of sizes.now low) }
{
    // Reading a size brings in that the coordinates of the highest corner fit.
    let _ = sizes.nx();
    let high = Point {
        x: low.x + 1,
        y: low.y + 1,
        z: low.z + 1,
    };
    [
        samples.at_point(sizes, low),
        samples.at_point(sizes, Point { x: high.x, ..low }),
        samples.at_point(sizes, Point { y: high.y, ..low }),
        samples.at_point(sizes, Point { z: low.z, ..high }),
        samples.at_point(sizes, Point { z: high.z, ..low }),
        samples.at_point(sizes, Point { y: low.y, ..high }),
        samples.at_point(sizes, Point { x: low.x, ..high }),
        samples.at_point(sizes, high),
    ]
}

/// 1 for each sample of a grid that is above the level, else 0.
pub fn all_signs<S: Samples>(
    alloc: Global,
    sizes: &Sizes,
    samples: &S,
    level: Level,
) -> Result<Vec<u8>, AllocError>
    requires { length (S.list samples.now) ≡ point_count sizes.now }
    ensures { IfOk result (λ v. v.items ≡ map (sign_of level) (S.list samples.now)) }
{
    let mut signs = vec![in alloc; 0u8; sizes.count() as usize]?;
    samples.fill_signs(0, level, signs.as_mut_slice());
    Ok(signs)
}
