//! Rows of points one after the other, and how many crossing edges begin in each row and before it.
//!
//! Rows are counted on by their coordinates. To divide the number of each row by the rows of a slice was the longest
//! step of leaving a row without crossing edges, and volumes have many of these.
ghost use Rattle.std.specs.Prelude.{◌≡◌, ◌+◌, ◌<◌};
ghost use Rattle.mesh_walk.specs.Numbers.{AreRowRanks, row_number};

use edge_points::RowRanks;
use iso_base::Sizes;
use mesh_rows::MeshRows;

/// A row of points by its coordinates along y and z.
#[derive(Clone, Copy)]
pub struct RowPlace {
    pub y: u32,
    pub z: u32,
}

impl RowPlace {
    /// The first row of a volume.
    pub fn first() -> RowPlace
        ensures y { result.y ≡ 0 }
        ensures z { result.z ≡ 0 }
    {
        RowPlace { y: 0, z: 0 }
    }

    /// The next row: along y, or the first one of the next slice. To count on is less work than to divide each row's number.
    #[inline(always)]
    pub fn next(self, sizes: &Sizes) -> RowPlace
        requires y { self.y < sizes.now.ny }
        requires z { self.z < sizes.now.nz }
        ensures y { result.y < sizes.now.ny }
        ensures row { row_number sizes.now result ≡ row_number sizes.now self + 1 }
    {
        let ny = sizes.ny();
        if self.y + 1 < ny {
            RowPlace {
                y: self.y + 1,
                z: self.z,
            }
        } else {
            RowPlace {
                y: 0,
                z: self.z + 1,
            }
        }
    }
}

/// Sets for each row how many crossing edges begin in earlier rows, and gives the number of all.
pub fn rank_rows<R: MeshRows>(rows: &mut R, ranks: &mut RowRanks) -> u32
    requires { ranks.old.grid ≡ (R.leveled rows.old).grid }
    ensures ranks { AreRowRanks (R.leveled rows.old) ranks.new result }
    ensures volume { R.leveled rows.new ≡ R.leveled rows.old }
    ensures kept { R.kept rows.new ≡ R.kept rows.old }
    ensures spent { R.spent rows.new ≡ R.spent rows.old }
{
    let sizes = rows.sizes();
    let _ = ranks.sizes();
    let mut total = 0;
    let mut place = RowPlace::first();
    for _row in 0..sizes.ny() * sizes.nz() {
        let count = rows.count_edges(place.y, place.z);
        ranks.set_count(place.y, place.z, count);
        total += count;
        place = place.next(&sizes);
    }
    ranks.finish();
    total
}
