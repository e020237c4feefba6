//! Room for what a write keeps of rows.
//!
//! Why: DECISIONS.md, "Room for lists outlives a write".
ghost use Rattle.std.specs.Prelude.{◌≡◌, IfOk};
ghost use Rattle.flat_mesh.specs.Lattice.{Leveled};
ghost use Rattle.stitch.specs.Recent.{AreRecent};
ghost use Rattle.stitch.specs.Rooms.{SameOutside};

use crate::recent::LIST_PLACES;
use crate::row_memory::KnownRows;
use edge_points::RowRanks;
use iso_base::Memory;
use std::alloc::Global;
use voxel_list::FillBox;

/// From so many rows on, all lists are let go, since theirs have all places.
const MOST_ROWS: u32 = LIST_PLACES as u32 / 3;

/// The ranks of the rows of a grid, and what a write keeps of rows. These tables are too large for a stack: they stay from one write to the
/// next, so that a write takes no memory, and so do the lists: whoever changes a sample lets those of the rows go that rest on it.
#[derive(Drop)]
pub struct RowRoom {
    pub ranks: RowRanks,
    pub known: KnownRows,
}

impl RowRoom {
    /// Room for writes of volumes with rows of these ranks, which lend it their room for lists. It has no list.
    pub fn new(alloc: Global, ranks: RowRanks) -> Result<RowRoom, Memory>
        ensures ranks { IfOk result (λ r. r.ranks ≡ ranks) }
        ensures right { IfOk result (λ r. (v : Leveled) → AreRecent v r.known.recent) }
    {
        let mut ranks = ranks;
        let numbers = ranks.take_room();
        Ok(RowRoom {
            ranks,
            known: KnownRows::new(alloc, numbers)?,
        })
    }

    /// Lets all lists go.
    pub fn forget(&mut self)
        ensures ranks { self.new.ranks ≡ self.old.ranks }
        ensures right { (v w : Leveled) → AreRecent v self.old.known.recent → AreRecent w self.new.known.recent }
    {
        self.known.recent.forget();
    }

    /// Lets the lists of the rows go that rest on samples of a box: those of the box's points, and those before them along y and z.
    pub fn forget_box(&mut self, area: &FillBox)
        ensures ranks { self.new.ranks ≡ self.old.ranks }
        ensures right { (v w : Leveled) → v.grid ≡ self.old.ranks.grid → SameOutside area.now v w
            → AreRecent v self.old.known.recent → AreRecent w self.new.known.recent }
    {
        let (low, high) = (area.low(), area.high());
        let (first_y, first_z) = (low.y.saturating_sub(1), low.z.saturating_sub(1));
        let (end_y, end_z) = (high.y + 1, high.z + 1);
        if (end_y - first_y) * (end_z - first_z) >= MOST_ROWS {
            self.known.recent.forget();
            return;
        }
        let ny = self.ranks.sizes().ny();
        for z in first_z..end_z {
            let slice = ny * z;
            self.known
                .recent
                .forget_keys(3 * (first_y + slice), 3 * (end_y + slice));
        }
    }
}
