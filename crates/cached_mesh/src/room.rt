//! Room for what a write of a mesh keeps.
//!
//! Why: DECISIONS.md, "Room for lists outlives a write".
ghost use Rattle.std.specs.Prelude.{◌≡◌, ℤ, IfOk};
ghost use Rattle.iso_base.specs.Volume.{Volume};
ghost use Rattle.brick_rows.specs.Rows.{at_level};
ghost use Rattle.cached_mesh.specs.Rooms.{IsRoomFor, SameOutside};

use crate::held::{SignSlices, no_signs};
use crate::slices::{SLICE_BRICKS, Slices, no_slices};
use edge_points::RowRanks;
use iso_base::Memory;
use std::alloc::Global;
use stitch::RowRoom;
use voxel_list::FillBox;

/// Room for what a write of a mesh keeps of rows, and for the cases of bricks that it takes from the cache.
#[derive(Drop)]
pub struct MeshRoom {
    pub rows: RowRoom,
    pub held: Box<[Slices; SLICE_BRICKS as usize]>,
    pub signed: Box<SignSlices>,
}

/// A buffer with no slices. Apart, so that what is moved is gone from the stack then.
#[inline(never)]
fn new_held(alloc: Global) -> Result<Box<[Slices; SLICE_BRICKS as usize]>, Memory> {
    Ok(Box::new(alloc, no_slices())?)
}

/// A buffer with no sign bytes, apart for the same reason.
#[inline(never)]
fn new_signed(alloc: Global) -> Result<Box<SignSlices>, Memory> {
    Ok(Box::new(alloc, no_signs())?)
}

impl MeshRoom {
    /// Room for writes of volumes with rows of these ranks.
    pub fn new(alloc: Global, ranks: RowRanks) -> Result<MeshRoom, Memory>
        ensures ranks { IfOk result (λ r. r.rows.ranks ≡ ranks) }
        ensures room { IfOk result (λ r. (v : Volume) (level : ℤ) → v.grid ≡ ranks.grid → IsRoomFor v level r) }
    {
        let rows = RowRoom::new(alloc, ranks)?;
        Ok(MeshRoom {
            rows,
            held: new_held(alloc)?,
            signed: new_signed(alloc)?,
        })
    }

    /// Lets all lists of rows go.
    pub fn forget(&mut self)
        ensures { (v w : Volume) (level to : ℤ) → v.grid ≡ w.grid
            → IsRoomFor v level self.old → IsRoomFor w to self.new }
    {
        self.rows.forget();
    }

    /// Lets the lists of the rows go that rest on samples of a box.
    pub fn forget_box(&mut self, area: &FillBox)
        ensures { (v w : Volume) (level to : ℤ) → SameOutside area.now (at_level v level) (at_level w to)
            → IsRoomFor v level self.old → IsRoomFor w to self.new }
    {
        self.rows.forget_box(area);
    }
}
