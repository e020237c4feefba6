//! The room for writes that a bench has.
//!
//! Why: DECISIONS.md, "Room for lists outlives a write".

ghost use Rattle.std.specs.Prelude.{◌≡◌, ℤ, IfOk};
ghost use Rattle.iso_base.specs.Volume.{Volume};
ghost use Rattle.cached_mesh.specs.Rooms.{IsRoomFor};
ghost use Rattle.bench_core.specs.Keeping.{Forgets};

use cached_mesh::MeshRoom;
use edge_points::RowRanks;
use iso_base::{Memory, Sizes};
use std::alloc::Global;
use voxel_list::FillBox;

/// The numbers that the lists of rows which a write keeps have room for: all those of a volume of 128 points along each axis, unless
/// it is noisy. A page of this memory is first touched when lists are put there.
const LIST_NUMBERS: usize = 2_097_152;

/// Room for writes of volumes of these sizes, with the lists of rows that a write keeps.
pub fn room_of(alloc: Global, sizes: &Sizes) -> Result<MeshRoom, Memory>
    ensures { IfOk result (λ r. (v : Volume) (level : ℤ) → v.grid ≡ sizes.now → IsRoomFor v level r) }
{
    let mut ranks = RowRanks::new(alloc, sizes)?;
    ranks.set_room(Some(Vec::with_capacity(alloc, LIST_NUMBERS)?));
    let room = MeshRoom::new(alloc, ranks)?;
    Ok(room)
}

/// Lets the lists of the rows go that rest on the samples of a box, or all of them where there is no box: the level changed then.
pub fn forget_rows(room: &mut MeshRoom, area: Option<FillBox>)
    ensures { Forgets area room.old room.new }
{
    match area {
        Some(area) => room.forget_box(&area),
        None => room.forget(),
    }
}
