//! Changes that can be taken back.

ghost use Rattle.std.specs.Prelude.{◌≡◌, ◌<◌, slice_set};
ghost use Rattle.iso_defs.specs.Grid.{point_count};
ghost use Rattle.iso_base.specs.Volume.{IsOfKind, IsInner};
ghost use Rattle.edit_log.specs.Changes.{Suits, after, area_of, before, moment, value_of};

use crate::boxes::{fill_area, set_sample};
use crate::runs::Runs;
use brick_store::BrickStore;
use iso_base::{Level, Sizes, point_of};
use voxel_list::FillBox;

/// A change of a volume or a level, with what it replaced. Indices, boxes and samples are of the stored grid, with the
/// pad's layer; levels are in thousandths.
#[derive(Drop)]
pub enum Change {
    /// The sample at an index, x fastest.
    One { index: u32, old: i64, new: i64 },
    /// The samples of a box, all to one value; the old ones in the order of their indices.
    Area { area: FillBox, old: Runs, new: i64 },
    /// The level.
    LevelWas { old: Level, new: Level },
}

impl Change {
    /// The points that the change replaces: a box of one point, a box, or none for the level.
    pub fn area(&self, store: &BrickStore) -> Option<FillBox>
        requires { Suits store.now self.now }
        ensures { result ≡ area_of store.now.grid self.now }
    {
        match self {
            Change::One { index, .. } => {
                let sizes = store.sizes();
                let point = point_of(&sizes, *index);
                Some(FillBox::between(&sizes, point, point))
            }
            Change::Area { area, .. } => Some(*area),
            Change::LevelWas { .. } => None,
        }
    }

    /// The value that all samples of a box become when the change is made; none where it is not one of a box.
    pub fn value(&self) -> Option<i64>
        ensures { result ≡ value_of self.now }
    {
        match self {
            Change::Area { new, .. } => Some(*new),
            Change::One { .. } | Change::LevelWas { .. } => None,
        }
    }

    /// Makes the change. Takes no memory.
    pub fn make(&self, store: &mut BrickStore, level: &mut Level)
        requires { Suits store.old self.now }
        ensures { moment store.new level.new ≡ after self.now (moment store.old level.old) }
    {
        match self {
            Change::One { index, new, .. } => set_at(store, *index, new),
            Change::Area { area, new, .. } => fill_area(store, area, new),
            Change::LevelWas { new, .. } => *level = *new,
        }
    }

    /// Takes the change back. Takes no memory.
    pub fn take_back(&self, store: &mut BrickStore, level: &mut Level)
        requires { Suits store.old self.now }
        ensures { moment store.new level.new ≡ before self.now (moment store.old level.old) }
    {
        match self {
            Change::One { index, old, .. } => set_at(store, *index, old),
            Change::Area { area, old, .. } => old.write_back(store, area),
            Change::LevelWas { old, .. } => *level = *old,
        }
    }
}

/// Replaces the sample at an index, which holds no pad.
fn set_at(store: &mut BrickStore, index: u32, value: &i64)
    requires within { index < point_count store.old.grid }
    requires inner { IsInner store.old index }
    requires kind { IsOfKind store.old.kind value.now }
    ensures { store.new ≡ record store.old { samples = slice_set store.old.samples index value.now } }
{
    let point = point_of(&store.sizes(), index);
    set_sample(store, point, value);
}
