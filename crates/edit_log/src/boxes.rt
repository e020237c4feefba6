//! The points of a box one after another.
//!
//! Whether a box is of one value is asked of the tree of spans first: if the minimum and the maximum of each of its
//! bricks are that value, the old samples are known without reading them.

ghost use Rattle.std.specs.Prelude.{◌≡◌, ◌+◌, ◌%◌, ◌<◌, ◌≤◌, true, slice_set};
ghost use Rattle.iso_base.specs.Points.{IsPoint, index_of};
ghost use Rattle.iso_base.specs.Volume.{IsOfKind, IsInner};
ghost use Rattle.voxel_list.specs.Areas.{area_count, is_in_area};
ghost use Rattle.edit_log.specs.Log.{IsBox, IsInnerArea, area_grid, area_index, filled};

use brick_store::{BrickStore, Values};
use iso_base::{Point, Sizes};
use voxel_list::FillBox;

/// The point number k of a box: x is fastest, z slowest.
pub fn area_point(sizes: &Sizes, area: &FillBox, k: u32) -> Point
    requires high { IsPoint sizes.now area.now.high }
    requires number { k < area_count area.now }
    ensures value { index_of sizes.now result ≡ area_index sizes.now area.now k }
    ensures within { is_in_area sizes.now area.now (index_of sizes.now result) ≡ true }
    ensures in_grid { IsPoint sizes.now result }
    ensures box_of_grid { IsBox sizes.now area.now }
{
    let (low, high) = (area.low(), area.high());
    let width = high.x - low.x + 1;
    let depth = high.y - low.y + 1;
    Point {
        x: low.x + k % width,
        y: low.y + k / width % depth,
        z: low.z + k / width / depth,
    }
}

/// Replaces the sample of a point that holds no pad.
pub fn set_sample(store: &mut BrickStore, point: Point, value: &i64)
    requires point { IsPoint store.old.grid point }
    requires inner { IsInner store.old (index_of store.old.grid point) }
    requires kind { IsOfKind store.old.kind value.now }
    ensures { store.new ≡ record store.old {
      samples = slice_set store.old.samples (index_of store.old.grid point)
          value.now;
    } }
{
    store.set(point, *value);
}

/// The number of points of a box of a grid.
pub fn area_count(sizes: &Sizes, area: &FillBox) -> u32
    requires { IsPoint sizes.now area.now.high }
    ensures value { result ≡ area_count area.now }
    ensures box_of_grid { IsBox sizes.now area.now }
{
    // Reading both brings in what is true of every grid and of every box.
    let _ = (sizes.nx(), area.low());
    area.count() as u32
}

/// The most points of a row that are taken or replaced together.
pub const PIECE_SAMPLES: u32 = 128;

/// How many points of a box from the number k on, before an end, are replaced together: those of one row, a piece at most.
pub fn piece_of_row(area: &FillBox, k: u32, end: u32) -> u32
    requires { k < end }
    ensures some { 0 < result }
    ensures piece { result ≤ 128 }
    ensures end { k + result ≤ end }
    ensures row { k % (area_grid area.now).nx + result ≤ (area_grid area.now).nx }
{
    let width = area.high().x - area.low().x + 1;
    (end - k).min(width - k % width).min(PIECE_SAMPLES)
}

/// Replaces the samples of all points of a box, which holds no pad. The cost is that of the box. Takes no memory.
pub fn fill_area(store: &mut BrickStore, area: &FillBox, value: &i64)
    requires high { IsPoint store.old.grid area.now.high }
    requires inner { IsInnerArea store.old area.now }
    requires kind { IsOfKind store.old.kind value.now }
    ensures { store.new ≡ record store.old { samples = filled store.old.grid area.now value.now store.old.samples } }
{
    store.set_box(area, Values::One(*value));
}
