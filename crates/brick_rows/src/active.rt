//! Which bricks of a row of bricks are active.
ghost use Rattle.std.specs.Prelude.{◌≡◌, ℕ, ◌+◌, ◌-◌, ◌*◌, ◌<◌, ◌≤◌, ◌^◌, IsTrue, length, not, slice_index};
ghost use Rattle.iso_defs.specs.Bricks.{bricks_along};
ghost use Rattle.iso_base.specs.Volume.{IsGrid};
ghost use Rattle.flat_mesh.specs.Lattice.{Leveled, heights};
ghost use Rattle.brick_rows.specs.Bricks.{AreMarked, AreNextTo, IsMarkedSlice, IsNextFrom, first_brick, is_active_row};
ghost use Rattle.brick_rows.specs.Rows.{AreStill};
ghost use Rattle.mesh_rows.specs.Rows.{IsStill};

use crate::bricks::BrickRow;
use crate::bricks_at_level::BricksAtLevel;
use brick_store::bricks_along;

/// The most bricks of a slice.
const SLICE_BRICKS: usize = 16_641;

/// Which bricks are active of a slice of bricks, from the one numbered `first` on: those that hold points of one slice. For each of them
/// the least active brick from it on is noted: the brick itself where it is active.
#[derive(Drop)]
pub struct ActiveSlice {
    pub first: u32,
    pub next_from: [u32; SLICE_BRICKS],
}

/// The row of points at `y` and `z`, and which bricks are active of those that hold it. They stand one after the other along x, from
/// the one numbered `first` on, and their notes begin at `start` among those of their slice. A walk comes back to the rows of a slice
/// slice after slice, and looks for its active bricks once.
#[derive(Drop)]
pub struct ActiveRow {
    pub y: u32,
    pub z: u32,
    pub first: u32,
    pub start: usize,
    pub slice: ActiveSlice,
}

/// The least active brick behind one, where `next` is the least from it on.
#[inline(always)]
fn next_behind(field: &BricksAtLevel, brick: u32, next: u32) -> u32
    requires brick { brick < 2 ^ 32 - 1 }
    requires next { IsNextFrom field.now.grid (heights field.now) brick next }
    ensures { IsNextFrom field.now.grid (heights field.now) (brick + 1) result }
{
    if next == brick {
        field.next_active(brick + 1)
    } else {
        next
    }
}

/// Notes for each of so many bricks from a number on the least active one from it on.
fn mark_bricks(field: &BricksAtLevel, first: u32, count: u32, next_from: &mut [u32])
    requires count { count ≤ 129 * 129 }
    requires room { count ≤ length next_from.old }
    requires first { first ≤ 129 * 129 * 129 }
    ensures { AreNextTo field.now first count next_from.new }
{
    let mut next = field.next_active(first);
    for x in 0..count {
        let brick = first + x;
        next_from[x as usize] = next;
        next = next_behind(field, brick, next);
    }
}

/// Marks the slice of bricks that holds a slice, unless it is marked.
fn mark_slice(field: &BricksAtLevel, z: u32, slice: &mut ActiveSlice)
    requires z { z < field.now.grid.nz }
    requires marked { IsMarkedSlice field.now slice.old }
    ensures marked { IsMarkedSlice field.now slice.new }
    ensures first { slice.new.first ≡ first_brick field.now.grid 0 z }
{
    let sizes = field.sizes();
    let row = BrickRow::of(&sizes, 0, z);
    if slice.first == row.first {
        return;
    }
    slice.first = row.first;
    let count = bricks_along(sizes.nx()) * bricks_along(sizes.ny());
    mark_bricks(field, row.first, count, &mut slice.next_from);
}

impl ActiveRow {
    /// A row of no volume.
    pub fn new() -> ActiveRow
        ensures { (v : Leveled) → IsGrid v.grid → AreMarked v result }
    {
        ActiveRow {
            y: u32::MAX,
            z: u32::MAX,
            first: u32::MAX,
            start: 0,
            slice: ActiveSlice {
                first: u32::MAX,
                next_from: [0; SLICE_BRICKS],
            },
        }
    }

    /// Lets the row and what is noted of its slice go: a row of no volume again.
    pub fn forget(&mut self)
        ensures { (v : Leveled) → IsGrid v.grid → AreMarked v self.new }
    {
        self.y = u32::MAX;
        self.z = u32::MAX;
        self.first = u32::MAX;
        self.start = 0;
        self.slice.first = u32::MAX;
    }

    /// Goes to a row of points that other bricks hold, and marks their slice unless it is marked.
    fn mark_anew(&mut self, field: &BricksAtLevel, y: u32, z: u32)
        requires y { y < field.now.grid.ny }
        requires z { z < field.now.grid.nz }
        requires marked { AreMarked field.now self.old }
        ensures marked { AreMarked field.now self.new }
        ensures y { self.new.y ≡ y }
        ensures z { self.new.z ≡ z }
    {
        let sizes = field.sizes();
        let row = BrickRow::of(&sizes, y, z);
        mark_slice(field, z, &mut self.slice);
        self.first = row.first;
        self.start = (row.first - self.slice.first) as usize;
        self.y = y;
        self.z = z;
    }

    /// Goes to a row of points, and marks the bricks that hold it unless they are marked.
    #[inline(always)]
    pub fn mark(&mut self, field: &BricksAtLevel, y: u32, z: u32)
        requires y { y < field.now.grid.ny }
        requires z { z < field.now.grid.nz }
        requires marked { AreMarked field.now self.old }
        ensures marked { AreMarked field.now self.new }
        ensures y { self.new.y ≡ y }
        ensures z { self.new.z ≡ z }
    {
        if y / 8 == self.y / 8 && z / 8 == self.z / 8 {
            self.y = y;
            self.z = z;
            return;
        }
        self.mark_anew(field, y, z);
    }

    /// Whether no brick that holds the row is active: no crossing edge begins at its points then.
    #[inline(always)]
    pub fn is_still(&self, field: &BricksAtLevel) -> bool
        requires active { AreMarked field.now self.now }
        requires y { self.now.y < field.now.grid.ny }
        requires z { self.now.z < field.now.grid.nz }
        ensures still { IsTrue result → IsStill field.now self.now.y self.now.z }
        ensures active { result ≡ not (is_active_row field.now self.now.y self.now.z) }
    {
        let sizes = field.sizes();
        self.next(0) >= bricks_along(sizes.nx())
    }

    /// Where the next active brick stands from a place of the row on, at most behind its last brick: beyond the row where there is none. No
    /// crossing edge begins at a point between the two places, and no cell between them has loops.
    #[inline(always)]
    pub fn next_from(&self, field: &BricksAtLevel, x: u32) -> u32
        requires active { AreMarked field.now self.now }
        requires x { x ≤ bricks_along field.now.grid 0 }
        requires y { self.now.y < field.now.grid.ny }
        requires z { self.now.z < field.now.grid.nz }
        ensures { AreStill field.now self.now.y self.now.z x result }
    {
        let sizes = field.sizes();
        if x < bricks_along(sizes.nx()) {
            self.next(x)
        } else {
            x
        }
    }

    /// Where the least active brick stands that is at a place of the row or behind it: beyond the row where there is none in it.
    #[inline(always)]
    pub(crate) fn next(&self, x: u32) -> u32
        requires x { x < 129 }
        requires start { self.now.start ≤ 129 * 128 }
        requires least { self.now.first ≤ slice_index self.now.slice.next_from (self.now.start + x) }
        ensures { self.now.first + result ≡ slice_index self.now.slice.next_from (self.now.start + x) }
    {
        self.slice.next_from[self.start + x as usize] - self.first
    }
}
