//! The points of a row: their samples and their flags.
//!
//! The last point that a brick has along x is left to the next brick: which edge goes on from it along x only that one
//! knows.
ghost use Rattle.std.specs.Prelude.{◌≡◌, ◌+◌, ◌*◌, ◌<◌, ◌≤◌, length, map};
ghost use Rattle.brick_store.specs.Copies.{AreAllCopies};
ghost use Rattle.crossing_edges.specs.Flags.{flags_from};
ghost use Rattle.flat_mesh.specs.Lattice.{heights};
ghost use Rattle.flat_mesh.specs.Rows.{row_start};
ghost use Rattle.mesh_rows.specs.Rows.{AreFlags, AreFlagsTo};
ghost use Rattle.brick_rows.specs.Bricks.{AreMarked, IsPointRow};
ghost use Rattle.brick_rows.specs.Rows.{AreRuns, AreZerosFrom};

use crate::active::ActiveRow;
use crate::bricks::{PointRow, row_place};
use crate::bricks_at_level::{BricksAtLevel, Offset};
use crate::flags::{Flagged, fill_eight, fill_last, fill_zeros};
use brick_store::bricks_along;
use packed_samples::PackedRun;
use samples::Packed;

/// The samples of the points of a row that a brick holds, and those of the next points along y and z, or the points' own again
/// where there are none.
#[derive(Clone, Copy)]
pub struct PointRuns<'a, T> {
    pub here: &'a [T],
    pub up: &'a [T],
    pub far: &'a [T],
}

/// The samples of the points of a row that a brick holds, and of the next ones: those from 8 * x on.
#[inline(always)]
fn point_runs<'c, T: Packed>(
    field: &BricksAtLevel,
    copies: &'c [T],
    row: PointRow,
    x: u32,
) -> PointRuns<'c, T>
    requires copies { AreAllCopies field.now.grid field.now.samples (map T.value copies.now) }
    requires x { 8 * x + 1 < field.now.grid.nx }
    requires row { IsPointRow field.now.grid row }
    ensures { AreRuns T.value field.now (8 * x) row.y row.z result }
{
    let (up, far) = (row.up, row.far);
    PointRuns {
        here: field.run(copies, row, Offset { up: 0, far: 0 }, x),
        up: field.run(copies, row, Offset { up, far: 0 }, x),
        far: field.run(copies, row, Offset { up: 0, far }, x),
    }
}

/// The samples of nine points of a row that a brick holds, and of the next ones, where more points are behind them in the row. `place`
/// is where those of its first brick begin: how far from there the others are is told by x and the next rows alone.
#[inline(always)]
fn full_runs<'c, T: Packed>(
    field: &BricksAtLevel,
    copies: &'c [T],
    row: PointRow,
    place: usize,
    x: u32,
) -> PointRuns<'c, T>
    requires copies { AreAllCopies field.now.grid field.now.samples (map T.value copies.now) }
    requires x { 8 * x + 9 < field.now.grid.nx }
    requires row { IsPointRow field.now.grid row }
    requires place { place ≡ 729 * row.bricks.first + 9 * (row.bricks.y + 9 * row.bricks.z) }
    ensures { AreRuns T.value field.now (8 * x) row.y row.z result }
{
    let (up, far) = (row.up, row.far);
    let start = place + 729 * x as usize;
    let (start_up, start_far) = (start + 9 * up as usize, start + 81 * far as usize);
    PointRuns {
        here: field.full_run(copies, row, Offset { up: 0, far: 0 }, x, start),
        up: field.full_run(copies, row, Offset { up, far: 0 }, x, start_up),
        far: field.full_run(copies, row, Offset { up: 0, far }, x, start_far),
    }
}

/// Writes the flags of the points of a row that a brick holds: of eight of them, those from 8 * x on, where zeros stand and more are
/// left than the point behind them.
#[inline(always)]
fn brick_flags<T: Flagged>(
    field: &BricksAtLevel,
    copies: &[T],
    row: PointRow,
    place: usize,
    x: u32,
    flags: &mut [u8],
)
    requires copies { AreAllCopies field.now.grid field.now.samples (map T.value copies.now) }
    requires x { 8 * x + 9 < field.now.grid.nx }
    requires row { IsPointRow field.now.grid row }
    requires place { place ≡ 729 * row.bricks.first + 9 * (row.bricks.y + 9 * row.bricks.z) }
    requires flags { length flags.old ≡ field.now.grid.nx }
    requires before { AreFlagsTo field.now row.y row.z (8 * x) flags.old }
    requires zeros { AreZerosFrom (8 * x) flags.old }
    ensures flags { AreFlagsTo field.now row.y row.z (8 * x + 8) flags.new }
    ensures zeros { AreZerosFrom (8 * x + 8) flags.new }
{
    // Reading the sizes brings in what is true of every volume at a level.
    let _ = field.sizes();
    let least = field.least_above();
    let runs = full_runs(field, copies, row, place, x);
    let start = 8 * x as usize;
    fill_eight(runs.here, runs.up, runs.far, least, start, flags);
}

/// Writes the flags of the points of a row that the last brick holds: all that are left, from 8 * x on.
#[inline(always)]
fn last_flags<T: Flagged>(
    field: &BricksAtLevel,
    copies: &[T],
    row: PointRow,
    x: u32,
    flags: &mut [u8],
)
    requires copies { AreAllCopies field.now.grid field.now.samples (map T.value copies.now) }
    requires x { 8 * x + 1 < field.now.grid.nx }
    requires last { field.now.grid.nx ≤ 8 * x + 9 }
    requires row { IsPointRow field.now.grid row }
    requires flags { length flags.old ≡ field.now.grid.nx }
    requires before { AreFlagsTo field.now row.y row.z (8 * x) flags.old }
    ensures { AreFlags field.now row.y row.z flags.new }
{
    // Reading the sizes brings in what is true of every volume at a level.
    let _ = field.sizes();
    let least = field.least_above();
    let runs = point_runs(field, copies, row, x);
    let start = 8 * x as usize;
    fill_last(runs.here, runs.up, runs.far, least, start, flags);
}

/// Writes the flags of the points of a row, from the samples of all bricks. From the points of a brick that is not active no crossing
/// edge begins, so that it goes from one active brick to the next.
fn flag_bricks<T: Flagged>(
    field: &BricksAtLevel,
    copies: &[T],
    active: &ActiveRow,
    flags: &mut [u8],
)
    requires copies { AreAllCopies field.now.grid field.now.samples (map T.value copies.now) }
    requires active { AreMarked field.now active.now }
    requires y { active.now.y < field.now.grid.ny }
    requires z { active.now.z < field.now.grid.nz }
    requires flags { length flags.old ≡ field.now.grid.nx }
    ensures { AreFlags field.now active.now.y active.now.z flags.new }
{
    let sizes = field.sizes();
    let row = PointRow::of(&sizes, active.y, active.z);
    let place = row_place(row.bricks);
    let last = bricks_along(sizes.nx()) - 1;
    fill_zeros(flags);
    let mut x = active.next(0);
    while x < last {
        brick_flags(field, copies, row, place, x, flags);
        x = active.next(x + 1);
    }
    if x == last {
        last_flags(field, copies, row, last, flags);
    }
}

/// Writes the flags of the points of a row, in whichever width its samples are kept.
fn flag_active(field: &BricksAtLevel, active: &ActiveRow, flags: &mut [u8])
    requires active { AreMarked field.now active.now }
    requires y { active.now.y < field.now.grid.ny }
    requires z { active.now.z < field.now.grid.nz }
    requires flags { length flags.old ≡ field.now.grid.nx }
    ensures { AreFlags field.now active.now.y active.now.z flags.new }
{
    match field.copies() {
        PackedRun::U8(copies) => flag_bricks(field, copies, active, flags),
        PackedRun::I16(copies) => flag_bricks(field, copies, active, flags),
        PackedRun::U16(copies) => flag_bricks(field, copies, active, flags),
        PackedRun::I32(copies) => flag_bricks(field, copies, active, flags),
        PackedRun::I64(copies) => flag_bricks(field, copies, active, flags),
    }
}

/// Writes the flags of the points of a row. It looks at active bricks alone.
pub fn flag_row(field: &BricksAtLevel, active: &ActiveRow, flags: &mut [u8])
    requires active { AreMarked field.now active.now }
    requires y { active.now.y < field.now.grid.ny }
    requires z { active.now.z < field.now.grid.nz }
    requires flags { length flags.old ≡ field.now.grid.nx }
    ensures each { AreFlags field.now active.now.y active.now.z flags.new }
    ensures list { flags.new
        ≡ flags_from field.now.grid (heights field.now) (row_start field.now.grid active.now.y active.now.z)
        field.now.grid.nx }
{
    flag_active(field, active, flags);
}
