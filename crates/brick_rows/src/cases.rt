//! The cases of the cells of a row, brick by brick.
//!
//! The cases of one row of cells are told from the signs of its four rows of points, and values at corners are read
//! only where a face is ambiguous. What the copies are compared with is made by a call that is not inlined: where the
//! compiler sees that it was cut down from 64 bits, it compares 64 bits.
//!
//! Why: DECISIONS.md, "Cases with the loops of the cells".
ghost use Rattle.std.specs.Prelude.{◌≡◌, ℕ, ◌+◌, ◌*◌, ◌<◌, ◌≤◌, length, slice_index};
ghost use Rattle.flat_mesh.specs.Lattice.{heights};
ghost use Rattle.brick_rows.specs.Bricks.{AreMarked, IsActive, IsPointRow};
ghost use Rattle.brick_rows.specs.Named.{NamesCases, asked_along, asked_among};
ghost use Rattle.brick_rows.specs.Rows.{AreZerosFrom};
ghost use Rattle.mesh_rows.specs.Rows.{AreCases, AreCasesTo};

use crate::active::ActiveRow;
use crate::bricks::PointRow;
use crate::bricks_at_level::BricksAtLevel;
use crate::cell_rows::CellRows;
use arrayvec::ArrayVec;
use brick_store::{BrickId, bricks_along};
use iso_base::Steps;
use std::simd::prelude::*;
use std::sync::ledger::Ledger;

/// Writes a run of numbers from a place on.
#[inline(always)]
fn fill_run(run: &[u16], start: usize, out: &mut [u16])
    requires { start + length run.now ≤ length out.old }
    ensures inside { (k : ℕ) → k < length run.now → slice_index out.new (start + k) ≡ slice_index run.now k }
    ensures before { (k : ℕ) → k < start → slice_index out.new k ≡ slice_index out.old k }
    ensures behind { (k : ℕ) → start + length run.now ≤ k → slice_index out.new k ≡ slice_index out.old k }
{
    // Eight numbers, as nearly all runs have, are all read before the first is written: by one load and one store, without a call
    // and without a test whether the two lots overlap.
    if run.len() == 8 {
        u16x8::from_slice(run).copy_to_slice(&mut out[start..start + 8]);
        return;
    }
    out[start..start + run.len()].copy_from_slice(run);
}

/// Writes 0 throughout.
fn fill_zeros(out: &mut [u16])
    ensures { AreZerosFrom 0 out.new }
{
    out.fill(0);
}

/// Writes the cases of the cells of a row that an active brick has: those from 8 * x on.
#[inline(always)]
fn active_cases<R: CellRows, L: Ledger>(
    field: &BricksAtLevel,
    rows: &mut R,
    row: PointRow,
    x: u32,
    cases: &mut [u16],
    steps: &mut Steps<L>,
)
    requires x { 8 * x + 1 < field.now.grid.nx }
    requires y { row.y + 1 < field.now.grid.ny }
    requires z { row.z + 1 < field.now.grid.nz }
    requires row { IsPointRow field.now.grid row }
    requires cases { length cases.old ≡ field.now.grid.nx }
    requires active { IsActive field.now (row.bricks.first + x) }
    requires named { NamesCases (R.named rows.old) field.now.grid (heights field.now) }
    requires before { AreCasesTo field.now row.y row.z (8 * x) cases.old }
    requires zeros { AreZerosFrom (8 * x) cases.old }
    ensures cases { AreCasesTo field.now row.y row.z (8 * x + 8) cases.new }
    ensures zeros { AreZerosFrom (8 * x + 8) cases.new }
    ensures same { R.named rows.new ≡ R.named rows.old }
    ensures least { steps.old ≤ steps.new }
    ensures most { steps.new
        ≤ steps.old + 8 * asked_among field.now.grid (heights field.now) (R.named rows.old) (row.bricks.first + x) 1 }
{
    // Reading the sizes brings in what is true of every volume at a level.
    let _ = field.sizes();
    let bricks = row.bricks;
    let mut run = ArrayVec::new();
    rows.row(
        BrickId(bricks.first + x),
        bricks.y,
        bricks.z,
        &mut run,
        steps,
    );
    fill_run(run.as_slice(), 8 * x as usize, cases);
}

/// Writes for each cell that begins in a row of points the number of a case that has its loops. It asks for each row of an active
/// brick once, and for no row of another one: the cells of a brick that is not active have no loops, so that it goes from one active
/// brick to the next.
pub fn case_row<R: CellRows, L: Ledger>(
    field: &BricksAtLevel,
    active: &ActiveRow,
    rows: &mut R,
    cases: &mut [u16],
    steps: &mut Steps<L>,
)
    requires active { AreMarked field.now active.now }
    requires y { active.now.y + 1 < field.now.grid.ny }
    requires z { active.now.z + 1 < field.now.grid.nz }
    requires cases { length cases.old ≡ field.now.grid.nx }
    requires named { NamesCases (R.named rows.old) field.now.grid (heights field.now) }
    ensures cases { AreCases field.now active.now.y active.now.z cases.new }
    ensures same { R.named rows.new ≡ R.named rows.old }
    ensures least { steps.old ≤ steps.new }
    ensures most { steps.new
        ≤ steps.old + 8 * asked_along field.now.grid (heights field.now) (R.named rows.old) active.now.y active.now.z }
{
    let sizes = field.sizes();
    let row = PointRow::of(&sizes, active.y, active.z);
    let last = bricks_along(sizes.nx()) - 1;
    fill_zeros(cases);
    let mut x = active.next(0);
    while x < last {
        active_cases(field, rows, row, x, cases, steps);
        x = active.next(x + 1);
    }
    if x == last {
        active_cases(field, rows, row, last, cases, steps);
    }
}
