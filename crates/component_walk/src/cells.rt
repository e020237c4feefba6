//! The loops of the cells of a row.

ghost use Rattle.std.specs.Prelude.{◌≡◌, ℕ, ◌+◌, ◌*◌, ◌<◌, ◌≤◌, [], OnOk, length, slice_index};
ghost use Rattle.std.specs.Int.{bit_at};
ghost use Rattle.iso_defs.specs.Grid.{index};
ghost use Rattle.cell_loops.specs.Loops.{row_loops};
ghost use Rattle.flat_mesh.specs.Centres.{IsCellAt};
ghost use Rattle.flat_mesh.specs.Rows.{row_start};
ghost use Rattle.mesh_rows.specs.Rows.{AreCases, IsCaseOf};
ghost use Rattle.component_walk.specs.Walks.{ArePlaces, IsWalked, loops_before};

use crate::loops::Walked;
use crate::tally::Tally;
use case_table::CaseRow;
use cell_loops::{loop_count, loop_edges};
use flat_mesh::{Cell, Heights};
use iso_base::{Memory, Point, Sizes};
use std::simd::prelude::*;

/// Labels the loops of a cell and adds them up.
#[inline(always)]
fn add_cell<T: Tally, H: Heights>(
    field: &H,
    walked: &mut Walked<T>,
    places: &[u32; 12],
    cell: Cell,
    case: u16,
) -> Result<(), Memory>
    requires cell { IsCellAt (H.leveled field.now).grid cell }
    requires case { IsCaseOf (H.leveled field.now) cell.index case }
    requires places { ArePlaces (H.leveled field.now).grid (cell.low.y + (H.leveled field.now).grid.ny * cell.low.z)
        places.now }
    requires state { IsWalked T.value T.fits T.of_loop (H.leveled field.now)
        (cell.low.y + (H.leveled field.now).grid.ny * cell.low.z) (loops_before (H.leveled field.now) cell.index)
        walked.old.labels walked.old.tallies.items walked.old.edges }
    ensures { OnOk result (IsWalked T.value T.fits T.of_loop (H.leveled field.now)
        (cell.low.y + (H.leveled field.now).grid.ny * cell.low.z) (loops_before (H.leveled field.now) (cell.index + 1))
        walked.new.labels walked.new.tallies.items walked.new.edges) }
{
    // Reading the sizes brings in what is true of every volume at a level.
    let _ = field.sizes();
    let case = CaseRow::of(case);
    for turn in 0..loop_count(case) {
        walked.add_loop(field, places, cell, loop_edges(case, turn))?;
    }
    Ok(())
}

/// Which of the eight cases from a place on have loops: each has a bit, the first the lowest. The first case and the last have none, so no table is
/// asked.
#[inline(always)]
fn looped_of(cases: &[u16], from: usize) -> u64
    requires inside { from + 8 ≤ length cases.now }
    ensures bits { (k : ℕ) → k < 8 → bit_at result k ≡ 0 → row_loops (slice_index cases.now (from + k)) ≡ [] }
    ensures none { (k : ℕ) → k < 8 → slice_index cases.now (from + k) ≡ 0 → bit_at result k ≡ 0 }
    ensures bound { result < 256 }
{
    let eight = u16x8::from_slice(&cases[from..]);
    let some = eight.simd_ne(u16x8::splat(0)).to_bitmask();
    some & eight.simd_ne(u16x8::splat(655)).to_bitmask()
}

/// Which of the cases from a place to before an end have loops, as `looped_of` says it of eight.
#[inline(always)]
fn looped_among(cases: &[u16], from: usize, end: usize) -> u64
    requires from { from ≤ end }
    requires few { end ≤ from + 8 }
    requires end { end ≤ length cases.now }
    ensures bits { (k : ℕ) → from + k < end → bit_at result k ≡ 0 → row_loops (slice_index cases.now (from + k)) ≡ [] }
    ensures above { (k : ℕ) → end ≤ from + k → bit_at result k ≡ 0 }
{
    if end == from + 8 {
        return looped_of(cases, from);
    }
    let mut eight = [0; 8];
    for at in from..end {
        eight[at - from] = cases[at];
    }
    looped_of(&eight, 0)
}

/// The cells of a row: where it lies, where the labels of the edges of its first cell stand, and the cells' cases.
#[derive(Drop)]
pub struct RowCells<'a> {
    pub y: u32,
    pub z: u32,
    pub places: [u32; 12],
    pub cases: &'a [u16],
}

/// The cell that begins at a point.
#[inline(always)]
fn cell_at(sizes: &Sizes, x: u32, y: u32, z: u32) -> Cell
    requires x { x + 1 < sizes.now.nx }
    requires y { y + 1 < sizes.now.ny }
    requires z { z + 1 < sizes.now.nz }
    ensures there { IsCellAt sizes.now result }
    ensures index { result.index ≡ row_start sizes.now y z + x }
    ensures y { result.low.y ≡ y }
    ensures z { result.low.z ≡ z }
{
    Cell {
        index: sizes.nx() * (y + sizes.ny() * z) + x,
        low: Point { x, y, z },
    }
}

/// Labels the loops of the cells of a row from a place to before an end, eight at most: of those that have loops, one by one. So there is one branch
/// whose way a processor would have to guess for all of them.
// Apart, so that what goes over the rows does not take its registers.
#[inline(never)]
pub fn add_cells<T: Tally, H: Heights>(
    field: &H,
    walked: &mut Walked<T>,
    row: &RowCells<'_>,
    from: u32,
    end: u32,
) -> Result<(), Memory>
    requires y { row.now.y + 1 < (H.leveled field.now).grid.ny }
    requires z { row.now.z + 1 < (H.leveled field.now).grid.nz }
    requires from { from ≤ end }
    requires few { end ≤ from + 8 }
    requires end { end < (H.leveled field.now).grid.nx }
    requires count { length row.now.cases.now ≡ (H.leveled field.now).grid.nx }
    requires cases { AreCases (H.leveled field.now) row.now.y row.now.z row.now.cases.now }
    requires places { ArePlaces (H.leveled field.now).grid (row.now.y + (H.leveled field.now).grid.ny * row.now.z)
        row.now.places }
    requires state { IsWalked T.value T.fits T.of_loop (H.leveled field.now)
        (row.now.y + (H.leveled field.now).grid.ny * row.now.z)
        (loops_before (H.leveled field.now) (row_start (H.leveled field.now).grid row.now.y row.now.z + from))
        walked.old.labels walked.old.tallies.items walked.old.edges }
    ensures { OnOk result (IsWalked T.value T.fits T.of_loop (H.leveled field.now)
        (row.now.y + (H.leveled field.now).grid.ny * row.now.z)
        (loops_before (H.leveled field.now) (row_start (H.leveled field.now).grid row.now.y row.now.z + end))
        walked.new.labels walked.new.tallies.items walked.new.edges) }
{
    let sizes = field.sizes();
    let mut bits = looped_among(row.cases, from as usize, end as usize);
    let mut next = 0;
    while bits != 0 {
        let skipped = bits.trailing_zeros();
        let x = from + (next + skipped);
        let cell = cell_at(&sizes, x, row.y, row.z);
        add_cell(field, walked, &row.places, cell, row.cases[x as usize])?;
        next += skipped + 1;
        bits = (bits >> skipped) / 2;
    }
    Ok(())
}
