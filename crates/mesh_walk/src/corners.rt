//! The slots of the corners of the triangles of a row of cells, and those of its centres, each in one list.
//!
//! A loop over the triangles of each cell ends after a number of turns that a processor guesses wrongly once a cell. So
//! the slots of all corners of a row are laid into one list, by as many steps for each cell as the longest case needs,
//! and one loop goes over the row's triangles. No branch rests on the case of a cell: as many slots are written for each,
//! and the next cell's go over those that are too many.
ghost use Rattle.std.specs.Prelude.{◌≡◌, ℕ, ◌+◌, ◌*◌, ◌%◌, ◌<◌, ◌≤◌, ◌++◌, drop, length, map, slice_index, take};
ghost use Rattle.case_faces.specs.Faces.{all_corners};
ghost use Rattle.mesh_walk.specs.Listed.{AreLow, HasCorners, HaveCorners, centre_slots_to, corner_slots_to};
ghost use Rattle.mesh_walk.specs.Slots.{corner_slot};

use crate::cells::RowCells;
use crate::slots::{FIRST_CENTRE_SLOT, edge_slots};
use case_faces::{corner_count, corners_before, face_corners};
use case_table::CaseRow;
use cell_loops::centre_count;
use iso_base::ROW_EDGES;
use std::simd::prelude::*;

/// The slots of a table: those of all corners of triangles, and behind them some that are read and have no meaning.
const TABLE_SLOTS: usize = 13_312;

/// Room for the slots of the corners of the triangles of the longest row of cells, and for what is written behind them.
pub const LIST_SLOTS: usize = 36_940;

/// The slots of the corners of the first cell of a row: its edges, and behind them its centres.
fn corner_slots(y: u32, z: u32) -> [u16; 14]
    requires y { y < 1026 }
    requires z { z < 1026 }
    ensures { (c : ℕ) → c < 14 → slice_index result c ≡ corner_slot y z c }
{
    let [a, b, c, d, e, f, g, h, i, j, k, l] = edge_slots(y, z);
    let first = FIRST_CENTRE_SLOT;
    [a, b, c, d, e, f, g, h, i, j, k, l, first, first + 1]
}

/// Fills a table with the slots of the corners of all triangles.
fn fill_table(slots: &[u16; 14], table: &mut [u16; TABLE_SLOTS])
    ensures { take 13272 table.new ≡ map (slice_index slots.now) all_corners }
{
    let corners = face_corners();
    for k in 0..corners.len() {
        table[k] = slots[corners[k] as usize];
    }
}

/// The slots of the corners of the triangles of each case for the first cell of a row, in the order of the table of triangles. Rows
/// differ only in whether they are even or odd along y and along z.
#[derive(Drop)]
pub struct CornerSlots {
    tables: [[u16; TABLE_SLOTS]; 4],
}

impl CornerSlots {
    /// No slots.
    #[inline(always)]
    pub fn none() -> CornerSlots {
        CornerSlots {
            tables: [[0; TABLE_SLOTS]; 4],
        }
    }

    /// Fills in the slots of all corners.
    pub fn fill(&mut self)
        ensures { HaveCorners self.new.tables }
    {
        for side in 0..4 {
            fill_table(
                &corner_slots(side as u32 % 2, side as u32 / 2),
                &mut self.tables[side],
            );
        }
    }

    /// The slots of the corners of a row of cells.
    pub fn of_row(&self, y: u32, z: u32) -> &[u16; TABLE_SLOTS]
        requires { HaveCorners self.now.tables }
        ensures { HasCorners y z result.now }
    {
        &self.tables[(y % 2 + 2 * (z % 2)) as usize]
    }
}

/// Writes eight slots, so far along.
#[inline(always)]
fn fill_eight(
    table: &[u16; TABLE_SLOTS],
    from: usize,
    far: u16,
    list: &mut [u16; LIST_SLOTS],
    at: usize,
)
    requires from { from + 8 ≤ 13312 }
    requires at { at + 8 ≤ 36940 }
    ensures { take (at + 8) list.new ≡ take at list.old ++ map (λ s. (s + far) % 65536) (take 8 (drop from table.now)) }
{
    let slots = u16x8::from_slice(&table[from..from + 8]) + u16x8::splat(far);
    slots.copy_to_slice(&mut list[at..at + 8]);
}

/// Writes the slots of the corners of a cell's triangles, which are at most thirty-six, and of some more.
#[inline(always)]
fn fill_corners(
    table: &[u16; TABLE_SLOTS],
    from: usize,
    far: u16,
    list: &mut [u16; LIST_SLOTS],
    at: usize,
)
    requires from { from + 40 ≤ 13312 }
    requires at { at + 40 ≤ 36940 }
    ensures { take (at + 40) list.new
        ≡ take at list.old ++ map (λ s. (s + far) % 65536) (take 40 (drop from table.now)) }
{
    fill_eight(table, from, far, list, at);
    fill_eight(table, from + 8, far, list, at + 8);
    fill_eight(table, from + 16, far, list, at + 16);
    fill_eight(table, from + 24, far, list, at + 24);
    fill_eight(table, from + 32, far, list, at + 32);
}

/// Lists the slots of the corners of the triangles of a row's cells, and says how many there are.
pub fn list_corners(
    cells: &RowCells,
    table: &[u16; TABLE_SLOTS],
    list: &mut [u16; LIST_SLOTS],
) -> usize
    requires cells { AreLow cells.now }
    requires table { HasCorners cells.now.y cells.now.z table.now }
    ensures put { take result list.new ≡ corner_slots_to cells.now cells.now.count }
    ensures count { result ≡ length (corner_slots_to cells.now cells.now.count) }
    ensures few { result ≤ 36 * cells.now.count }
{
    let mut at = 0;
    for k in 0..cells.count {
        let case = CaseRow::of(cells.cases[k]);
        let from = usize::from(corners_before(case));
        fill_corners(table, from, 3 * cells.places[k], list, at);
        at += usize::from(corner_count(case));
    }
    at
}

/// Lists the slots of the centres of a row's cells, from the first one that centres have on, and says how many there are.
pub fn list_centres(cells: &RowCells, list: &mut [u16; ROW_EDGES]) -> usize
    requires { AreLow cells.now }
    ensures put { take result list.new ≡ centre_slots_to cells.now cells.now.count }
    ensures count { result ≡ length (centre_slots_to cells.now cells.now.count) }
    ensures few { result ≤ 2 * cells.now.count }
{
    let mut at = 0;
    for k in 0..cells.count {
        let first = 3 * cells.places[k];
        list[at] = first;
        list[at + 1] = first + 1;
        at += usize::from(centre_count(CaseRow::of(cells.cases[k])));
    }
    at
}
