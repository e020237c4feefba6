//! The crossing edges and the active cells of a row, listed as the row is kept.
ghost use Rattle.std.specs.Prelude.{◌≡◌, ℕ, ◌+◌, ◌-◌, ◌*◌, ◌/◌, ◌%◌, ◌<◌, ◌≤◌, ◌++◌, length, map, slice_index, take};
ghost use Rattle.row_bits.specs.Active.{active_among};
ghost use Rattle.row_bits.specs.Edges.{edges_among};
ghost use Rattle.mesh_rows.specs.Rows.{AreEdges};
ghost use Rattle.sample_rows.specs.Lists.{cases_of, flags_of, mixed_of};
ghost use Rattle.sample_rows.specs.Cases.{AreRowBytes, AreRowCases, HaveRoom};
ghost use Rattle.sample_rows.specs.Parts.{AreCells, HaveAllRows, part_cases, part_places};

use crate::cases::CaseBuffers;
use crate::parts::{RowPart, RowParts, numbers_from, part_of};
use flat_mesh::Heights;
use iso_base::{LONGEST_ROW, ROW_EDGES};
use row_bits::{CASES, list_cases, list_edges, mixed_at};

/// Buffers for a row that is kept whole: the flags of its points, and the cases of the cells that begin at them. They are made once, since
/// what stands in them is written over, and to clear them for each row takes long.
#[derive(Drop)]
pub struct WholeRow {
    pub flags: [u8; LONGEST_ROW],
    pub cases: [u16; CASES],
}

impl WholeRow {
    /// Buffers for any row.
    pub fn new() -> WholeRow {
        WholeRow {
            flags: [0; LONGEST_ROW],
            cases: [0; CASES],
        }
    }
}

/// Lists the crossing edges of a row at the front of a buffer, by the numbers of its points, and says how many there are. `row` is a
/// buffer too.
pub fn list_whole_edges(
    numbers: &[u16],
    row: &mut [u8; LONGEST_ROW],
    edges: &mut [u16; ROW_EDGES],
) -> usize
    requires { length numbers.now ≤ 1026 }
    ensures put { take result edges.new ≡ edges_among (flags_of numbers.now) 0 (length numbers.now) }
    ensures count { result ≤ 3 * length numbers.now }
{
    let flags = &mut row[..numbers.len()];
    for x in 0..numbers.len() {
        flags[x] = (numbers[x] % 8) as u8;
    }
    list_edges(flags, edges)
}

/// Lists the active cells of a row at the front of two buffers likewise, by the numbers of its points, and says how many there are:
/// how far each is along x, and its case. `all` is a buffer too.
pub fn list_whole_cells(
    numbers: &[u16],
    all: &mut [u16; CASES],
    places: &mut [u16; LONGEST_ROW],
    cases: &mut [u16; LONGEST_ROW],
) -> usize
    requires some { 0 < length numbers.now }
    requires few { length numbers.now ≤ 1026 }
    ensures places { take result places.new ≡ active_among (cases_of numbers.now) 0 (length numbers.now - 1) }
    ensures cases { take result cases.new ≡ map (slice_index (cases_of numbers.now)) (take result places.new) }
    ensures count { result < length numbers.now }
{
    for x in 0..numbers.len() {
        all[x] = numbers[x] / 8;
    }
    list_cases(all, numbers.len() - 1, places, cases)
}

/// Buffers for the active cells of a row: how far each is along x, and its case.
#[derive(Drop)]
pub struct CellLists {
    pub places: [u16; LONGEST_ROW],
    pub cases: [u16; LONGEST_ROW],
}

impl CellLists {
    /// Lists of nothing.
    pub fn new() -> CellLists {
        CellLists {
            places: [0; LONGEST_ROW],
            cases: [0; LONGEST_ROW],
        }
    }
}

/// Lists the active cells of 64 of a row behind others, bit after bit of those that have crossing edges, and says where the next go.
#[inline(always)]
fn list_many(bytes: &[u8], from: usize, cases: &[u16], lists: &mut CellLists, at: usize) -> usize
    requires many { from + 64 ≤ length bytes.now }
    requires rest { (x : ℕ) → length cases.now ≤ x + 1 → slice_index bytes.now x ≡ 0 }
    requires few { length cases.now ≤ 1026 }
    requires room { at + length (active_among (mixed_of bytes.now) from 64) ≤ 1026 }
    requires before { take at lists.old.cases ≡ map (slice_index cases.now) (take at lists.old.places) }
    ensures places { take result lists.new.places
        ≡ take at lists.old.places ++ active_among (mixed_of bytes.now) from 64 }
    ensures cases { take result lists.new.cases ≡ map (slice_index cases.now) (take result lists.new.places) }
    ensures end { result ≡ at + length (active_among (mixed_of bytes.now) from 64) }
{
    let mut at = at;
    let mut rest = mixed_at(bytes, from);
    while rest != 0 {
        let x = from + rest.trailing_zeros() as usize;
        lists.places[at] = x as u16;
        lists.cases[at] = cases[x];
        at += 1;
        rest &= rest - 1;
    }
    at
}

/// Lists those of a row at the front of its buffers, by the sign bytes of its cells and the cases of its points.
#[inline(always)]
fn list_by_bytes(bytes: &[u8], cases: &[u16], lists: &mut CellLists) -> usize
    requires runs { length bytes.now % 64 ≡ 0 }
    requires room { length cases.now ≤ length bytes.now }
    requires rest { (x : ℕ) → length cases.now ≤ x + 1 → slice_index bytes.now x ≡ 0 }
    requires some { 0 < length cases.now }
    requires few { length cases.now ≤ 1026 }
    ensures places { take result lists.new.places ≡ active_among (mixed_of bytes.now) 0 (length cases.now - 1) }
    ensures cases { take result lists.new.cases ≡ map (slice_index cases.now) (take result lists.new.places) }
    ensures count { result < length cases.now }
    ensures small { (x : ℕ) → slice_index bytes.now x < 256 }
{
    let mut at = 0;
    for many in 0..bytes.len() / 64 {
        at = list_many(bytes, 64 * many, cases, lists, at);
    }
    at
}

/// Lists the active cells of a row at the front of its buffers, by the sign bytes and the cases of all, and says how many there are.
pub fn list_row<H: Heights>(
    field: &H,
    y: u32,
    z: u32,
    row: &CaseBuffers,
    lists: &mut CellLists,
) -> usize
    requires cases { AreRowCases (H.leveled field.now) y z row.now.cases.items }
    requires bytes { AreRowBytes (H.leveled field.now) y z row.now.bytes.items }
    requires room { HaveRoom (H.leveled field.now).grid row.now.bytes.items }
    ensures few { result < (H.leveled field.now).grid.nx }
    ensures cells { AreCells (H.leveled field.now) y z (take result lists.new.places) (take result lists.new.cases) }
{
    let _ = (field.sizes(), y, z);
    list_by_bytes(&row.bytes, &row.cases, lists)
}

/// Copies a list to the front of a buffer.
#[inline(always)]
fn copy_front(list: &[u16], into: &mut [u16])
    requires { length list.now ≤ length into.old }
    ensures { take (length list.now) into.new ≡ list.now }
{
    into[..list.len()].copy_from_slice(list);
}

/// Lists the crossing edges of a row of points at the front of a buffer, and says how many there are.
pub fn list_row_edges<H: Heights>(
    field: &H,
    rows: &RowParts,
    y: u32,
    z: u32,
    whole: &mut WholeRow,
    edges: &mut [u16; ROW_EDGES],
) -> usize
    requires y { y < (H.leveled field.now).grid.ny }
    requires z { z < (H.leveled field.now).grid.nz }
    requires rows { HaveAllRows (H.leveled field.now) rows.now }
    ensures few { result ≤ 3 * (H.leveled field.now).grid.nx }
    ensures edges { AreEdges (H.leveled field.now) y z (take result edges.new) }
{
    let nx = field.sizes().nx() as usize;
    let part = part_of(field, rows, y, z);
    let start = part.start as usize;
    if part.is_whole {
        return list_whole_edges(numbers_from(rows, start, nx), &mut whole.flags, edges);
    }
    let count = usize::from(part.edges);
    copy_front(numbers_from(rows, start, count), edges);
    count
}

/// Lists the active cells of a row that is kept as what it has at the front of two buffers, and says how many there are: how far each is
/// along x, and its case.
pub fn list_few_cells(
    rows: &RowParts,
    part: RowPart,
    places: &mut [u16; LONGEST_ROW],
    cases: &mut [u16; LONGEST_ROW],
) -> usize
    requires fit { part.start + part.edges + 2 * part.cells ≤ length rows.now.list.items }
    requires few { part.cells ≤ 1026 }
    ensures count { result ≡ part.cells }
    ensures places { take result places.new ≡ part_places rows.now.list.items part }
    ensures cases { take result cases.new ≡ part_cases rows.now.list.items part }
{
    let start = part.start as usize + usize::from(part.edges);
    let count = usize::from(part.cells);
    copy_front(numbers_from(rows, start, count), places);
    copy_front(numbers_from(rows, start + count, count), cases);
    count
}
