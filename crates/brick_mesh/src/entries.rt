//! Entries of the cells of a brick that have a crossing edge, and the cases of its rows of cells.
ghost use Rattle.std.specs.Prelude.{◌≡◌, ℕ, ◌+◌, ◌-◌, ◌*◌, ◌/◌, ◌%◌, ◌<◌, ◌≤◌, ◌++◌, [], IsTrue, length, map, slice_index, true};
ghost use Rattle.arrayvec.specs.ArrayVec.{array_vec_len};
ghost use Rattle.iso_defs.specs.Bricks.{bits_of, brick_cell, brick_count, entries as entries_of, in_brick, row_cases};
ghost use Rattle.iso_defs.specs.Cell.{cell_joined, cell_signs};
ghost use Rattle.case_table.specs.Cases.{are_ambiguous};
ghost use Rattle.iso_base.specs.Volume.{field};
ghost use Rattle.brick_mesh.specs.Block.{HasPoint, IsCell, IsCellRow, heights};
ghost use Rattle.brick_mesh.specs.Entries.{IsPlain, case_of, entries_from, first_cases};
ghost use Rattle.brick_mesh.specs.Signs.{AreBytes, AreSlice, AreRows};
ghost use Rattle.brick_store.specs.Copies.{AreCopiesOf};
ghost use Rattle.brick_store.specs.Holding.{points_along};

use crate::block::Block;
use crate::lanes::sign_bytes;
use crate::signs::{PairRows, bytes_among, has_only, is_mixed, pair_rows};
use arrayvec::ArrayVec;
use brick_store::{BrickId, BrickStore};
use case_table::{ambiguous_set, classify_with, joined_faces_of};
use iso_base::{Level, Steps};
use packed_samples::PackedRun;
use row_bits::mixed_at;
use samples::Packed;
use std::sync::ledger::Ledger;

/// The joined faces of a cell with this sign byte. Only where a face is ambiguous the values at the corners are looked at.
#[inline(always)]
fn joined_with<T: Packed>(block: &Block<'_>, copies: &[T], cell: u32, signs: u8) -> u8
    requires copies { AreCopiesOf block.now.grid block.now.samples block.now.brick (map T.value copies.now) }
    requires cell { IsCell block.now cell }
    requires signs { bits_of 8 signs ≡ cell_signs block.now.grid (heights block.now)
        (brick_cell block.now.grid block.now.brick cell) }
    ensures faces { bits_of 6 result ≡ cell_joined block.now.grid (heights block.now)
        (brick_cell block.now.grid block.now.brick cell) }
    ensures ambiguous { IsTrue (are_ambiguous (bits_of 8 signs) (bits_of 8 result)) }
{
    if ambiguous_set(signs) == 0 {
        return 0;
    }
    joined_faces_of(signs, &block.values(copies, cell))
}

/// The number of the case of a cell with this sign byte, which is classified.
#[inline(always)]
fn case_with<T: Packed, L: Ledger>(
    block: &Block<'_>,
    copies: &[T],
    cell: u32,
    signs: u8,
    steps: &mut Steps<L>,
) -> u16
    requires copies { AreCopiesOf block.now.grid block.now.samples block.now.brick (map T.value copies.now) }
    requires cell { IsCell block.now cell }
    requires signs { bits_of 8 signs ≡ cell_signs block.now.grid (heights block.now)
        (brick_cell block.now.grid block.now.brick cell) }
    ensures value { result ≡ case_of block.now.grid (heights block.now)
        (brick_cell block.now.grid block.now.brick cell) }
    ensures bound { result < 656 }
    ensures counted { steps.new ≡ steps.old + 1 }
{
    let joined = joined_with(block, copies, cell, signs);
    classify_with(signs, joined, steps).number()
}

/// Puts the entry of a cell with this sign byte behind the others, if the cell has a crossing edge.
#[inline(always)]
fn add_cell<T: Packed, L: Ledger>(
    block: &Block<'_>,
    copies: &[T],
    cell: u32,
    signs: u8,
    entries: &mut ArrayVec<u32, 512>,
    steps: &mut Steps<L>,
)
    requires copies { AreCopiesOf block.now.grid block.now.samples block.now.brick (map T.value copies.now) }
    requires cell { IsCell block.now cell }
    requires signs { bits_of 8 signs ≡ cell_signs block.now.grid (heights block.now)
        (brick_cell block.now.grid block.now.brick cell) }
    requires room { array_vec_len entries.old < 512 }
    ensures entries { entries.new.items ≡ entries.old.items ++ entries_from block.now cell 1 }
    ensures counted { steps.new ≡ steps.old + length (entries_from block.now cell 1) }
{
    if is_mixed(signs) {
        let case = case_with(block, copies, cell, signs, steps);
        entries.push(1024 * cell + u32::from(case));
    }
}

/// The sign bytes of a row of cells, from the rows of signs.
#[inline(always)]
fn bytes_of_row(block: &Block<'_>, rows: &PairRows, row: u8) -> [u8; 8]
    requires row { row < 64 }
    requires rows { AreRows block.now 81 rows.now }
    ensures { AreBytes block.now row result }
{
    let first = (row % 8 + 9 * (row / 8)) as usize;
    sign_bytes(
        &rows[first],
        &rows[first + 1],
        &rows[first + 9],
        &rows[first + 10],
    )
}

/// Writes a row of sign bytes from a place on.
#[inline(always)]
fn fill_bytes(row: &[u8; 8], start: usize, bytes: &mut [u8; 64])
    requires room { start + 8 ≤ 64 }
    ensures inside { (x : ℕ) → x < 8 → slice_index bytes.new (start + x) ≡ slice_index row.now x }
    ensures before { (k : ℕ) → k < start → slice_index bytes.new k ≡ slice_index bytes.old k }
{
    bytes[start..start + 8].copy_from_slice(row);
}

/// The sign bytes of a slice of cells, from the rows of signs.
#[inline(always)]
fn bytes_of_slice(block: &Block<'_>, rows: &PairRows, z: u8) -> [u8; 64]
    requires z { z < 8 }
    requires rows { AreRows block.now 81 rows.now }
    ensures { AreSlice block.now z 64 result }
{
    let mut bytes = [0; 64];
    for y in 0..8 {
        let row = bytes_of_row(block, rows, y + 8 * z);
        fill_bytes(&row, 8 * usize::from(y), &mut bytes);
    }
    bytes
}

/// Puts the entry of a cell with this sign byte behind the others, if the brick has the cell and that has a crossing edge.
#[inline(always)]
fn add_there<T: Packed, L: Ledger>(
    block: &Block<'_>,
    copies: &[T],
    cell: u32,
    signs: u8,
    entries: &mut ArrayVec<u32, 512>,
    steps: &mut Steps<L>,
)
    requires copies { AreCopiesOf block.now.grid block.now.samples block.now.brick (map T.value copies.now) }
    requires cell { cell < 512 }
    requires signs { IsCell block.now cell → bits_of 8 signs ≡ cell_signs block.now.grid (heights block.now)
        (brick_cell block.now.grid block.now.brick cell) }
    requires room { array_vec_len entries.old < 512 }
    ensures entries { entries.new.items ≡ entries.old.items ++ entries_from block.now cell 1 }
    ensures counted { steps.new ≡ steps.old + length (entries_from block.now cell 1) }
{
    if block.has_cell(cell) {
        add_cell(block, copies, cell, signs, entries, steps);
    }
}

/// Puts the entries of a slice of cells behind those of the slices before it. The cells are gone through by the bits of
/// a mask, since a processor cannot foresee which of them have a crossing edge.
fn add_slice<T: Packed, L: Ledger>(
    block: &Block<'_>,
    copies: &[T],
    rows: &PairRows,
    z: u8,
    entries: &mut ArrayVec<u32, 512>,
    steps: &mut Steps<L>,
)
    requires copies { AreCopiesOf block.now.grid block.now.samples block.now.brick (map T.value copies.now) }
    requires z { z < 8 }
    requires rows { AreRows block.now 81 rows.now }
    requires entries { entries.old.items ≡ entries_from block.now 0 (64 * z) }
    ensures entries { entries.new.items ≡ entries_from block.now 0 (64 * z + 64) }
    ensures counted { steps.new + length entries.old.items ≡ steps.old + length entries.new.items }
{
    let signs = bytes_of_slice(block, rows, z);
    let mut bits = mixed_at(&signs, 0);
    let mut next = 0;
    while bits != 0 {
        let skipped = bits.trailing_zeros();
        let place = next + skipped;
        let cell = 64 * u32::from(z) + place;
        add_there(block, copies, cell, signs[place as usize], entries, steps);
        next += skipped + 1;
        bits = (bits >> skipped) / 2;
    }
}

/// Puts the entries of a brick into an empty list.
fn add_slices<T: Packed, L: Ledger>(
    block: &Block<'_>,
    copies: &[T],
    rows: &PairRows,
    entries: &mut ArrayVec<u32, 512>,
    steps: &mut Steps<L>,
)
    requires copies { AreCopiesOf block.now.grid block.now.samples block.now.brick (map T.value copies.now) }
    requires rows { AreRows block.now 81 rows.now }
    requires none { entries.old.items ≡ [] }
    ensures entries { entries.new.items ≡ entries_of block.now.grid (heights block.now) block.now.brick }
    ensures counted { steps.new ≡ steps.old + length entries.new.items }
    ensures bound { steps.new ≤ steps.old + 512 }
{
    for z in 0..8 {
        add_slice(block, copies, rows, z, entries, steps);
    }
}

/// Puts the entries of a brick into an empty list, in whichever width its samples are packed.
fn add_entries<L: Ledger>(
    block: &Block<'_>,
    rows: &PairRows,
    entries: &mut ArrayVec<u32, 512>,
    steps: &mut Steps<L>,
)
    requires rows { AreRows block.now 81 rows.now }
    requires none { entries.old.items ≡ [] }
    ensures entries { entries.new.items ≡ entries_of block.now.grid (heights block.now) block.now.brick }
    ensures counted { steps.new ≡ steps.old + length entries.new.items }
    ensures bound { steps.new ≤ steps.old + 512 }
{
    match block.copies() {
        PackedRun::U8(copies) => add_slices(block, copies, rows, entries, steps),
        PackedRun::I16(copies) => add_slices(block, copies, rows, entries, steps),
        PackedRun::U16(copies) => add_slices(block, copies, rows, entries, steps),
        PackedRun::I32(copies) => add_slices(block, copies, rows, entries, steps),
        PackedRun::I64(copies) => add_slices(block, copies, rows, entries, steps),
    }
}

/// Replaces the entries by those of a brick at a level: of its cells that have a crossing edge, ascending.
/// The counter is raised by one for each of them.
pub fn extract_brick<L: Ledger>(
    store: &BrickStore,
    brick: BrickId,
    level: Level,
    entries: &mut ArrayVec<u32, 512>,
    steps: &mut Steps<L>,
)
    requires { brick.0 < brick_count store.now.grid }
    ensures entries { entries.new.items ≡ entries_of store.now.grid (field store.now.samples level) brick.0 }
    ensures counted { steps.new ≡ steps.old + length entries.new.items }
    ensures bound { steps.new ≤ steps.old + 512 }
{
    let block = Block::of(store, brick, level);
    let rows = pair_rows(&block);
    entries.clear();
    add_entries(&block, &rows, entries, steps);
}

/// Puts the numbers of the cases of a row of eight cells without an ambiguous face into an empty list.
#[inline(always)]
pub(crate) fn push_plain<L: Ledger>(
    block: &Block<'_>,
    signs: &[u8; 8],
    row: u8,
    rows: &mut ArrayVec<u16, 8>,
    steps: &mut Steps<L>,
)
    requires row { row < 64 }
    requires there { HasPoint block.now 0 (row % 8 + 1) (row / 8 + 1) }
    requires whole { points_along block.now.grid block.now.brick 0 ≡ 9 }
    requires signs { AreBytes block.now row signs.now }
    requires plain { (x : ℕ) → x < 8 → IsPlain (slice_index signs.now x) }
    requires none { rows.old.items ≡ [] }
    ensures cases { rows.new.items ≡ first_cases block.now (row % 8) (row / 8) 8 }
    ensures counted { steps.new ≡ steps.old + length rows.new.items }
{
    for x in 0..8 {
        rows.push(classify_with(signs[x], 0, steps).number());
    }
}

/// Puts the numbers of the cases of a row of cells into an empty list.
#[inline(always)]
pub(crate) fn push_cases<T: Packed, L: Ledger>(
    block: &Block<'_>,
    copies: &[T],
    signs: &[u8; 8],
    row: u8,
    rows: &mut ArrayVec<u16, 8>,
    steps: &mut Steps<L>,
)
    requires copies { AreCopiesOf block.now.grid block.now.samples block.now.brick (map T.value copies.now) }
    requires row { row < 64 }
    requires there { HasPoint block.now 0 (row % 8 + 1) (row / 8 + 1) }
    requires signs { AreBytes block.now row signs.now }
    requires none { rows.old.items ≡ [] }
    ensures cases { rows.new.items ≡ first_cases block.now (row % 8) (row / 8)
        (points_along block.now.grid block.now.brick 0 - 1) }
    ensures counted { steps.new ≡ steps.old + length rows.new.items }
{
    for x in 0..block.cells_along_x() {
        let cell = 8 * u32::from(row) + u32::from(x);
        rows.push(case_with(block, copies, cell, signs[x as usize], steps));
    }
}

/// Replaces the rows by the numbers of the cases of a row of cells.
fn fill_row<T: Packed, L: Ledger>(
    block: &Block<'_>,
    copies: &[T],
    y: u8,
    z: u8,
    rows: &mut ArrayVec<u16, 8>,
    steps: &mut Steps<L>,
)
    requires copies { AreCopiesOf block.now.grid block.now.samples block.now.brick (map T.value copies.now) }
    requires row { IsCellRow block.now y z }
    ensures cases { rows.new.items ≡ row_cases block.now.grid (heights block.now) block.now.brick y z }
    ensures counted { steps.new ≡ steps.old + length rows.new.items }
    ensures bound { steps.new ≤ steps.old + 8 }
{
    let signs = bytes_among(block, copies, y, z);
    let row = y + 8 * z;
    rows.clear();
    // Most rows are whole and have no crossing edge. Their sign bytes are handed on as constants, so that their cases are known too.
    let whole = block.cells_along_x() == 8;
    if whole && has_only(&signs, 0) {
        push_plain(block, &[0; 8], row, rows, steps);
    } else if whole && has_only(&signs, 255) {
        push_plain(block, &[255; 8], row, rows, steps);
    } else {
        push_cases(block, copies, &signs, row, rows, steps);
    }
}

/// Replaces the rows by the numbers of the cases of a row of cells, in whichever width the brick's samples are packed.
fn fill_cases<L: Ledger>(
    block: &Block<'_>,
    y: u8,
    z: u8,
    rows: &mut ArrayVec<u16, 8>,
    steps: &mut Steps<L>,
)
    requires row { IsCellRow block.now y z }
    ensures cases { rows.new.items ≡ row_cases block.now.grid (heights block.now) block.now.brick y z }
    ensures counted { steps.new ≡ steps.old + length rows.new.items }
    ensures bound { steps.new ≤ steps.old + 8 }
{
    match block.copies() {
        PackedRun::U8(copies) => fill_row(block, copies, y, z, rows, steps),
        PackedRun::I16(copies) => fill_row(block, copies, y, z, rows, steps),
        PackedRun::U16(copies) => fill_row(block, copies, y, z, rows, steps),
        PackedRun::I32(copies) => fill_row(block, copies, y, z, rows, steps),
        PackedRun::I64(copies) => fill_row(block, copies, y, z, rows, steps),
    }
}

/// Replaces the rows by the numbers of the cases of a row of cells of a brick, from the least place along x on.
/// The counter is raised by one for each of them.
pub fn extract_row<L: Ledger>(
    store: &BrickStore,
    brick: BrickId,
    y: u8,
    z: u8,
    level: Level,
    rows: &mut ArrayVec<u16, 8>,
    steps: &mut Steps<L>,
)
    requires brick { brick.0 < brick_count store.now.grid }
    requires y { y < 8 }
    requires z { z < 8 }
    requires there { in_brick store.now.grid brick.0 1 (y + 1) (z + 1) ≡ true }
    ensures cases { rows.new.items ≡ row_cases store.now.grid (field store.now.samples level) brick.0 y z }
    ensures counted { steps.new ≡ steps.old + length rows.new.items }
    ensures bound { steps.new ≤ steps.old + 8 }
{
    let block = Block::of(store, brick, level);
    fill_cases(&block, y, z, rows, steps);
}
