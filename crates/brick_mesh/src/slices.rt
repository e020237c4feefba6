//! The sign bytes of a slice of cells of a brick.
//!
//! A walk asks for the rows of a slice one after the other. The signs of its two slices of points are found once for
//! all of them, so that a row's cases are told without a look at its samples, unless a face is ambiguous.
ghost use Rattle.std.specs.Prelude.{◌≡◌, ℕ, ◌+◌, ◌-◌, ◌*◌, ◌/◌, ◌%◌, ◌<◌, ◌≤◌, IsTrue, length, map, slice_index, true};
ghost use Rattle.std.specs.Bool.{OnTrue};
ghost use Rattle.iso_defs.specs.Bricks.{brick_count, in_brick, row_cases};
ghost use Rattle.iso_base.specs.Volume.{field};
ghost use Rattle.brick_store.specs.Copies.{AreCopiesOf};
ghost use Rattle.brick_store.specs.Holding.{points_along};
ghost use Rattle.brick_mesh.specs.Block.{HasPoint};
ghost use Rattle.brick_mesh.specs.Entries.{IsPlain, first_cases};
ghost use Rattle.brick_mesh.specs.Signs.{AreBytes};
ghost use Rattle.brick_mesh.specs.Slices.{AreRowsOf, AreSigned, IsSliceOf};

use crate::block::Block;
use crate::entries::{push_cases, push_plain};
use crate::lanes::{pairs_at, sign_bytes};
use crate::signs::{bound_at, fill_signs, has_only};
use arrayvec::ArrayVec;
use brick_store::{BrickId, BrickStore};
use case_table::ambiguous_set;
use iso_base::{Level, Steps};
use packed_samples::PackedRun;
use samples::Packed;
use std::sync::ledger::Ledger;

/// The sign bytes of the rows of a slice of cells.
type SliceRows = [[u8; 8]; 8];

/// Writes the sign bytes of a slice of cells of a brick, from the copies of its two slices of points alone.
fn fill_among<T: Packed>(block: &Block<'_>, copies: &[T], z: u8, rows: &mut SliceRows)
    requires copies { AreCopiesOf block.now.grid block.now.samples block.now.brick (map T.value copies.now) }
    requires z { z < 8 }
    ensures { AreRowsOf block.now z rows.new }
{
    let start = 81 * usize::from(z);
    let mut signs = [0; 162];
    fill_signs(
        &copies[start..start + 162],
        bound_at(block.level()),
        &mut signs,
    );
    for y in 0..8 {
        rows[y] = sign_bytes(
            &pairs_at(&signs, 9 * y),
            &pairs_at(&signs, 9 * y + 9),
            &pairs_at(&signs, 9 * y + 81),
            &pairs_at(&signs, 9 * y + 90),
        );
    }
}

/// Writes the sign bytes of a slice of cells of a brick, in whichever width its samples are packed.
fn fill_rows(block: &Block<'_>, z: u8, rows: &mut SliceRows)
    requires z { z < 8 }
    ensures { AreRowsOf block.now z rows.new }
{
    match block.copies() {
        PackedRun::U8(copies) => fill_among(block, copies, z, rows),
        PackedRun::I16(copies) => fill_among(block, copies, z, rows),
        PackedRun::U16(copies) => fill_among(block, copies, z, rows),
        PackedRun::I32(copies) => fill_among(block, copies, z, rows),
        PackedRun::I64(copies) => fill_among(block, copies, z, rows),
    }
}

/// Whether no face of the cells with these sign bytes is ambiguous.
#[inline(always)]
fn are_plain(signs: &[u8; 8]) -> bool
    ensures { IsTrue result → (x : ℕ) → x < 8 → IsPlain (slice_index signs.now x) }
{
    let mut sets = 0;
    for x in 0..8 {
        sets |= ambiguous_set(signs[x]);
    }
    sets == 0
}

/// Replaces the rows by the numbers of the cases of a row of cells, by their sign bytes.
// Apart, since the samples are looked at only here.
#[inline(never)]
fn extract_apart<L: Ledger>(
    block: &Block<'_>,
    signs: &[u8; 8],
    row: u8,
    rows: &mut ArrayVec<u16, 8>,
    steps: &mut Steps<L>,
)
    requires row { row < 64 }
    requires there { HasPoint block.now 0 (row % 8 + 1) (row / 8 + 1) }
    requires signs { AreBytes block.now row signs.now }
    ensures cases { rows.new.items ≡ first_cases block.now (row % 8) (row / 8)
        (points_along block.now.grid block.now.brick 0 - 1) }
    ensures counted { steps.new ≡ steps.old + length rows.new.items }
{
    rows.clear();
    match block.copies() {
        PackedRun::U8(copies) => push_cases(block, copies, signs, row, rows, steps),
        PackedRun::I16(copies) => push_cases(block, copies, signs, row, rows, steps),
        PackedRun::U16(copies) => push_cases(block, copies, signs, row, rows, steps),
        PackedRun::I32(copies) => push_cases(block, copies, signs, row, rows, steps),
        PackedRun::I64(copies) => push_cases(block, copies, signs, row, rows, steps),
    }
}

/// Replaces the rows by the numbers of the cases of a row of eight cells without an ambiguous face.
#[inline(always)]
fn extract_plain<L: Ledger>(
    block: &Block<'_>,
    signs: &[u8; 8],
    row: u8,
    rows: &mut ArrayVec<u16, 8>,
    steps: &mut Steps<L>,
)
    requires row { row < 64 }
    requires there { HasPoint block.now 0 (row % 8 + 1) (row / 8 + 1) }
    requires whole { points_along block.now.grid block.now.brick 0 ≡ 9 }
    requires signs { AreBytes block.now row signs.now }
    requires plain { (x : ℕ) → x < 8 → IsPlain (slice_index signs.now x) }
    ensures cases { rows.new.items ≡ first_cases block.now (row % 8) (row / 8) 8 }
    ensures counted { steps.new ≡ steps.old + length rows.new.items }
{
    rows.clear();
    push_plain(block, signs, row, rows, steps);
}

/// The sign bytes of a slice of cells of a brick at a level: which brick and which slice, whether its rows have eight cells, and the
/// bytes of its rows.
#[derive(Clone, Copy, Drop)]
pub struct SignSlice {
    pub brick: u32,
    pub z: u8,
    pub whole: bool,
    pub rows: SliceRows,
}

impl SignSlice {
    /// A slice of no brick.
    #[inline(always)]
    pub fn none() -> SignSlice
        ensures { result.z ≡ 255 }
    {
        SignSlice {
            brick: 0,
            z: 255,
            whole: false,
            rows: [[0; 8]; 8],
        }
    }

    /// Whether this is that slice of that brick.
    #[inline(always)]
    pub fn has(&self, brick: BrickId, z: u8) -> bool
        ensures { OnTrue result (IsSliceOf brick.0 z self.now) }
    {
        self.brick == brick.0 && self.z == z
    }

    /// Turns to a slice of a brick.
    // Apart, since a row's slice is nearly always at hand.
    #[inline(never)]
    pub fn move_to(&mut self, store: &BrickStore, brick: BrickId, z: u8, level: Level)
        requires brick { brick.0 < brick_count store.now.grid }
        requires z { z < 8 }
        requires there { in_brick store.now.grid brick.0 1 1 (z + 1) ≡ true }
        ensures here { IsSliceOf brick.0 z self.new }
        ensures signed { AreSigned store.now level self.new }
    {
        let block = Block::of(store, brick, level);
        self.brick = brick.0;
        self.z = z;
        self.whole = block.cells_along_x() == 8;
        fill_rows(&block, z, &mut self.rows);
    }

    /// Replaces the rows by the numbers of the cases of a row of the slice's cells, from the least place along x on. The counter is
    /// raised by one for each of them.
    #[inline(always)]
    pub fn extract_row<L: Ledger>(
        &self,
        store: &BrickStore,
        y: u8,
        level: Level,
        rows: &mut ArrayVec<u16, 8>,
        steps: &mut Steps<L>,
    )
        requires signed { AreSigned store.now level self.now }
        requires brick { self.now.brick < brick_count store.now.grid }
        requires y { y < 8 }
        requires z { self.now.z < 8 }
        requires there { in_brick store.now.grid self.now.brick 1 (y + 1) (self.now.z + 1) ≡ true }
        ensures cases { rows.new.items
            ≡ row_cases store.now.grid (field store.now.samples level) self.now.brick y self.now.z }
        ensures counted { steps.new ≡ steps.old + length rows.new.items }
        ensures bound { steps.new ≤ steps.old + 8 }
    {
        let block = Block::of(store, BrickId(self.brick), level);
        let signs = &self.rows[y as usize];
        let row = y + 8 * self.z;
        // Most rows are whole and have no crossing edge. Their sign bytes are handed on as constants, so that their cases are known too.
        if self.whole && has_only(signs, 0) {
            extract_plain(&block, &[0; 8], row, rows, steps);
        } else if self.whole && has_only(signs, 255) {
            extract_plain(&block, &[255; 8], row, rows, steps);
        } else if self.whole && are_plain(signs) {
            extract_plain(&block, signs, row, rows, steps);
        } else {
            extract_apart(&block, signs, row, rows, steps);
        }
    }
}
