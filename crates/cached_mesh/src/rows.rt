//! The cases of the cells of a volume in bricks: those of a kept brick by its entries, others by its samples.

ghost use Rattle.std.specs.Prelude.{◌≡◌, ◌+◌, ◌*◌, ◌%◌, ◌<◌, ◌≤◌, Some, All, drop, length, take, false, true};
ghost use Rattle.std.specs.Bool.{OnTrue};
ghost use Rattle.iso_defs.specs.Bricks.{brick_count, in_brick};
ghost use Rattle.mesh_cache.specs.Cache.{kept_at};
ghost use Rattle.mesh_cache.specs.Economy.{IsRight, is_fresh};
ghost use Rattle.brick_rows.specs.Named.{IsCellRow};
ghost use Rattle.cached_mesh.specs.Held.{AreHeld, HasSigns, HoldsNone};
ghost use Rattle.cached_mesh.specs.Kept.{named_by};
ghost use Rattle.cached_mesh.specs.Slices.{AreSlices, HaveSlice, IsHeld};

use crate::counts::{count_anew, count_pages};
use crate::held::Held;
use crate::slices::{SLICE_BRICKS, Slices, across_of, has_few_bricks};
use arrayvec::ArrayVec;
use brick_rows::{CellRows, Counts};
use brick_store::{BrickId, BrickStore};
use iso_base::{Level, Steps};
use mesh_cache::MeshCache;
use std::marker::Model;
use std::simd::prelude::*;
use std::sync::ledger::Ledger;

/// Whether a slice of a brick is among these.
#[inline(always)]
fn has_slice(slices: &Slices, brick: BrickId, z: u8) -> bool
    ensures { OnTrue result (HaveSlice brick.0 z slices.now) }
{
    slices.brick == brick.0 && slices.across.first <= z && z < slices.across.end
}

/// Puts slices of a brick, this one among them, in the brick's place, where the cache keeps the brick's entries at a
/// level; says whether they are there.
// Apart, since a row's slice is nearly always at hand.
#[inline(never)]
fn hold_anew(
    store: &BrickStore,
    cache: &MeshCache,
    level: Level,
    brick: BrickId,
    z: u8,
    held: &mut [Slices; SLICE_BRICKS as usize],
) -> bool
    requires items { IsRight store.now.grid store.now.samples cache.now.items }
    requires brick { brick.0 < brick_count store.now.grid }
    requires z { z < 8 }
    requires there { in_brick store.now.grid brick.0 1 1 (z + 1) ≡ true }
    requires held { All (AreSlices store.now level cache.now.items) held.old }
    ensures held { All (AreSlices store.now level cache.now.items) held.new }
    ensures places { length held.new ≡ 256 }
    ensures here { OnTrue result (IsHeld brick.0 z held.new) }
    ensures kept { result ≡ is_fresh brick.0 level cache.now.items }
{
    match cache.kept_entries(brick, level) {
        Some(entries) => {
            let across = across_of(z, has_few_bricks(store));
            held[(brick.0 % SLICE_BRICKS) as usize].move_to(store, brick, across, level, entries);
            true
        }
        None => false,
    }
}

/// Puts a slice of a brick in the brick's place, unless it is there already: by its cases where the cache keeps the brick's entries
/// at a level, else by its sign bytes; says whether they are cases.
#[inline(always)]
fn hold(
    store: &BrickStore,
    cache: &MeshCache,
    level: Level,
    brick: BrickId,
    z: u8,
    held: &mut Held<'_>,
) -> bool
    requires items { IsRight store.now.grid store.now.samples cache.now.items }
    requires brick { brick.0 < brick_count store.now.grid }
    requires z { z < 8 }
    requires there { in_brick store.now.grid brick.0 1 1 (z + 1) ≡ true }
    requires held { AreHeld store.now level cache.now.items held.old }
    ensures held { AreHeld store.now level cache.now.items held.new }
    ensures cased { result ≡ true → IsHeld brick.0 z held.new.slices.now }
    ensures signed { result ≡ false → HasSigns brick.0 z held.new.signed.now }
    ensures kept { result ≡ is_fresh brick.0 level cache.now.items }
{
    let place = (brick.0 % SLICE_BRICKS) as usize;
    if has_slice(&held.slices[place], brick, z) {
        return true;
    }
    if held.signed[place].has(brick, z) {
        return false;
    }
    if hold_anew(store, cache, level, brick, z, held.slices) {
        return true;
    }
    held.signed[place].move_to(store, brick, z, level);
    false
}

/// Replaces the rows by the first cases of a row.
#[inline(always)]
fn fill_cases(row: &[u16], width: u8, rows: &mut ArrayVec<u16, 8>)
    requires row { length row.now ≡ 8 }
    requires width { width ≤ 8 }
    ensures { rows.new.items ≡ take width row.now }
{
    // Eight cases are moved at once.
    *rows = ArrayVec::from_array_in((), u16x8::from_slice(row).to_array());
    if width < 8 {
        rows.truncate(width as usize);
    }
}

/// Replaces the rows by the cases of a row of some slices.
#[inline(always)]
fn fill_row(slices: &Slices, y: u8, z: u8, rows: &mut ArrayVec<u16, 8>)
    requires y { y < 8 }
    requires z { z < 8 }
    requires narrow { slices.now.width ≤ 8 }
    ensures { rows.new.items ≡ take slices.now.width (drop (8 * (y + 8 * (z % 4))) slices.now.cases) }
{
    let start = 8 * (y as usize + 8 * (z % 4) as usize);
    fill_cases(&slices.cases[start..start + 8], slices.width, rows);
}

/// The cases of the rows of a volume's bricks at a level: of a brick that the cache keeps at the level by its entries.
/// These are taken from the cache once for all rows of half a brick, or where many bricks of a slice share places, once
/// for all rows of a slice, since a walk asks for the rows of neighbours in between. The sign bytes of other bricks are
/// found once for all rows of a slice.
#[derive(Drop)]
pub struct CachedRows<'a> {
    store: &'a BrickStore,
    cache: &'a MeshCache,
    level: Level,
    held: Held<'a>,
}

impl<'a> Model for CachedRows<'a> {
    ghost use Rattle.mesh_cache.specs.Economy.{IsRight};
    ghost use Rattle.cached_mesh.specs.Kept.{Kept};
    ghost use Rattle.cached_mesh.specs.Held.{AreHeld};

    ghost Value = { Kept };

    ghost view = { λ r. record { volume = r.store.now; level = r.level; cache = r.cache.now } };

    ghost invariant = { λ r. IsRight r.store.now.grid r.store.now.samples r.cache.now.items
        × AreHeld r.store.now r.level r.cache.now.items r.held };
}

impl<'a> CachedRows<'a> {
    /// The rows of a volume at a level, by a cache that is right for it. `held` is room with no slices.
    pub fn new(
        store: &'a BrickStore,
        cache: &'a MeshCache,
        level: Level,
        held: Held<'a>,
    ) -> CachedRows<'a>
        requires items { IsRight store.now.grid store.now.samples cache.now.items }
        requires none { HoldsNone held }
        ensures { result ≡ record { volume = store.now; level = level; cache = cache.now } }
    {
        CachedRows {
            store,
            cache,
            level,
            held,
        }
    }
}

impl<'a> CellRows for CachedRows<'a> {
    ghost named = { named_by };

    #[inline(always)]
    fn row<L: Ledger>(
        &mut self,
        brick: BrickId,
        y: u8,
        z: u8,
        rows: &mut ArrayVec<u16, 8>,
        steps: &mut Steps<L>,
    ) {
        let (store, cache, level) = (self.store, self.cache, self.level);
        let place = (brick.0 % SLICE_BRICKS) as usize;
        if hold(store, cache, level, brick, z, &mut self.held) {
            fill_row(&self.held.slices[place], y, z, rows);
            return;
        }
        self.held.signed[place].extract_row(store, y, level, rows, steps);
    }

    fn count<L: Ledger>(&mut self, brick: BrickId, steps: &mut Steps<L>) -> Counts {
        let (store, cache, level) = (self.store, self.cache, self.level);
        if let Some(entries) = cache.kept_entries(brick, level) {
            return count_pages(entries);
        }
        count_anew(store, brick, level, steps)
    }
}
