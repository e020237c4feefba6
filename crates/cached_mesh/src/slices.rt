//! The cases of the cells of a brick that lie in some slices.
//!
//! Entries of a cached brick are read once for each half of it, and the cases of four slices of 256 bricks are held, so
//! that a brick's place is its last eight bits. To find where a slice begins, or to test each entry, costs more. All
//! eight slices would be read once, but their 528 KB lie on the stack. Where a slice has more than 320 bricks one slice
//! is held, since a brick would lose its place before its next slice is asked for.

ghost use Rattle.std.specs.Prelude.{◌≡◌, ℕ, ◌+◌, ◌*◌, ◌/◌, ◌<◌, ◌≤◌, All, List, slice_index, true};
ghost use Rattle.iso_defs.specs.Bricks.{brick_count, entries as entries_of_brick, in_brick};
ghost use Rattle.iso_base.specs.Volume.{field};
ghost use Rattle.mesh_cache.specs.Cache.{Item};
ghost use Rattle.mesh_cache.specs.Economy.{is_fresh};
ghost use Rattle.cached_mesh.specs.Slices.{AreNone, AreSlices};

use crate::entries::{Across, BRICK_CELLS, fill_across};
use brick_store::{BrickId, BrickStore, bricks_along};
use iso_base::Level;
use page_pool::Entries;

/// The bricks that have a place for their cases: all of a slice of bricks in a volume of 128 points along x and y. The place of a
/// brick is found without a division.
pub const SLICE_BRICKS: u32 = 256;

/// The most bricks of a slice with which several slices of a brick's cells are held at once. Where there are more, a brick has
/// lost its place before its next slice is asked for. Of the 289 of a volume of 130 points, which is one of 128 in a pad,
/// most have a place of their own.
const MOST_BRICKS: u32 = 320;

/// The most slices of a brick's cells that are held, half of them: more take more room than they save time.
const HELD_SLICES: u8 = 4;

/// The cells of these slices.
const HELD_CELLS: usize = 64 * HELD_SLICES as usize;

/// The case numbers of the cells of a kept brick in some slices, 0 of those without a crossing edge: which
/// brick and which slices, all in one half of it, how many cells a row has, and the cells of the rows of this half,
/// eight places for each row along y, and eight rows for each slice.
#[derive(Clone, Copy, Drop)]
pub struct Slices {
    pub brick: u32,
    pub across: Across,
    pub width: u8,
    pub cases: [u16; HELD_CELLS],
}

/// Copies the cases of the slices of a half of a brick, from its first slice on.
#[inline(always)]
fn fill_half(all: &[u16; BRICK_CELLS], first: u8, cases: &mut [u16; HELD_CELLS])
    requires first { first ≤ 4 }
    ensures { (k : ℕ) → k < 256 → slice_index cases.new k ≡ slice_index all.now (64 * first + k) }
{
    let start = 64 * first as usize;
    cases.copy_from_slice(&all[start..start + HELD_CELLS]);
}

impl Slices {
    /// No slices.
    #[inline(always)]
    fn none() -> Slices
        ensures { AreNone result }
    {
        Slices {
            brick: 0,
            across: Across { first: 0, end: 0 },
            width: 0,
            cases: [0; HELD_CELLS],
        }
    }

    /// Turns to some slices of a brick, by its entries: wherever these are kept at the level.
    #[inline(always)]
    pub fn move_to(
        &mut self,
        store: &BrickStore,
        brick: BrickId,
        across: Across,
        level: Level,
        entries: Entries<'_>,
    )
        requires brick { brick.0 < brick_count store.now.grid }
        requires first { across.first < across.end }
        requires end { across.end ≤ 8 }
        requires half { across.end ≤ across.first / 4 * 4 + 4 }
        requires there { in_brick store.now.grid brick.0 1 1 (across.first + 1) ≡ true }
        requires entries { entries ≡ entries_of_brick store.now.grid (field store.now.samples level) brick.0 }
        ensures brick { self.new.brick ≡ brick.0 }
        ensures across { self.new.across ≡ across }
        ensures slices { (items : List Item) → is_fresh brick.0 level items ≡ true
            → AreSlices store.now level items self.new }
    {
        // Reading the sizes brings in what is true of every volume.
        let _ = store.sizes();
        // The clauses alone speak of the level.
        let _ = level;
        let [along_x, _, _] = store.points_along(brick);
        self.brick = brick.0;
        self.across = across;
        self.width = along_x - 1;
        let mut all = [0; BRICK_CELLS];
        fill_across(entries, across, &mut all);
        fill_half(
            &all,
            across.first / HELD_SLICES * HELD_SLICES,
            &mut self.cases,
        );
    }
}

/// No slices, in each place.
#[inline(always)]
pub fn no_slices() -> [Slices; SLICE_BRICKS as usize]
    ensures { All AreNone result }
{
    [Slices::none(); SLICE_BRICKS as usize]
}

/// Lets the slices in each place go. Apart, so that what is moved is gone from the stack then.
#[inline(never)]
pub fn clear_slices(held: &mut [Slices; SLICE_BRICKS as usize])
    ensures { All AreNone held.new }
{
    *held = no_slices();
}

/// Whether a slice has few bricks. This saves work and no result rests on it: the contract leaves both answers free.
pub fn has_few_bricks(store: &BrickStore) -> bool {
    let sizes = store.sizes();
    bricks_along(sizes.nx()) * bricks_along(sizes.ny()) <= MOST_BRICKS
}

/// Which slices of a brick are held when one of them is asked for: those of its half of the brick, or this one.
#[inline(always)]
pub fn across_of(z: u8, many: bool) -> Across
    requires z { z < 8 }
    ensures first { result.first ≤ z }
    ensures end { z < result.end }
    ensures bound { result.end ≤ 8 }
    ensures half { result.end ≤ result.first / 4 * 4 + 4 }
{
    if many {
        let first = z / HELD_SLICES * HELD_SLICES;
        Across {
            first,
            end: first + HELD_SLICES,
        }
    } else {
        Across {
            first: z,
            end: z + 1,
        }
    }
}
