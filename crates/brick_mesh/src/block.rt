//! A brick of a volume at a level.
ghost use Rattle.std.specs.Prelude.{◌≡◌, ℕ, ◌+◌, ◌-◌, ◌/◌, ◌%◌, ◌<◌, ◌≤◌, ◌^◌, All, length, map, unsigned_abs};
ghost use Rattle.iso_defs.specs.Bricks.{brick_cell, brick_count, has_cell, in_brick};
ghost use Rattle.iso_defs.specs.Cell.{cell_values};
ghost use Rattle.iso_base.specs.Volume.{IsSample, shifted, sample};
ghost use Rattle.brick_mesh.specs.Block.{IsCell, block_of, corner_place, corner_values, heights};
ghost use Rattle.brick_store.specs.Copies.{AreCopiesOf};
ghost use Rattle.brick_store.specs.Holding.{points_along};
ghost use Rattle.packed_samples.specs.Runs.{samples_in};

use brick_store::{BrickId, BrickStore};
use iso_base::Level;
use packed_samples::PackedRun;
use samples::Packed;
use std::marker::Model;

/// The shifted value of a sample among the copies of a brick.
#[inline(always)]
fn height<T: Packed>(copies: &[T], place: usize, level: Level) -> i64
    requires place { place < length copies.now }
    requires range { IsSample (sample (map T.value copies.now) place) }
    ensures value { result ≡ shifted (sample (map T.value copies.now) place) level }
    ensures bound { unsigned_abs result < 2 ^ 44 }
{
    level.shifted(copies[place].sample())
}

/// The shifted value at a corner of the cell whose lowest copy is at this place.
#[inline(always)]
fn corner_value<T: Packed>(copies: &[T], low: usize, corner: usize, level: Level) -> i64
    requires corner { corner < 8 }
    requires inside { low + 91 < length copies.now }
    requires range { (corner : ℕ) → corner < 8 →
        IsSample (sample (map T.value copies.now) (low + corner_place corner)) }
    ensures value { result ≡ shifted (sample (map T.value copies.now) (low + corner_place corner)) level }
    ensures bound { unsigned_abs result < 2 ^ 44 }
{
    let place = low + (corner % 2 + 9 * (corner / 2 % 2 + 9 * (corner / 4)));
    height(copies, place, level)
}

/// The shifted values at the corners of the cell whose lowest copy is at this place.
#[inline(always)]
fn corner_values<T: Packed>(copies: &[T], low: usize, level: Level) -> [i64; 8]
    requires inside { low + 91 < length copies.now }
    requires range { (corner : ℕ) → corner < 8 →
        IsSample (sample (map T.value copies.now) (low + corner_place corner)) }
    ensures value { result ≡ corner_values level (map T.value copies.now) low }
    ensures bound { All (λ v. unsigned_abs v < 2 ^ 44) result }
{
    [
        corner_value(copies, low, 0, level),
        corner_value(copies, low, 1, level),
        corner_value(copies, low, 2, level),
        corner_value(copies, low, 3, level),
        corner_value(copies, low, 4, level),
        corner_value(copies, low, 5, level),
        corner_value(copies, low, 6, level),
        corner_value(copies, low, 7, level),
    ]
}

/// The shifted values at the corners of a cell of a brick, from the brick's copies.
#[inline(always)]
fn values_among<T: Packed>(
    store: &BrickStore,
    brick: BrickId,
    level: Level,
    copies: &[T],
    cell: u32,
) -> [i64; 8]
    requires brick { brick.0 < brick_count store.now.grid }
    requires copies { AreCopiesOf store.now.grid store.now.samples brick.0 (map T.value copies.now) }
    requires cell { IsCell (block_of store.now brick.0 level) cell }
    ensures value { result ≡ cell_values store.now.grid (heights (block_of store.now brick.0 level))
        (brick_cell store.now.grid brick.0 cell) }
    ensures bound { All (λ v. unsigned_abs v < 2 ^ 44) result }
{
    // Reading the sizes brings in what is true of every volume.
    let _ = store.sizes();
    let low = cell % 8 + 9 * (cell / 8 % 8 + 9 * (cell / 64));
    corner_values(copies, low as usize, level)
}

/// A brick of a volume at a level. Contracts see its grid, its samples by index, its number and the level.
#[derive(Drop)]
pub struct Block<'a> {
    store: &'a BrickStore,
    brick: BrickId,
    level: Level,
    along_x: u8,
    along_y: u8,
    along_z: u8,
}

impl<'a> Model for Block<'a> {
    ghost use Rattle.brick_mesh.specs.Block.{BrickAt, IsSpanned};

    ghost Value = { BrickAt };

    ghost view = { λ b. record {
      grid = b.store.now.grid;
      samples = b.store.now.samples;
      brick = b.brick.0;
      level = b.level;
    } };

    ghost invariant = { λ b. IsSpanned b.store.now.grid b.brick.0 b.along_x b.along_y b.along_z };
}

impl<'a> Block<'a> {
    /// A brick of a store at a level.
    pub fn of(store: &'a BrickStore, brick: BrickId, level: Level) -> Block<'a>
        requires { brick.0 < brick_count store.now.grid }
        ensures { result ≡ block_of store.now brick.0 level }
    {
        // The sizes are those of a grid, so each brick has two points along each axis at least.
        let _ = store.sizes();
        let [along_x, along_y, along_z] = store.points_along(brick);
        Block {
            store,
            brick,
            level,
            along_x,
            along_y,
            along_z,
        }
    }

    /// The level.
    pub fn level(&self) -> Level
        ensures { result ≡ self.now.level }
    {
        self.level
    }

    /// Whether the brick has points in a row.
    pub fn has_row(&self, y: u8, z: u8) -> bool
        requires y { y < 9 }
        requires z { z < 9 }
        ensures { result ≡ in_brick self.now.grid self.now.brick 0 y z }
    {
        y < self.along_y && z < self.along_z
    }

    /// Whether the brick has this cell.
    #[inline(always)]
    pub fn has_cell(&self, cell: u32) -> bool
        requires { cell < 512 }
        ensures { result ≡ has_cell self.now.grid self.now.brick cell }
    {
        // Most bricks have all cells, which is found out once for all of them.
        let whole = self.along_x == 9 && self.along_y == 9 && self.along_z == 9;
        whole
            || (cell % 8 + 1 < u32::from(self.along_x)
                && cell / 8 % 8 + 1 < u32::from(self.along_y)
                && cell / 64 + 1 < u32::from(self.along_z))
    }

    /// How many cells the brick has along x.
    pub fn cells_along_x(&self) -> u8
        ensures value { result ≡ points_along self.now.grid self.now.brick 0 - 1 }
        ensures bound { result ≤ 8 }
    {
        self.along_x - 1
    }

    /// The copies of the brick's samples.
    pub fn copies(&self) -> PackedRun<'_>
        ensures { AreCopiesOf self.now.grid self.now.samples self.now.brick (samples_in result) }
    {
        self.store.brick(self.brick)
    }

    /// The shifted values at the corners of a cell of the brick, from the brick's copies.
    #[inline(always)]
    pub fn values<T: Packed>(&self, copies: &[T], cell: u32) -> [i64; 8]
        requires copies { AreCopiesOf self.now.grid self.now.samples self.now.brick (map T.value copies.now) }
        requires cell { IsCell self.now cell }
        ensures value { result ≡ cell_values self.now.grid (heights self.now)
            (brick_cell self.now.grid self.now.brick cell) }
        ensures bound { All (λ v. unsigned_abs v < 2 ^ 44) result }
    {
        values_among(self.store, self.brick, self.level, copies, cell)
    }
}
