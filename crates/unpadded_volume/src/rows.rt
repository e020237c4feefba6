//! Rows of samples off the pad's layer, copied out of the bricks: all that a line of bricks has of a plane at once, since the
//! copies of a brick lie together in memory and those of the next brick do not.
//!
//! A row is read eight samples at a time, from the second sample of a brick on: the first is the brick before's last.

ghost use Rattle.std.specs.Prelude.{◌≡◌, ℕ, ◌+◌, ◌-◌, ◌*◌, ◌%◌, ◌<◌, ◌≤◌, length, map};
ghost use Rattle.iso_defs.specs.Bricks.{bricks_along};
ghost use Rattle.iso_base.specs.Volume.{inner_grid};
ghost use Rattle.brick_store.specs.Copies.{AreAllCopies};
ghost use Rattle.unpadded_volume.specs.Rows.{ArePieces, AreRowsOf, AreSamples, HasColumns};
ghost use Rattle.unpadded_volume.specs.Unpadded.{inner_samples};

use crate::places::layer_of;
use brick_store::{BrickId, BrickStore, bricks_along};
use iso_base::Sizes;
use samples::Packed;

/// Rows off the pad's layer that the same bricks have: the number of the first row and how many they are, the first brick
/// that they go through, and where they begin in it. The offsets across and up are the same in each brick behind.
#[derive(Clone, Copy)]
struct BrickRows {
    row: u32,
    count: u32,
    first: u32,
    x: u32,
    y: u32,
    z: u32,
}

/// The rows from one on that the same bricks have.
fn rows_of_bricks(store: &BrickStore, sizes: &Sizes, row: u32) -> BrickRows
    requires sizes { sizes.now ≡ inner_grid store.now }
    requires row { row < sizes.now.ny * sizes.now.nz }
    ensures rows { AreRowsOf store.now result }
    ensures first { result.row ≡ row }
    ensures some { 0 < result.count }
    ensures within { row + result.count ≤ sizes.now.ny * sizes.now.nz }
{
    let stored = store.sizes();
    let layer = layer_of(store);
    let (y, z) = (row % sizes.ny() + layer, row / sizes.ny() + layer);
    let (across, up) = (y.saturating_sub(1) / 8, z.saturating_sub(1) / 8);
    let (along_x, along_y) = (bricks_along(stored.nx()), bricks_along(stored.ny()));
    BrickRows {
        row,
        count: (9 - (y - 8 * across)).min(sizes.ny() - row % sizes.ny()),
        first: along_x * (across + along_y * up),
        x: layer,
        y: y - 8 * across,
        z: z - 8 * up,
    }
}

/// Copies so many samples of each of some rows of a brick, from a place of its copies on, into rows of samples from a column on.
#[inline(always)]
fn copy_pieces<T: Packed>(
    copies: &[T],
    from: usize,
    count: usize,
    rows: usize,
    samples: &mut [T],
    at: usize,
    width: usize,
)
    requires copies { length copies.now ≡ 729 }
    requires rows { rows ≤ 9 }
    requires inside { from + 9 * rows + count ≤ 738 }
    requires fits { at + count ≤ width }
    requires room { width * rows ≤ length samples.old }
    ensures { ArePieces (map T.value copies.now) (map T.value samples.old) (map T.value samples.new) from count rows
        at width }
{
    for row in 0..rows {
        let source = from + 9 * row;
        let target = width * row + at;
        samples[target..target + count].copy_from_slice(&copies[source..source + count]);
    }
}

/// Copies so many samples that a brick has of each of some rows, from an offset along x on.
#[inline(always)]
fn copy_from_brick<T: Packed>(
    store: &BrickStore,
    copies: &[T],
    sizes: &Sizes,
    rows: &BrickRows,
    brick: u32,
    offset: usize,
    count: usize,
    samples: &mut [T],
    at: usize,
)
    requires copies { AreAllCopies store.now.grid store.now.samples (map T.value copies.now) }
    requires sizes { sizes.now ≡ inner_grid store.now }
    requires rows { AreRowsOf store.now rows.now }
    requires brick { brick < bricks_along store.now.grid 0 }
    requires place { 8 * brick + offset ≡ at + rows.now.x }
    requires inside { offset + count ≤ 9 }
    requires fits { at + count ≤ sizes.now.nx }
    requires room { sizes.now.nx * rows.now.count ≤ length samples.old }
    requires before { HasColumns store.now rows.now at (map T.value samples.old) }
    ensures { HasColumns store.now rows.now (at + count) (map T.value samples.new) }
{
    // Reading the sizes brings in what is true of every volume.
    let _ = store.sizes();
    let from = offset + (9 * (rows.y + 9 * rows.z)) as usize;
    copy_pieces(
        store.brick_in(copies, BrickId(rows.first + brick)),
        from,
        count,
        rows.count as usize,
        samples,
        at,
        sizes.nx() as usize,
    );
}

/// Copies eight samples of each of some rows from each brick, as far as eight are left, and says how many of a row these are.
#[inline(always)]
fn copy_eights<T: Packed>(
    store: &BrickStore,
    copies: &[T],
    sizes: &Sizes,
    rows: &BrickRows,
    samples: &mut [T],
) -> usize
    requires copies { AreAllCopies store.now.grid store.now.samples (map T.value copies.now) }
    requires sizes { sizes.now ≡ inner_grid store.now }
    requires rows { AreRowsOf store.now rows.now }
    requires room { sizes.now.nx * rows.now.count ≤ length samples.old }
    ensures columns { HasColumns store.now rows.now result (map T.value samples.new) }
    ensures eights { result % 8 ≡ 0 }
    ensures within { result ≤ sizes.now.nx }
    ensures few { sizes.now.nx < result + 8 }
{
    // Reading the sizes brings in what is true of every volume.
    let _ = store.sizes();
    let width = sizes.nx() as usize;
    let mut x = 0;
    while x + 8 <= width {
        let brick = (x / 8) as u32;
        copy_from_brick(
            store,
            copies,
            sizes,
            rows,
            brick,
            rows.x as usize,
            8,
            samples,
            x,
        );
        x += 8;
    }
    x
}

/// Copies what is left of each of some rows behind the eights: one brick has it, the last or the one before.
fn copy_rest<T: Packed>(
    store: &BrickStore,
    copies: &[T],
    sizes: &Sizes,
    rows: &BrickRows,
    x: usize,
    samples: &mut [T],
)
    requires copies { AreAllCopies store.now.grid store.now.samples (map T.value copies.now) }
    requires sizes { sizes.now ≡ inner_grid store.now }
    requires rows { AreRowsOf store.now rows.now }
    requires eights { x % 8 ≡ 0 }
    requires within { x ≤ sizes.now.nx }
    requires few { sizes.now.nx < x + 8 }
    requires room { sizes.now.nx * rows.now.count ≤ length samples.old }
    requires before { HasColumns store.now rows.now x (map T.value samples.old) }
    ensures { HasColumns store.now rows.now sizes.now.nx (map T.value samples.new) }
{
    let stored = store.sizes();
    let count = sizes.nx() as usize - x;
    if count == 0 {
        return;
    }
    let brick = (x as u32 / 8).min(bricks_along(stored.nx()) - 1);
    let offset = (x as u32 + rows.x - 8 * brick) as usize;
    copy_from_brick(store, copies, sizes, rows, brick, offset, count, samples, x);
}

/// Copies the samples of rows off the pad's layer, from a row on, one row behind another, as many as the same bricks have of
/// them, and says before which row they end.
pub(crate) fn copy_rows<T: Packed>(
    store: &BrickStore,
    copies: &[T],
    sizes: &Sizes,
    row: u32,
    samples: &mut [T],
) -> u32
    requires copies { AreAllCopies store.now.grid store.now.samples (map T.value copies.now) }
    requires sizes { sizes.now ≡ inner_grid store.now }
    requires row { row < sizes.now.ny * sizes.now.nz }
    requires room { sizes.now.nx * 9 ≤ length samples.old }
    ensures some { row < result }
    ensures within { result ≤ sizes.now.ny * sizes.now.nz }
    ensures few { result ≤ row + 9 }
    ensures value { AreSamples (inner_samples store.now) (row * sizes.now.nx) ((result - row) * sizes.now.nx)
        (map T.value samples.new) }
{
    // Reading both brings in what is true of every volume and of every grid.
    let _ = (store.sizes(), sizes.nx());
    let rows = rows_of_bricks(store, sizes, row);
    let x = copy_eights(store, copies, sizes, &rows, samples);
    copy_rest(store, copies, sizes, &rows, x, samples);
    rows.row + rows.count
}
