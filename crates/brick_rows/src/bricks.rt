//! The bricks that hold a row of points.
ghost use Rattle.std.specs.Prelude.{◌≡◌, ◌+◌, ◌-◌, ◌*◌, ◌/◌, ◌<◌, ◌≤◌, min};
ghost use Rattle.brick_rows.specs.Bricks.{next_at};

use brick_store::bricks_along;
use iso_base::Sizes;

/// The bricks that hold a row of points, which stand one after the other along x: the number of the first one, and where the
/// row is in each of them.
#[derive(Clone, Copy)]
pub struct BrickRow {
    pub first: u32,
    pub y: u8,
    pub z: u8,
}

impl BrickRow {
    ghost use Rattle.brick_rows.specs.Bricks.{HoldRow};

    /// The bricks that hold the points (x, y, z) for all x; of those at a border between bricks, the last ones.
    pub fn of(sizes: &Sizes, y: u32, z: u32) -> BrickRow
        requires y { y < sizes.now.ny }
        requires z { z < sizes.now.nz }
        ensures { HoldRow sizes.now y z result }
    {
        let (along_x, along_y) = (bricks_along(sizes.nx()), bricks_along(sizes.ny()));
        let brick_y = (y / 8).min(along_y - 1);
        let brick_z = (z / 8).min(bricks_along(sizes.nz()) - 1);
        BrickRow {
            first: along_x * (brick_y + along_y * brick_z),
            y: (y - 8 * brick_y) as u8,
            z: (z - 8 * brick_z) as u8,
        }
    }

    /// The row of bricks of points that begin a row of cells, so that they are not the last along y and z.
    #[inline(always)]
    pub(crate) fn of_cells(sizes: &Sizes, y: u32, z: u32) -> BrickRow
        requires y { y + 1 < sizes.now.ny }
        requires z { z + 1 < sizes.now.nz }
        ensures { HoldRow sizes.now y z result }
    {
        let (along_x, along_y) = (bricks_along(sizes.nx()), bricks_along(sizes.ny()));
        BrickRow {
            first: along_x * (y / 8 + along_y * (z / 8)),
            y: (y % 8) as u8,
            z: (z % 8) as u8,
        }
    }
}

/// Where the samples of a row of points begin in its first brick, among those of all bricks.
#[inline(always)]
pub(crate) fn row_place(row: BrickRow) -> usize
    ensures { result ≡ 729 * row.first + 9 * (row.y + 9 * row.z) }
{
    729 * row.first as usize + 9 * (row.y as usize + 9 * row.z as usize)
}

/// A row of points: its coordinates along y and z, its bricks, and how many rows further along y and z the next ones are, 1, or 0 where
/// there is none. The bricks that hold the row have the samples of the next ones too.
#[derive(Clone, Copy)]
pub struct PointRow {
    pub y: u32,
    pub z: u32,
    pub bricks: BrickRow,
    pub up: u8,
    pub far: u8,
}

/// How far the next coordinate is: 1, or 0 where this is the last one.
#[inline(always)]
fn step_along(at: u32, size: u32) -> u8
    requires { at < size }
    ensures value { at + result ≡ next_at at size }
    ensures bound { result ≤ 1 }
{
    u8::from(at + 1 < size)
}

impl PointRow {
    ghost use Rattle.brick_rows.specs.Bricks.{IsPointRow};

    /// The row of the points (x, y, z) for all x.
    #[inline(always)]
    pub fn of(sizes: &Sizes, y: u32, z: u32) -> PointRow
        requires y { y < sizes.now.ny }
        requires z { z < sizes.now.nz }
        ensures row { IsPointRow sizes.now result }
        ensures y { result.y ≡ y }
        ensures z { result.z ≡ z }
    {
        PointRow {
            y,
            z,
            bricks: BrickRow::of(sizes, y, z),
            up: step_along(y, sizes.ny()),
            far: step_along(z, sizes.nz()),
        }
    }
}
