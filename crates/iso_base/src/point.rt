//! Points of a grid, and their indices.

ghost use Rattle.std.specs.Prelude.{◌≡◌, ◌<◌};
ghost use Rattle.iso_defs.specs.Grid.{point_count};
ghost use Rattle.iso_base.specs.Volume.{IsGrid};
ghost use Rattle.iso_base.specs.Points.{IsPoint, point_at, index_of, is_point};

use crate::sizes::Sizes;

/// A point of a grid: how many samples it lies from the first one along x, y and z.
#[derive(Clone, Copy, PartialEq, Eq)]
pub struct Point {
    pub x: u32,
    pub y: u32,
    pub z: u32,
}

/// The point at an index.
pub fn point_of(sizes: &Sizes, index: u32) -> Point
    requires { index < point_count sizes.now }
    ensures value { result ≡ point_at sizes.now index }
    ensures in_grid { IsPoint sizes.now result }
    ensures index { index_of sizes.now result ≡ index }
{
    let row = index / sizes.nx();
    Point {
        x: index % sizes.nx(),
        y: row % sizes.ny(),
        z: row / sizes.ny(),
    }
}

/// The index of a point: x is fastest, z slowest.
pub fn index(sizes: &Sizes, point: Point) -> u32
    requires { IsPoint sizes.now point }
    ensures value { result ≡ index_of sizes.now point }
    ensures bound { result < point_count sizes.now }
    ensures found { point_at sizes.now result ≡ point }
    ensures grid { IsGrid sizes.now }
{
    point.x + sizes.nx() * (point.y + sizes.ny() * point.z)
}

/// Whether a point lies in the grid.
pub fn is_inside(sizes: &Sizes, point: Point) -> bool
    ensures { result ≡ is_point sizes.now point }
{
    point.x < sizes.nx() && point.y < sizes.ny() && point.z < sizes.nz()
}
