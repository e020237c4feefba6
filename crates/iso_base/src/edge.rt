//! Names of lattice edges and of cells.

ghost use Rattle.std.specs.Prelude.{◌≡◌, ◌/◌, ◌%◌, ℕ};
ghost use Rattle.iso_base.specs.Points.{IsEdge, IsEdgeName, name_of, point_at};
ghost use Rattle.iso_base.specs.declared.point.Point.{Point};

use crate::point::{Point, index, point_of};
use crate::sizes::Sizes;

/// The name of a lattice edge: three times the index of its lower point, and its axis.
#[derive(Clone, Copy, PartialEq, Eq)]
pub struct EdgeName(pub u32);

/// The name of a cell: the index of its lowest point.
#[derive(Clone, Copy, PartialEq, Eq)]
pub struct CellName(pub u32);

/// The name of the lattice edge from a point along an axis: 0 is x, 1 is y, 2 is z.
pub fn edge_name(sizes: &Sizes, p: Point, axis: u8) -> EdgeName
    requires { IsEdge sizes.now p axis }
    ensures name { result.0 ≡ name_of sizes.now p axis }
    ensures edge { IsEdgeName sizes.now result.0 }
{
    EdgeName(3 * index(sizes, p) + u32::from(axis))
}

/// The lower point and the axis of an edge.
pub fn edge_of(sizes: &Sizes, name: EdgeName) -> (Point, u8)
    requires { IsEdgeName sizes.now name.0 }
    ensures point { result.0 ≡ point_at sizes.now (name.0 / 3) }
    ensures axis { result.1 ≡ name.0 % 3 }
    ensures inverse { name_of sizes.now result.0 result.1 ≡ name.0 }
    ensures only { (p : Point) (axis : ℕ) → IsEdge sizes.now p axis → name_of sizes.now p axis ≡ name.0 →
        (p ≡ result.0) × (axis ≡ result.1) }
{
    (point_of(sizes, name.0 / 3), (name.0 % 3) as u8)
}
