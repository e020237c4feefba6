//! Whether all samples of a box are one value, by the spans of the bricks that have them.
ghost use Rattle.std.specs.Prelude.{◌≡◌, ℕ, ◌+◌, ◌*◌, ◌^◌, ◌<◌, ◌≤◌, IfSome, length};
ghost use Rattle.std.specs.Bool.{OnTrue};
ghost use Rattle.iso_defs.specs.Bricks.{brick_count, bricks_along};
ghost use Rattle.iso_base.specs.Points.{IsPoint};
ghost use Rattle.brick_store.specs.Copies.{first_brick_along};
ghost use Rattle.brick_store.specs.Holding.{brick_at};
ghost use Rattle.span_tree.specs.Nodes.{node_at};
ghost use Rattle.span_tree.specs.Spans.{one_span};

use crate::span::Span;
use brick_store::{brick_at, first_brick_along};
use iso_base::Sizes;
use voxel_list::FillBox;

/// Whether the brick that stands so many bricks along x, y and z has one value. The spans of the bricks stand from a place on.
fn is_one_brick(
    sizes: &Sizes,
    nodes: &[Span],
    half: usize,
    x: u32,
    y: u32,
    z: u32,
    value: i64,
) -> bool
    requires nodes { half + brick_count sizes.now ≤ length nodes.now }
    requires x { x < bricks_along sizes.now 0 }
    requires y { y < bricks_along sizes.now 1 }
    requires z { z < bricks_along sizes.now 2 }
    ensures { OnTrue result (node_at nodes.now (half + brick_at sizes.now x y z) ≡ one_span value) }
{
    nodes[half + brick_at(sizes, x, y, z).0 as usize].is_one(value)
}

/// Whether the bricks of a line along x have one value where they are the first that hold a point of the box.
fn is_one_line(
    sizes: &Sizes,
    nodes: &[Span],
    half: usize,
    area: &FillBox,
    y: u32,
    z: u32,
    value: i64,
) -> bool
    requires nodes { half + brick_count sizes.now ≤ length nodes.now }
    requires high { IsPoint sizes.now area.now.high }
    requires y { y < bricks_along sizes.now 1 }
    requires z { z < bricks_along sizes.now 2 }
    ensures { OnTrue result ((x : ℕ) → first_brick_along area.now.low.x ≤ x → x ≤ first_brick_along area.now.high.x
        → node_at nodes.now (half + brick_at sizes.now x y z) ≡ one_span value) }
{
    // Reading a size brings in that the sizes are those of a grid.
    let _ = sizes.nx();
    for x in first_brick_along(area.low().x)..first_brick_along(area.high().x) + 1 {
        if !is_one_brick(sizes, nodes, half, x, y, z, value) {
            return false;
        }
    }
    true
}

/// Whether the bricks of a slice have one value where they are the first that hold a point of the box.
fn is_one_slice(
    sizes: &Sizes,
    nodes: &[Span],
    half: usize,
    area: &FillBox,
    z: u32,
    value: i64,
) -> bool
    requires nodes { half + brick_count sizes.now ≤ length nodes.now }
    requires high { IsPoint sizes.now area.now.high }
    requires z { z < bricks_along sizes.now 2 }
    ensures { OnTrue result ((x y : ℕ) → first_brick_along area.now.low.x ≤ x → x ≤ first_brick_along area.now.high.x
        → first_brick_along area.now.low.y
        ≤ y → y ≤ first_brick_along area.now.high.y
        → node_at nodes.now (half + brick_at sizes.now x y z) ≡ one_span value) }
{
    // Reading a size brings in that the sizes are those of a grid.
    let _ = sizes.ny();
    for y in first_brick_along(area.low().y)..first_brick_along(area.high().y) + 1 {
        if !is_one_line(sizes, nodes, half, area, y, z, value) {
            return false;
        }
    }
    true
}

/// Whether the bricks that are the first to hold a point of a box have one value.
pub fn is_one(sizes: &Sizes, nodes: &[Span], half: usize, area: &FillBox, value: i64) -> bool
    requires nodes { half + brick_count sizes.now ≤ length nodes.now }
    requires high { IsPoint sizes.now area.now.high }
    ensures { OnTrue result ((x y z : ℕ) → first_brick_along area.now.low.x ≤ x → x ≤ first_brick_along area.now.high.x
        → first_brick_along area.now.low.y
        ≤ y → y ≤ first_brick_along area.now.high.y
        → first_brick_along area.now.low.z ≤ z → z ≤ first_brick_along area.now.high.z → node_at nodes.now (half
        + brick_at sizes.now x y z)
        ≡ one_span value) }
{
    // Reading a size brings in that the sizes are those of a grid.
    let _ = sizes.nz();
    for z in first_brick_along(area.low().z)..first_brick_along(area.high().z) + 1 {
        if !is_one_slice(sizes, nodes, half, area, z, value) {
            return false;
        }
    }
    true
}

/// The least sample of the first brick that holds the first point of a box.
pub fn first_least(sizes: &Sizes, nodes: &[Span], half: usize, area: &FillBox) -> i64
    requires nodes { half + brick_count sizes.now ≤ length nodes.now }
    requires high { IsPoint sizes.now area.now.high }
    ensures { result ≡ (node_at nodes.now (half
        + brick_at sizes.now (first_brick_along area.now.low.x) (first_brick_along area.now.low.y)
        (first_brick_along area.now.low.z))).least }
{
    // Reading a size brings in that the sizes are those of a grid.
    let _ = (sizes.nx(), sizes.ny(), sizes.nz());
    let low = area.low();
    let brick = brick_at(
        sizes,
        first_brick_along(low.x),
        first_brick_along(low.y),
        first_brick_along(low.z),
    );
    nodes[half + brick.0 as usize].least()
}
