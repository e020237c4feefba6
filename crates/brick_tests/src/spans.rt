//! Trees of spans.
ghost use Rattle.std.specs.Prelude.{◌≡◌};

use crate::stores::{level_of, zeros};
use brick_store::{BrickId, BrickStore};
use iso_base::Point;
use span_tree::SpanTree;
use std::process::Abort;

/// Numbers and levels, and the next brick from each that is active at each.
fn check_next(rt: &impl Abort, tree: &SpanTree, wanted: &[(u32, i128, Option<BrickId>)]) {
    for (from, level, next) in wanted {
        let found = tree.next_active(*from, level_of(rt, *level));
        assert_eq!(rt; found, *next, "from {from} at {level}");
    }
}

/// Where nothing is active.
const NOWHERE: [(u32, i128, Option<BrickId>); 1] = [(0, 5_000, None)];

/// Where two bricks beside a point are active.
const TWO_ACTIVE: [(u32, i128, Option<BrickId>); 5] = [
    (0, 5_000, Some(BrickId(1))),
    (1, 5_000, Some(BrickId(1))),
    (2, 5_000, Some(BrickId(3))),
    (4, 5_000, None),
    (u32::MAX, 5_000, None),
];

/// Where the last point of all is 10, and the others 0.
const LAST_ACTIVE: [(u32, i128, Option<BrickId>); 4] = [
    (0, 1, Some(BrickId(7))),
    (0, 10_000, Some(BrickId(7))),
    (0, 0, None),
    (0, 10_001, None),
];

/// Two bricks are active once the tree is told of them.
fn check_touches(rt: &impl Abort, store: &BrickStore, tree: &mut SpanTree)
    requires grid { store.now.grid ≡ record { nx = 17; ny = 17; nz = 17 } }
    requires tree { tree.old.grid ≡ store.now.grid }
{
    check_next(rt, tree, &NOWHERE);
    tree.touch(store, BrickId(1));
    tree.touch(store, BrickId(3));
    check_next(rt, tree, &TWO_ACTIVE);
}

#[test]
fn next_bricks(rt: HostRuntime) {
    let mut store = zeros(rt.alloc()).expect(&rt, "memory suffices");
    let mut tree = SpanTree::of(rt.alloc(), &store).expect(&rt, "memory suffices");
    check_next(&rt, &tree, &NOWHERE);
    store.set(Point { x: 12, y: 8, z: 3 }, 10);
    check_touches(&rt, &store, &mut tree);
}

#[test]
fn a_tree_of_a_store(rt: HostRuntime) {
    let mut store = zeros(rt.alloc()).expect(&rt, "memory suffices");
    store.set(
        Point {
            x: 16,
            y: 16,
            z: 16,
        },
        10,
    );
    let tree = SpanTree::of(rt.alloc(), &store).expect(&rt, "memory suffices");
    check_next(&rt, &tree, &LAST_ACTIVE);
}
