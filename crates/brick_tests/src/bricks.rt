//! Stores of bricks.
ghost use Rattle.std.specs.Prelude.{◌≡◌, ◌<◌, true, map};
ghost use Rattle.iso_defs.specs.Grid.{is_cell, point_count};
ghost use Rattle.brick_store.specs.Copies.{AreAllCopies};

use crate::stores::{MIDDLE, store_of_dots, zeros};
use arrayvec::ArrayVec;
use brick_store::{BrickId, BrickStore};
use iso_base::{CellName, Point, SampleKind};
use packed_samples::PackedRun;
use samples::Packed;
use std::process::Abort;
use voxel_list::VoxelList;

/// Points, the first brick that holds each, and the last one.
const HELD: [(Point, &[BrickId]); 4] = [
    (
        MIDDLE,
        &[
            BrickId(0),
            BrickId(1),
            BrickId(2),
            BrickId(3),
            BrickId(4),
            BrickId(5),
            BrickId(6),
            BrickId(7),
        ],
    ),
    (Point { x: 8, y: 0, z: 0 }, &[BrickId(0), BrickId(1)]),
    (
        Point {
            x: 16,
            y: 16,
            z: 16,
        },
        &[BrickId(7)],
    ),
    (Point { x: 7, y: 7, z: 7 }, &[BrickId(0)]),
];

/// The bricks that hold a point; none for a point off the store.
fn holding(store: &BrickStore, p: Point) -> ArrayVec<BrickId, 8> {
    let sizes = store.sizes();
    if p.x < sizes.nx() && p.y < sizes.ny() && p.z < sizes.nz() {
        return store.bricks_holding(p);
    }
    ArrayVec::new()
}

fn check_holding(rt: &impl Abort, store: &BrickStore) {
    assert_eq!(rt; store.brick_count(), 8);
    for (p, bricks) in HELD {
        assert_eq!(rt; holding(store, p).as_slice(), bricks);
    }
}

#[test]
fn bricks_that_hold_a_point(rt: HostRuntime) {
    let store = zeros(rt.alloc()).expect(&rt, "memory suffices");
    check_holding(&rt, &store);
}

/// The values of a cell, and its brick.
fn cell_in(store: &BrickStore, cell: CellName) -> ([i64; 8], BrickId)
    requires index { cell.0 < point_count store.now.grid }
    requires cell { is_cell store.now.grid cell.0 ≡ true }
{
    (store.cell_values(cell), store.brick_of(cell))
}

fn check_cells(rt: &impl Abort, store: &BrickStore)
    requires { store.now.grid ≡ record { nx = 17; ny = 17; nz = 17 } }
{
    let low = cell_in(store, CellName(7 + 17 * (7 + 17 * 7)));
    let high = cell_in(store, CellName(8 + 17 * (8 + 17 * 8)));
    assert_eq!(rt; low, ([0, 0, 0, 0, 0, 0, 0, 10], BrickId(0)));
    assert_eq!(rt; high, ([10, 0, 0, 0, 0, 0, 0, 0], BrickId(7)));
}

fn check_samples(rt: &impl Abort, store: &BrickStore)
    requires { store.now.grid ≡ record { nx = 17; ny = 17; nz = 17 } }
{
    assert_eq!(rt; store.get(MIDDLE), 10);
    assert_eq!(rt; store.get(Point { x: 9, y: 8, z: 8 }), 0);
    assert_eq!(rt; store.points_along(BrickId(3)), [9, 9, 9]);
    assert_eq!(rt; (store.kind(), store.pad()), (SampleKind::U8, None));
}

#[test]
fn a_sample_in_all_bricks(rt: HostRuntime) {
    let store = store_of_dots(rt.alloc()).expect(&rt, "memory suffices");
    check_samples(&rt, &store);
    check_cells(&rt, &store);
}

/// The first copy of the brick behind the last point, among those of all bricks.
fn first_of_last<T: Packed>(store: &BrickStore, copies: &[T]) -> i64
    requires grid { store.now.grid ≡ record { nx = 17; ny = 17; nz = 17 } }
    requires copies { AreAllCopies store.now.grid store.now.samples (map T.value copies.now) }
{
    store.brick_in(copies, BrickId(7))[0].sample()
}

fn check_first(rt: &impl Abort, store: &BrickStore)
    requires { store.now.grid ≡ record { nx = 17; ny = 17; nz = 17 } }
{
    let first = match store.copies() {
        PackedRun::U8(copies) => first_of_last(store, copies),
        PackedRun::I16(copies) => first_of_last(store, copies),
        PackedRun::U16(copies) => first_of_last(store, copies),
        PackedRun::I32(copies) => first_of_last(store, copies),
        PackedRun::I64(copies) => first_of_last(store, copies),
    };
    assert_eq!(rt; first, 10);
}

fn check_part(rt: &impl Abort, store: &BrickStore)
    requires { store.now.grid ≡ record { nx = 17; ny = 17; nz = 17 } }
{
    let last = store.brick(BrickId(0)).part(720, 9);
    assert_eq!(rt; last.length(), 9);
    assert_eq!(rt; (last.at(7), last.at(8)), (0, 10));
}

fn check_part_copy(rt: &impl Abort, store: &BrickStore)
    requires { store.now.grid ≡ record { nx = 17; ny = 17; nz = 17 } }
{
    let mut row = [0; 9];
    store.brick(BrickId(7)).part(0, 9).copy_to(&mut row);
    assert_eq!(rt; row, [10, 0, 0, 0, 0, 0, 0, 0, 0]);
}

fn check_row(rt: &impl Abort, store: &BrickStore)
    requires { store.now.grid ≡ record { nx = 17; ny = 17; nz = 17 } }
{
    let mut row = [0; 9];
    store.copy_row(Point { x: 3, y: 8, z: 8 }, &mut row);
    assert_eq!(rt; row, [0, 0, 0, 0, 0, 10, 0, 0, 0]);
}

#[test]
fn copies_of_a_sample(rt: HostRuntime) {
    let store = store_of_dots(rt.alloc()).expect(&rt, "memory suffices");
    check_part(&rt, &store);
    check_part_copy(&rt, &store);
    check_row(&rt, &store);
    check_first(&rt, &store);
}

/// How many samples are not 0.
fn others(samples: &[i64]) -> usize {
    samples.iter().filter(|sample| **sample != 0).count()
}

fn check_list(rt: &impl Abort, list: &VoxelList)
    requires { list.now.grid ≡ record { nx = 17; ny = 17; nz = 17 } }
{
    assert_eq!(rt; list.get(MIDDLE), 10);
    assert_eq!(rt; others(list.samples()), 1);
    assert_eq!(rt; (list.kind(), list.pad()), (SampleKind::U8, None));
    assert_eq!(rt; list.sizes().count(), 4913);
}

#[test]
fn bricks_as_one_list(rt: HostRuntime) {
    let store = store_of_dots(rt.alloc()).expect(&rt, "memory suffices");
    let list = store.flat(rt.alloc()).expect(&rt, "memory suffices");
    check_list(&rt, &list);
    assert_eq!(rt; store.sizes().count(), 4913);
}
