//! Entries of bricks, and the cases of their rows.
ghost use Rattle.std.specs.Prelude.{◌≡◌, ◌<◌, IfOk};

use crate::stores::{level_of, sizes_of};
use arrayvec::ArrayVec;
use brick_mesh::{extract_brick, extract_row};
use brick_store::{BrickId, BrickStore};
use cached_mesh::count_entries;
use iso_base::{Level, Memory, Point, SampleKind, Sizes, Steps, VoxelData};
use std::alloc::Global;
use std::marker::Brand;
use std::process::Abort;
use std::sync::ledger::{Blank, Ledger};
use volume_gen::generate;
use voxel_list::VoxelList;

/// One cell, whose lowest face is ambiguous at level 5: its products are 4 and 5 less its third sample.
fn one_cell(alloc: Global, third: u8) -> Result<BrickStore, Memory>
    ensures { IfOk result (λ store. store.grid ≡ record { nx = 2; ny = 2; nz = 2 }) }
{
    let Some(sizes) = sizes_of(2, 2, 2) else {
        return Err(Memory);
    };
    let samples = vec![in alloc; 7, 4, i64::from(third), 7, 4, 4, 4, 4]?;
    let volume = VoxelList::of(VoxelData::new(sizes, SampleKind::U8, samples));
    BrickStore::of(alloc, volume)
}

/// The entries and the only row of the brick of one cell.
fn extract<L: Ledger>(
    store: &BrickStore,
    level: Level,
    entries: &mut ArrayVec<u32, 512>,
    rows: &mut ArrayVec<u16, 8>,
    blank: Blank,
)
    requires named { blank.name ≡ L.name }
    requires shares { blank.parts ≡ L.parts }
    requires one { blank.parts ≡ 1 }
    requires grid { store.now.grid ≡ record { nx = 2; ny = 2; nz = 2 } }
{
    let (book, share) = blank.open::<L>();
    let mut steps = Steps::new(book, share);
    extract_brick(store, BrickId(0), level, entries, &mut steps);
    extract_row(store, BrickId(0), 0, 0, level, rows, &mut steps);
}

/// The same, with a counter of its own.
fn extract_all(
    store: &BrickStore,
    level: Level,
    entries: &mut ArrayVec<u32, 512>,
    rows: &mut ArrayVec<u16, 8>,
)
    requires { store.now.grid ≡ record { nx = 2; ny = 2; nz = 2 } }
{
    extract::<Brand>(store, level, entries, rows, Blank::new(1));
}

/// The entries of the brick of one cell, and the case of its only row, at a level in thousandths.
fn check_cell(rt: &impl Abort, store: &BrickStore, level: i128, found: &[u32], case: u16)
    requires { store.now.grid ≡ record { nx = 2; ny = 2; nz = 2 } }
{
    let (mut entries, mut rows) = (ArrayVec::new(), ArrayVec::new());
    entries.push(7);
    extract_all(store, level_of(rt, level), &mut entries, &mut rows);
    assert_eq!(rt; entries.as_slice(), found);
    assert_eq!(rt; rows.as_slice(), [case].as_slice());
}

/// The products of the lowest face are 4 and 4.
#[test]
fn a_tie_on_the_lowest_face(rt: HostRuntime) {
    let store = one_cell(rt.alloc(), 1).expect(&rt, "memory suffices");
    check_cell(&rt, &store, 5_000, &[11], 11);
}

/// The products of the lowest face are 4 and 5.
#[test]
fn no_tie_on_the_lowest_face(rt: HostRuntime) {
    let store = one_cell(rt.alloc(), 0).expect(&rt, "memory suffices");
    check_cell(&rt, &store, 5_000, &[10], 10);
}

#[test]
fn no_cell_with_a_crossing_edge(rt: HostRuntime) {
    let store = one_cell(rt.alloc(), 1).expect(&rt, "memory suffices");
    check_cell(&rt, &store, 1_000, &[], 655);
}

/// A cell with two corners above, across a face, has two loops of three edges where the face holds them apart, and one loop of
/// six, around a centre, where it joins them.
#[test]
fn entries_are_counted(rt: HostRuntime) {
    let apart = count_entries(&[10]);
    assert_eq!(rt; (apart.centres, apart.faces), (0, 2));
    let both = count_entries(&[10, 1024 + 11]);
    assert_eq!(rt; (both.centres, both.faces), (1, 8));
}

/// The state after a state, of numbers that look like chance.
fn next(state: u64) -> u64 {
    state
        .wrapping_mul(6_364_136_223_846_793_005)
        .wrapping_add(1_442_695_040_888_963_407)
}

/// Below a bound.
fn draw_below(state: u64, bound: u32) -> u32
    requires { 0 < bound }
    ensures { result < bound }
{
    (state >> 33) as u32 % bound
}

/// Sets fifteen hundred points of a volume of bytes without a pad, some of them several times.
fn scatter(store: &mut BrickStore) {
    let mut state = 1;
    for _ in 0..1500 {
        let (sizes, pad, kind) = (store.sizes(), store.pad(), store.kind());
        let SampleKind::U8 = kind else {
            return;
        };
        if pad.is_some() {
            return;
        }
        let x = next(state);
        let y = next(x);
        state = next(y);
        let p = Point {
            x: draw_below(x, sizes.nx()),
            y: draw_below(y, sizes.ny()),
            z: draw_below(state, sizes.nz()),
        };
        let value = i64::from((state >> 56) as u8);
        store.set(p, value);
    }
}

/// The sum of entries: 31 times the sum before, and the entry.
fn sum_of(entries: &[u32]) -> u64 {
    let mut sum = 0u64;
    for entry in entries {
        sum = sum.wrapping_mul(31).wrapping_add(u64::from(*entry));
    }
    sum
}

/// Whether the bricks of a store have so many entries each, and these sums.
fn have_sums<L: Ledger>(
    store: &BrickStore,
    level: Level,
    wanted: &[(usize, u64)],
    blank: Blank,
) -> bool
    requires named { blank.name ≡ L.name }
    requires shares { blank.parts ≡ L.parts }
    requires one { blank.parts ≡ 1 }
{
    let (book, share) = blank.open::<L>();
    let mut steps = Steps::new(book, share);
    let mut entries = ArrayVec::new();
    let mut brick = 0;
    for (count, sum) in wanted {
        if brick >= store.brick_count() {
            return false;
        }
        extract_brick(store, BrickId(brick), level, &mut entries, &mut steps);
        if entries.len() != *count || sum_of(entries.as_slice()) != *sum {
            return false;
        }
        brick += 1;
    }
    brick == store.brick_count()
}

/// How many entries each brick has, and their sum.
const SUMS: [(usize, u64); 12] = [
    (504, 9_649_620_141_933_448_278),
    (390, 17_625_225_115_531_019_019),
    (64, 12_194_442_395_792_130_314),
    (53, 17_820_795_244_888_508_896),
    (64, 758_940_442_853_778_975),
    (5, 127_691_102_730),
    (100, 17_481_633_643_957_850_002),
    (126, 887_028_813_876_636_500),
    (13, 2_518_925_560_932_291_866),
    (14, 11_721_999_579_406_854_648),
    (11, 582_877_197_993_591_815),
    (2, 82_134),
];

/// Twelve bricks behind many edits.
fn scattered_store(alloc: Global) -> Result<BrickStore, Memory> {
    let Ok(sizes) = Sizes::new(18, 10, 11) else {
        return Err(Memory);
    };
    let list = VoxelList::of(generate(alloc, 0, &sizes)?);
    let mut store = BrickStore::of(alloc, list)?;
    scatter(&mut store);
    Ok(store)
}

#[test]
fn entries_after_many_edits(rt: HostRuntime) {
    let store = scattered_store(rt.alloc()).expect(&rt, "memory suffices");
    let level = level_of(&rt, 64_500);
    assert!(rt; have_sums::<Brand>(&store, level, &SUMS, Blank::new(1)));
}
