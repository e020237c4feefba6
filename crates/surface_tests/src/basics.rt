//! Tests of `iso_base`.

use crate::grids::three_a_side;
use arrayvec::ArrayString;
use iso_base::{
    EdgeName, Level, Point, SizeFault, Sizes, Thousandth, edge_name, edge_of, index, point_of,
    put_decimal, put_level,
};
use std::process::Abort;
use std::test::Fail;

fn count_of([nx, ny, nz]: [u64; 3]) -> Result<u32, SizeFault> {
    Ok(Sizes::new(nx, ny, nz)?.count())
}

/// Sizes, and the number of points or what is wrong with them.
const SIZES: &[([u64; 3], Result<u32, SizeFault>)] = &[
    ([1026, 1026, 151], Ok(158_954_076)),
    ([1027, 1, 2], Err(SizeFault::TooThin { axis: 1, n: 1 })),
    (
        [2, 1027, 1027],
        Err(SizeFault::AxisTooLong { axis: 1, n: 1027 }),
    ),
    (
        [1026, 1026, 152],
        Err(SizeFault::TooMany { n: 160_006_752 }),
    ),
];

#[test]
fn the_first_fault_of_sizes(rt: HostRuntime) {
    for (sizes, want) in SIZES {
        assert!(rt; count_of(*sizes) == *want);
    }
}

#[test]
fn names_and_edges_are_inverse(rt: HostRuntime) -> Result<(), Fail> {
    let sizes = three_a_side().ok_or("3, 3 and 3 are sizes")?;
    let below = Point { x: 1, y: 1, z: 0 };
    let name = edge_name(&sizes, below, 2);
    assert!(rt; name == EdgeName(14) && edge_of(&sizes, name) == (below, 2));
    Ok(())
}

#[test]
fn numbers_of_points(rt: HostRuntime) -> Result<(), Fail> {
    let sizes = three_a_side().ok_or("3, 3 and 3 are sizes")?;
    assert!(rt; point_of(&sizes, 13) == Point { x: 1, y: 1, z: 1 });
    assert!(rt; index(&sizes, Point { x: 1, y: 0, z: 1 }) == 10);
    Ok(())
}

#[test]
fn levels_between_samples(rt: HostRuntime) -> Result<(), Fail> {
    let level = Level::new(4_500).ok_or("4.5 is a level")?;
    assert!(rt; [level.shifted(5), level.shifted(4)] == [500, -500]);
    assert!(rt; [level.is_above_pad(4), level.is_above_pad(5)] == [true, false]);
    Ok(())
}

/// Thousandths, and the least sample above, where they are a level.
const LEVELS: &[(i128, Option<i64>)] = &[
    (4_500, Some(5)),
    (-4_500, Some(-4)),
    (-4_000, Some(-4)),
    (8_589_934_592_000, None),
];

fn least_above(thousandths: i128) -> Option<i64> {
    Some(Level::new(thousandths)?.least_above())
}

#[test]
fn the_least_samples_above(rt: HostRuntime) {
    for (thousandths, least) in LEVELS {
        assert!(rt; least_above(*thousandths) == *least, "{thousandths}");
    }
}

/// Numbers that are less than `2 ^ 44` and how they are printed, with a fraction and as a level.
const PRINTED: &[(i64, &str, &str)] = &[
    (0, "0.000", "0"),
    (-500, "-0.500", "-0.500"),
    (1_025_000, "1025.000", "1025"),
    (-2_047, "-2.047", "-2.047"),
];

fn check_decimal(rt: &impl Abort, value: i64, want: &str) {
    assert!(rt; value.unsigned_abs() < 2_000_000);
    let mut text = ArrayString::new();
    put_decimal(Thousandth(value), &mut text);
    assert!(rt; text.as_str() == want, "{want}");
}

fn check_level(rt: &impl Abort, value: i64, want: &str) {
    let mut text = ArrayString::new();
    put_level(value, &mut text);
    assert!(rt; text.as_str() == want, "{want}");
}

#[test]
fn printed_numbers(rt: HostRuntime) {
    for (value, decimal, level) in PRINTED {
        check_decimal(&rt, *value, decimal);
        check_level(&rt, *value, level);
    }
}
