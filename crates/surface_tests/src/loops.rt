//! Tests of `cell_loops`.

use case_table::{CaseRow, row_of};
use cell_loops::{CellLoops, centre_count, loop_count, loops_of, triangle_count};
use std::process::Abort;

fn counts(row: CaseRow) -> [u8; 3] {
    [
        loops_of(row).count(),
        triangle_count(row),
        centre_count(row),
    ]
}

fn edges_of_loop(loops: &CellLoops, i: u8) -> &[u8] {
    if i < loops.count() {
        loops.edges(i)
    } else {
        &[]
    }
}

/// A loop of a case goes along these edges.
fn check_loop(rt: &impl Abort, row: CaseRow, i: u8, edges: &[u8]) {
    assert!(rt; edges_of_loop(&loops_of(row), i) == edges, "loop {i}");
}

#[test]
fn loops_of_some_cases(rt: HostRuntime) {
    check_loop(&rt, row_of(1, 0), 0, &[0, 4, 8]);
    check_loop(&rt, row_of(9, 0), 0, &[0, 4, 8]);
    check_loop(&rt, row_of(9, 0), 1, &[1, 5, 11]);
    check_loop(&rt, row_of(9, 16), 0, &[0, 5, 11, 1, 4, 8]);
    check_loop(&rt, row_of(15, 0), 0, &[8, 9, 11, 10]);
}

#[test]
fn four_loops_of_a_case(rt: HostRuntime) {
    let full = row_of(105, 63);
    check_loop(&rt, full, 0, &[0, 5, 9]);
    check_loop(&rt, full, 1, &[1, 4, 10]);
    check_loop(&rt, full, 2, &[2, 6, 8]);
    check_loop(&rt, full, 3, &[3, 7, 11]);
}

fn check_counts(rt: &impl Abort, row: CaseRow, want: [u8; 3]) {
    assert!(rt; counts(row) == want);
}

#[test]
fn counts_of_some_cases(rt: HostRuntime) {
    check_counts(&rt, row_of(1, 0), [1, 1, 0]);
    check_counts(&rt, row_of(9, 0), [2, 2, 0]);
    check_counts(&rt, row_of(9, 16), [1, 6, 1]);
    check_counts(&rt, row_of(15, 0), [1, 4, 1]);
    check_counts(&rt, row_of(105, 63), [4, 4, 0]);
    check_counts(&rt, row_of(255, 0), [0, 0, 0]);
}

#[test]
fn totals(rt: HostRuntime) {
    let mut loops = 0u32;
    let mut triangles = 0u32;
    let mut centres = 0u32;
    for number in 0..656u16 {
        let row = CaseRow::of(number);
        loops += u32::from(loop_count(row));
        triangles += u32::from(triangle_count(row));
        centres += u32::from(centre_count(row));
    }
    assert!(rt; (loops, triangles, centres) == (1026, 4424, 610));
}
