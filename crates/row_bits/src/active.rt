//! The cells of a row that may have loops, listed by their places.
//!
//! Whoever has a row's lists hands them out; where they have to be found, it is by the bits of a comparison of many
//! flags or cases at once. A branch for each point is guessed wrongly where one in ten counts.
ghost use Rattle.std.specs.Prelude.{◌≡◌, ℕ, ◌+◌, ◌-◌, ◌^◌, ◌<◌, ◌≤◌, ◌==◌, ◌++◌, if◌then◌else◌, length, map, slice_index, take};
ghost use Rattle.std.specs.Int.{bit_at};
ghost use Rattle.row_bits.specs.Active.{active_among};

use iso_base::LONGEST_ROW;
use std::simd::prelude::*;

/// The cells that are tested at once.
const GROUP_CELLS: usize = 32;

/// Room for the cases of the longest row of cells in whole groups.
pub const CASES: usize = 1056;

/// So many low bits that are set.
#[inline(always)]
fn low_bits(count: usize) -> u64
    requires { count ≤ 32 }
    ensures { result ≡ 2 ^ count - 1 }
{
    (1 << count) - 1
}

/// Which of the first cells of a group have another case than 0, by the bits of a number: that of the first cell is the lowest.
#[inline(always)]
fn group_bits(cases: &[u16], from: usize, count: usize) -> u64
    requires room { from + 32 ≤ length cases.now }
    requires few { count ≤ 32 }
    ensures inside { (k : ℕ) → k < count →
        bit_at result k ≡ (if slice_index cases.now (from + k) == 0 then 0 else 1) }
    ensures behind { (k : ℕ) → count ≤ k → bit_at result k ≡ 0 }
{
    let group = u16x32::from_slice(&cases[from..]);
    let bits = group.simd_ne(u16x32::splat(0)).to_bitmask();
    bits & low_bits(count)
}

/// Lists those of the first cells of a group behind others, bit after bit that is set, so that no branch rests on a cell.
#[inline(always)]
fn fill_group(
    cases: &[u16; CASES],
    from: usize,
    count: usize,
    cells: &mut [u16; LONGEST_ROW],
    at: usize,
) -> usize
    requires room { from + 32 ≤ 1056 }
    requires few { count ≤ 32 }
    requires end { from + count ≤ 1026 }
    requires at { at ≤ from }
    ensures put { take result cells.new ≡ take at cells.old ++ active_among cases.now from count }
    ensures end { result ≡ at + length (active_among cases.now from count) }
{
    let first = from as u16;
    let mut bits = group_bits(cases, from, count);
    let mut at = at;
    while bits != 0 {
        cells[at] = first + bits.trailing_zeros() as u16;
        at += 1;
        bits &= bits - 1;
    }
    at
}

/// Lists those of so many cells of a row that have another case than 0, and says how many there are.
pub fn list_active(cases: &[u16; CASES], count: usize, cells: &mut [u16; LONGEST_ROW]) -> usize
    requires few { count ≤ 1026 }
    ensures put { take result cells.new ≡ active_among cases.now 0 count }
    ensures count { result ≡ length (active_among cases.now 0 count) }
{
    let mut at = 0;
    for group in 0..count.div_ceil(GROUP_CELLS) {
        let from = GROUP_CELLS * group;
        let some = GROUP_CELLS.min(count - from);
        at = fill_group(cases, from, some, cells, at);
    }
    at
}

/// Lists the active cells of a row at the front of two buffers, by the cases of all its cells, and says how many there are: how far each
/// is along x, and its case.
#[inline(always)]
pub fn list_cases(
    all: &[u16; CASES],
    count: usize,
    places: &mut [u16; LONGEST_ROW],
    cases: &mut [u16; LONGEST_ROW],
) -> usize
    requires { count ≤ 1026 }
    ensures places { take result places.new ≡ active_among all.now 0 count }
    ensures cases { take result cases.new ≡ map (slice_index all.now) (take result places.new) }
    ensures count { result ≤ count }
{
    let active = list_active(all, count, places);
    for k in 0..active {
        cases[k] = all[usize::from(places[k])];
    }
    active
}
