//! The crossing edges of a row of points, listed by their offsets from the flags.
//!
//! Two points' flags, six bits, name a row of a table with up to six offsets, which is written whole, and the list
//! grows by as many as are crossing. A loop over the bits that are set ends after another number of turns for every
//! eight points, which a processor guesses wrongly in noise.
ghost use Rattle.std.specs.Prelude.{◌≡◌, ℕ, ◌+◌, ◌-◌, ◌*◌, ◌%◌, ◌^◌, ◌<◌, ◌≤◌, ◌++◌, ◌∷◌, [], All, IsTrue, cond, length, map, slice_index, take};
ghost use Rattle.row_bits.specs.Edges.{edges_among, edges_at};

use iso_base::ROW_EDGES;
use std::simd::prelude::*;

/// The points that are passed over at once where no crossing edge begins.
const BLOCK_POINTS: usize = 32;

/// Writes the offset of an edge, and says where the next one's goes: behind it, or over it where the edge is not crossing.
/// So there is no branch whose way a processor would have to guess.
#[inline(always)]
fn set_edge(edge: u16, crossing: bool, edges: &mut [u16; ROW_EDGES], at: usize) -> usize
    requires { at < 3078 }
    ensures put { take result edges.new ≡ take at edges.old ++ cond crossing (edge ∷ []) [] }
    ensures end { result ≤ at + 1 }
{
    edges[at] = edge;
    at + usize::from(crossing)
}

/// Writes the offsets of the crossing edges that begin at a point.
#[inline(always)]
fn fill_point(flags: u8, x: u16, edges: &mut [u16; ROW_EDGES], at: usize) -> usize
    requires x { x < 1026 }
    requires room { at + 3 ≤ 3078 }
    ensures put { take result edges.new ≡ take at edges.old ++ edges_at flags x }
    ensures end { result ≤ at + 3 }
{
    let first = set_edge(3 * x, flags % 2 == 1, edges, at);
    let second = set_edge(3 * x + 1, flags / 2 % 2 == 1, edges, first);
    set_edge(3 * x + 2, flags / 4 == 1, edges, second)
}

/// Writes those of the points from a place to before an end.
#[inline(always)]
fn fill_points(
    flags: &[u8],
    from: usize,
    end: usize,
    edges: &mut [u16; ROW_EDGES],
    at: usize,
) -> usize
    requires from { from ≤ end }
    requires end { end ≤ length flags.now }
    requires few { length flags.now ≤ 1026 }
    requires at { at ≤ 3 * from }
    ensures put { take result edges.new ≡ take at edges.old ++ edges_among flags.now from (end - from) }
    ensures end { result ≤ 3 * end }
{
    let mut at = at;
    for x in from..end {
        at = fill_point(flags[x], x as u16, edges, at);
    }
    at
}

/// How far the crossing edges of two points are in their row, by their flags: those of the second count eightfold. As many
/// stand at the front of eight numbers as the next table says.
static PAIRS: [[u16; 8]; 64] = [
    [0, 0, 0, 0, 0, 0, 0, 0],
    [0, 0, 0, 0, 0, 0, 0, 0],
    [1, 0, 0, 0, 0, 0, 0, 0],
    [0, 1, 0, 0, 0, 0, 0, 0],
    [2, 0, 0, 0, 0, 0, 0, 0],
    [0, 2, 0, 0, 0, 0, 0, 0],
    [1, 2, 0, 0, 0, 0, 0, 0],
    [0, 1, 2, 0, 0, 0, 0, 0],
    [3, 0, 0, 0, 0, 0, 0, 0],
    [0, 3, 0, 0, 0, 0, 0, 0],
    [1, 3, 0, 0, 0, 0, 0, 0],
    [0, 1, 3, 0, 0, 0, 0, 0],
    [2, 3, 0, 0, 0, 0, 0, 0],
    [0, 2, 3, 0, 0, 0, 0, 0],
    [1, 2, 3, 0, 0, 0, 0, 0],
    [0, 1, 2, 3, 0, 0, 0, 0],
    [4, 0, 0, 0, 0, 0, 0, 0],
    [0, 4, 0, 0, 0, 0, 0, 0],
    [1, 4, 0, 0, 0, 0, 0, 0],
    [0, 1, 4, 0, 0, 0, 0, 0],
    [2, 4, 0, 0, 0, 0, 0, 0],
    [0, 2, 4, 0, 0, 0, 0, 0],
    [1, 2, 4, 0, 0, 0, 0, 0],
    [0, 1, 2, 4, 0, 0, 0, 0],
    [3, 4, 0, 0, 0, 0, 0, 0],
    [0, 3, 4, 0, 0, 0, 0, 0],
    [1, 3, 4, 0, 0, 0, 0, 0],
    [0, 1, 3, 4, 0, 0, 0, 0],
    [2, 3, 4, 0, 0, 0, 0, 0],
    [0, 2, 3, 4, 0, 0, 0, 0],
    [1, 2, 3, 4, 0, 0, 0, 0],
    [0, 1, 2, 3, 4, 0, 0, 0],
    [5, 0, 0, 0, 0, 0, 0, 0],
    [0, 5, 0, 0, 0, 0, 0, 0],
    [1, 5, 0, 0, 0, 0, 0, 0],
    [0, 1, 5, 0, 0, 0, 0, 0],
    [2, 5, 0, 0, 0, 0, 0, 0],
    [0, 2, 5, 0, 0, 0, 0, 0],
    [1, 2, 5, 0, 0, 0, 0, 0],
    [0, 1, 2, 5, 0, 0, 0, 0],
    [3, 5, 0, 0, 0, 0, 0, 0],
    [0, 3, 5, 0, 0, 0, 0, 0],
    [1, 3, 5, 0, 0, 0, 0, 0],
    [0, 1, 3, 5, 0, 0, 0, 0],
    [2, 3, 5, 0, 0, 0, 0, 0],
    [0, 2, 3, 5, 0, 0, 0, 0],
    [1, 2, 3, 5, 0, 0, 0, 0],
    [0, 1, 2, 3, 5, 0, 0, 0],
    [4, 5, 0, 0, 0, 0, 0, 0],
    [0, 4, 5, 0, 0, 0, 0, 0],
    [1, 4, 5, 0, 0, 0, 0, 0],
    [0, 1, 4, 5, 0, 0, 0, 0],
    [2, 4, 5, 0, 0, 0, 0, 0],
    [0, 2, 4, 5, 0, 0, 0, 0],
    [1, 2, 4, 5, 0, 0, 0, 0],
    [0, 1, 2, 4, 5, 0, 0, 0],
    [3, 4, 5, 0, 0, 0, 0, 0],
    [0, 3, 4, 5, 0, 0, 0, 0],
    [1, 3, 4, 5, 0, 0, 0, 0],
    [0, 1, 3, 4, 5, 0, 0, 0],
    [2, 3, 4, 5, 0, 0, 0, 0],
    [0, 2, 3, 4, 5, 0, 0, 0],
    [1, 2, 3, 4, 5, 0, 0, 0],
    [0, 1, 2, 3, 4, 5, 0, 0],
];

/// How many crossing edges two points have, by their flags.
const COUNTS: [u8; 64] = [
    0, 1, 1, 2, 1, 2, 2, 3, 1, 2, 2, 3, 2, 3, 3, 4, 1, 2, 2, 3, 2, 3, 3, 4, 2, 3, 3, 4, 3, 4, 4, 5,
    1, 2, 2, 3, 2, 3, 3, 4, 2, 3, 3, 4, 3, 4, 4, 5, 2, 3, 3, 4, 3, 4, 4, 5, 3, 4, 4, 5, 4, 5, 5, 6,
];

/// Offsets so much further on: first by what is a constant where this is called, then by what is the same for eight points.
#[inline(always)]
fn moved_on(offsets: &[u16; 8], by: u16, from: u16) -> [u16; 8]
    ensures { result ≡ map (λ (e : ℕ). (e + by + from) % 2 ^ 16) offsets.now }
{
    (u16x8::from_array(*offsets) + u16x8::splat(by) + u16x8::splat(from)).to_array()
}

/// Writes eight numbers at once.
#[inline(always)]
fn fill_numbers(numbers: &[u16; 8], edges: &mut [u16; ROW_EDGES], at: usize)
    requires { at + 8 ≤ 3078 }
    ensures { take (at + 8) edges.new ≡ take at edges.old ++ numbers.now }
{
    edges[at..at + 8].copy_from_slice(numbers);
}

/// The flags of two points as one number, by which their offsets are found.
#[inline(always)]
fn pair_at(flags: &[u8], x: usize) -> usize
    requires flags { All (λ f. f < 8) flags.now }
    requires pair { x + 2 ≤ length flags.now }
    ensures value { result ≡ slice_index flags.now x + 8 * slice_index flags.now (x + 1) }
    ensures bound { result < 64 }
{
    usize::from(flags[x]) + 8 * usize::from(flags[x + 1])
}

/// Writes the offsets of the crossing edges that begin at a point and the next one: eight numbers at once, of which so many
/// stay as there are. So there is no branch whose way a processor would have to guess.
#[inline(always)]
fn fill_pair(flags: &[u8], from: usize, k: usize, edges: &mut [u16; ROW_EDGES], at: usize) -> usize
    requires flags { All (λ f. f < 8) flags.now }
    requires pair { from + k + 2 ≤ length flags.now }
    requires low { from + k ≤ 1023 }
    requires at { at ≤ 3 * (from + k) }
    ensures put { take result edges.new ≡ take at edges.old ++ edges_among flags.now (from + k) 2 }
    ensures end { result ≤ 3 * (from + k + 2) }
{
    let pair = pair_at(flags, from + k);
    let offsets = moved_on(&PAIRS[pair], 3 * k as u16, 3 * from as u16);
    fill_numbers(&offsets, edges, at);
    at + usize::from(COUNTS[pair])
}

/// The flags of the eight points from a place on as one number, those of the first in its lowest bits.
#[inline(always)]
fn eight_at(flags: &[u8], from: usize) -> u64
    requires { from + 8 ≤ length flags.now }
    ensures { let byte = λ (k : ℕ). slice_index flags.now (from + k) in
        result ≡ byte 0 + 2 ^ 8 * byte 1 + 2 ^ 16 * byte 2 + 2 ^ 24 * byte 3
        + 2 ^ 32 * byte 4 + 2 ^ 40 * byte 5 + 2 ^ 48 * byte 6 + 2 ^ 56 * byte 7 }
{
    let eight = &flags[from..from + 8];
    u64::from_le_bytes([
        eight[0], eight[1], eight[2], eight[3], eight[4], eight[5], eight[6], eight[7],
    ])
}

/// Writes those of eight points, by the number of the eight, two points at a time: at once where there are none.
#[inline(always)]
fn fill_eight(flags: &[u8], eight: usize, edges: &mut [u16; ROW_EDGES], at: usize) -> usize
    requires flags { All (λ f. f < 8) flags.now }
    requires eight { 8 * eight + 8 ≤ length flags.now }
    requires few { length flags.now ≤ 1026 }
    requires at { at ≤ 3 * (8 * eight) }
    ensures put { take result edges.new ≡ take at edges.old ++ edges_among flags.now (8 * eight) 8 }
    ensures end { result ≤ 3 * (8 * eight + 8) }
{
    let from = 8 * eight;
    if eight_at(flags, from) == 0 {
        return at;
    }
    let at = fill_pair(flags, from, 0, edges, at);
    let at = fill_pair(flags, from, 2, edges, at);
    let at = fill_pair(flags, from, 4, edges, at);
    fill_pair(flags, from, 6, edges, at)
}

/// Whether no crossing edge begins at the points of a block. This saves work and no list rests on it: the contract leaves
/// `false` free.
#[inline(always)]
fn is_still(flags: &[u8], from: usize) -> bool
    requires { from + 32 ≤ length flags.now }
    ensures { IsTrue result → (k : ℕ) → k < 32 → slice_index flags.now (from + k) ≡ 0 }
{
    let block = u8x32::from_slice(&flags[from..]);
    block.simd_ne(u8x32::splat(0)).to_bitmask() == 0
}

/// Writes those of the points from one number of eight points to before another.
#[inline(always)]
fn fill_eights(
    flags: &[u8],
    from: usize,
    end: usize,
    edges: &mut [u16; ROW_EDGES],
    at: usize,
) -> usize
    requires flags { All (λ f. f < 8) flags.now }
    requires from { from ≤ end }
    requires end { 8 * end ≤ length flags.now }
    requires few { length flags.now ≤ 1026 }
    requires at { at ≤ 3 * (8 * from) }
    ensures put { take result edges.new ≡ take at edges.old ++ edges_among flags.now (8 * from) (8 * (end - from)) }
    ensures end { result ≤ 3 * (8 * end) }
{
    let mut at = at;
    for eight in from..end {
        at = fill_eight(flags, eight, edges, at);
    }
    at
}

/// Writes those of the points of a block, by its number: at once where there are none.
#[inline(always)]
fn fill_block(flags: &[u8], block: usize, edges: &mut [u16; ROW_EDGES], at: usize) -> usize
    requires flags { All (λ f. f < 8) flags.now }
    requires block { 32 * block + 32 ≤ length flags.now }
    requires few { length flags.now ≤ 1026 }
    requires at { at ≤ 3 * (32 * block) }
    ensures put { take result edges.new ≡ take at edges.old ++ edges_among flags.now (32 * block) 32 }
    ensures end { result ≤ 3 * (32 * block + 32) }
{
    if is_still(flags, BLOCK_POINTS * block) {
        return at;
    }
    fill_eights(flags, 4 * block, 4 * block + 4, edges, at)
}

/// Writes the offsets of the crossing edges that begin at the points of a row, by their flags, and says how many there are. An
/// offset is three times how far its point is along x, and the edge's axis.
pub fn list_edges(flags: &[u8], edges: &mut [u16; ROW_EDGES]) -> usize
    requires few { length flags.now ≤ 1026 }
    requires flags { All (λ f. f < 8) flags.now }
    ensures put { take result edges.new ≡ edges_among flags.now 0 (length flags.now) }
    ensures count { result ≤ 3 * length flags.now }
{
    let blocks = flags.len() / BLOCK_POINTS;
    let mut at = 0;
    for block in 0..blocks {
        at = fill_block(flags, block, edges, at);
    }
    let eights = flags.len() / 8;
    let at = fill_eights(flags, 4 * blocks, eights, edges, at);
    fill_points(flags, 8 * eights, flags.len(), edges, at)
}
