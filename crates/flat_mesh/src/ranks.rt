//! The numbers of crossing edges.
//!
//! The number of a vertex is how many crossing edges have a smaller name. Two slices of ranks move along with the
//! cells.
ghost use Rattle.std.specs.Prelude.{◌≡◌, ℕ, ◌+◌, ◌-◌, ◌*◌, ◌<◌, ◌≤◌, ◌^◌, length, slice_index, take, All};
ghost use Rattle.std.specs.List.{sum_by};
ghost use Rattle.crossing_edges.specs.Flags.{before_axis, edges_in};
ghost use Rattle.flat_mesh.specs.Numbers.{edge_numbers};

use crossing_edges::{begin_none, count_edges};

/// The numbers of the first edges of the points of a slice, `low`, and of the next one, `high`.
#[derive(Clone, Copy)]
pub struct SliceRanks<'a> {
    pub low: &'a [u32],
    pub high: &'a [u32],
}

/// Writes the number of the first crossing edge of each point from a place to before an end, where `start` is that of the first,
/// and gives that of the next point.
#[inline(always)]
fn rank_run(flags: &[u8], from: usize, end: usize, start: u32, out: &mut [u32]) -> u32
    requires flags { All (λ f. f < 8) flags.now }
    requires from { from ≤ end }
    requires end { end ≤ length flags.now }
    requires lengths { length out.old ≡ length flags.now + 1 }
    requires room { start + 3 * (end - from) < 2 ^ 32 }
    ensures next { result + sum_by edges_in (take from flags.now) ≡ start + sum_by edges_in (take end flags.now) }
    ensures bound { result ≤ start + 3 * (end - from) }
    ensures inside { (i : ℕ) → from ≤ i → i < end
        → slice_index out.new i + sum_by edges_in (take from flags.now) ≡ start + sum_by edges_in (take i flags.now) }
    ensures before { (i : ℕ) → i < from → slice_index out.new i ≡ slice_index out.old i }
{
    let mut number = start;
    for i in from..end {
        out[i] = number;
        number += count_edges(flags[i]);
    }
    number
}

/// Writes a number in eight places.
#[inline(always)]
fn fill_eight(from: usize, number: u32, out: &mut [u32])
    requires { from + 8 ≤ length out.old }
    ensures inside { (i : ℕ) → from ≤ i → i < from + 8 → slice_index out.new i ≡ number }
    ensures before { (i : ℕ) → i < from → slice_index out.new i ≡ slice_index out.old i }
{
    out[from..from + 8].fill(number);
}

/// Writes the numbers of the eight points from a place on: where no crossing edge begins, they all have one number.
#[inline(always)]
fn rank_eight(flags: &[u8], from: usize, start: u32, out: &mut [u32]) -> u32
    requires flags { All (λ f. f < 8) flags.now }
    requires eight { from + 8 ≤ length flags.now }
    requires lengths { length out.old ≡ length flags.now + 1 }
    requires room { start + 24 < 2 ^ 32 }
    ensures next { result + sum_by edges_in (take from flags.now)
        ≡ start + sum_by edges_in (take (from + 8) flags.now) }
    ensures bound { result ≤ start + 24 }
    ensures inside { (i : ℕ) → from ≤ i → i < from + 8
        → slice_index out.new i + sum_by edges_in (take from flags.now) ≡ start + sum_by edges_in (take i flags.now) }
    ensures before { (i : ℕ) → i < from → slice_index out.new i ≡ slice_index out.old i }
{
    if begin_none(flags, from) {
        fill_eight(from, start, out);
        return start;
    }
    rank_run(flags, from, from + 8, start, out)
}

/// Writes the number of the first crossing edge of each point of a run, and behind them that of the next point.
pub fn rank_points(flags: &[u8], start: u32, out: &mut [u32])
    requires flags { All (λ f. f < 8) flags.now }
    requires lengths { length out.old ≡ length flags.now + 1 }
    requires room { start + 3 * length flags.now < 2 ^ 32 }
    ensures { (i : ℕ) → i ≤ length flags.now → slice_index out.new i ≡ start + sum_by edges_in (take i flags.now) }
{
    let eights = flags.len() / 8;
    let mut number = start;
    for eight in 0..eights {
        number = rank_eight(flags, 8 * eight, number, out);
    }
    let last = rank_run(flags, 8 * eights, flags.len(), number, out);
    out[flags.len()] = last;
}

/// The number of the edge of a point along an axis, from that of its first edge.
#[inline(always)]
fn number_along(first: u32, flags: u8, axis: u8) -> u32
    requires axis { axis < 3 }
    requires flags { flags < 8 }
    requires room { first < 2 ^ 31 }
    ensures { result ≡ first + before_axis flags axis }
{
    if axis == 0 {
        first
    } else if axis == 1 {
        first + u32::from(flags % 2)
    } else {
        first + u32::from(flags % 2 + flags / 2 % 2)
    }
}

/// The numbers of the twelve edges of a cell, from those of the first edges of its corners and their flags.
#[inline(always)]
pub fn cell_numbers(first: &[u32; 7], flags: &[u8; 7]) -> [u32; 12]
    requires flags { All (λ f. f < 8) flags.now }
    requires room { All (λ n. n < 2 ^ 31) first.now }
    ensures { result ≡ edge_numbers first.now flags.now }
{
    [
        number_along(first[0], flags[0], 0),
        number_along(first[2], flags[2], 0),
        number_along(first[4], flags[4], 0),
        number_along(first[6], flags[6], 0),
        number_along(first[0], flags[0], 1),
        number_along(first[1], flags[1], 1),
        number_along(first[4], flags[4], 1),
        number_along(first[5], flags[5], 1),
        number_along(first[0], flags[0], 2),
        number_along(first[1], flags[1], 2),
        number_along(first[2], flags[2], 2),
        number_along(first[3], flags[3], 2),
    ]
}
