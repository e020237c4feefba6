//! The flags of eight points, all at once.
ghost use Rattle.std.specs.Prelude.{◌≡◌, ℕ, ◌+◌, ◌<◌, ◌≤◌, ◌==◌, All, cond, length, map, slice_index};
ghost use Rattle.iso_base.specs.Volume.{sample};
ghost use Rattle.corner_signs.specs.Rows.{bit_from};
ghost use Rattle.brick_rows.specs.Rows.{AreEight, run_flags};

use crate::flags::fill_zeros;
use samples::Packed;
use std::simd::prelude::*;

/// Numbers that samples are kept as, of which eight are compared at once.
pub(crate) trait Lanes: Packed {
    /// The signs of the eight samples of a run from a place on: 1 for each that is at least so much, else 0.
    fn signs_at(run: &[Self], at: usize, bound: Self) -> u8x8
        requires room { at + 8 ≤ length run.now }
        requires fits { All Self.Fits (map Self.value run.now) }
        ensures { AreEight (λ i. bit_from (Self.value bound) (sample (map Self.value run.now) (at + i))) result };
}

/// There is room for the samples of a run in their width. That is said here, and nothing else is done.
#[inline(always)]
fn all_fit<T: Packed>(run: &[T])
    ensures { All T.Fits (map T.value run.now) }
{
    for i in 0..run.len() {
        let _ = run[i].sample();
    }
}

/// A number where two signs differ, else 0.
#[inline(always)]
fn where_apart(a: u8x8, b: u8x8, number: u8) -> u8x8
    requires a { length a ≡ 8 }
    requires b { length b ≡ 8 }
    ensures { AreEight (λ i. cond (slice_index a i == slice_index b i) 0 number) result }
{
    a.simd_eq(b).select(u8x8::splat(0), u8x8::splat(number))
}

/// Writes the flags of eight points of a run, behind which another one stands, by a number of the samples' own width.
#[inline(always)]
fn flag_from<T: Lanes>(here: &[T], up: &[T], far: &[T], bound: T, out: &mut [u8])
    requires here { 8 < length here.now }
    requires up { length up.now ≡ length here.now }
    requires far { length far.now ≡ length here.now }
    requires here_fit { All T.Fits (map T.value here.now) }
    requires up_fit { All T.Fits (map T.value up.now) }
    requires far_fit { All T.Fits (map T.value far.now) }
    requires out { length out.old ≡ 8 }
    ensures { (i : ℕ) → i < 8 → slice_index out.new i
        ≡ run_flags (T.value bound) (map T.value here.now) (map T.value up.now) (map T.value far.now) i }
{
    let signs = T::signs_at(here, 0, bound);
    let right = where_apart(signs, T::signs_at(here, 1, bound), 1);
    let up = where_apart(signs, T::signs_at(up, 0, bound), 2);
    let far = where_apart(signs, T::signs_at(far, 0, bound), 4);
    let flags = right + (up + far);
    flags.copy_to_slice(out);
}

/// Writes the flags of eight points of a run, behind which another one stands. Where no number of the samples' width is so much, all
/// samples are on one side.
#[inline(always)]
pub(crate) fn flag_lanes<T: Lanes>(here: &[T], up: &[T], far: &[T], least: i64, out: &mut [u8])
    requires here { 8 < length here.now }
    requires up { length up.now ≡ length here.now }
    requires far { length far.now ≡ length here.now }
    requires out { length out.old ≡ 8 }
    ensures { (i : ℕ) → i < 8 → slice_index out.new i
        ≡ run_flags least (map T.value here.now) (map T.value up.now) (map T.value far.now) i }
{
    all_fit(here);
    all_fit(up);
    all_fit(far);
    match T::at_least(least) {
        Some(bound) => flag_from(here, up, far, bound, out),
        None => fill_zeros(out),
    }
}

impl Lanes for u8 {
    #[inline(always)]
    fn signs_at(run: &[u8], at: usize, bound: u8) -> u8x8 {
        let above = u8x8::from_slice(&run[at..at + 8]).simd_ge(u8x8::splat(bound));
        above.select(u8x8::splat(1), u8x8::splat(0))
    }
}

impl Lanes for i16 {
    #[inline(always)]
    fn signs_at(run: &[i16], at: usize, bound: i16) -> u8x8 {
        let above = i16x8::from_slice(&run[at..at + 8]).simd_ge(i16x8::splat(bound));
        above.select(u16x8::splat(1), u16x8::splat(0)).cast::<u8>()
    }
}

impl Lanes for u16 {
    #[inline(always)]
    fn signs_at(run: &[u16], at: usize, bound: u16) -> u8x8 {
        let above = u16x8::from_slice(&run[at..at + 8]).simd_ge(u16x8::splat(bound));
        above.select(u16x8::splat(1), u16x8::splat(0)).cast::<u8>()
    }
}

impl Lanes for i32 {
    #[inline(always)]
    fn signs_at(run: &[i32], at: usize, bound: i32) -> u8x8 {
        let above = i32x8::from_slice(&run[at..at + 8]).simd_ge(i32x8::splat(bound));
        above.select(u32x8::splat(1), u32x8::splat(0)).cast::<u8>()
    }
}
