//! The signs of a row of samples, eight at a time.
ghost use Rattle.std.specs.Prelude.{◌≡◌, ◌+◌, ◌*◌, ◌≤◌, if◌then◌else◌, map, take, length, FitsSigned};
ghost use Rattle.std.specs.Int.{w64};
ghost use Rattle.std.specs.Simd.Lanes.{Each1, chunk, put_chunk};
ghost use Rattle.iso_base.specs.Volume.{is_above_level};
ghost use Rattle.corner_signs.specs.Rows.{bit_from};

use iso_base::Level;
use std::simd::prelude::*;

/// 1 where a sample is at least `least`, else 0.
#[inline(always)]
fn bit(sample: i64, least: i64) -> u8
    ensures { result ≡ bit_from least sample }
{
    if sample >= least { 1 } else { 0 }
}

/// The eight samples from a place on.
#[inline(always)]
fn eight_at(samples: &[i64], at: usize) -> [i64; 8]
    requires { at + 8 ≤ length samples.now }
    ensures value { result ≡ chunk at 8 samples.now }
    ensures fits { Each1 (FitsSigned w64) result }
{
    let front = &samples[at..at + 8];
    [
        front[0], front[1], front[2], front[3], front[4], front[5], front[6], front[7],
    ]
}

/// Writes the bits of eight samples, from a place on.
#[inline(always)]
fn fill_eight(samples: [i64; 8], least: i64, at: usize, out: &mut [u8])
    requires samples { Each1 (FitsSigned w64) samples }
    requires out { at + 8 ≤ length out.old }
    ensures { out.new ≡ put_chunk at out.old (map (bit_from least) samples) }
{
    let above = i64x8::from_array(samples).simd_ge(i64x8::splat(least));
    let bits = above.select(i64x8::splat(1), i64x8::splat(0));
    bits.cast::<u8>().copy_to_slice(&mut out[at..]);
}

/// Writes the bits of the samples up to a multiple of eight.
#[inline(always)]
fn fill_eights(samples: &[i64], least: i64, eights: usize, out: &mut [u8])
    requires samples { 8 * eights ≤ length samples.now }
    requires out { 8 * eights ≤ length out.old }
    ensures { take (8 * eights) out.new ≡ map (bit_from least) (take (8 * eights) samples.now) }
{
    for i in 0..eights {
        fill_eight(eight_at(samples, 8 * i), least, 8 * i, out);
    }
}

/// Writes 1 for each sample that is above the level, and 0 for each other.
pub fn sign_row(samples: &[i64], level: Level, out: &mut [u8])
    requires { length samples.now ≡ length out.old }
    ensures { out.new ≡ map (λ sample. if is_above_level sample level then 1 else 0) samples.now }
{
    let least = level.least_above();
    let eights = samples.len() / 8;
    fill_eights(samples, least, eights, out);
    for i in 8 * eights..samples.len() {
        out[i] = bit(samples[i], least);
    }
}
