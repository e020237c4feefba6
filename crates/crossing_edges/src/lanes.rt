//! The flags of sixteen points, all at once.
ghost use Rattle.std.specs.Prelude.{◌≡◌, ℕ, ◌+◌, ◌<◌, ◌≤◌, ◌==◌, cond, length, slice_index};
ghost use Rattle.crossing_edges.specs.Lanes.{AreSixteen};
ghost use Rattle.crossing_edges.specs.Signs.{inner_flag};

use std::simd::prelude::*;

/// The signs of sixteen points of a row from a place on.
#[inline(always)]
fn signs_at(row: &[u8], at: usize) -> u8x16
    requires { at + 16 ≤ length row.now }
    ensures { AreSixteen (λ i. slice_index row.now (at + i)) result }
{
    u8x16::from_slice(&row[at..at + 16])
}

/// A number where two signs differ, else 0.
#[inline(always)]
fn where_apart(a: u8x16, b: u8x16, number: u8) -> u8x16
    requires a { length a ≡ 16 }
    requires b { length b ≡ 16 }
    ensures { AreSixteen (λ i. cond (slice_index a i == slice_index b i) 0 number) result }
{
    a.simd_eq(b).select(u8x16::splat(0), u8x16::splat(number))
}

/// The flags of sixteen points of a row from a place on, behind which another one stands.
#[inline(always)]
pub(crate) fn flags_at(here: &[u8], up: &[u8], far: &[u8], at: usize) -> [u8; 16]
    requires here { at + 16 < length here.now }
    requires up { length up.now ≡ length here.now }
    requires far { length far.now ≡ length here.now }
    ensures { (i : ℕ) → i < 16 → slice_index result i ≡ inner_flag here.now up.now far.now (at + i) }
{
    let signs = signs_at(here, at);
    let right = where_apart(signs, signs_at(here, at + 1), 1);
    let up = where_apart(signs, signs_at(up, at), 2);
    let far = where_apart(signs, signs_at(far, at), 4);
    (right + (up + far)).to_array()
}
