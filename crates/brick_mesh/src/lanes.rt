//! The signs of eight neighbours, all at once.
ghost use Rattle.std.specs.Prelude.{◌≡◌, ℕ, ◌+◌, ◌<◌, ◌≤◌, All, length, slice_index};
ghost use Rattle.brick_mesh.specs.Signs.{AreEight, byte_in, pair_in};

use std::simd::prelude::*;

/// The eight signs from a place on.
#[inline(always)]
fn signs_at(signs: &[u8], at: usize) -> u8x8
    requires { at + 8 ≤ length signs.now }
    ensures { AreEight (λ i. slice_index signs.now (at + i)) result }
{
    u8x8::from_slice(&signs[at..at + 8])
}

/// Nine signs from a place on, two and two.
#[inline(always)]
pub(crate) fn pairs_at(signs: &[u8], start: usize) -> [u8; 8]
    requires room { start + 9 ≤ length signs.now }
    requires signs { All (λ sign. sign ≤ 1) signs.now }
    ensures { AreEight (λ x. pair_in signs.now (start + x)) result }
{
    let first = signs_at(signs, start);
    let second = signs_at(signs, start + 1);
    (first + u8x8::splat(2) * second).to_array()
}

/// The sign bytes of the eight cells between four rows.
#[inline(always)]
pub(crate) fn sign_bytes(near: &[u8; 8], up: &[u8; 8], far: &[u8; 8], both: &[u8; 8]) -> [u8; 8]
    requires near { All (λ pair. pair ≤ 3) near.now }
    requires up { All (λ pair. pair ≤ 3) up.now }
    requires far { All (λ pair. pair ≤ 3) far.now }
    requires both { All (λ pair. pair ≤ 3) both.now }
    ensures { (x : ℕ) → x < 8 → slice_index result x ≡ byte_in near.now up.now far.now both.now x }
{
    let four = u8x8::splat(4);
    let lower = u8x8::from_array(*near) + four * u8x8::from_array(*up);
    let upper = u8x8::from_array(*far) + four * u8x8::from_array(*both);
    (lower + u8x8::splat(16) * upper).to_array()
}
