//! A bit for each of 64 sign bytes.
ghost use Rattle.std.specs.Prelude.{◌≡◌, ℕ, ◌+◌, ◌<◌, ◌≤◌, ◌^◌, ◌==◌, ◌||◌, cond, length, slice_index};
ghost use Rattle.std.specs.Int.{bit_at};

use std::simd::prelude::*;

/// A bit for each of the 64 bytes from a place on, the first one the lowest: whether it is neither 0 nor 255,
/// so whether a cell with these signs at its corners has crossing edges.
#[inline(always)]
pub fn mixed_at(bytes: &[u8], from: usize) -> u64
    requires { from + 64 ≤ length bytes.now }
    ensures bits { let byte = λ (k : ℕ). slice_index bytes.now (from + k) in
        (k : ℕ) → k < 64 → bit_at result k ≡ cond (byte k == 0 || byte k == 255) 0 1 }
    ensures small { (k : ℕ) → k < 64 → slice_index bytes.now (from + k) < 256 }
    ensures bound { result < 2 ^ 64 }
{
    // One more turns these two into 1 and 0, so that one comparison tells.
    let next = u8x64::from_slice(&bytes[from..]) + u8x64::splat(1);
    next.simd_gt(u8x64::splat(1)).to_bitmask()
}
