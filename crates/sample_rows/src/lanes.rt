//! The sign bytes of the cells of a row, sixteen at once.
ghost use Rattle.std.specs.Prelude.{◌≡◌, ℕ, ◌+◌, ◌*◌, ◌%◌, ◌^◌, ◌<◌, ◌≤◌, All, length, slice_index};
ghost use Rattle.flat_mesh.specs.Rows.{IsSignRow, byte_of};

use std::simd::prelude::*;

/// The signs of sixteen points of a row from a place on.
#[inline(always)]
fn signs_at(row: &[u8], at: usize) -> u8x16
    requires { at + 16 ≤ length row.now }
    ensures { (k : ℕ) → k < 16 → slice_index result k ≡ slice_index row.now (at + k) }
{
    u8x16::from_slice(&row[at..at + 16])
}

/// One more sign below each of sixteen.
#[inline(always)]
fn with_signs(signs: u8x16, rest: u8x16) -> u8x16
    ensures { (k : ℕ) → k < 16 → slice_index result k ≡ (slice_index signs k + 2 * slice_index rest k) % 2 ^ 8 }
{
    signs + (rest + rest)
}

/// The sign bytes of sixteen cells of a row from a place on.
#[inline(always)]
fn bytes_at(near: &[u8], up: &[u8], far: &[u8], both: &[u8], at: usize) -> [u8; 16]
    requires room { at + 17 ≤ length near.now }
    requires near { IsSignRow (length near.now) near.now }
    requires up { IsSignRow (length near.now) up.now }
    requires far { IsSignRow (length near.now) far.now }
    requires both { IsSignRow (length near.now) both.now }
    ensures { (k : ℕ) → k < 16 → slice_index result k ≡ byte_of near.now up.now far.now both.now (at + k) }
{
    let above = with_signs(signs_at(both, at), signs_at(both, at + 1));
    let above = with_signs(signs_at(far, at), with_signs(signs_at(far, at + 1), above));
    let above = with_signs(signs_at(up, at), with_signs(signs_at(up, at + 1), above));
    with_signs(
        signs_at(near, at),
        with_signs(signs_at(near, at + 1), above),
    )
    .to_array()
}

/// Writes sixteen bytes over those from a place on.
#[inline(always)]
fn fill_sixteen(sixteen: &[u8; 16], at: usize, bytes: &mut [u8])
    requires { at + 16 ≤ length bytes.old }
    ensures there { (k : ℕ) → k < 16 → slice_index bytes.new (at + k) ≡ slice_index sixteen.now k }
    ensures before { (x : ℕ) → x < at → slice_index bytes.new x ≡ slice_index bytes.old x }
    ensures behind { (x : ℕ) → at + 16 ≤ x → slice_index bytes.new x ≡ slice_index bytes.old x }
{
    bytes[at..at + 16].copy_from_slice(sixteen);
}

/// Writes the sign bytes of a row of sixteen cells or more at the front of a buffer, sixteen at a time. The last sixteen begin early
/// enough to end with the row.
#[inline(always)]
pub fn fill_many_bytes(near: &[u8], up: &[u8], far: &[u8], both: &[u8], bytes: &mut [u8])
    requires many { 17 ≤ length near.now }
    requires near { IsSignRow (length near.now) near.now }
    requires up { IsSignRow (length near.now) up.now }
    requires far { IsSignRow (length near.now) far.now }
    requires both { IsSignRow (length near.now) both.now }
    requires room { length near.now ≤ length bytes.old }
    ensures bytes { (x : ℕ) → x + 1 < length near.now
        → slice_index bytes.new x ≡ byte_of near.now up.now far.now both.now x }
    ensures behind { (x : ℕ) → length near.now ≤ x → slice_index bytes.new x ≡ slice_index bytes.old x }
{
    let count = near.len() - 1;
    for sixteen in 0..count / 16 {
        let at = 16 * sixteen;
        fill_sixteen(&bytes_at(near, up, far, both, at), at, bytes);
    }
    let start = count - 16;
    fill_sixteen(&bytes_at(near, up, far, both, start), start, bytes);
}
