//! Lines in the form that nearly every writer gives them, read in one pass over their bytes.
//!
//! Why: DECISIONS.md, "Usual lines of a mesh text".
ghost use Rattle.std.specs.Prelude.{◌≡◌, ◌+◌, ◌<◌, ◌≤◌, ◌∷◌, length, slice_index, IfSome, false};
ghost use Rattle.iso_defs.specs.Bytes.{digit_three, space};
ghost use Rattle.text_lines.specs.Numbers.{is_digit};
ghost use Rattle.mesh_read.specs.Corners.{IsInside};
ghost use Rattle.mesh_read.specs.Plain.{BeginsLine, BeginsNumber, BeginsFace, IsFirstFeed};

use std::simd::prelude::*;

/// The bytes that are searched at once for the end of a line.
const GROUP_BYTES: usize = 32;

/// The place of the first line feed, where one is among the first bytes. They are looked at all at once.
#[inline(always)]
fn feed_in_group(bytes: &[u8]) -> Option<usize>
    requires { 32 ≤ length bytes.now }
    ensures { IfSome result (IsFirstFeed bytes.now) }
{
    let group = u8x32::from_slice(bytes);
    let feeds = group.simd_eq(u8x32::splat(b'\n')).to_bitmask();
    if feeds == 0 {
        None
    } else {
        Some(feeds.trailing_zeros() as usize)
    }
}

/// What follows the line at the front, where that line is short and its first byte is above a space, so that it has a word.
/// Each other line is left to those who read lines of any form.
#[inline(always)]
pub fn behind_plain_line(bytes: &[u8]) -> Option<&[u8]>
    ensures line { IfSome result (λ x. BeginsLine bytes.now x.now) }
    ensures shorter { IfSome result (λ x. length x.now + 1 ≤ length bytes.now) }
{
    if bytes.len() < GROUP_BYTES || bytes[0] <= b' ' {
        return None;
    }
    let end = feed_in_group(bytes)?;
    Some(&bytes[end + 1..])
}

/// The bytes that are searched for a number and the byte behind it.
const REACH: usize = 11;

/// The number at the front, where digits begin the text and this byte comes soon behind them, and what follows that byte.
#[inline(always)]
fn number_before(bytes: &[u8], mark: u8) -> Option<(u64, &[u8])>
    requires { is_digit mark ≡ false }
    ensures { IfSome result (λ x. BeginsNumber bytes.now mark x.0 x.1.now) }
{
    // A fixed number of bytes, so that the loop is unrolled and no byte is tested for the end of the text.
    let front = bytes.first_chunk::<REACH>()?;
    let mut value = 0u64;
    for i in 0..REACH {
        let b = front[i];
        if b < b'0' || b'9' < b {
            return if b == mark && 0 < i {
                Some((value, &bytes[i + 1..]))
            } else {
                None
            };
        }
        value = 10 * value + u64::from(b) - 48;
    }
    None
}

/// What follows the number of a triangle's corners and a space.
#[inline(always)]
fn behind_three(bytes: &[u8]) -> Option<&[u8]>
    ensures { IfSome result (λ x. bytes.now ≡ digit_three ∷ space ∷ x.now) }
{
    match bytes {
        [b'3', b' ', rest @ ..] => Some(rest),
        _ => None,
    }
}

/// The face on the line at the front and what follows the line, where that line is a 3 and three indices of at most ten digits,
/// with a space before each and a line feed at the end. Each other line is left to those who read lines of any form.
#[inline(always)]
pub fn plain_face(count: u32, bytes: &[u8]) -> Option<([u32; 3], &[u8])>
    ensures face { IfSome result (λ x. BeginsFace count bytes.now x.0 x.1.now) }
    ensures inside { IfSome result (λ x. IsInside count x.0) }
    ensures shorter { IfSome result (λ x. length x.1.now + 1 ≤ length bytes.now) }
{
    let rest = behind_three(bytes)?;
    let (a, rest) = number_before(rest, b' ')?;
    let (b, rest) = number_before(rest, b' ')?;
    let (c, rest) = number_before(rest, b'\n')?;
    let n = u64::from(count);
    if a < n && b < n && c < n {
        Some(([a as u32, b as u32, c as u32], rest))
    } else {
        None
    }
}
