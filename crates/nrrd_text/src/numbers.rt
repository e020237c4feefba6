//! Numbers, written from a place of a text on: each call gives the place behind what it wrote.

ghost use Rattle.std.specs.Prelude.{◌≡◌, ◌+◌, ◌*◌, ◌≤◌, ◌<◌, ◌++◌, take, length, decimal, flat_map, map, unsigned_abs};
ghost use Rattle.std.specs.Fmt.{signed_decimal};
ghost use Rattle.nrrd_text.specs.Writing.{next_number};

use itoa::Buffer;
use number_digits::Digits;
use samples::{Packed, sample_at};

/// The numbers from here on have more digits than those of a volume.
const LONG: u64 = 100_000_000_000;

/// Writes a number of any size.
fn put_long(value: i64, room: &mut [u8], at: usize) -> usize
    requires { at + 20 ≤ length room.old }
    ensures end { result ≤ at + 20 }
    ensures behind { at ≤ result }
    ensures written { take result room.new ≡ take at room.old ++ signed_decimal value }
{
    let mut buffer = Buffer::new();
    let text = buffer.format(value).as_bytes();
    let end = at + text.len();
    room[at..end].copy_from_slice(text);
    end
}

/// Writes the sign of a number below zero. The byte is put in either case, and what comes next stands on it where there
/// is no sign: whether there is one cannot be told beforehand, so no choice is made by it.
#[inline(always)]
fn put_sign(value: i64, room: &mut [u8], at: usize) -> usize
    requires { at < length room.old }
    ensures end { result ≤ at + 1 }
    ensures behind { at ≤ result }
    ensures written { take result room.new ++ decimal (unsigned_abs value) ≡ take at room.old ++ signed_decimal value }
{
    room[at] = b'-';
    at + usize::from(value < 0)
}

/// Writes a number.
#[inline(always)]
pub(crate) fn put_number<D: Digits>(digits: &D, value: i64, room: &mut [u8], at: usize) -> usize
    requires { at + 20 ≤ length room.old }
    ensures end { result ≤ at + 20 }
    ensures behind { at ≤ result }
    ensures written { take result room.new ≡ take at room.old ++ signed_decimal value }
{
    let size = value.unsigned_abs();
    if size >= LONG {
        return put_long(value, room, at);
    }
    let at = put_sign(value, room, at);
    digits.put_number(size, room, at)
}

/// Writes a number behind another: a space, and its digits.
#[inline(always)]
pub(crate) fn put_next<D: Digits>(digits: &D, value: i64, room: &mut [u8], at: usize) -> usize
    requires { at + 21 ≤ length room.old }
    ensures end { result ≤ at + 21 }
    ensures behind { at ≤ result }
    ensures written { take result room.new ≡ take at room.old ++ next_number value }
{
    room[at] = b' ';
    put_number(digits, value, room, at + 1)
}

/// Writes numbers, each behind a space.
pub(crate) fn put_others<D: Digits, T: Packed>(
    digits: &D,
    values: &[T],
    room: &mut [u8],
    at: usize,
) -> usize
    requires { at + 24 * length values.now ≤ length room.old }
    ensures end { result ≤ at + 24 * length values.now }
    ensures behind { at ≤ result }
    ensures written { take result room.new ≡ take at room.old ++ flat_map next_number (map T.value values.now) }
{
    let mut end = at;
    for k in 0..values.len() {
        end = put_next(digits, sample_at(values, k), room, end);
    }
    end
}
