//! Numbers in print.
//!
//! The call asks for room for the longest text of its type, so no caller proves how many digits its number has.

ghost use Rattle.std.specs.Prelude.{◌≡◌, ◌+◌, ◌≤◌, ◌++◌, length};
ghost use Rattle.arrayvec.specs.ArrayString.{array_string_len};

use arrayvec::ArrayString;
use itoa::{Buffer, Integer};

/// Appends a number of any integer type: a sign where it is negative, and its digits. There must be room for the longest text of
/// its type: 10 bytes for a `u32`, 20 for 64 bits, 40 for 128.
pub fn put_number<I: Integer, const N: usize>(n: I, into: &mut ArrayString<N>)
    requires room { array_string_len into.old + I.MAX_STR_LEN ≤ N }
    ensures text { into.new.bytes ≡ into.old.bytes ++ I.text n }
    ensures len { array_string_len into.new ≡ array_string_len into.old + length (I.text n) }
    ensures room { array_string_len into.new ≤ array_string_len into.old + I.MAX_STR_LEN }
{
    let mut buffer = Buffer::new();
    into.push_str(buffer.format(n));
}
