//! Bytes, written from a place of a text on.

ghost use Rattle.std.specs.Prelude.{◌≡◌, ◌+◌, ◌≤◌, ◌<◌, ◌∷◌, ◌++◌, [], take, length};

/// Writes a byte, and gives the place behind it.
#[inline(always)]
pub fn put_byte(byte: u8, room: &mut [u8], at: usize) -> usize
    requires { at < length room.old }
    ensures end { result ≡ at + 1 }
    ensures written { take result room.new ≡ take at room.old ++ byte ∷ [] }
{
    room[at] = byte;
    at + 1
}

/// Writes an array over bytes that are as many: they are moved at once.
#[inline(always)]
fn set_array<const N: usize>(bytes: &[u8; N], room: &mut [u8])
    requires { length room.old ≡ N }
    ensures { room.new ≡ bytes.now }
{
    *room.as_mut_array::<N>().unwrap() = *bytes;
}

/// Writes an array from a place on.
#[inline(always)]
pub fn put_array<const N: usize>(bytes: &[u8; N], room: &mut [u8], at: usize)
    requires { at + N ≤ length room.old }
    ensures { take (at + N) room.new ≡ take at room.old ++ bytes.now }
{
    set_array(bytes, &mut room[at..at + N]);
}
