//! The digits of the numbers below 10,000, four to a number.
//!
//! Numbers come out of a table of four digits a number, made once for a text; one of three digits and a blank finishes
//! a number that is counted up by one store. Bytes of an array put one after the other become one move; a copy of a
//! slice is first tested for overlap.

ghost use Rattle.std.specs.Prelude.{◌≡◌, ◌+◌, ◌*◌, ◌≤◌, ◌<◌, ◌^◌, ◌++◌, take, drop, length, decimal};
ghost use Rattle.iso_defs.specs.Texts.{three_digits};
ghost use Rattle.mesh_text.specs.Fours.{AreCounts, AreFours, AreRests, four_digits, rest_text};

use crate::number::ROOM;
use number_digits::{Digits, count_short, put_array, put_byte};
use std::marker::Model;

/// The bytes of a table of four digits a number. Behind the last number's stand eight bytes more, so that four are there
/// from each place of a number on. All sizes are whole words: a struct with padding is copied in pieces, and a large
/// one then stands twice on the stack of its maker.
const FOURS: usize = 40_008;

/// How many numbers the tables have.
const NUMBERS: usize = 10_000;

/// The bytes of a table of three digits and a blank a number.
const RESTS: usize = 4_000;

/// Writes the four digits of a number.
#[inline(always)]
fn put_four_digits(n: u32, room: &mut [u8], at: usize) -> usize
    requires bound { n < 10000 }
    requires space { at + 4 ≤ length room.old }
    ensures end { result ≡ at + 4 }
    ensures written { take result room.new ≡ take at room.old ++ four_digits n }
{
    let at = put_byte(b'0' + (n / 1000) as u8, room, at);
    let at = put_byte(b'0' + (n / 100 % 10) as u8, room, at);
    let at = put_byte(b'0' + (n / 10 % 10) as u8, room, at);
    put_byte(b'0' + (n % 10) as u8, room, at)
}

/// Writes the table.
fn write_fours(room: &mut [u8])
    requires { length room.old ≡ 40008 }
    ensures { AreFours room.new }
{
    let mut at = 0;
    for n in 0..10_000 {
        at = put_four_digits(n, room, at);
    }
}

/// Writes the three digits of a number and a blank.
#[inline(always)]
fn put_rest(n: u32, room: &mut [u8], at: usize) -> usize
    requires bound { n < 1000 }
    requires space { at + 4 ≤ length room.old }
    ensures end { result ≡ at + 4 }
    ensures written { take result room.new ≡ take at room.old ++ rest_text n }
{
    let at = put_byte(b'0' + (n / 100) as u8, room, at);
    let at = put_byte(b'0' + (n / 10 % 10) as u8, room, at);
    let at = put_byte(b'0' + (n % 10) as u8, room, at);
    put_byte(b' ', room, at)
}

/// Writes the table of the last three digits.
fn write_rests(room: &mut [u8])
    requires { length room.old ≡ 4000 }
    ensures { AreRests room.new }
{
    let mut at = 0;
    for n in 0..1_000 {
        at = put_rest(n, room, at);
    }
}

/// Writes how many digits each number below 10,000 has.
fn write_counts(counts: &mut [u8])
    requires { length counts.old ≡ 10000 }
    ensures { AreCounts counts.new }
{
    for n in 0..10_000 {
        counts[n as usize] = count_short(n) as u8;
    }
}

/// Four bytes of a table, from a place on.
#[inline(always)]
fn four_from(table: &[u8], from: usize) -> &[u8; 4]
    requires { from + 4 ≤ length table.now }
    ensures { result.now ≡ take 4 (drop from table.now) }
{
    table[from..].first_chunk::<4>().unwrap()
}

/// Writes four bytes.
#[inline(always)]
fn put_four_bytes(bytes: &[u8], from: usize, room: &mut [u8], at: usize)
    requires from { from + 4 ≤ length bytes.now }
    requires space { at + 4 ≤ length room.old }
    ensures { take (at + 4) room.new ≡ take at room.old ++ take 4 (drop from bytes.now) }
{
    put_array(four_from(bytes, from), room, at);
}

/// Writes the four digits of a number, out of the table.
#[inline(always)]
fn put_four(fours: &Fours, n: u64, room: &mut [u8], at: usize) -> usize
    requires bound { n < 10000 }
    requires space { at + 4 ≤ length room.old }
    ensures end { result ≡ at + 4 }
    ensures written { take result room.new ≡ take at room.old ++ four_digits n }
{
    put_four_bytes(&fours.bytes, 4 * n as usize, room, at);
    at + 4
}

/// How many digits a number below 10,000 has, out of their table.
#[inline(always)]
fn count_out_of(counts: &[u8], n: u64) -> usize
    requires table { AreCounts counts.now }
    requires bound { n < 10000 }
    ensures value { result ≡ length (decimal n) }
    ensures bound { result ≤ 4 }
{
    counts[n as usize] as usize
}

/// Writes a number below 10,000, out of the table.
#[inline(always)]
fn put_short(fours: &Fours, n: u64, room: &mut [u8], at: usize) -> usize
    requires bound { n < 10000 }
    requires space { at + 4 ≤ length room.old }
    ensures end { result ≤ at + 4 }
    ensures behind { at ≤ result }
    ensures written { take result room.new ≡ take at room.old ++ decimal n }
{
    let count = count_out_of(&fours.counts, n);
    put_four_bytes(&fours.bytes, 4 * n as usize + (4 - count), room, at);
    at + count
}

/// Writes a number of more than four digits.
#[inline(always)]
fn put_long(fours: &Fours, n: u64, room: &mut [u8], at: usize) -> usize
    requires least { 10000 ≤ n }
    requires bound { n < 100000000 }
    requires space { at + 8 ≤ length room.old }
    ensures end { result ≤ at + 8 }
    ensures behind { at ≤ result }
    ensures written { take result room.new ≡ take at room.old ++ decimal n }
{
    let at = put_short(fours, n / 10_000, room, at);
    put_four(fours, n % 10_000, room, at)
}

/// Writes a number, out of the table.
#[inline(always)]
fn put_any(fours: &Fours, n: u64, room: &mut [u8], at: usize) -> usize
    requires bound { n < 10 ^ 11 }
    requires space { at + 12 ≤ length room.old }
    ensures end { result ≤ at + 12 }
    ensures behind { at ≤ result }
    ensures written { take result room.new ≡ take at room.old ++ decimal n }
{
    if n < 10_000 {
        put_short(fours, n, room, at)
    } else if n < 100_000_000 {
        put_long(fours, n, room, at)
    } else {
        put_longest(fours, n, room, at)
    }
}

/// Writes a number of more than eight digits.
fn put_longest(fours: &Fours, n: u64, room: &mut [u8], at: usize) -> usize
    requires least { 100000000 ≤ n }
    requires bound { n < 10 ^ 11 }
    requires space { at + 12 ≤ length room.old }
    ensures end { result ≤ at + 12 }
    ensures behind { at ≤ result }
    ensures written { take result room.new ≡ take at room.old ++ decimal n }
{
    let at = put_long(fours, n / 10_000, room, at);
    put_four(fours, n % 10_000, room, at)
}

/// Writes a number below 1,000 in three digits, out of the table.
#[inline(always)]
pub(crate) fn put_last_three(fours: &Fours, n: u64, room: &mut [u8], at: usize) -> usize
    requires bound { n < 1000 }
    requires space { at + 4 ≤ length room.old }
    ensures end { result ≡ at + 3 }
    ensures written { take result room.new ≡ take at room.old ++ three_digits n }
{
    put_four_bytes(&fours.bytes, 4 * n as usize + 1, room, at);
    at + 3
}

/// Sets four bytes at once.
#[inline(always)]
fn set_all(bytes: &[u8; 4], room: &mut [u8])
    requires { length room.old ≡ 4 }
    ensures { room.new ≡ bytes.now }
{
    *room.as_mut_array::<4>().unwrap() = *bytes;
}

/// Puts the last three digits of a number and a blank over bytes, from a place on. The bytes behind them stay.
#[inline(always)]
pub(crate) fn set_rest(fours: &Fours, n: u64, bytes: &mut [u8; ROOM], at: usize)
    requires bound { n < 1000 }
    requires space { at + 4 ≤ 16 }
    ensures { bytes.new ≡ take at bytes.old ++ (rest_text n ++ drop (at + 4) bytes.old) }
{
    let rest = four_from(&fours.rests, 4 * n as usize);
    set_all(rest, &mut bytes[at..at + 4]);
}

/// The digits of each number below 10,000, four to a number, and how many it has: numbers are written four digits at a
/// time. And those of each below 1,000 as a longer number ends with them, three and a blank.
#[derive(Drop)]
pub struct Fours {
    bytes: [u8; FOURS],
    counts: [u8; NUMBERS],
    rests: [u8; RESTS],
}

impl Model for Fours {
    ghost use Rattle.std.specs.Prelude.{ℕ, List};
    ghost use Rattle.mesh_text.specs.Fours.{AreCounts, AreFours, AreRests};

    ghost Value = { List ℕ };

    ghost view = { λ f. f.bytes };

    ghost invariant = { λ f. AreFours f.bytes × (AreCounts f.counts × AreRests f.rests) };
}

impl Fours {
    /// The table. Apart: with these loops in it, its caller is not seen to set all bytes, and what it makes is copied.
    #[inline(never)]
    pub fn new() -> Fours {
        let mut bytes = [0; FOURS];
        write_fours(&mut bytes);
        let mut counts = [0; NUMBERS];
        write_counts(&mut counts);
        let mut rests = [0; RESTS];
        write_rests(&mut rests);
        Fours {
            bytes,
            counts,
            rests,
        }
    }
}

impl Digits for Fours {
    #[inline(always)]
    fn put_number(&self, n: u64, room: &mut [u8], at: usize) -> usize {
        put_any(self, n, room, at)
    }

    #[inline(always)]
    fn put_three_digits(&self, n: u64, room: &mut [u8], at: usize) -> usize {
        put_last_three(self, n, room, at)
    }
}
