//! The hex digits of samples, written from a place of a text on: each call gives the place behind what it wrote.

ghost use Rattle.std.specs.Prelude.{◌≡◌, ◌+◌, ◌*◌, ◌≤◌, ◌<◌, ◌++◌, take, length, map, All};
ghost use Rattle.iso_base.specs.Volume.{IsOfKind};
ghost use Rattle.nrrd_text.specs.Pairs.{ArePairs};
ghost use Rattle.nrrd_text.specs.Writing.{byte_digits, hex_digit, sample_digits, samples_digits};

use iso_base::SampleKind;
use samples::{Packed, sample_at};
use std::marker::Model;
use text_samples::bits_of;

/// A small hex digit.
#[inline(always)]
fn hex_digit(n: u8) -> u8
    requires { n < 16 }
    ensures { result ≡ hex_digit n }
{
    if n < 10 { b'0' + n } else { b'a' + (n - 10) }
}

/// The two digits of a byte.
fn pair_of(b: u8) -> [u8; 2]
    ensures { result ≡ byte_digits b }
{
    [hex_digit(b / 16), hex_digit(b % 16)]
}

/// Writes the table.
fn write_pairs(room: &mut [[u8; 2]])
    requires { length room.old ≡ 256 }
    ensures { ArePairs room.new }
{
    for b in 0..256u16 {
        room[usize::from(b)] = pair_of(b as u8);
    }
}

/// The two small hex digits of each byte: digits are written two at a time.
#[derive(Drop)]
pub(crate) struct Pairs {
    pairs: [[u8; 2]; 256],
}

impl Model for Pairs {
    ghost use Rattle.std.specs.Prelude.{ℕ, List};
    ghost use Rattle.nrrd_text.specs.Pairs.{ArePairs};

    ghost Value = { List (List ℕ) };

    ghost view = { λ p. p.pairs };

    ghost invariant = { λ p. ArePairs p.pairs };
}

impl Pairs {
    /// The table.
    pub(crate) fn new() -> Pairs {
        let mut pairs = [[0; 2]; 256];
        write_pairs(&mut pairs);
        Pairs { pairs }
    }

    /// Writes the digits of samples. What a kind asks for is asked once, and not for each of them.
    #[inline(always)]
    pub(crate) fn put_samples<T: Packed>(
        &self,
        kind: SampleKind,
        values: &[T],
        room: &mut [u8],
        at: usize,
    ) -> usize
        requires kind { All (IsOfKind kind) (map T.value values.now) }
        requires space { at + 24 * length values.now ≤ length room.old }
        ensures end { result ≤ at + 24 * length values.now }
        ensures behind { at ≤ result }
        ensures written { take result room.new ≡ take at room.old ++ samples_digits kind (map T.value values.now) }
    {
        put_samples(&self.pairs, kind, values, room, at)
    }
}

/// Writes the two digits of a byte, out of the table. They are put one by one, which is done in one move: a copy of the
/// pair would first be asked whether it lies in the room.
#[inline(always)]
fn put_byte(pairs: &[[u8; 2]], b: u8, room: &mut [u8], at: usize) -> usize
    requires table { ArePairs pairs.now }
    requires space { at + 2 ≤ length room.old }
    ensures end { result ≡ at + 2 }
    ensures written { take result room.new ≡ take at room.old ++ byte_digits b }
{
    let [high, low] = pairs[usize::from(b)];
    room[at] = high;
    room[at + 1] = low;
    at + 2
}

/// Writes the digits of a sample's bytes, the lowest byte first.
#[inline(always)]
#[tactic(auto, unfolding(crate::specs::Writing::sample_digits))]
fn put_sample(pairs: &[[u8; 2]], kind: SampleKind, value: i64, room: &mut [u8], at: usize) -> usize
    requires table { ArePairs pairs.now }
    requires kind { IsOfKind kind value }
    requires space { at + 8 ≤ length room.old }
    ensures end { result ≤ at + 8 }
    ensures behind { at ≤ result }
    ensures written { take result room.new ≡ take at room.old ++ sample_digits kind value }
{
    let [a, b, c, d] = bits_of(kind, value).to_le_bytes();
    let at = put_byte(pairs, a, room, at);
    if kind.width() == 1 {
        return at;
    }
    let at = put_byte(pairs, b, room, at);
    if kind.width() == 2 {
        return at;
    }
    let at = put_byte(pairs, c, room, at);
    put_byte(pairs, d, room, at)
}

/// Writes the digits of samples.
#[inline(always)]
fn put_each<T: Packed>(
    pairs: &[[u8; 2]],
    kind: SampleKind,
    values: &[T],
    room: &mut [u8],
    at: usize,
) -> usize
    requires table { ArePairs pairs.now }
    requires kind { All (IsOfKind kind) (map T.value values.now) }
    requires space { at + 24 * length values.now ≤ length room.old }
    ensures end { result ≤ at + 24 * length values.now }
    ensures behind { at ≤ result }
    ensures written { take result room.new ≡ take at room.old ++ samples_digits kind (map T.value values.now) }
{
    let mut end = at;
    for k in 0..values.len() {
        end = put_sample(pairs, kind, sample_at(values, k), room, end);
    }
    end
}

/// Writes the digits of samples. What a kind asks for is asked once, and not for each of them.
fn put_samples<T: Packed>(
    pairs: &[[u8; 2]],
    kind: SampleKind,
    values: &[T],
    room: &mut [u8],
    at: usize,
) -> usize
    requires table { ArePairs pairs.now }
    requires kind { All (IsOfKind kind) (map T.value values.now) }
    requires space { at + 24 * length values.now ≤ length room.old }
    ensures end { result ≤ at + 24 * length values.now }
    ensures behind { at ≤ result }
    ensures written { take result room.new ≡ take at room.old ++ samples_digits kind (map T.value values.now) }
{
    match kind {
        SampleKind::I8 => put_each(pairs, SampleKind::I8, values, room, at),
        SampleKind::U8 => put_each(pairs, SampleKind::U8, values, room, at),
        SampleKind::I16 => put_each(pairs, SampleKind::I16, values, room, at),
        SampleKind::U16 => put_each(pairs, SampleKind::U16, values, room, at),
        SampleKind::I32 => put_each(pairs, SampleKind::I32, values, room, at),
        SampleKind::U32 => put_each(pairs, SampleKind::U32, values, room, at),
    }
}
