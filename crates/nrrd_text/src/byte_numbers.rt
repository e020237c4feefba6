//! The numbers that a byte can be, each behind a space, out of a table.
//!
//! The digits of a byte come from a table, and the byte of a sign is written in either case: no branch is
//! unpredictable.

ghost use Rattle.std.specs.Prelude.{◌≡◌, ◌+◌, ◌*◌, ◌≤◌, ◌++◌, take, length, flat_map, map, pos, All};
ghost use Rattle.iso_base.specs.Volume.{IsOfKind};
ghost use Rattle.iso_base.specs.declared.kind.SampleKind.TheVariants.{U8};
ghost use Rattle.nrrd_text.specs.ByteNumbers.{AreByteNumbers, IsEntry};
ghost use Rattle.nrrd_text.specs.Writing.{next_number};

use crate::numbers::put_next;
use number_digits::Counted;
use samples::{Packed, sample_at};
use std::marker::Model;

/// The entry of a byte: its number behind a space, and behind these four bytes how many of them count.
fn entry_of(b: u8) -> [u8; 8]
    ensures { IsEntry result b }
{
    let mut text = [0; 24];
    let end = put_next(&Counted, i64::from(b), &mut text, 0);
    [text[0], text[1], text[2], text[3], end as u8, 0, 0, 0]
}

/// Writes the table.
fn write_entries(room: &mut [[u8; 8]])
    requires { length room.old ≡ 256 }
    ensures { AreByteNumbers room.new }
{
    for b in 0..256u16 {
        room[usize::from(b)] = entry_of(b as u8);
    }
}

/// Writes four bytes.
#[inline(always)]
fn put_four(bytes: [u8; 4], room: &mut [u8], at: usize)
    requires { at + 4 ≤ length room.old }
    ensures { take (at + 4) room.new ≡ take at room.old ++ bytes }
{
    let [first, second, third, fourth] = bytes;
    room[at] = first;
    room[at + 1] = second;
    room[at + 2] = third;
    room[at + 3] = fourth;
}

/// Writes the number of a byte behind a space. Four bytes are put in any case: how many of them count is looked up, since a
/// choice by it could not be foreseen.
#[inline(always)]
fn put_byte_number(entries: &[[u8; 8]], b: u8, room: &mut [u8], at: usize) -> usize
    requires table { AreByteNumbers entries.now }
    requires space { at + 4 ≤ length room.old }
    ensures end { result ≤ at + 4 }
    ensures behind { at ≤ result }
    ensures written { take result room.new ≡ take at room.old ++ next_number (pos b) }
{
    let [first, second, third, fourth, count, ..] = entries[usize::from(b)];
    put_four([first, second, third, fourth], room, at);
    at + usize::from(count)
}

/// The numbers that a byte can be, each behind a space, so that one is written by one look.
#[derive(Drop)]
pub(crate) struct ByteNumbers {
    entries: [[u8; 8]; 256],
}

impl Model for ByteNumbers {
    ghost use Rattle.std.specs.Prelude.{ℕ, List};
    ghost use Rattle.nrrd_text.specs.ByteNumbers.{AreByteNumbers};

    ghost Value = { List (List ℕ) };

    ghost view = { λ n. n.entries };

    ghost invariant = { λ n. AreByteNumbers n.entries };
}

impl ByteNumbers {
    /// The table.
    pub(crate) fn new() -> ByteNumbers {
        let mut entries = [[0; 8]; 256];
        write_entries(&mut entries);
        ByteNumbers { entries }
    }

    /// Writes numbers that a byte can be, each behind a space.
    #[inline(always)]
    pub(crate) fn put_bytes<T: Packed>(&self, values: &[T], room: &mut [u8], at: usize) -> usize
        requires kind { All (IsOfKind U8) (map T.value values.now) }
        requires space { at + 24 * length values.now ≤ length room.old }
        ensures end { result ≤ at + 24 * length values.now }
        ensures behind { at ≤ result }
        ensures written { take result room.new ≡ take at room.old ++ flat_map next_number (map T.value values.now) }
    {
        put_bytes(&self.entries, values, room, at)
    }
}

/// Writes numbers that a byte can be, each behind a space.
fn put_bytes<T: Packed>(entries: &[[u8; 8]], values: &[T], room: &mut [u8], at: usize) -> usize
    requires table { AreByteNumbers entries.now }
    requires kind { All (IsOfKind U8) (map T.value values.now) }
    requires space { at + 24 * length values.now ≤ length room.old }
    ensures end { result ≤ at + 24 * length values.now }
    ensures behind { at ≤ result }
    ensures written { take result room.new ≡ take at room.old ++ flat_map next_number (map T.value values.now) }
{
    let mut end = at;
    for k in 0..values.len() {
        end = put_byte_number(entries, sample_at(values, k) as u8, room, end);
    }
    end
}
