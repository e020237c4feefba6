//! Lines of samples that wait until they are written.

ghost use Rattle.std.specs.Prelude.{◌≡◌, ◌+◌, ◌*◌, ◌<◌, ◌≤◌, ◌∷◌, ◌++◌, [], IsTrue, All, length, flat_map, map};
ghost use Rattle.std.specs.Fmt.{signed_decimal};
ghost use Rattle.iso_defs.specs.Bytes.{line_feed};
ghost use Rattle.nrrd_text.specs.Forms.{IsOfForm, printed};

use crate::byte_numbers::ByteNumbers;
use crate::forms::Form;
use crate::hex_digits::Pairs;
use crate::numbers::{put_number, put_others};
use number_digits::Digits;
use samples::Packed;
use std::marker::Model;

/// The most bytes that wait: a write of the system costs as much as thousands of bytes.
const BLOCK_BYTES: usize = 32_768;

/// Lines of samples, one behind another, each written where it stays until all are taken, and tables of what is printed.
/// Contracts see the bytes of the lines, which are at most 32,768.
#[derive(Drop)]
pub struct SampleLines {
    bytes: [u8; BLOCK_BYTES],
    end: usize,
    pairs: Pairs,
    numbers: ByteNumbers,
}

impl Model for SampleLines {
    ghost use Rattle.std.specs.Prelude.{◌≡◌, ℕ, List, length, take, ◌≤◌};

    ghost Value = { List ℕ };

    ghost view = { λ l. take l.end l.bytes };

    ghost invariant = { λ l. (l.end ≤ 32768) × (length l.bytes ≡ 32768) };
}

impl SampleLines {
    /// No lines.
    pub fn new() -> SampleLines
        ensures { result ≡ [] }
    {
        SampleLines {
            bytes: [0; BLOCK_BYTES],
            end: 0,
            pairs: Pairs::new(),
            numbers: ByteNumbers::new(),
        }
    }

    /// The bytes.
    #[inline(always)]
    pub fn as_bytes(&self) -> &[u8]
        ensures { result.now ≡ self.now }
    {
        &self.bytes[..self.end]
    }

    /// How many bytes there are.
    #[inline(always)]
    pub(crate) fn len(&self) -> usize
        ensures value { result ≡ length self.now }
        ensures bound { result ≤ 32768 }
    {
        self.end
    }

    /// Whether there is room for so many more samples.
    #[inline(always)]
    pub(crate) fn has_room(&self, samples: usize) -> bool
        requires { samples ≤ 256 }
        ensures { IsTrue result → length self.now + 24 * samples ≤ 32768 }
    {
        self.end + 24 * samples <= BLOCK_BYTES
    }

    /// Lets all lines go.
    #[inline(always)]
    pub(crate) fn clear(&mut self)
        ensures { self.new ≡ [] }
    {
        self.end = 0;
    }

    /// Puts the end of a line behind the others.
    #[inline(always)]
    pub(crate) fn push_end(&mut self)
        requires { length self.old < 32768 }
        ensures { self.new ≡ self.old ++ line_feed ∷ [] }
    {
        self.bytes[self.end] = b'\n';
        self.end += 1;
    }

    /// Puts a number behind the others.
    #[inline(always)]
    pub(crate) fn push_first<D: Digits>(&mut self, digits: &D, value: i64)
        requires { length self.old + 24 ≤ 32768 }
        ensures number { self.new ≡ self.old ++ signed_decimal value }
        ensures few { length self.new ≤ length self.old + 24 }
    {
        self.end = put_number(digits, value, &mut self.bytes, self.end);
    }

    /// Puts samples in print behind the others.
    #[inline(always)]
    pub(crate) fn push<D: Digits, T: Packed>(&mut self, digits: &D, form: Form, values: &[T])
        requires form { All (IsOfForm form) (map T.value values.now) }
        requires room { length self.old + 24 * length values.now ≤ 32768 }
        ensures samples { self.new ≡ self.old ++ flat_map (printed form) (map T.value values.now) }
        ensures few { length self.new ≤ length self.old + 24 * length values.now }
    {
        let (room, at) = (&mut self.bytes, self.end);
        self.end = match form {
            Form::Numbers => put_others(digits, values, room, at),
            Form::Bytes => self.numbers.put_bytes(values, room, at),
            Form::Digits(kind) => self.pairs.put_samples(kind, values, room, at),
        };
    }
}
