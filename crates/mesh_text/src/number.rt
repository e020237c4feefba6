//! Texts of numbers that are put into lines more than once.
//!
//! A number's text is made once for all triangles that name it, and put into lines as an array of 16 bytes, which is
//! moved at once. It has no model: an array cannot repeat a value whose type has one, and 12,312 of them cannot be
//! written out.

ghost use Rattle.std.specs.Prelude.{◌≡◌, ◌+◌, ◌≤◌, ◌<◌, ◌^◌, ◌∷◌, ◌++◌, [], take, length, decimal};
ghost use Rattle.iso_defs.specs.Bytes.{space};
ghost use Rattle.mesh_text.specs.Numbers.{IsShort, number_text, numbers_line};

use number_digits::{Digits, put_array, put_byte};

/// The bytes of an array in which a number's digits stand: it is moved at once.
pub(crate) const ROOM: usize = 16;

/// The place of the byte that says how long a text is.
pub(crate) const LENGTH: usize = 15;

/// The digits of a number and a blank behind them, to be put into lines more than once. The last byte says how many they are.
#[derive(Clone, Copy)]
pub struct Number {
    pub(crate) bytes: [u8; ROOM],
}

impl Number {
    /// A text of no digits.
    pub fn none() -> Number
        ensures { number_text result ≡ [] }
    {
        Number { bytes: [0; ROOM] }
    }

    /// Ends the text behind the digits that stand at its front. They are written where they stay, since a copy of so few bytes
    /// would wait for them.
    #[inline(always)]
    pub(crate) fn end_at(&mut self, end: usize)
        requires { end ≤ 11 }
        ensures { number_text self.new ≡ take end self.old.bytes ++ space ∷ [] }
    {
        self.bytes[end] = b' ';
        self.bytes[LENGTH] = end as u8 + 1;
    }

    /// Sets the text.
    #[inline(always)]
    pub(crate) fn set<D: Digits>(&mut self, digits: &D, n: u64)
        requires { n < 10 ^ 10 }
        ensures { number_text self.new ≡ decimal n ++ space ∷ [] }
    {
        let end = digits.put_number(n, &mut self.bytes, 0);
        self.end_at(end);
    }

    /// Writes the text.
    #[inline(always)]
    pub(crate) fn put(&self, room: &mut [u8], at: usize) -> usize
        requires short { IsShort self.now }
        requires space { at + 16 ≤ length room.old }
        ensures end { result ≡ at + length (number_text self.now) }
        ensures written { take result room.new ≡ take at room.old ++ number_text self.now }
    {
        put_array(&self.bytes, room, at);
        at + self.bytes[LENGTH] as usize
    }
}

/// Writes three numbers and the end of their line, over the blank behind the last one.
#[inline(always)]
pub(crate) fn put_line(a: &Number, b: &Number, c: &Number, room: &mut [u8], at: usize) -> usize
    requires first { IsShort a.now }
    requires second { IsShort b.now }
    requires third { IsShort c.now }
    requires space { at + 40 ≤ length room.old }
    ensures end { result ≤ at + 36 }
    ensures behind { at ≤ result }
    ensures written { take result room.new
        ≡ take at room.old ++ numbers_line (number_text a.now) (number_text b.now) (number_text c.now) }
{
    let at = a.put(room, at);
    let at = b.put(room, at);
    let at = c.put(room, at);
    put_byte(b'\n', room, at - 1)
}
