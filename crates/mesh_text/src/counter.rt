//! Numbers that follow each other, as texts.
//!
//! Numbers that follow each other change before their last three digits once in a thousand, so those are copied, and
//! the last three come from the table. The text is made where it stays: a copy of bytes that were written one by one
//! just before waits for them.

ghost use Rattle.std.specs.Prelude.{◌≡◌, ◌+◌, ◌*◌, ◌≤◌, ◌<◌, ◌^◌, ◌∷◌, ◌++◌, [], take, length, decimal};
ghost use Rattle.iso_defs.specs.Bytes.{space};
ghost use Rattle.mesh_text.specs.Numbers.{IsFront, number_text};

use crate::fours::{Fours, set_rest};
use crate::number::{LENGTH, Number, ROOM};
use number_digits::Digits;
use std::marker::Model;

/// Sets the digits before the last three of a number and, in the last byte, how long its text is: three digits and a blank
/// more. Gives how many they are.
#[inline(always)]
fn set_front(thousands: u64, front: &mut [u8; ROOM], digits: &Fours) -> usize
    requires { thousands ≤ 10 ^ 7 }
    ensures { IsFront thousands front.new result }
{
    let count = digits.put_number(thousands, front, 0);
    front[LENGTH] = count as u8 + 4;
    count
}

/// Counts up in text: the digits before the last three are kept for a thousand numbers, as a text that lacks only these and
/// the blank. Contracts see the next number.
#[derive(Drop)]
pub struct Counter {
    thousands: u64,
    rest: u64,
    front: [u8; ROOM],
    count: usize,
}

impl Model for Counter {
    ghost use Rattle.std.specs.Prelude.{ℕ, ◌+◌, ◌*◌};
    ghost use Rattle.mesh_text.specs.Numbers.{IsCounter};

    ghost Value = { ℕ };

    ghost view = { λ c. 1000 * c.thousands + c.rest };

    ghost invariant = { λ c. IsCounter c.thousands c.rest c.front c.count };
}

impl Counter {
    /// Begins at a number.
    pub fn from(first: u64, digits: &Fours) -> Counter
        requires { first < 10 ^ 10 }
        ensures { result ≡ first }
    {
        let thousands = first / 1000;
        let mut front = [0; ROOM];
        let count = set_front(thousands, &mut front, digits);
        Counter {
            thousands,
            rest: first % 1000,
            front,
            count,
        }
    }

    /// Sets a text to that of the next number, which is not counted by that.
    #[inline(always)]
    fn set_text(&self, digits: &Fours, number: &mut Number)
        requires { self.now < 10 ^ 10 }
        ensures { number_text number.new ≡ decimal self.now ++ space ∷ [] }
    {
        if self.thousands == 0 {
            number.set(digits, self.rest);
            return;
        }
        number.bytes = self.front;
        set_rest(digits, self.rest, &mut number.bytes, self.count);
    }

    /// Counts on by one.
    #[inline(always)]
    fn step(&mut self, digits: &Fours)
        requires { self.old < 10 ^ 10 }
        ensures { self.new ≡ self.old + 1 }
    {
        self.rest += 1;
        if self.rest == 1000 {
            self.thousands += 1;
            self.rest = 0;
            self.count = set_front(self.thousands, &mut self.front, digits);
        }
    }

    /// Sets a text to that of the next number, and counts on.
    #[inline(always)]
    pub fn set_next(&mut self, digits: &Fours, number: &mut Number)
        requires { self.old < 10 ^ 10 }
        ensures text { number_text number.new ≡ decimal self.old ++ space ∷ [] }
        ensures next { self.new ≡ self.old + 1 }
    {
        self.set_text(digits, number);
        self.step(digits);
    }
}
