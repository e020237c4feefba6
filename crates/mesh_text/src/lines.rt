//! Lines that are gathered in a buffer, with the tables that their numbers are made of.

ghost use Rattle.std.specs.Prelude.{◌≡◌, ◌+◌, ◌<◌, ◌≤◌, ◌^◌, ◌++◌, [], All, drop, length, decimal, unsigned_abs};
ghost use Rattle.mesh_text.specs.Pieces.{parts_line, thirds_line};
ghost use Rattle.mesh_text.specs.Lines.{along, letter_line, obj_vertex_line, ply_vertex_line};
ghost use Rattle.mesh_text.specs.Numbers.{IsShort, number_text};

use crate::digits::put_letter;
use crate::fours::{Fours, put_last_three};
use crate::number::{Number, put_line};
use crate::obj::write_obj_vertex;
use crate::piece::{Piece, put_text};
use crate::ply::write_ply_vertex;
use iso_base::Thousandth;
use number_digits::put_byte;
use std::marker::Model;

/// The bytes of some lines, 69,632 at most, and behind them room for what a piece moves at once beyond its text.
const SPACE_BYTES: usize = 69_664;

/// Lines one behind another, each written where it stays until it is taken, and a table of digits, four to a number.
/// Contracts see the bytes of the lines, which are at most 69,632.
#[derive(Drop)]
pub struct Lines {
    bytes: [u8; SPACE_BYTES],
    end: usize,
    digits: Fours,
}

impl Model for Lines {
    ghost use Rattle.std.specs.Prelude.{◌≡◌, ℕ, List, length, take, ◌≤◌};

    ghost Value = { List ℕ };

    ghost view = { λ l. take l.end l.bytes };

    ghost invariant = { λ l. (l.end ≤ 69632) × (length l.bytes ≡ 69664) };
}

impl Lines {
    /// No lines.
    pub fn new() -> Lines
        ensures { result ≡ [] }
    {
        Lines {
            bytes: [0; SPACE_BYTES],
            end: 0,
            digits: Fours::new(),
        }
    }

    /// The bytes.
    #[inline(always)]
    pub fn as_bytes(&self) -> &[u8]
        ensures { result.now ≡ self.now }
    {
        &self.bytes[..self.end]
    }

    /// How many bytes there are.
    #[inline(always)]
    pub fn len(&self) -> usize
        ensures value { result ≡ length self.now }
        ensures bound { result ≤ 69632 }
    {
        self.end
    }

    /// Lets all lines go.
    #[inline(always)]
    pub fn clear(&mut self)
        ensures { self.new ≡ [] }
    {
        self.end = 0;
    }

    /// Lets the first bytes go: those behind them move to the front.
    pub fn drop_front(&mut self, count: usize)
        requires { count ≤ length self.old }
        ensures { self.new ≡ drop count self.old }
    {
        self.bytes.copy_within(count..self.end, 0);
        self.end -= count;
    }

    /// Puts bytes behind the others.
    pub fn push(&mut self, text: &[u8])
        requires { length self.old + length text.now ≤ 69632 }
        ensures { self.new ≡ self.old ++ text.now }
    {
        self.end = put_text(text, &mut self.bytes, self.end);
    }

    /// Puts the line of a vertex in PLY behind the others.
    #[inline(always)]
    pub fn push_ply_vertex(&mut self, vertex: &[Thousandth; 3])
        requires x { unsigned_abs (along vertex.now 0) < 2 ^ 44 }
        requires y { unsigned_abs (along vertex.now 1) < 2 ^ 44 }
        requires z { unsigned_abs (along vertex.now 2) < 2 ^ 44 }
        requires room { length self.old + 64 ≤ 69632 }
        ensures line { self.new ≡ self.old ++ ply_vertex_line vertex.now }
        ensures few { length self.new ≤ length self.old + 64 }
    {
        self.end = write_ply_vertex(&self.digits, vertex, &mut self.bytes, self.end);
    }

    /// Puts the line of a vertex in OBJ behind the others.
    #[inline(always)]
    pub fn push_obj_vertex(&mut self, vertex: &[Thousandth; 3])
        requires x { unsigned_abs (along vertex.now 0) < 2 ^ 44 }
        requires y { unsigned_abs (along vertex.now 1) < 2 ^ 44 }
        requires z { unsigned_abs (along vertex.now 2) < 2 ^ 44 }
        requires room { length self.old + 64 ≤ 69632 }
        ensures line { self.new ≡ self.old ++ obj_vertex_line vertex.now }
        ensures few { length self.new ≤ length self.old + 64 }
    {
        self.end = write_obj_vertex(&self.digits, vertex, &mut self.bytes, self.end);
    }

    /// The table of digits.
    #[inline(always)]
    pub fn digits(&self) -> &Fours {
        &self.digits
    }

    /// Puts a line behind the others whose three digits stand between texts that are at hand.
    #[inline(always)]
    pub fn push_parts(&mut self, front: &Piece<16>, middle: &Piece<32>, n: u16, tail: &Piece<32>)
        requires front { front.now.len ≤ 16 }
        requires middle { middle.now.len ≤ 32 }
        requires tail { tail.now.len ≤ 32 }
        requires fits { front.now.len + (middle.now.len + tail.now.len) ≤ 61 }
        requires bound { n < 1000 }
        requires room { length self.old + 64 ≤ 69632 }
        ensures line { self.new ≡ self.old ++ parts_line front.now middle.now n tail.now }
        ensures few { length self.new ≤ length self.old + 64 }
    {
        let at = front.put(&mut self.bytes, self.end);
        let at = middle.put(&mut self.bytes, at);
        let at = put_last_three(&self.digits, u64::from(n), &mut self.bytes, at);
        self.end = tail.put(&mut self.bytes, at);
    }

    /// Puts a line behind the others whose three numbers of three digits stand each behind a text that is at hand.
    #[inline(always)]
    pub fn push_thirds(&mut self, x: &Piece<16>, y: &Piece<16>, z: &Piece<16>, at: &[u32; 3])
        requires x { x.now.len ≤ 16 }
        requires y { y.now.len ≤ 16 }
        requires z { z.now.len ≤ 16 }
        requires rest { All (λ n. n < 1000) at.now }
        requires room { length self.old + 64 ≤ 69632 }
        ensures line { self.new ≡ self.old ++ thirds_line x.now y.now z.now at.now }
        ensures few { length self.new ≤ length self.old + 64 }
    {
        let end = x.put(&mut self.bytes, self.end);
        let end = put_last_three(&self.digits, u64::from(at[0]), &mut self.bytes, end);
        let end = y.put(&mut self.bytes, end);
        let end = put_last_three(&self.digits, u64::from(at[1]), &mut self.bytes, end);
        let end = z.put(&mut self.bytes, end);
        let end = put_last_three(&self.digits, u64::from(at[2]), &mut self.bytes, end);
        self.end = put_byte(b'\n', &mut self.bytes, end);
    }

    /// Puts the line of a letter and three numbers behind the others.
    #[inline(always)]
    pub fn push_numbers(&mut self, letter: u8, a: &Number, b: &Number, c: &Number)
        requires first { IsShort a.now }
        requires second { IsShort b.now }
        requires third { IsShort c.now }
        requires room { length self.old + 64 ≤ 69632 }
        ensures line { self.new
            ≡ self.old ++ letter_line letter (number_text a.now) (number_text b.now) (number_text c.now) }
        ensures few { length self.new ≤ length self.old + 64 }
    {
        let at = put_letter(letter, &mut self.bytes, self.end);
        self.end = put_line(a, b, c, &mut self.bytes, at);
    }
}
