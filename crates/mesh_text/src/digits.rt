//! Numbers and coordinates, written from a place of a text on: each call gives the place behind what it wrote.

ghost use Rattle.std.specs.Prelude.{◌≡◌, ◌+◌, ◌*◌, ◌≤◌, ◌<◌, ◌^◌, ◌∷◌, ◌++◌, [], take, length, decimal, unsigned_abs};
ghost use Rattle.iso_defs.specs.Bytes.{space, minus};
ghost use Rattle.iso_defs.specs.Texts.{decimal_text, thousandths, three_digits, line};
ghost use Rattle.mesh_text.specs.Lines.{along, coordinates_text};

use iso_base::Thousandth;
use number_digits::{Digits, put_array, put_byte};

/// The room of a line that is written alone.
pub const LINE: usize = 64;

#[inline(always)]
fn put_thousandths<D: Digits>(digits: &D, n: u64, room: &mut [u8], at: usize) -> usize
    requires bound { n ≤ 2 ^ 44 }
    requires space { at + 17 ≤ length room.old }
    ensures end { result ≤ at + 16 }
    ensures behind { at ≤ result }
    ensures written { take result room.new ≡ take at room.old ++ thousandths n }
{
    let at = digits.put_number(n / 1000, room, at);
    let at = put_byte(b'.', room, at);
    digits.put_three_digits(n % 1000, room, at)
}

/// Writes a coordinate below zero, given without its sign.
#[inline(always)]
fn put_negative<D: Digits>(digits: &D, size: u64, room: &mut [u8], at: usize) -> usize
    requires bound { size < 2 ^ 44 }
    requires space { at + 18 ≤ length room.old }
    ensures end { result ≤ at + 17 }
    ensures behind { at ≤ result }
    ensures written { take result room.new ≡ take at room.old ++ minus ∷ thousandths size }
{
    let at = put_byte(b'-', room, at);
    put_thousandths(digits, size, room, at)
}

#[inline(always)]
fn put_coordinate<D: Digits>(digits: &D, value: i64, room: &mut [u8], at: usize) -> usize
    requires bound { unsigned_abs value < 2 ^ 44 }
    requires space { at + 18 ≤ length room.old }
    ensures end { result ≤ at + 17 }
    ensures behind { at ≤ result }
    ensures written { take result room.new ≡ take at room.old ++ decimal_text value }
{
    if value < 0 {
        put_negative(digits, value.unsigned_abs(), room, at)
    } else {
        put_thousandths(digits, value.unsigned_abs(), room, at)
    }
}

#[inline(always)]
fn put_coordinates<D: Digits>(
    digits: &D,
    x: i64,
    y: i64,
    z: i64,
    room: &mut [u8],
    at: usize,
) -> usize
    requires x { unsigned_abs x < 2 ^ 44 }
    requires y { unsigned_abs y < 2 ^ 44 }
    requires z { unsigned_abs z < 2 ^ 44 }
    requires space { at + 54 ≤ length room.old }
    ensures end { result ≤ at + 54 }
    ensures behind { at ≤ result }
    ensures written { take result room.new ≡ take at room.old ++ line (coordinates_text x y z) }
{
    let at = put_coordinate(digits, x, room, at);
    let at = put_byte(b' ', room, at);
    let at = put_coordinate(digits, y, room, at);
    let at = put_byte(b' ', room, at);
    let at = put_coordinate(digits, z, room, at);
    put_byte(b'\n', room, at)
}

#[inline(always)]
fn coordinate(at: &[Thousandth; 3], axis: usize) -> i64
    requires { axis < 3 }
    ensures { result ≡ along at.now axis }
{
    at[axis].0
}

/// Writes the coordinates of a vertex and the end of its line.
#[inline(always)]
pub fn put_vertex<D: Digits>(
    digits: &D,
    vertex: &[Thousandth; 3],
    room: &mut [u8],
    at: usize,
) -> usize
    requires x { unsigned_abs (along vertex.now 0) < 2 ^ 44 }
    requires y { unsigned_abs (along vertex.now 1) < 2 ^ 44 }
    requires z { unsigned_abs (along vertex.now 2) < 2 ^ 44 }
    requires space { at + 54 ≤ length room.old }
    ensures end { result ≤ at + 54 }
    ensures behind { at ≤ result }
    ensures written { take result room.new
        ≡ take at room.old ++ line (coordinates_text (along vertex.now 0) (along vertex.now 1) (along vertex.now 2)) }
{
    put_coordinates(
        digits,
        coordinate(vertex, 0),
        coordinate(vertex, 1),
        coordinate(vertex, 2),
        room,
        at,
    )
}

/// Writes a letter and a blank.
#[inline(always)]
pub fn put_letter(letter: u8, room: &mut [u8], at: usize) -> usize
    requires space { at + 2 ≤ length room.old }
    ensures end { result ≡ at + 2 }
    ensures written { take result room.new ≡ take at room.old ++ letter ∷ space ∷ [] }
{
    put_array(&[letter, b' '], room, at);
    at + 2
}
