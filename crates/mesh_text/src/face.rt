//! Lines of faces whose corners are numbers, and no texts yet.

ghost use Rattle.std.specs.Prelude.{◌≡◌, ◌+◌, ◌≤◌, ◌<◌, ◌^◌, ◌∷◌, ◌++◌, [], take, length, decimal};
ghost use Rattle.byte_streams.specs.Seen.{Puts};
ghost use Rattle.iso_base.specs.Triangles.{triangle_of};
ghost use Rattle.iso_defs.specs.Bytes.{space};
ghost use Rattle.iso_defs.specs.Texts.{line, numbers_text};
ghost use Rattle.mesh_text.specs.Numbers.{IsShort, number_text};

use crate::digits::{LINE, put_letter};
use crate::number::{Number, put_line};
use byte_streams::{Failed, Sink, write_all_of};
use number_digits::Counted;

/// The text of a corner.
fn text_of(n: u64) -> Number
    requires { n < 10 ^ 10 }
    ensures text { number_text result ≡ decimal n ++ space ∷ [] }
    ensures short { IsShort result }
{
    let mut text = Number::none();
    text.set(&Counted, n);
    text
}

/// Writes the line of a face from a place on, and says where it ends: a letter, and the corners, counted from the first number.
#[tactic(auto, using(crate::proofs::Counting::numbers_ended))]
fn write_face(letter: u8, first: u32, corners: &[u32; 3], room: &mut [u8], at: usize) -> usize
    requires first { first ≤ 1 }
    requires space { at + 64 ≤ length room.old }
    ensures end { result ≤ at + 64 }
    ensures written { take result room.new
        ≡ take at room.old ++ line (letter ∷ space ∷ numbers_text first (triangle_of corners.now)) }
{
    let first = u64::from(first);
    let a = text_of(first + u64::from(corners[0]));
    let b = text_of(first + u64::from(corners[1]));
    let c = text_of(first + u64::from(corners[2]));
    let at = put_letter(letter, room, at);
    put_line(&a, &b, &c, room, at)
}

/// Appends the line of a face.
pub(crate) fn put_face<K: Sink>(
    sink: &mut K,
    letter: u8,
    first: u32,
    corners: &[u32; 3],
) -> Result<(), Failed>
    requires { first ≤ 1 }
    ensures { Puts (K.seen sink.old) (K.seen sink.new) result
        (line (letter ∷ space ∷ numbers_text first (triangle_of corners.now))) }
{
    let mut line = [0; LINE];
    let end = write_face(letter, first, corners, &mut line, 0);
    write_all_of(sink, &line[..end])
}
