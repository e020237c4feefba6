//! Lines of Wavefront OBJ texts.

ghost use Rattle.std.specs.Prelude.{◌≡◌, ◌+◌, ◌<◌, ◌≤◌, ◌^◌, ◌++◌, length, take, unsigned_abs};
ghost use Rattle.byte_streams.specs.Seen.{Puts};
ghost use Rattle.mesh_text.specs.Lines.{along, obj_face_line, obj_vertex_line};

use crate::digits::{LINE, put_letter, put_vertex};
use crate::face::put_face;
use byte_streams::{Failed, Sink, write_all_of};
use iso_base::Thousandth;
use number_digits::{Counted, Digits};

/// Writes the line of a vertex from a place on, and says where it ends.
#[inline(always)]
pub(crate) fn write_obj_vertex<D: Digits>(
    digits: &D,
    vertex: &[Thousandth; 3],
    room: &mut [u8],
    at: usize,
) -> usize
    requires x { unsigned_abs (along vertex.now 0) < 2 ^ 44 }
    requires y { unsigned_abs (along vertex.now 1) < 2 ^ 44 }
    requires z { unsigned_abs (along vertex.now 2) < 2 ^ 44 }
    requires space { at + 64 ≤ length room.old }
    ensures end { result ≤ at + 64 }
    ensures behind { at ≤ result }
    ensures written { take result room.new ≡ take at room.old ++ obj_vertex_line vertex.now }
{
    let at = put_letter(b'v', room, at);
    put_vertex(digits, vertex, room, at)
}

/// Appends the line of a vertex: `v X Y Z`. `Failed` comes only where the sink's count of faults rose; a prefix of the line was
/// then taken.
pub fn put_obj_vertex<K: Sink>(sink: &mut K, at: [Thousandth; 3]) -> Result<(), Failed>
    requires x { unsigned_abs (along at 0) < 2 ^ 44 }
    requires y { unsigned_abs (along at 1) < 2 ^ 44 }
    requires z { unsigned_abs (along at 2) < 2 ^ 44 }
    ensures { Puts (K.seen sink.old) (K.seen sink.new) result (obj_vertex_line at) }
{
    let mut line = [0; LINE];
    let end = write_obj_vertex(&Counted, &at, &mut line, 0);
    write_all_of(sink, &line[..end])
}

/// Appends the line of a face: `f A B C`. Its corners are handed in counted from 0 and printed
/// counted from 1. `Failed` comes only where the sink's count of faults
/// rose; a prefix of the line was then taken.
pub fn put_obj_face<K: Sink>(sink: &mut K, corners: [u32; 3]) -> Result<(), Failed>
    ensures { Puts (K.seen sink.old) (K.seen sink.new) result (obj_face_line corners) }
{
    put_face(sink, b'f', 1, &corners)
}
