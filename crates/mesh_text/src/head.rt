//! Heads of PLY texts.

ghost use Rattle.std.specs.Prelude.{◌≡◌, ◌+◌, ◌≤◌, ◌++◌, decimal, length};
ghost use Rattle.arrayvec.specs.ArrayString.{array_string_len};
ghost use Rattle.byte_streams.specs.Seen.{Puts};
ghost use Rattle.mesh_text.specs.Lines.{ply_head, ply_head_bytes, points_head, points_head_bytes};

use arrayvec::ArrayString;
use byte_streams::{Failed, Sink, write_all_of};
use number_digits::put_number;

#[tactic(auto, unfolding(crate::specs::Lines::points_head_bytes))]
fn points_head_parts(vertices: u32) -> ArrayString<160>
    ensures { result.bytes ≡ points_head_bytes vertices }
{
    let mut text = ArrayString::new();
    text.push_str("ply\nformat ascii 1.0\nelement vertex ");
    put_number(vertices, &mut text);
    text.push_str("\nproperty float x\nproperty float y\nproperty float z\nend_header\n");
    text
}

/// The head of a PLY text of vertices alone, down to `end_header`.
#[tactic(auto, using(crate::proofs::Heads::points_head_is))]
pub fn points_head_text(vertices: u32) -> ArrayString<160>
    ensures { result.bytes ≡ points_head vertices }
{
    points_head_parts(vertices)
}

/// Appends the head of a PLY text of vertices alone, down to `end_header`. `Failed` comes only where the sink's count of
/// faults rose; a prefix of the head was then taken.
pub fn put_points_head<K: Sink>(sink: &mut K, vertices: u32) -> Result<(), Failed>
    ensures { Puts (K.seen sink.old) (K.seen sink.new) result (points_head vertices) }
{
    write_all_of(sink, points_head_text(vertices).as_str().as_bytes())
}

/// Appends words and a number.
fn put_count(before: &str, count: u32, text: &mut ArrayString<256>)
    requires { array_string_len text.old + length before.now + 10 ≤ 256 }
    ensures text { text.new.bytes ≡ text.old.bytes ++ (before.now ++ decimal count) }
    ensures room { array_string_len text.new ≤ array_string_len text.old + length before.now + 10 }
{
    text.push_str(before);
    put_number(count, text);
}

#[tactic(auto, unfolding(crate::specs::Lines::ply_head_bytes))]
fn ply_head_parts(vertices: u32, faces: u32) -> ArrayString<256>
    ensures { result.bytes ≡ ply_head_bytes vertices faces }
{
    let mut text = ArrayString::new();
    put_count(
        "ply\nformat ascii 1.0\nelement vertex ",
        vertices,
        &mut text,
    );
    put_count(
        "\nproperty float x\nproperty float y\nproperty float z\nelement face ",
        faces,
        &mut text,
    );
    text.push_str("\nproperty list uchar int vertex_indices\nend_header\n");
    text
}

/// The head of a PLY text of a mesh, down to `end_header`.
#[tactic(auto, using(crate::proofs::Heads::ply_head_is))]
pub fn ply_head_text(vertices: u32, faces: u32) -> ArrayString<256>
    ensures { result.bytes ≡ ply_head vertices faces }
{
    ply_head_parts(vertices, faces)
}

/// Appends the head of a PLY text of a mesh, down to `end_header`. `Failed` comes only where the sink's count of faults rose;
/// a prefix of the head was then taken.
pub fn put_ply_head<K: Sink>(sink: &mut K, vertices: u32, faces: u32) -> Result<(), Failed>
    ensures { Puts (K.seen sink.old) (K.seen sink.new) result (ply_head vertices faces) }
{
    write_all_of(sink, ply_head_text(vertices, faces).as_str().as_bytes())
}
