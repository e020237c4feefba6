//! Wavefront OBJ texts.
ghost use Rattle.std.specs.Prelude.{◌≡◌, ◌<◌, ◌≤◌, ◌^◌, ◌==◌, length, position, IfOk, ok_or};
ghost use Rattle.std.specs.List.{before_first};
ghost use Rattle.iso_defs.specs.Bytes.{slash};
ghost use Rattle.mesh_read.specs.Corners.{IsInside};
ghost use Rattle.refusals.specs.declared.mesh.MeshFault.TheVariants.{BadNumber, IndexOutside};
ghost use Rattle.text_lines.specs.Words.{words_of};
ghost use Rattle.mesh_read.specs.Answers.{Answers};
ghost use Rattle.mesh_read.specs.Obj.{saying_of, by_first, reference_number, vertex_named, face_of, obj_of};
ghost use Rattle.mesh_read.specs.SeenObj.{seen_line};

use iso_base::TriangleList;
use refusals::MeshFault;
use std::alloc::Global;
use text_lines::{next_line, next_word, number, three_words};

/// What a line says.
#[derive(Clone, Copy)]
pub enum ObjLine<'a> {
    /// A vertex, whose coordinates are not read.
    Vertex,
    /// A face, with the text of its references.
    Face(&'a [u8]),
    /// Anything else.
    Unread,
}

#[tactic(auto, unfolding(crate::specs::Obj::by_first))]
fn line_named<'a>(word: &[u8], references: &'a [u8]) -> ObjLine<'a>
    ensures { seen_line result ≡ by_first word.now (words_of references.now) }
{
    if word == b"v".as_slice() {
        ObjLine::Vertex
    } else if word == b"f".as_slice() {
        ObjLine::Face(references)
    } else {
        ObjLine::Unread
    }
}

fn obj_line(text: &[u8]) -> ObjLine<'_>
    ensures { seen_line result ≡ saying_of (words_of text.now) }
{
    match next_word(text) {
        Some((word, references)) => line_named(word, references),
        None => ObjLine::Unread,
    }
}

fn slash_at(word: &[u8]) -> Option<usize>
    ensures { result ≡ position (λ b. b == slash) word.now }
{
    word.iter().position(|b| *b == b'/')
}

fn before_slash(word: &[u8]) -> &[u8]
    ensures { result.now ≡ before_first (λ b. b == slash) word.now }
{
    match slash_at(word) {
        Some(end) => &word[..end],
        None => word,
    }
}

fn reference(word: &[u8], line: u32) -> Result<i64, MeshFault>
    ensures { result ≡ ok_or (reference_number word.now) (BadNumber line) }
{
    number(before_slash(word)).ok_or(MeshFault::BadNumber { line })
}

fn vertex(count: u32, reference: i64, line: u32) -> Result<u32, MeshFault>
    ensures value { result ≡ ok_or (vertex_named count reference) (IndexOutside line) }
    ensures bound { IfOk result (λ v. v < count) }
{
    let n = i64::from(count);
    if 1 <= reference && reference <= n {
        Ok((reference - 1) as u32)
    } else if reference < 0 && -n <= reference {
        Ok((n + reference) as u32)
    } else {
        Err(MeshFault::IndexOutside { line })
    }
}

/// The corners of a face.
#[tactic(auto, unfolding(crate::specs::Obj::face_of))]
fn face(count: u32, line: u32, references: &[u8]) -> Result<[u32; 3], MeshFault>
    ensures value { result ≡ face_of count line (words_of references.now) }
    ensures inside { IfOk result (λ t. IsInside count t) }
{
    let (first, second, third) = three_words(references).ok_or(MeshFault::NotTriangle { line })?;
    let a = reference(first, line)?;
    let b = reference(second, line)?;
    let c = reference(third, line)?;
    let x = vertex(count, a, line)?;
    let y = vertex(count, b, line)?;
    let z = vertex(count, c, line)?;
    Ok([x, y, z])
}

/// Reads the triangles of a Wavefront OBJ text: lines `v` are vertices, lines `f` are faces of three references,
/// and every other line is passed over. A reference is a vertex's number, counted from 1, or where it is negative,
/// counted back from the last vertex above the face; what stands from a slash on is not read.
///
/// The first faulty line decides: `NotTriangle` where a face has not three references, then `BadNumber` where one of them
/// is no number, then `IndexOutside` where one names no vertex above. `Memory` may come at any face. The other faults never come.
/// The text has at most 2^30 bytes.
pub fn read_obj(alloc: Global, bytes: &[u8]) -> Result<TriangleList, MeshFault>
    requires { length bytes.now ≤ 2 ^ 30 }
    ensures { Answers result (obj_of bytes.now) }
{
    let mut triangles = Vec::new(alloc);
    let mut vertices = 0u32;
    let mut number = 1u32;
    let mut rest = bytes;
    while let Some((text, after)) = next_line(rest) {
        match obj_line(text) {
            ObjLine::Unread => {}
            ObjLine::Vertex => vertices += 1,
            ObjLine::Face(references) => triangles.push(face(vertices, number, references)?)?,
        }
        number += 1;
        rest = after;
    }
    Ok(TriangleList::new(vertices, triangles))
}
