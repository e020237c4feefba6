//! The lines behind a PLY header.
ghost use Rattle.std.specs.Prelude.{◌≡◌, ◌+◌, ◌<◌, ◌≤◌, ◌^◌, ◌∷◌, length, IfOk, ok_or};
ghost use Rattle.std.specs.Option.{option_map};
ghost use Rattle.refusals.specs.declared.mesh.MeshFault.TheVariants.{BadNumber};
ghost use Rattle.text_lines.specs.Words.{words_of};
ghost use Rattle.text_lines.specs.Numbers.{digits_value};
ghost use Rattle.mesh_read.specs.Corners.{IsInside};
ghost use Rattle.mesh_read.specs.Answers.{Answers};
ghost use Rattle.mesh_read.specs.Ply.{corners_of, three_first, below, face_of, ply_words, body_of, with_words, numbered};
ghost use Rattle.mesh_read.specs.SeenPly.{inside};

use crate::plain::{behind_plain_line, plain_face};
use iso_base::TriangleList;
use refusals::MeshFault;
use std::alloc::Global;
use text_lines::{digits, next_line, next_word};

/// A word that must be an index.
fn corner(word: &[u8], line: u32) -> Result<u64, MeshFault>
    ensures { result ≡ ok_or (digits_value word.now) (BadNumber line) }
{
    digits(word).ok_or(MeshFault::BadNumber { line })
}

/// The vertex of an index.
fn vertex_below(count: u32, line: u32, v: u64) -> Result<u32, MeshFault>
    ensures value { result ≡ below count line v }
    ensures bound { IfOk result (λ x. x < count) }
{
    if v < u64::from(count) {
        Ok(v as u32)
    } else {
        Err(MeshFault::IndexOutside { line })
    }
}

/// The first three words of a line; what follows them is not read.
fn three_corners(words: &[u8]) -> Option<(&[u8], &[u8], &[u8])>
    ensures { option_map (λ x. (x.0.now, x.1.now, x.2.now)) result ≡ three_first (words_of words.now) }
{
    let (first, words) = next_word(words)?;
    let (second, words) = next_word(words)?;
    let (third, _) = next_word(words)?;
    Some((first, second, third))
}

/// The three corners of a face: first that all are indices, then that all are vertices.
#[tactic(auto, unfolding(crate::specs::Ply::corners_of))]
fn corners(count: u32, line: u32, words: &[u8]) -> Result<[u32; 3], MeshFault>
    ensures value { result ≡ corners_of count line (words_of words.now) }
    ensures inside { IfOk result (λ t. IsInside count t) }
{
    let (first, second, third) = three_corners(words).ok_or(MeshFault::BadNumber { line })?;
    let a = corner(first, line)?;
    let b = corner(second, line)?;
    let c = corner(third, line)?;
    let x = vertex_below(count, line, a)?;
    let y = vertex_below(count, line, b)?;
    let z = vertex_below(count, line, c)?;
    Ok([x, y, z])
}

/// The corners of a face line, by its first word and the others.
fn face(count: u32, line: u32, first: &[u8], words: &[u8]) -> Result<[u32; 3], MeshFault>
    ensures value { result ≡ face_of count (line, first.now ∷ words_of words.now) }
    ensures inside { IfOk result (λ t. IsInside count t) }
{
    if corner(first, line)? == 3 {
        corners(count, line, words)
    } else {
        Err(MeshFault::NotTriangle { line })
    }
}

/// Whether a line with words is a face, by how many stand before it.
fn is_face_line(before: u64, faces: u64, present: u64) -> bool
    requires { before + faces < 2 ^ 64 }
    ensures { result ≡ inside before (before + faces) present }
{
    if present < before {
        false
    } else {
        present < before + faces
    }
}

/// Reads the lines behind a header: how many vertices there are, how many lines stand before the faces, how many faces, and how many lines in all.
pub fn read_body(
    alloc: Global,
    vertices: u32,
    before: u64,
    faces: u64,
    needed: u64,
    first: u32,
    bytes: &[u8],
) -> Result<TriangleList, MeshFault>
    requires parts { before + faces ≤ needed }
    requires lines { first + length bytes.now < 2 ^ 32 }
    ensures { Answers result (body_of vertices before faces needed
        (with_words (numbered first (ply_words bytes.now)))) }
{
    let mut triangles = Vec::new(alloc);
    let mut number = first;
    let mut present = 0u64;
    let mut rest = bytes;
    while present < needed {
        let Some((text, after)) = next_line(rest) else {
            return Err(MeshFault::ShortMesh { needed, present });
        };
        if let Some((word, words)) = next_word(text) {
            if is_face_line(before, faces, present) {
                triangles.push(face(vertices, number, word, words)?)?;
            }
            present += 1;
        }
        number += 1;
        rest = after;
        'plain: while present < needed {
            let behind = if is_face_line(before, faces, present) {
                let Some(line) = plain_face(vertices, rest) else {
                    break;
                };
                let triangle = line.0;
                triangles.push(triangle)?;
                line.1
            } else {
                let Some(behind) = behind_plain_line(rest) else {
                    break;
                };
                behind
            };
            present += 1;
            number += 1;
            rest = behind;
        }
    }
    Ok(TriangleList::new(vertices, triangles))
}
