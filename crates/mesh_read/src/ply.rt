//! PLY texts.
ghost use Rattle.std.specs.Prelude.{◌≡◌, ◌≤◌, ◌^◌, length};
ghost use Rattle.mesh_read.specs.Answers.{Answers};
ghost use Rattle.mesh_read.specs.Ply.{is_ply, ply_of, ply_heads, ply_words, lines_mesh};

use crate::body::read_body;
use crate::elements::{all_lines, face_lines, lines_before, vertex_lines};
use crate::header::read_header;
use iso_base::TriangleList;
use refusals::MeshFault;
use std::alloc::Global;
use text_lines::next_line;

/// Whether a line is the one that every PLY text begins with.
#[tactic(auto, unfolding(crate::specs::Ply::is_ply))]
fn is_ply_line(text: &[u8]) -> bool
    ensures { result ≡ is_ply text.now }
{
    text == b"ply".as_slice()
}

/// Reads the lines behind the first.
fn read_lines(alloc: Global, bytes: &[u8]) -> Result<TriangleList, MeshFault>
    requires { length bytes.now ≤ 2 ^ 30 }
    ensures { Answers result (lines_mesh (ply_words bytes.now) (ply_heads bytes.now)) }
{
    let (header, body) = read_header(alloc, bytes)?;
    if let Some(fault) = header.fault() {
        return Err(fault);
    }
    let elements = header.elements.list();
    read_body(
        alloc,
        vertex_lines(elements) as u32,
        lines_before(elements),
        face_lines(elements),
        all_lines(elements),
        header.number,
        body,
    )
}

/// Reads the triangles of a PLY text in its ASCII format. Vertices are those of the element `vertex`, whose coordinates
/// are not read; triangles are the first three indices behind the number 3 on each line of the element `face`, counted from 0.
/// Lines without words are passed over, and what follows the last element is not read.
///
/// The first of these decides. `NotMesh`: the first line is not `ply`. `BadHeader` and `BinaryPly`: the first faulty line
/// of the header, then a header without an end, then a face element whose first property is no list named `vertex_indices`
/// or `vertex_index`. `TooMany`: the first count above 2^30. `BadNumber`, `NotTriangle` and `IndexOutside`: the first
/// faulty face line. `ShortMesh`: lines are missing. `Memory` may come at any element and at any face.
/// The text has at most 2^30 bytes.
pub fn read_ply(alloc: Global, bytes: &[u8]) -> Result<TriangleList, MeshFault>
    requires { length bytes.now ≤ 2 ^ 30 }
    ensures { Answers result (ply_of bytes.now) }
{
    let Some((first, rest)) = next_line(bytes) else {
        return Err(MeshFault::NotMesh);
    };
    if !is_ply_line(first) {
        return Err(MeshFault::NotMesh);
    }
    read_lines(alloc, rest)
}
