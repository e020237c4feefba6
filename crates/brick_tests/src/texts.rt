//! Meshes in memory as texts, line by line: what the texts of walks are compared with.

use flat_mesh::Mesh;
use iso_base::{Thousandth, Written};
use mesh_text::TwoWayFormat;
use std::alloc::{AllocError, Global};

/// A mesh as a text.
#[derive(Drop)]
pub struct Text {
    pub lines: String,
    pub vertices: u32,
    pub faces: u32,
}

impl Text {
    /// What who writes it has to tell.
    pub fn written(&self) -> Written {
        Written {
            vertices: self.vertices,
            faces: self.faces,
            bytes: self.lines.len() as u64,
        }
    }
}

/// Puts a coordinate behind a text, less the pad's layer where there is one.
fn push_coordinate(lines: &mut String, at: Thousandth, padded: bool) -> Result<(), AllocError> {
    let at = if padded {
        at.0.wrapping_sub(1000)
    } else {
        at.0
    };
    let sign = if at < 0 { "-" } else { "" };
    let size = at.unsigned_abs();
    write!(lines, "{sign}{}.{:03}", size / 1000, size % 1000)
}

/// Puts the line of a vertex behind a text.
fn push_vertex(
    lines: &mut String,
    [x, y, z]: [Thousandth; 3],
    format: TwoWayFormat,
    padded: bool,
) -> Result<(), AllocError> {
    if let TwoWayFormat::Obj = format {
        lines.push_str("v ")?;
    }
    push_coordinate(lines, x, padded)?;
    lines.push_str(" ")?;
    push_coordinate(lines, y, padded)?;
    lines.push_str(" ")?;
    push_coordinate(lines, z, padded)?;
    lines.push_str("\n")
}

/// Puts the line of a triangle behind a text: OBJ counts vertices from 1.
fn push_face(
    lines: &mut String,
    [a, b, c]: [u32; 3],
    format: TwoWayFormat,
) -> Result<(), AllocError> {
    match format {
        TwoWayFormat::Ply => write!(lines, "3 {a} {b} {c}\n"),
        TwoWayFormat::Obj => {
            let [a, b, c] = [a, b, c].map(|corner| u64::from(corner) + 1);
            write!(lines, "f {a} {b} {c}\n")
        }
    }
}

fn head_of(
    alloc: Global,
    vertices: u32,
    faces: u32,
    format: TwoWayFormat,
) -> Result<String, AllocError> {
    match format {
        TwoWayFormat::Ply => format!(in alloc;
            "ply\nformat ascii 1.0\nelement vertex {vertices}\nproperty float x\nproperty float y\nproperty float z\nelement face {faces}\nproperty list uchar int vertex_indices\nend_header\n"
        ),
        TwoWayFormat::Obj => Ok(String::new(alloc)),
    }
}

/// The text of a mesh, with a pad or without one.
pub fn text_of(
    alloc: Global,
    mesh: &Mesh,
    format: TwoWayFormat,
    padded: bool,
) -> Result<Text, AllocError> {
    let (vertices, faces) = (mesh.vertex_count(), mesh.triangle_count());
    let mut lines = head_of(alloc, vertices, faces, format)?;
    for i in 0..vertices {
        let (_, at) = mesh.vertex(i);
        push_vertex(&mut lines, at, format, padded)?;
    }
    for corners in mesh.triangles() {
        push_face(&mut lines, *corners, format)?;
    }
    Ok(Text {
        lines,
        vertices,
        faces,
    })
}
