//! Tests of `list_mesh` and of the points of `point_command`.

use crate::extraction::corner_volume;
use byte_streams::MemSink;
use crossing_edges::EdgeRows;
use iso_base::{Level, MeshFormat, Written};
use list_mesh::ListMesh;
use mesh_lines::{Origin, Style};
use point_command::put_points;
use std::alloc::Global;
use std::process::Abort;
use std::test::Fail;

const PLY: &str =
    "ply\nformat ascii 1.0\nelement vertex 3\nproperty float x\nproperty float y\nproperty float z\nelement face 1\nproperty list uchar int vertex_indices\nend_header\n0.500 0.000 0.000\n0.000 0.500 0.000\n0.000 0.000 0.500\n3 0 1 2\n";

const OBJ: &str = "v 0.500 0.000 0.000\nv 0.000 0.500 0.000\nv 0.000 0.000 0.500\nf 1 2 3\n";

/// Writes the mesh at level 5 of a volume whose first sample is 10.
fn put_corner(alloc: Global, sink: &mut MemSink, style: Style) -> Result<Written, Fail> {
    let volume = corner_volume(alloc)?;
    let level = Level::new(5_000).ok_or("5 is a level")?;
    // Reading the samples brings in that they are in the range of samples.
    let _ = volume.samples();
    let mut mesh = ListMesh::of(alloc, volume.sizes(), &volume, level)?;
    Ok(mesh.write(style, sink)?)
}

fn check_corner(
    rt: &impl Abort,
    alloc: Global,
    style: Style,
    (text, bytes): (&str, u64),
) -> Result<(), Fail> {
    let mut sink = MemSink::new(alloc, 300, Vec::new(alloc))?;
    let written = put_corner(alloc, &mut sink, style)?;
    let want = Written {
        vertices: 3,
        faces: 1,
        bytes,
    };
    assert!(rt; written == want && sink.bytes() == text.as_bytes());
    Ok(())
}

#[test]
fn a_mesh_of_polygons(rt: HostRuntime) -> Result<(), Fail> {
    let style = Style {
        format: MeshFormat::Ply,
        origin: Origin::Volume,
    };
    check_corner(&rt, rt.alloc(), style, (PLY, 216))
}

#[test]
fn a_wavefront_mesh(rt: HostRuntime) -> Result<(), Fail> {
    let style = Style {
        format: MeshFormat::Obj,
        origin: Origin::Volume,
    };
    check_corner(&rt, rt.alloc(), style, (OBJ, 68))
}

/// Appends the points at level 5 of a volume whose first sample is 10.
fn put_three(alloc: Global, sink: &mut MemSink) -> Result<(), Fail> {
    let volume = corner_volume(alloc)?;
    let level = Level::new(5_000).ok_or("5 is a level")?;
    // Reading the samples brings in that they are in the range of samples.
    let _ = volume.samples();
    let sizes = volume.sizes();
    put_points(alloc, sink, &EdgeRows::new(sizes, &volume, level))??;
    Ok(())
}

const POINTS: &str =
    "ply\nformat ascii 1.0\nelement vertex 3\nproperty float x\nproperty float y\nproperty float z\nend_header\n0.500 0.000 0.000\n0.000 0.500 0.000\n0.000 0.000 0.500\n";

fn check_points(rt: &impl Abort, alloc: Global, sink: &mut MemSink) -> Result<(), Fail> {
    put_three(alloc, sink)?;
    assert!(rt; sink.bytes() == POINTS.as_bytes());
    Ok(())
}

#[test]
fn points_of_a_corner(rt: HostRuntime) -> Result<(), Fail> {
    let mut sink = MemSink::new(rt.alloc(), 200, Vec::new(rt.alloc()))?;
    check_points(&rt, rt.alloc(), &mut sink)
}
