//! Tests of `mesh_text` and `mesh_more`.

ghost use Rattle.std.specs.Prelude.{◌≡◌, []};

use byte_streams::{Failed, MemSink};
use iso_base::Thousandth;
use mesh_more::{
    off_head_text, put_off_head, put_vtk_faces, put_vtk_head, vtk_faces_text, vtk_head_text,
};
use mesh_text::{
    Lines, ply_head_text, points_head_text, put_obj_face, put_obj_vertex, put_ply_face,
    put_ply_head, put_ply_vertex, put_points_head,
};
use std::process::Abort;
use std::test::Fail;

const AT: [Thousandth; 3] = [Thousandth(1_025_000), Thousandth(-500), Thousandth(7)];

const POINTS_HEAD: &str =
    "ply\nformat ascii 1.0\nelement vertex 3\nproperty float x\nproperty float y\nproperty float z\nend_header\n";

const PLY_HEAD: &str =
    "ply\nformat ascii 1.0\nelement vertex 3\nproperty float x\nproperty float y\nproperty float z\nelement face 1\nproperty list uchar int vertex_indices\nend_header\n";

const VTK_HEAD: &str =
    "# vtk DataFile Version 3.0\nisobench\nASCII\nDATASET POLYDATA\nPOINTS 3 float\n";

#[test]
fn polygon_heads(rt: HostRuntime) -> Result<(), Fail> {
    assert!(rt; points_head_text(3).as_str() == POINTS_HEAD);
    assert!(rt; ply_head_text(3, 1).as_str() == PLY_HEAD);
    Ok(())
}

fn check_vertices(rt: &impl Abort, lines: &mut Lines)
    requires { lines.old ≡ [] }
{
    lines.push_ply_vertex(&AT);
    lines.push_obj_vertex(&AT);
    let want = b"1025.000 -0.500 0.007\nv 1025.000 -0.500 0.007\n";
    assert!(rt; lines.as_bytes() == want.as_slice());
}

#[test]
fn vertex_lines(rt: HostRuntime) -> Result<(), Fail> {
    check_vertices(&rt, &mut Lines::new());
    Ok(())
}

#[test]
fn heads_of_other_formats(rt: HostRuntime) -> Result<(), Fail> {
    assert!(rt; off_head_text(3, 1).as_str() == "OFF\n3 1 0\n");
    assert!(rt; vtk_head_text(3).as_str() == VTK_HEAD);
    assert!(rt; vtk_faces_text(1).as_str() == "POLYGONS 1 4\n");
    Ok(())
}

/// The texts that are put into a sink one by one: each with its name and with what it is to be. The last corner's text is
/// longest where it is counted from 1.
const PUT: &[(&str, &str)] = &[
    ("points head", POINTS_HEAD),
    ("ply head", PLY_HEAD),
    ("ply vertex", "1025.000 -0.500 0.007\n"),
    ("ply face", "3 0 10 4294967295\n"),
    ("obj vertex", "v 1025.000 -0.500 0.007\n"),
    ("obj face", "f 1 11 2147483648\n"),
    ("off head", "OFF\n3 1 0\n"),
    ("vtk head", VTK_HEAD),
    ("vtk faces", "POLYGONS 1 4\n"),
];

fn put_named(sink: &mut MemSink, name: &str) -> Result<(), Failed> {
    match name {
        "points head" => put_points_head(sink, 3),
        "ply head" => put_ply_head(sink, 3, 1),
        "ply vertex" => put_ply_vertex(sink, AT),
        "ply face" => put_ply_face(sink, [0, 10, u32::MAX]),
        "obj vertex" => put_obj_vertex(sink, AT),
        "obj face" => put_obj_face(sink, [0, 10, (1 << 31) - 1]),
        "off head" => put_off_head(sink, 3, 1),
        "vtk head" => put_vtk_head(sink, 3),
        _ => put_vtk_faces(sink, 1),
    }
}

fn check_put(rt: &impl Abort, sink: &mut MemSink, name: &str, want: &str) {
    let put = put_named(sink, name);
    assert!(rt; put.is_ok() && sink.bytes() == want.as_bytes(), "{name}");
}

#[test]
fn texts_put_into_a_sink(rt: HostRuntime) -> Result<(), Fail> {
    for (name, want) in PUT {
        let mut sink = MemSink::new(rt.alloc(), 500, Vec::new(rt.alloc()))?;
        check_put(&rt, &mut sink, name, want);
    }
    Ok(())
}
