//! Tests of `mesh_read`.

use iso_base::TriangleList;
use mesh_read::{read_obj, read_ply};
use std::process::Abort;
use std::test::Fail;

/// A mesh of three vertices has one triangle.
fn check_mesh(rt: &impl Abort, mesh: &TriangleList, triangle: [u32; 3]) {
    assert_eq!(rt; mesh.vertex_count(), 3);
    assert!(rt; mesh.triangles() == [triangle].as_slice());
}

#[test]
fn a_wavefront_text(rt: HostRuntime) -> Result<(), Fail> {
    let text = b"# a\nv 0 0 0\r\nv 1 0 0\nvn 1\n  v x\nf 1/1 -1//2 2\n";
    check_mesh(&rt, &read_obj(rt.alloc(), text)?, [0, 2, 1]);
    Ok(())
}

#[test]
fn a_polygon_text(rt: HostRuntime) -> Result<(), Fail> {
    let text =
        b"ply\r\nformat ascii 1.0\nelement vertex 3\nproperty float x\nelement face 1\nproperty list uchar int vertex_index\nend_header\n\na\nb\nc\n3 0 1 2 9\n";
    check_mesh(&rt, &read_ply(rt.alloc(), text)?, [0, 1, 2]);
    Ok(())
}
