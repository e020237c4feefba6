//! Lists of triangles over vertices by number.

ghost use Rattle.std.specs.Prelude.{◌≡◌, All};
ghost use Rattle.iso_base.specs.Triangles.{IsBelow, IsMesh, triangle_of};

use std::marker::Model;

/// Triangles over vertices by number, each corner below the number of vertices.
/// A triangle is its three corners in order; contracts see the count and the list of triangles.
#[derive(Drop)]
pub struct TriangleList {
    vertex_count: u32,
    triangles: Vec<[u32; 3]>,
}

impl Model for TriangleList {
    ghost use Rattle.iso_base.specs.Triangles.{Mesh, IsMesh};

    ghost Value = { Mesh };

    ghost view = { λ m. record { vertex_count = m.vertex_count; triangles = m.triangles.items } };

    ghost invariant = { λ m. IsMesh (record { vertex_count = m.vertex_count; triangles = m.triangles.items }) };
}

impl TriangleList {
    /// The list of these triangles over so many vertices.
    pub fn new(vertex_count: u32, triangles: Vec<[u32; 3]>) -> TriangleList
        requires { All (λ t. IsBelow vertex_count (triangle_of t)) triangles.items }
        ensures { result ≡ record { vertex_count = vertex_count; triangles = triangles.items } }
    {
        TriangleList {
            vertex_count,
            triangles,
        }
    }

    /// The number of vertices.
    pub fn vertex_count(&self) -> u32
        ensures value { result ≡ self.now.vertex_count }
        ensures mesh { IsMesh self.now }
    {
        self.vertex_count
    }

    /// The triangles, in order.
    pub fn triangles(&self) -> &[[u32; 3]]
        ensures value { result.now ≡ self.now.triangles }
        ensures mesh { IsMesh self.now }
    {
        &self.triangles
    }

    /// The number of vertices and the triangles.
    pub fn into_parts(self) -> (u32, Vec<[u32; 3]>)
        ensures count { result.0 ≡ self.vertex_count }
        ensures triangles { result.1.items ≡ self.triangles }
        ensures mesh { IsMesh self }
    {
        let TriangleList {
            vertex_count,
            triangles,
        } = self;
        (vertex_count, triangles)
    }
}
