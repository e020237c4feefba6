//! A law of components. The call says it and does nothing else.

ghost use Rattle.std.specs.Prelude.{ℕ, ◌<◌};
ghost use Rattle.iso_base.specs.Triangles.{IsMesh, Mesh, triangles_of};
ghost use Rattle.mesh_report.specs.Report.{component};
ghost use Rattle.mesh_report.specs.Ways.{IsLeastReached};

/// The component of a vertex is the least vertex to which a way along edges leads from it, however long: the bound in the
/// definition leaves no way out.
pub fn component_is_least_reached()
    ensures { (m : Mesh) (v : ℕ) → IsMesh m → v < m.vertex_count →
        IsLeastReached (triangles_of m.triangles) v (component m.vertex_count (triangles_of m.triangles) v) }
{}
