//! What is counted at vertices.

ghost use Rattle.std.specs.Prelude.{◌≡◌};
ghost use Rattle.mesh_report.specs.Tallies.{HasRoom, IsSmall, nothing_of, part_with, tally_with};

use crate::meet::Edges;
use crate::part::Part;

/// What was counted at vertices of one component of a mesh, or of the whole of it.
#[derive(Clone, Copy)]
pub struct VertexTally {
    /// The smallest vertex; 0 for the whole.
    pub least: u32,
    /// The vertices that a triangle uses.
    pub vertices: u32,
    /// The arcs around them: one at each corner of a triangle.
    pub corners: u64,
    /// The edges from them to greater vertices.
    pub edges: u64,
    /// The edges among these that lie in more than one triangle.
    pub shared: u64,
}

impl VertexTally {
    /// Nothing was counted yet.
    pub fn new(least: u32) -> VertexTally
        ensures { result ≡ nothing_of least }
    {
        VertexTally {
            least,
            vertices: 0,
            corners: 0,
            edges: 0,
            shared: 0,
        }
    }

    /// With one more vertex, of so many arcs and these edges.
    pub fn with(&self, corners: usize, edges: Edges) -> VertexTally
        requires { HasRoom self.now corners edges }
        ensures { result ≡ tally_with self.now corners edges }
    {
        let used = if corners == 0 { 0 } else { 1 };
        VertexTally {
            least: self.least,
            vertices: self.vertices + used,
            corners: self.corners + corners as u64,
            edges: self.edges + edges.all,
            shared: self.shared + edges.shared,
        }
    }

    /// The numbers of the part at whose vertices this was counted.
    pub fn part(self) -> Part
        requires { IsSmall self }
        ensures { result ≡ part_with self }
    {
        let faces = (self.corners / 3) as u32;
        Part {
            least: self.least,
            vertices: self.vertices,
            edges: self.edges,
            faces,
            border: self.edges - self.shared,
            euler: i64::from(self.vertices) - self.edges as i64 + i64::from(faces),
        }
    }
}
