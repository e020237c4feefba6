//! The numbers of a mesh and of its components.

ghost use Rattle.std.specs.Prelude.{◌≡◌, ◌<◌, ◌≤◌, ◌++◌, ◌∷◌, [], All, OnOk};
ghost use Rattle.indexmap.specs.IndexMap.{keys, values};

use indexmap::IndexMap;
use iso_base::Memory;
use std::marker::Model;

/// The numbers of one component of a mesh, or of the whole of it.
#[derive(Clone, Copy, Debug, PartialEq, Eq)]
pub struct Part {
    /// The least vertex; 0 for the whole.
    pub least: u32,
    /// The vertices that a triangle uses.
    pub vertices: u32,
    /// The unordered pairs of different corners of a triangle.
    pub edges: u64,
    /// The triangles.
    pub faces: u32,
    /// The edges that lie in exactly one triangle.
    pub border: u64,
    /// Vertices less edges, and faces.
    pub euler: i64,
}

/// The numbers of a mesh and of each of its components. Contracts see the whole and the list of the parts.
#[derive(Debug, Drop)]
pub struct Report {
    total: Part,
    // By least vertex, in order of first sight: a walk meets a component first at its least vertex.
    parts: IndexMap<u32, Part>,
}

impl Model for Report {
    ghost use Rattle.indexmap.specs.IndexMap.{values};
    ghost use Rattle.mesh_report.specs.Report.{Summary};

    ghost Value = { Summary };

    ghost view = { λ r. record { total = r.total; parts = values r.parts } };
}

/// Puts a component behind those that were met before it, whose least vertices are less than its own.
pub fn add_part(parts: &mut IndexMap<u32, Part>, part: Part) -> Result<(), Memory>
    requires { All (λ v. v < part.least) (keys parts.old) }
    ensures parts { OnOk result (values parts.new ≡ values parts.old ++ part ∷ []) }
    ensures below { OnOk result (All (λ v. v ≤ part.least) (keys parts.new)) }
{
    parts.insert(part.least, part)?;
    Ok(())
}

impl Report {
    /// A report of these numbers.
    pub fn new(total: Part, parts: IndexMap<u32, Part>) -> Report
        ensures { result ≡ record { total = total; parts = values parts } }
    {
        Report { total, parts }
    }

    /// The numbers of the whole mesh, with 0 as its least vertex.
    pub fn total(&self) -> &Part
        ensures { result.now ≡ self.now.total }
    {
        &self.total
    }

    /// The numbers of each component, by its least vertex, ascending.
    pub fn parts(&self) -> &[Part]
        ensures { result.now ≡ self.now.parts }
    {
        self.parts.values().as_slice()
    }
}

/// The report on a mesh, and the component of each of its vertices.
#[derive(Debug, Drop)]
pub struct Survey {
    /// The numbers of the mesh and of its components.
    pub report: Report,
    /// For each vertex the least vertex to which edges lead from it.
    pub components: Vec<u32>,
}
