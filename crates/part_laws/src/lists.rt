//! Laws of every list of triangles.

ghost use Rattle.iso_defs.specs.Cell.{Triangle};
ghost use Rattle.mesh_report.specs.Report.{part_of, total_of};
ghost use Rattle.part_laws.specs.Triangles.{RunOnce};
ghost use Rattle.std.specs.Prelude.{List, ℕ, ◌*◌, ◌+◌, ◌≡◌};

/// Where no ordered pair of vertices is run twice, twice the edges are three times the triangles and the border, of the
/// whole and of each component: a triangle has three sides, and an edge is one side on the border and else two.
pub fn edges_by_faces()
    ensures whole { (n : ℕ) (ts : List Triangle) → RunOnce n ts → 2 * (total_of n ts).edges
        ≡ 3 * (total_of n ts).faces + (total_of n ts).border }
    ensures parts { (n : ℕ) (ts : List Triangle) (k : ℕ) → RunOnce n ts → 2 * (part_of n ts k).edges
        ≡ 3 * (part_of n ts k).faces + (part_of n ts k).border }
{}
