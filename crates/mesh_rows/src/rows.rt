//! What a row of a volume at a level has, however the volume lies.
//!
//! Why: DECISIONS.md, "One traversal writes every mesh".
ghost use Rattle.std.specs.Prelude.{◌≡◌, ℕ, ◌+◌, ◌*◌, ◌<◌, ◌≤◌, length, take};
ghost use Rattle.mesh_rows.specs.Counts.{AreAllCounts};
ghost use Rattle.mesh_rows.specs.Rows.{AreActive, AreEdges, row_names, row_places};

use crate::counts::Counts;
use flat_mesh::Heights;
use iso_base::{LONGEST_ROW, ROW_EDGES};

/// The rows of a volume at a level: of points, with the crossing edges that begin at them, and of cells, with their cases. A row
/// is named by its coordinates along y and z. Contracts see the volume, what else no call changes, and how many cells were
/// classified so far: asking for a row of cells, and counting, may classify some.
pub trait MeshRows: Heights {
    ghost Kept: { Type 0 };

    ghost kept: { Self → Kept };

    ghost row_cost: { Kept → ℕ → ℕ };

    ghost count_cost: { Kept → ℕ };

    ghost spent: { Self → ℕ };

    /// How many crossing edges begin in a row of points.
    fn count_edges(&mut self, y: u32, z: u32) -> u32
        requires y { y < (Self.leveled self.old).grid.ny }
        requires z { z < (Self.leveled self.old).grid.nz }
        ensures count { result ≡ length (row_names (Self.leveled self.old) y z) }
        ensures volume { Self.leveled self.new ≡ Self.leveled self.old }
        ensures kept { kept self.new ≡ kept self.old }
        ensures spent { spent self.new ≡ spent self.old };

    /// Lists the crossing edges that begin in a row of points at the front of a buffer, in order of name, and says how many there
    /// are. An edge is three times how far its point is along x, and its axis.
    fn list_edges(&mut self, y: u32, z: u32, edges: &mut [u16; ROW_EDGES]) -> usize
        requires y { y < (Self.leveled self.old).grid.ny }
        requires z { z < (Self.leveled self.old).grid.nz }
        ensures few { result ≤ 3 * (Self.leveled self.old).grid.nx }
        ensures edges { AreEdges (Self.leveled self.old) y z (take result edges.new) }
        ensures volume { Self.leveled self.new ≡ Self.leveled self.old }
        ensures kept { kept self.new ≡ kept self.old }
        ensures spent { spent self.new ≡ spent self.old };

    /// Fills in where the crossing edges of a row are crossed, in thousandths from their lower ends. `edges` has these edges in order
    /// of name: three times how far an edge's point is along x, and its axis.
    fn fill_places(&mut self, y: u32, z: u32, edges: &[u16], places: &mut [u16])
        requires y { y < (Self.leveled self.old).grid.ny }
        requires z { z < (Self.leveled self.old).grid.nz }
        requires edges { AreEdges (Self.leveled self.old) y z edges.now }
        requires count { length places.old ≡ length edges.now }
        ensures places { places.new ≡ row_places (Self.leveled self.old) y z }
        ensures volume { Self.leveled self.new ≡ Self.leveled self.old }
        ensures kept { kept self.new ≡ kept self.old }
        ensures spent { spent self.new ≡ spent self.old };

    /// Lists the cells of a row that may have loops at the front of two buffers, and says how many there are: how far each is along
    /// x, ascending, and the number of a case that has its loops.
    fn list_cells(
        &mut self,
        y: u32,
        z: u32,
        places: &mut [u16; LONGEST_ROW],
        cases: &mut [u16; LONGEST_ROW],
    ) -> usize
        requires y { y + 1 < (Self.leveled self.old).grid.ny }
        requires z { z + 1 < (Self.leveled self.old).grid.nz }
        ensures few { result < (Self.leveled self.old).grid.nx }
        ensures cells { AreActive (Self.leveled self.old) y z (take result places.new) (take result cases.new) }
        ensures volume { Self.leveled self.new ≡ Self.leveled self.old }
        ensures kept { kept self.new ≡ kept self.old }
        ensures least { spent self.old ≤ spent self.new }
        ensures most { spent self.new ≤ spent self.old
            + row_cost (kept self.old) (y + (Self.leveled self.old).grid.ny * z) };

    /// How many centres and triangles all cells have.
    fn count_cells(&mut self) -> Counts
        ensures counts { AreAllCounts (Self.leveled self.old) result }
        ensures volume { Self.leveled self.new ≡ Self.leveled self.old }
        ensures kept { kept self.new ≡ kept self.old }
        ensures least { spent self.old ≤ spent self.new }
        ensures most { spent self.new ≤ spent self.old + count_cost (kept self.old) };
}
