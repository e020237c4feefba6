//! What the whole walk reads, and no part of it changes.
ghost use Rattle.std.specs.Prelude.{◌≡◌, ◌+◌, ◌<◌, ◌≤◌, false, IsTrue};
ghost use Rattle.flat_mesh.specs.Rows.{row_start};
ghost use Rattle.mesh_walk.specs.Numbers.{AreQuiet, AreRowRanks, edges_to};

use edge_points::RowRanks;
use flat_mesh::Heights;
use mesh_lines::Style;

/// The numbers of the first vertex on an edge and of the first centre: the others of each kind follow. In a mesh that is
/// written by itself these are 0 and how many crossing edges there are.
#[derive(Clone, Copy)]
pub struct Numbering {
    pub first_edge: u32,
    pub first_centre: u32,
}

/// How the mesh is written, how many crossing edges begin before each row of points and in all, how many of the lowest
/// slices are written, and the numbers of their vertices. A vertex on an edge belongs to the slice in which the edge
/// begins, a centre and a triangle to the lower slice of their cell.
#[derive(Clone, Copy)]
pub struct Walk<'a> {
    pub style: Style,
    pub ranks: &'a RowRanks,
    pub total: u32,
    pub slices: u32,
    pub numbers: Numbering,
}

impl<'a> Walk<'a> {
    /// How many crossing edges begin in the rows before the one at these coordinates. Behind the last row of a slice stands
    /// the first one of the next slice.
    pub fn edges_to_row<H: Heights>(self, field: &H, y: u32, z: u32) -> u32
        requires ranks { AreRowRanks (H.leveled field.now) self.ranks.now self.total }
        requires y { y ≤ (H.leveled field.now).grid.ny }
        requires z { z < (H.leveled field.now).grid.nz }
        ensures { result ≡ edges_to (H.leveled field.now) (row_start (H.leveled field.now).grid y z) }
    {
        let sizes = field.sizes();
        let (ny, nz) = (sizes.ny(), sizes.nz());
        if y < ny {
            return self.ranks.before(y, z);
        }
        if z + 1 < nz {
            return self.ranks.before(0, z + 1);
        }
        self.total
    }

    /// Whether crossing edges begin in a row of points.
    pub fn has_edges<H: Heights>(self, field: &H, y: u32, z: u32) -> bool
        requires ranks { AreRowRanks (H.leveled field.now) self.ranks.now self.total }
        requires y { y < (H.leveled field.now).grid.ny }
        requires z { z < (H.leveled field.now).grid.nz }
        ensures { let v = H.leveled field.now in
            result ≡ false → edges_to v (row_start v.grid y z) ≡ edges_to v (row_start v.grid (y + 1) z) }
    {
        let _ = field.sizes();
        self.edges_to_row(field, y, z) != self.edges_to_row(field, y + 1, z)
    }

    /// Whether no crossing edge begins in the four rows of points of a row of cells: its cells have no loops then. This
    /// saves work and no text rests on it: the contract leaves `false` free.
    pub fn is_quiet<H: Heights>(self, field: &H, y: u32, z: u32) -> bool
        requires ranks { AreRowRanks (H.leveled field.now) self.ranks.now self.total }
        requires y { y + 1 < (H.leveled field.now).grid.ny }
        requires z { z + 1 < (H.leveled field.now).grid.nz }
        ensures { let v = H.leveled field.now in
            IsTrue result → AreQuiet v (row_start v.grid y z) v.grid.nx }
    {
        let _ = field.sizes();
        self.edges_to_row(field, y, z) == self.edges_to_row(field, y + 2, z)
            && self.edges_to_row(field, y, z + 1) == self.edges_to_row(field, y + 2, z + 1)
    }
}
