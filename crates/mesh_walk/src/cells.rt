//! A row of cells, by those that may have loops.
ghost use Rattle.std.specs.Prelude.{◌≡◌, ◌+◌, ◌*◌, ◌<◌, ◌≤◌, false, IsTrue, length};
ghost use Rattle.flat_mesh.specs.Rows.{row_start};
ghost use Rattle.mesh_walk.specs.Cells.{AreCells};
ghost use Rattle.mesh_walk.specs.Numbers.{AreQuiet, AreRowRanks, cost_of_row};

use crate::walk::Walk;
use iso_base::LONGEST_ROW;
use mesh_rows::MeshRows;

/// A row of cells: where its first point is, and the `count` cells that may have loops, each by how far it is along x and
/// the number of a case that has its loops. Most cells have none.
#[derive(Drop)]
pub struct RowCells {
    pub y: u32,
    pub z: u32,
    pub start: u32,
    pub count: usize,
    pub places: [u16; LONGEST_ROW],
    pub cases: [u16; LONGEST_ROW],
}

impl RowCells {
    /// A row of which nothing is known.
    pub fn new() -> RowCells {
        RowCells {
            y: 0,
            z: 0,
            start: 0,
            count: 0,
            places: [0; LONGEST_ROW],
            cases: [0; LONGEST_ROW],
        }
    }

    /// The most cells that can be listed.
    #[inline(always)]
    fn room(&self) -> usize
        ensures cells { result ≡ length self.now.places }
        ensures points { result ≡ 1026 }
    {
        self.places.len()
    }

    /// Turns to a row of cells. It lists those that may have loops then.
    fn move_to<R: MeshRows>(&mut self, rows: &mut R, y: u32, z: u32)
        requires y { y + 1 < (R.leveled rows.old).grid.ny }
        requires z { z + 1 < (R.leveled rows.old).grid.nz }
        ensures cells { AreCells (R.leveled rows.old) self.new }
        ensures y { self.new.y ≡ y }
        ensures z { self.new.z ≡ z }
        ensures volume { R.leveled rows.new ≡ R.leveled rows.old }
        ensures kept { R.kept rows.new ≡ R.kept rows.old }
        ensures least { R.spent rows.old ≤ R.spent rows.new }
        ensures most { let cost = R.row_cost (R.kept rows.old) in
            R.spent rows.new ≤ R.spent rows.old + cost (y + (R.leveled rows.old).grid.ny * z) }
    {
        let sizes = rows.sizes();
        self.y = y;
        self.z = z;
        self.start = sizes.nx() * (y + sizes.ny() * z);
        self.count = rows.list_cells(y, z, &mut self.places, &mut self.cases);
        // Contracts see by this that the list ends within its buffer.
        let _ = self.room();
    }

    /// Turns to the row of cells that a row of points begins, and says whether it may have loops: not where the row begins
    /// none, or no crossing edge begins in the rows of points around them. Rows are asked for cases at most once.
    pub fn find<R: MeshRows>(&mut self, rows: &mut R, walk: Walk<'_>, y: u32, z: u32) -> bool
        requires ranks { AreRowRanks (R.leveled rows.old) walk.ranks.now walk.total }
        requires y { y < (R.leveled rows.old).grid.ny }
        requires z { z < (R.leveled rows.old).grid.nz }
        ensures quiet { let v = R.leveled rows.old in
            result ≡ false → AreQuiet v (row_start v.grid y z) v.grid.nx }
        ensures cells { IsTrue result → AreCells (R.leveled rows.old) self.new }
        ensures y { IsTrue result → self.new.y ≡ y }
        ensures z { IsTrue result → self.new.z ≡ z }
        ensures volume { R.leveled rows.new ≡ R.leveled rows.old }
        ensures kept { R.kept rows.new ≡ R.kept rows.old }
        ensures least { R.spent rows.old ≤ R.spent rows.new }
        ensures most { let g = (R.leveled rows.old).grid in
            R.spent rows.new ≤ R.spent rows.old + cost_of_row g (R.row_cost (R.kept rows.old)) (y + g.ny * z) }
    {
        let sizes = rows.sizes();
        if y + 1 == sizes.ny() || z + 1 == sizes.nz() || walk.is_quiet(rows, y, z) {
            return false;
        }
        self.move_to(rows, y, z);
        true
    }
}
