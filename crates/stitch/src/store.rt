//! The rows of a volume in bricks.
//!
//! Bricks that are not active are not read. All edges from a point lie in the last brick that holds it. For each brick
//! of a slice the next active one is noted once for its eight slices; flags, cases and lines go from one active brick
//! to the next by these notes.
ghost use Rattle.std.specs.Prelude.{◌≡◌, ◌+◌, ◌*◌, ◌<◌, ◌≤◌};
ghost use Rattle.flat_mesh.specs.Lattice.{heights};
ghost use Rattle.iso_defs.specs.Bricks.{brick_count};
ghost use Rattle.mesh_rows.specs.Rows.{AreCases};
ghost use Rattle.brick_rows.specs.Named.{NamesCases, asked_along, asked_among};
ghost use Rattle.stitch.specs.Asked.{asked_in_row};
ghost use Rattle.stitch.specs.Kept.{StoreKept};
ghost use Rattle.stitch.specs.Recent.{AreKnown, AreRecent};

use crate::counts::count_all;
use crate::row_memory::KnownRows;
use brick_rows::{BricksAtLevel, CellRows};
use flat_mesh::{Cell, Heights};
use iso_base::{LONGEST_ROW, ROW_EDGES, Sizes, Steps};
use mesh_rows::{Counts, MeshRows};
use row_bits::list_cases;
use std::sync::ledger::Ledger;

/// The rows of a volume in bricks at a level: with who names the cases of its cells, the counter of what that takes, and what is known
/// of its rows.
#[derive(Drop)]
pub struct StoreRows<'a, R: CellRows, L: Ledger> {
    field: &'a BricksAtLevel<'a>,
    known: &'a mut KnownRows,
    rows: &'a mut R,
    steps: &'a mut Steps<L>,
    ghost known_are: { AreKnown field.now known.now },
    ghost named: { NamesCases (R.named rows.now) field.now.grid (heights field.now) },
}

impl<'a, R: CellRows, L: Ledger> StoreRows<'a, R, L> {
    /// The rows of a volume at a level.
    pub fn new(
        field: &'a BricksAtLevel<'a>,
        rows: &'a mut R,
        known: &'a mut KnownRows,
        steps: &'a mut Steps<L>,
    ) -> StoreRows<'a, R, L>
        requires named { NamesCases (R.named rows.old) field.now.grid (heights field.now) }
        requires right { AreRecent field.now known.old.recent }
        ensures field { result.field.now ≡ field.now }
        ensures same_rows { result.rows.ghost_name ≡ rows.entry.ghost_name }
        ensures rows { result.rows.now ≡ rows.old }
        ensures same_steps { result.steps.ghost_name ≡ steps.entry.ghost_name }
        ensures steps { result.steps.now ≡ steps.old }
        ensures same_known { result.known.ghost_name ≡ known.entry.ghost_name }
    {
        // Reading the sizes brings in what is true of every volume at a level.
        let _ = field.sizes();
        known.begin(field);
        StoreRows {
            field,
            known,
            rows,
            steps,
        }
    }

    /// Writes the cases of the cells of a row into the buffer of what is known.
    fn case_cells(&mut self, y: u32, z: u32)
        requires y { y + 1 < self.old.field.now.grid.ny }
        requires z { z + 1 < self.old.field.now.grid.nz }
        ensures cases { AreCases self.old.field.now y z self.new.known.now.cases.value }
        ensures field { self.new.field.now ≡ self.old.field.now }
        ensures same { R.named self.new.rows.now ≡ R.named self.old.rows.now }
        ensures same_rows { self.new.rows.ghost_name ≡ self.old.rows.ghost_name }
        ensures same_steps { self.new.steps.ghost_name ≡ self.old.steps.ghost_name }
        ensures same_known { self.new.known.ghost_name ≡ self.old.known.ghost_name }
        ensures least { self.old.steps.now ≤ self.new.steps.now }
        ensures most { self.new.steps.now ≤ self.old.steps.now + 8 * asked_along self.old.field.now.grid
            (heights self.old.field.now) (R.named self.old.rows.now) y z }
    {
        self.known
            .case_cells(self.field, y, z, self.rows, self.steps);
    }
}

impl<'a, R: CellRows, L: Ledger> Heights for StoreRows<'a, R, L> {
    ghost leveled = { λ r. r.field.now };

    fn sizes(&self) -> Sizes {
        self.field.sizes()
    }

    fn corner_heights(&self, cell: Cell) -> [i64; 8] {
        self.field.corner_heights(cell)
    }
}

impl<'a, R: CellRows, L: Ledger> MeshRows for StoreRows<'a, R, L> {
    ghost Kept = { StoreKept };

    ghost kept = { λ r. record {
      volume = r.field.now;
      names = R.named r.rows.now;
      rows = r.rows.ghost_name;
      steps = r.steps.ghost_name;
      known = r.known.ghost_name;
    } };

    ghost row_cost = { λ k row. 8 * asked_in_row k.volume k.names row };

    ghost count_cost = { λ k. 512 * asked_among k.volume.grid (heights k.volume) k.names 0
        (brick_count k.volume.grid) };

    ghost spent = { λ r. r.steps.now };

    /// It looks at active bricks alone.
    fn count_edges(&mut self, y: u32, z: u32) -> u32 {
        self.known.count_edges(self.field, y, z)
    }

    /// It looks at active bricks alone, and at none where the row was asked for not long before.
    fn list_edges(&mut self, y: u32, z: u32, edges: &mut [u16; ROW_EDGES]) -> usize {
        self.known.list_edges(self.field, y, z, edges)
    }

    fn fill_places(&mut self, y: u32, z: u32, edges: &[u16], places: &mut [u16]) {
        self.known.fill_places(self.field, y, z, edges, places);
    }

    /// It asks for each row of an active brick once, and for no row of another one, and for none where the row was asked for not long
    /// before.
    fn list_cells(
        &mut self,
        y: u32,
        z: u32,
        places: &mut [u16; LONGEST_ROW],
        cases: &mut [u16; LONGEST_ROW],
    ) -> usize {
        if let Some(count) = self.known.find_cells(self.field, y, z, places, cases) {
            return count;
        }
        self.case_cells(y, z);
        let nx = self.field.sizes().nx() as usize;
        let count = list_cases(&self.known.cases, nx - 1, places, cases);
        self.known
            .keep_cells(self.field, y, z, &places[..count], &cases[..count]);
        count
    }

    /// It asks each active brick once, and no other one.
    fn count_cells(&mut self) -> Counts {
        count_all(self.field, self.rows, self.steps)
    }
}
