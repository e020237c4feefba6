//! Who names the cases of cells.
ghost use Rattle.std.specs.Prelude.{◌≡◌, ◌+◌, ◌*◌, ◌<◌, ◌≤◌};
ghost use Rattle.iso_defs.specs.Bricks.{brick_count};
ghost use Rattle.brick_rows.specs.Named.{IsCellRow, Named, row_cost};

use arrayvec::ArrayVec;
use brick_store::BrickId;
use iso_base::Steps;
use mesh_rows::Counts;
use std::sync::ledger::Ledger;

/// Who names the cases of the cells of a volume, by the rows of its bricks. It is seen as the grid, the case numbers that it
/// names for each row of each brick, what it counts in each brick, and which bricks it names as kept; no call changes these.
pub trait CellRows {
    ghost named: { Self → Named };

    /// Replaces `rows` by the case numbers of the cells of a row of a brick. It raises the counter by at most 8, and not at
    /// all for a kept brick.
    fn row<L: Ledger>(
        &mut self,
        brick: BrickId,
        y: u8,
        z: u8,
        rows: &mut ArrayVec<u16, 8>,
        steps: &mut Steps<L>,
    )
        requires { IsCellRow (named self.old).grid brick.0 y z }
        ensures cases { rows.new.items ≡ (named self.old).cases brick.0 y z }
        ensures same { named self.new ≡ named self.old }
        ensures least { steps.old ≤ steps.new }
        ensures most { steps.new ≤ steps.old + row_cost (named self.old) brick.0 };

    /// How many centres and triangles the cells of a brick have. It raises the counter by at most 512, and not at all for a
    /// kept brick.
    fn count<L: Ledger>(&mut self, brick: BrickId, steps: &mut Steps<L>) -> Counts
        requires { brick.0 < brick_count (named self.old).grid }
        ensures counts { result ≡ (named self.old).counts brick.0 }
        ensures same { named self.new ≡ named self.old }
        ensures least { steps.old ≤ steps.new }
        ensures most { steps.new ≤ steps.old + 64 * row_cost (named self.old) brick.0 };
}
