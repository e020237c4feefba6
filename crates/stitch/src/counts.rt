//! How many centres and triangles a mesh has.
ghost use Rattle.std.specs.Prelude.{◌≡◌, ◌+◌, ◌*◌, ◌≤◌};
ghost use Rattle.iso_defs.specs.Bricks.{brick_count};
ghost use Rattle.flat_mesh.specs.Lattice.{heights};
ghost use Rattle.mesh_rows.specs.Counts.{AreAllCounts};
ghost use Rattle.brick_rows.specs.Named.{NamesCases, asked_among};

use brick_rows::{BricksAtLevel, CellRows};
use brick_store::BrickId;
use iso_base::Steps;
use mesh_rows::Counts;
use std::sync::ledger::Ledger;

/// How many centres and triangles there are in all, brick by brick: each cell stands in one brick, and a brick that is not active
/// has none.
pub fn count_all<R: CellRows, L: Ledger>(
    field: &BricksAtLevel,
    rows: &mut R,
    steps: &mut Steps<L>,
) -> Counts
    requires named { NamesCases (R.named rows.old) field.now.grid (heights field.now) }
    ensures counts { AreAllCounts field.now result }
    ensures same { R.named rows.new ≡ R.named rows.old }
    ensures least { steps.old ≤ steps.new }
    ensures most { steps.new
        ≤ steps.old + 512 * asked_among field.now.grid (heights field.now) (R.named rows.old) 0
        (brick_count field.now.grid) }
{
    // Reading the sizes brings in what is true of every volume at a level.
    let _ = field.sizes();
    let bricks = field.brick_count();
    let mut counts = Counts {
        centres: 0,
        faces: 0,
    };
    let mut brick = field.next_active(0);
    while brick < bricks {
        let more = rows.count(BrickId(brick), steps);
        counts = Counts {
            centres: counts.centres + more.centres,
            faces: counts.faces + more.faces,
        };
        brick = field.next_active(brick + 1);
    }
    counts
}
