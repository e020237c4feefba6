//! Where the crossing edges of a row of points are crossed.
ghost use Rattle.std.specs.Prelude.{◌≡◌, ◌+◌, ◌*◌, ◌<◌, length, map, true};
ghost use Rattle.iso_defs.specs.Bricks.{bricks_along};
ghost use Rattle.iso_defs.specs.Grid.{is_crossing};
ghost use Rattle.brick_store.specs.Copies.{AreAllCopies};
ghost use Rattle.crossing_edges.specs.Flags.{edge_place};
ghost use Rattle.flat_mesh.specs.Lattice.{heights};
ghost use Rattle.flat_mesh.specs.Rows.{row_start};
ghost use Rattle.mesh_rows.specs.Rows.{AreEdges, row_places};
ghost use Rattle.brick_rows.specs.Bricks.{IsPointRow};

use crate::bricks::{PointRow, row_place};
use crate::bricks_at_level::BricksAtLevel;
use brick_store::bricks_along;
use edge_points::sample_place;
use packed_samples::PackedRun;
use samples::{Packed, sample_at};

/// How far behind the copy of a point's sample a brick has those of the next points along x, y and z.
const STEPS: [usize; 3] = [1, 9, 81];

/// Where a crossing edge of a row is crossed. The brick that holds its point has copies of both of its ends: the last brick of the row
/// holds the row's last point too. `start` is where the samples of the row begin in its first brick, `last` where its last brick stands.
#[inline(always)]
fn place_of<T: Packed>(
    field: &BricksAtLevel,
    copies: &[T],
    row: PointRow,
    start: usize,
    last: u32,
    edge: u16,
) -> u16
    requires copies { AreAllCopies field.now.grid field.now.samples (map T.value copies.now) }
    requires row { IsPointRow field.now.grid row }
    requires start { start ≡ 729 * row.bricks.first + 9 * (row.bricks.y + 9 * row.bricks.z) }
    requires last { last + 1 ≡ bricks_along field.now.grid 0 }
    requires edge { edge < 3 * field.now.grid.nx }
    requires crossing { is_crossing field.now.grid (heights field.now)
        (3 * row_start field.now.grid row.y row.z + edge) ≡ true }
    ensures { result ≡ edge_place field.now.grid (heights field.now) (3 * row_start field.now.grid row.y row.z + edge) }
{
    // Reading the sizes brings in what is true of every volume at a level; the clauses alone speak of the row.
    let _ = (field.sizes(), row);
    let x = u32::from(edge / 3);
    let brick = (x / 8).min(last);
    let low = start + 721 * brick as usize + x as usize;
    // The axis of an edge cannot be foreseen, so that a branch on it would cost more than a look into a table.
    let high = low + STEPS[(edge % 3) as usize];
    sample_place(
        field.level(),
        sample_at(copies, low),
        sample_at(copies, high),
    )
}

/// Fills in where the crossing edges of a row are crossed, from the samples of all bricks.
fn place_edges<T: Packed>(
    field: &BricksAtLevel,
    copies: &[T],
    row: PointRow,
    edges: &[u16],
    places: &mut [u16],
)
    requires copies { AreAllCopies field.now.grid field.now.samples (map T.value copies.now) }
    requires row { IsPointRow field.now.grid row }
    requires edges { AreEdges field.now row.y row.z edges.now }
    requires count { length places.old ≡ length edges.now }
    ensures { places.new ≡ row_places field.now row.y row.z }
{
    let sizes = field.sizes();
    let start = row_place(row.bricks);
    let last = bricks_along(sizes.nx()) - 1;
    for i in 0..edges.len() {
        places[i] = place_of(field, copies, row, start, last, edges[i]);
    }
}

/// Fills in where the crossing edges of a row are crossed, in thousandths from their lower ends. It reads the samples at their ends
/// alone.
pub fn place_row(field: &BricksAtLevel, y: u32, z: u32, edges: &[u16], places: &mut [u16])
    requires y { y < field.now.grid.ny }
    requires z { z < field.now.grid.nz }
    requires edges { AreEdges field.now y z edges.now }
    requires count { length places.old ≡ length edges.now }
    ensures { places.new ≡ row_places field.now y z }
{
    let sizes = field.sizes();
    let row = PointRow::of(&sizes, y, z);
    match field.copies() {
        PackedRun::U8(copies) => place_edges(field, copies, row, edges, places),
        PackedRun::I16(copies) => place_edges(field, copies, row, edges, places),
        PackedRun::U16(copies) => place_edges(field, copies, row, edges, places),
        PackedRun::I32(copies) => place_edges(field, copies, row, edges, places),
        PackedRun::I64(copies) => place_edges(field, copies, row, edges, places),
    }
}
