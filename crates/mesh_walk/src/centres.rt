//! The lines of the centres of loops: those of a row of cells are listed first, and then written one after the other.
ghost use Rattle.std.specs.Prelude.{◌≡◌, ◌+◌, ◌*◌, ◌<◌, ◌≤◌, ◌++◌, All, IfOk, map, take};
ghost use Rattle.cell_loops.specs.Loops.{row_centres};
ghost use Rattle.case_faces.specs.Fans.{fan_of};
ghost use Rattle.flat_mesh.specs.Rows.{row_start};
ghost use Rattle.mesh_lines.specs.Blocks.{Adds};
ghost use Rattle.mesh_walk.specs.Cells.{AreCells};
ghost use Rattle.mesh_walk.specs.Fans.{AreFans, seen};
ghost use Rattle.mesh_walk.specs.Numbers.{AreFirst, AreRowRanks, cost_before, cost_of_row, row_number};
ghost use Rattle.mesh_walk.specs.Places.{AreRowPlaces, due_to, in_slot};
ghost use Rattle.mesh_walk.specs.Slots.{IsReady};
ghost use Rattle.mesh_walk.specs.Spans.{centres_text, owned_centres_text, points_to, row_centres_text};

use crate::cells::RowCells;
use crate::places::{CellPlaces, EdgePlaces};
use crate::ranks::RowPlace;
use crate::slots::{CellEdgeSlots, first_slots};
use crate::walk::Walk;
use byte_streams::{Failed, Sink};
use case_faces::{fan_numbers, fans_of};
use case_table::CaseRow;
use cell_loops::centre_count;
use flat_mesh::Heights;
use mesh_lines::{CentreTexts, LineBuffer};
use mesh_rows::MeshRows;

/// The most loops with a centre that can be listed: two for each cell of the longest row.
const ROW_FANS: usize = 2052;

/// A loop with a centre of a row of cells: how far its cell is along x, and its number in the table of loops.
#[derive(Clone, Copy)]
pub struct RowFan {
    x: u16,
    fan: u8,
}

/// Writes the loops with a centre of a cell, and says where those of the next one go: two are written, and stay as many as there are. So
/// there is no branch whose way a processor would have to guess.
#[inline(always)]
fn fill_fans(case: CaseRow, x: u16, fans: &mut [RowFan; ROW_FANS], at: usize) -> usize
    requires room { at + 2 ≤ 2052 }
    ensures put { map seen (take result fans.new)
        ≡ map seen (take at fans.old) ++ map (λ l. (x, fan_of l.1)) (row_centres case) }
    ensures low { All (λ f. f.fan < 115) (take at fans.old) → All (λ f. f.fan < 115) (take result fans.new) }
    ensures end { result ≤ at + 2 }
{
    let [first, second] = fans_of(case);
    fans[at] = RowFan { x, fan: first };
    fans[at + 1] = RowFan { x, fan: second };
    at + centre_count(case) as usize
}

/// Lists the loops with a centre of a row of cells, and says how many there are.
fn list_fans<H: Heights>(field: &H, cells: &RowCells, fans: &mut [RowFan; ROW_FANS]) -> usize
    requires cells { AreCells (H.leveled field.now) cells.now }
    ensures few { result ≤ 2052 }
    ensures fans { AreFans (H.leveled field.now) cells.now.y cells.now.z (take result fans.new) }
{
    let _ = field.sizes();
    let mut count = 0;
    for k in 0..cells.count {
        count = fill_fans(CaseRow::of(cells.cases[k]), cells.places[k], fans, count);
    }
    count
}

/// A row of cells: the texts of its lines, the places on the edges around it, and the slots with which these begin.
#[derive(Clone, Copy)]
struct CentreRow<'a> {
    texts: &'a CentreTexts,
    places: &'a EdgePlaces,
    rows: [usize; 4],
}

/// Puts the lines of the centres of the listed loops of a row of cells behind the others.
fn write_fans<H: Heights, K: Sink>(
    field: &H,
    row: CentreRow<'_>,
    fans: &[RowFan],
    block: &mut LineBuffer,
    sink: &mut K,
) -> Result<(), Failed>
    requires y { row.texts.now.y + 1 < (H.leveled field.now).grid.ny }
    requires z { row.texts.now.z + 1 < (H.leveled field.now).grid.nz }
    requires width { row.texts.now.count ≡ (H.leveled field.now).grid.nx }
    requires places { let texts = row.texts.now in
        AreRowPlaces (H.leveled field.now) texts.y texts.z row.places.now.places row.rows }
    requires fans { AreFans (H.leveled field.now) row.texts.now.y row.texts.now.z fans.now }
    ensures adds { let v = H.leveled field.now in
        let texts = row.entry.texts.now in
        Adds (K.seen sink.old) (K.seen sink.new) block.old block.new result
        (centres_text texts.style v (row_start v.grid texts.y texts.z) v.grid.nx) }
    ensures bytes { IfOk result (λ _. block.new.total ≤ block.old.total + 256 * (H.leveled field.now).grid.nx) }
{
    let _ = field.sizes();
    for k in 0..fans.len() {
        block.reserve(sink)?;
        let fan = fans[k];
        let places = CellPlaces {
            places: &row.places.places,
            rows: row.rows,
            at: 3 * fan.x as usize,
        };
        let at = places.centre(fan_numbers(fan.fan));
        block.push_centre(row.texts, u32::from(fan.x), &at);
    }
    Ok(())
}

/// What is known of a row of cells, of which two rows of points may stay for the next one. `fans` is a buffer for its loops.
#[derive(Drop)]
struct Centres {
    cells: RowCells,
    texts: CentreTexts,
    places: CellEdgeSlots<EdgePlaces>,
    fans: [RowFan; ROW_FANS],
}

/// Puts the lines of the centres of the row of cells that a row of points begins behind the others.
fn write_row<R: MeshRows, K: Sink>(
    rows: &mut R,
    walk: Walk<'_>,
    row: RowPlace,
    centres: &mut Centres,
    block: &mut LineBuffer,
    sink: &mut K,
) -> Result<(), Failed>
    requires style { centres.old.texts.style ≡ walk.style }
    requires width { centres.old.texts.count ≡ (R.leveled rows.old).grid.nx }
    requires ready { let v = R.leveled rows.old in
        IsReady (in_slot centres.old.places.slots.places) (due_to v) v centres.old.places.next }
    requires ranks { AreRowRanks (R.leveled rows.old) walk.ranks.now walk.total }
    requires numbers { AreFirst walk.numbers }
    requires y { row.y < (R.leveled rows.old).grid.ny }
    requires z { row.z < (R.leveled rows.old).grid.nz }
    ensures adds { let v = R.leveled rows.old in
        Adds (K.seen sink.old) (K.seen sink.new) block.old block.new result
        (row_centres_text walk.entry.style v (row_number v.grid row)) }
    ensures bytes { IfOk result (λ _. block.new.total ≤ block.old.total + 256 * (R.leveled rows.old).grid.nx) }
    ensures style { centres.new.texts.style ≡ walk.entry.style }
    ensures width { centres.new.texts.count ≡ (R.leveled rows.old).grid.nx }
    ensures ready { let v = R.leveled rows.old in
        IsReady (in_slot centres.new.places.slots.places) (due_to v) v centres.new.places.next }
    ensures volume { R.leveled rows.new ≡ R.leveled rows.old }
    ensures kept { R.kept rows.new ≡ R.kept rows.old }
    ensures least { R.spent rows.old ≤ R.spent rows.new }
    ensures most { let g = (R.leveled rows.old).grid in
        R.spent rows.new ≤ R.spent rows.old + cost_of_row g (R.row_cost (R.kept rows.old)) (row_number g row) }
{
    let _ = rows.sizes();
    let RowPlace { y, z } = row;
    if !centres.cells.find(rows, walk, y, z) {
        return Ok(());
    }
    centres.places.move_to(rows, walk, block, y, z);
    centres.texts.move_to(y, z, block);
    let count = list_fans(rows, &centres.cells, &mut centres.fans);
    let row = CentreRow {
        texts: &centres.texts,
        places: &centres.places.slots,
        rows: first_slots(y, z),
    };
    write_fans(rows, row, &centres.fans[..count], block, sink)
}

/// Puts the lines of all centres behind the others.
#[inline(never)]
pub fn write_centres<R: MeshRows, K: Sink>(
    rows: &mut R,
    walk: Walk<'_>,
    block: &mut LineBuffer,
    sink: &mut K,
) -> Result<(), Failed>
    requires ranks { AreRowRanks (R.leveled rows.old) walk.ranks.now walk.total }
    requires numbers { AreFirst walk.numbers }
    requires slices { walk.slices ≤ (R.leveled rows.old).grid.nz }
    ensures adds { let v = R.leveled rows.old in
        Adds (K.seen sink.old) (K.seen sink.new) block.old block.new result
        (owned_centres_text walk.entry.style v walk.entry.slices) }
    ensures bytes { let points = points_to (R.leveled rows.old) walk.entry.slices in
        IfOk result (λ _. block.new.total ≤ block.old.total + 256 * points) }
    ensures volume { R.leveled rows.new ≡ R.leveled rows.old }
    ensures kept { R.kept rows.new ≡ R.kept rows.old }
    ensures least { R.spent rows.old ≤ R.spent rows.new }
    ensures most { let g = (R.leveled rows.old).grid in
        R.spent rows.new ≤ R.spent rows.old + cost_before g (R.row_cost (R.kept rows.old)) (g.ny * walk.entry.slices) }
{
    let sizes = rows.sizes();
    let mut centres = Centres {
        cells: RowCells::new(),
        texts: CentreTexts::new(walk.style, sizes.nx(), block),
        places: CellEdgeSlots::of(EdgePlaces::new()),
        fans: [RowFan { x: 0, fan: 0 }; ROW_FANS],
    };
    let mut place = RowPlace::first();
    for _row in 0..sizes.ny() * walk.slices {
        write_row(rows, walk, place, &mut centres, block, sink)?;
        place = place.next(&sizes);
    }
    Ok(())
}
