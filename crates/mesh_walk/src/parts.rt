//! A part of a mesh, what the lowest slices of a volume have: counted, and written in three stretches.
//!
//! A slab of a large volume writes its part with the numbers that its vertices have in the whole. The stretches of all
//! slabs, one behind the other, are then the lines of the whole.
ghost use Rattle.std.specs.Prelude.{◌≡◌, ◌+◌, ◌*◌, ◌/◌, ◌≤◌, ◌<◌, length};
ghost use Rattle.byte_streams.specs.Seen.{Puts};
ghost use Rattle.mesh_rows.specs.Counts.{AreCounts, centres_among, triangles_among};
ghost use Rattle.mesh_walk.specs.Listed.{AreLow, centre_slots_to, corner_slots_to};
ghost use Rattle.mesh_walk.specs.Numbers.{AreFirst, AreRowRanks, cost_before, cost_of_row, edges_to, row_number};
ghost use Rattle.mesh_walk.specs.Spans.{owned_centres_text, owned_edges_text, owned_faces_text, points_to};

use crate::cells::RowCells;
use crate::centres::write_centres;
use crate::edges::write_edges;
use crate::faces::write_faces;
use crate::ranks::RowPlace;
use crate::walk::Walk;
use byte_streams::{Failed, Sink};
use case_faces::corner_count;
use case_table::CaseRow;
use cell_loops::centre_count;
use mesh_lines::LineBuffer;
use mesh_rows::{Counts, MeshRows};

/// How many vertices on edges, centres and triangles the lowest slices have.
#[derive(Clone, Copy)]
pub struct PartCounts {
    pub edges: u32,
    pub centres: u32,
    pub faces: u32,
}

/// How many centres and triangles the cells that a row lists have.
fn count_listed(cells: &RowCells) -> Counts
    requires { AreLow cells.now }
    ensures centres { result.centres ≡ length (centre_slots_to cells.now cells.now.count) }
    ensures faces { result.faces ≡ length (corner_slots_to cells.now cells.now.count) / 3 }
    ensures few_centres { result.centres ≤ 2 * cells.now.count }
    ensures few_faces { result.faces ≤ 12 * cells.now.count }
{
    let mut centres = 0;
    let mut corners = 0;
    for k in 0..cells.count {
        let case = CaseRow::of(cells.cases[k]);
        centres += u32::from(centre_count(case));
        corners += u32::from(corner_count(case));
    }
    Counts {
        centres,
        faces: corners / 3,
    }
}

/// How many centres and triangles the row of cells has that a row of points begins. `cells` is a buffer.
fn count_row<R: MeshRows>(
    rows: &mut R,
    walk: Walk<'_>,
    row: RowPlace,
    cells: &mut RowCells,
) -> Counts
    requires ranks { AreRowRanks (R.leveled rows.old) walk.ranks.now walk.total }
    requires y { row.y < (R.leveled rows.old).grid.ny }
    requires z { row.z < (R.leveled rows.old).grid.nz }
    ensures centres { let v = R.leveled rows.old in
        result.centres ≡ centres_among v (v.grid.nx * row_number v.grid row) v.grid.nx }
    ensures faces { let v = R.leveled rows.old in
        result.faces ≡ triangles_among v (v.grid.nx * row_number v.grid row) v.grid.nx }
    ensures few_centres { result.centres ≤ 4 * (R.leveled rows.old).grid.nx }
    ensures few_faces { result.faces ≤ 12 * (R.leveled rows.old).grid.nx }
    ensures volume { R.leveled rows.new ≡ R.leveled rows.old }
    ensures kept { R.kept rows.new ≡ R.kept rows.old }
    ensures least { R.spent rows.old ≤ R.spent rows.new }
    ensures most { let g = (R.leveled rows.old).grid in
        R.spent rows.new ≤ R.spent rows.old + cost_of_row g (R.row_cost (R.kept rows.old)) (row_number g row) }
{
    let _ = rows.sizes();
    let RowPlace { y, z } = row;
    if !cells.find(rows, walk, y, z) {
        return Counts {
            centres: 0,
            faces: 0,
        };
    }
    count_listed(cells)
}

/// How many centres and triangles the cells of the lowest slices have.
fn count_cells<R: MeshRows>(rows: &mut R, walk: Walk<'_>) -> Counts
    requires ranks { AreRowRanks (R.leveled rows.old) walk.ranks.now walk.total }
    requires slices { walk.slices ≤ (R.leveled rows.old).grid.nz }
    ensures counts { let v = R.leveled rows.old in AreCounts v (points_to v walk.entry.slices) result }
    ensures volume { R.leveled rows.new ≡ R.leveled rows.old }
    ensures kept { R.kept rows.new ≡ R.kept rows.old }
    ensures least { R.spent rows.old ≤ R.spent rows.new }
    ensures most { let g = (R.leveled rows.old).grid in
        R.spent rows.new ≤ R.spent rows.old + cost_before g (R.row_cost (R.kept rows.old)) (g.ny * walk.entry.slices) }
{
    let sizes = rows.sizes();
    let mut cells = RowCells::new();
    let mut counts = Counts {
        centres: 0,
        faces: 0,
    };
    let mut place = RowPlace::first();
    for _row in 0..sizes.ny() * walk.slices {
        let row = count_row(rows, walk, place, &mut cells);
        counts.centres += row.centres;
        counts.faces += row.faces;
        place = place.next(&sizes);
    }
    counts
}

/// Counts what the lowest slices have. Each row of cells is asked for at most once.
pub fn count_part<R: MeshRows>(rows: &mut R, walk: Walk<'_>) -> PartCounts
    requires ranks { AreRowRanks (R.leveled rows.old) walk.ranks.now walk.total }
    requires some { 1 ≤ walk.slices }
    requires slices { walk.slices ≤ (R.leveled rows.old).grid.nz }
    ensures edges { let v = R.leveled rows.old in result.edges ≡ edges_to v (points_to v walk.entry.slices) }
    ensures centres { let v = R.leveled rows.old in
        result.centres ≡ centres_among v 0 (points_to v walk.entry.slices) }
    ensures faces { let v = R.leveled rows.old in
        result.faces ≡ triangles_among v 0 (points_to v walk.entry.slices) }
    ensures volume { R.leveled rows.new ≡ R.leveled rows.old }
    ensures kept { R.kept rows.new ≡ R.kept rows.old }
    ensures least { R.spent rows.old ≤ R.spent rows.new }
    ensures most { let g = (R.leveled rows.old).grid in
        R.spent rows.new ≤ R.spent rows.old + cost_before g (R.row_cost (R.kept rows.old)) (g.ny * walk.entry.slices) }
{
    let sizes = rows.sizes();
    let edges = walk.edges_to_row(rows, sizes.ny(), walk.slices - 1);
    let counts = count_cells(rows, walk);
    PartCounts {
        edges,
        centres: counts.centres,
        faces: counts.faces,
    }
}

// Each of the three calls below has a frame of its own, so that the blocks of lines do not lie side by side on the stack.

/// Appends the lines of the vertices on the edges that begin in the lowest slices. `Failed` comes only where the sink's count
/// rose; a prefix of the lines was then taken.
#[inline(never)]
pub fn write_part_edges<R: MeshRows, K: Sink>(
    rows: &mut R,
    walk: Walk<'_>,
    sink: &mut K,
) -> Result<(), Failed>
    requires ranks { AreRowRanks (R.leveled rows.old) walk.ranks.now walk.total }
    requires slices { walk.slices ≤ (R.leveled rows.old).grid.nz }
    ensures text { let v = R.leveled rows.old in
        Puts (K.seen sink.old) (K.seen sink.new) result (owned_edges_text walk.entry.style v walk.entry.slices) }
    ensures volume { R.leveled rows.new ≡ R.leveled rows.old }
    ensures kept { R.kept rows.new ≡ R.kept rows.old }
    ensures spent { R.spent rows.new ≡ R.spent rows.old }
{
    let mut block = LineBuffer::new();
    write_edges(rows, walk, &mut block, sink)?;
    block.write_waiting(sink)?;
    Ok(())
}

/// Appends the lines of the centres of the cells of the lowest slices. `Failed` comes only where the sink's count rose; a
/// prefix of the lines was then taken. Each row of cells is asked for at most once.
#[inline(never)]
pub fn write_part_centres<R: MeshRows, K: Sink>(
    rows: &mut R,
    walk: Walk<'_>,
    sink: &mut K,
) -> Result<(), Failed>
    requires ranks { AreRowRanks (R.leveled rows.old) walk.ranks.now walk.total }
    requires numbers { AreFirst walk.numbers }
    requires slices { walk.slices ≤ (R.leveled rows.old).grid.nz }
    ensures text { let v = R.leveled rows.old in
        Puts (K.seen sink.old) (K.seen sink.new) result (owned_centres_text walk.entry.style v walk.entry.slices) }
    ensures volume { R.leveled rows.new ≡ R.leveled rows.old }
    ensures kept { R.kept rows.new ≡ R.kept rows.old }
    ensures least { R.spent rows.old ≤ R.spent rows.new }
    ensures most { let g = (R.leveled rows.old).grid in
        R.spent rows.new ≤ R.spent rows.old + cost_before g (R.row_cost (R.kept rows.old)) (g.ny * walk.entry.slices) }
{
    let mut block = LineBuffer::new();
    write_centres(rows, walk, &mut block, sink)?;
    block.write_waiting(sink)?;
    Ok(())
}

/// Appends the lines of the triangles of the cells of the lowest slices, by the numbers of the walk. `Failed` comes only where
/// the sink's count rose; a prefix of the lines was then taken. Each row of cells is asked for at most once.
#[inline(never)]
pub fn write_part_faces<R: MeshRows, K: Sink>(
    rows: &mut R,
    walk: Walk<'_>,
    sink: &mut K,
) -> Result<(), Failed>
    requires ranks { AreRowRanks (R.leveled rows.old) walk.ranks.now walk.total }
    requires numbers { AreFirst walk.numbers }
    requires slices { walk.slices ≤ (R.leveled rows.old).grid.nz }
    ensures text { let v = R.leveled rows.old in
        let text = owned_faces_text walk.entry.style.format walk.entry.numbers v walk.entry.slices in
        Puts (K.seen sink.old) (K.seen sink.new) result text }
    ensures volume { R.leveled rows.new ≡ R.leveled rows.old }
    ensures kept { R.kept rows.new ≡ R.kept rows.old }
    ensures least { R.spent rows.old ≤ R.spent rows.new }
    ensures most { let g = (R.leveled rows.old).grid in
        R.spent rows.new ≤ R.spent rows.old + cost_before g (R.row_cost (R.kept rows.old)) (g.ny * walk.entry.slices) }
{
    let mut block = LineBuffer::new();
    write_faces(rows, walk, &mut block, sink)?;
    block.write_waiting(sink)?;
    Ok(())
}
