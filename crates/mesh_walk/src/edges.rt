//! The lines of the vertices on crossing edges, in order of name.
ghost use Rattle.std.specs.Prelude.{◌≡◌, ◌+◌, ◌*◌, ◌<◌, ◌≤◌, IfOk, length, slice_index, take};
ghost use Rattle.flat_mesh.specs.Rows.{row_start};
ghost use Rattle.mesh_rows.specs.Rows.{AreEdges, row_places};
ghost use Rattle.mesh_lines.specs.Blocks.{Adds};
ghost use Rattle.mesh_walk.specs.Edges.{AreRowEdges};
ghost use Rattle.mesh_walk.specs.Numbers.{AreRowRanks, row_number};
ghost use Rattle.mesh_walk.specs.Spans.{edge_line, edges_text, owned_edges_text, points_to, row_edges_text};

use crate::ranks::RowPlace;
use crate::walk::Walk;
use byte_streams::{Failed, Sink};
use flat_mesh::Heights;
use iso_base::ROW_EDGES;
use mesh_lines::{LineBuffer, RowTexts};
use mesh_rows::MeshRows;

/// Fills in where the crossing edges of a row are crossed, at the front of a buffer.
pub fn set_places<R: MeshRows>(
    rows: &mut R,
    y: u32,
    z: u32,
    edges: &[u16],
    places: &mut [u16; ROW_EDGES],
)
    requires y { y < (R.leveled rows.old).grid.ny }
    requires z { z < (R.leveled rows.old).grid.nz }
    requires edges { AreEdges (R.leveled rows.old) y z edges.now }
    requires few { length edges.now ≤ 3078 }
    ensures places { take (length edges.now) places.new ≡ row_places (R.leveled rows.old) y z }
    ensures volume { R.leveled rows.new ≡ R.leveled rows.old }
    ensures kept { R.kept rows.new ≡ R.kept rows.old }
    ensures spent { R.spent rows.new ≡ R.spent rows.old }
{
    rows.fill_places(y, z, edges, &mut places[..edges.len()]);
}

/// The crossing edges that begin in a row of points: so many offsets, three times how far an edge's point is along x and
/// its axis, and where they are crossed, in thousandths from their lower ends. The texts are for that row.
#[derive(Drop)]
pub struct RowEdges {
    pub texts: RowTexts,
    pub count: usize,
    pub edges: [u16; ROW_EDGES],
    pub places: [u16; ROW_EDGES],
}

impl RowEdges {
    /// A row of which nothing is known.
    pub fn new(texts: RowTexts) -> RowEdges
        ensures { result.texts ≡ texts }
    {
        RowEdges {
            texts,
            count: 0,
            edges: [0; ROW_EDGES],
            places: [0; ROW_EDGES],
        }
    }

    /// Turns to a row of points. It has its crossing edges then, where they are crossed, and the texts of their lines.
    fn move_to<R: MeshRows>(&mut self, rows: &mut R, y: u32, z: u32, block: &LineBuffer)
        requires y { y < (R.leveled rows.old).grid.ny }
        requires z { z < (R.leveled rows.old).grid.nz }
        requires width { self.old.texts.count ≡ (R.leveled rows.old).grid.nx }
        ensures edges { AreRowEdges (R.leveled rows.old) self.new }
        ensures texts { self.new.texts ≡ record {
          style = self.old.texts.style;
          count = self.old.texts.count;
          y = y;
          z = z;
        } }
        ensures volume { R.leveled rows.new ≡ R.leveled rows.old }
        ensures kept { R.kept rows.new ≡ R.kept rows.old }
        ensures spent { R.spent rows.new ≡ R.spent rows.old }
    {
        let _ = rows.sizes();
        self.count = rows.list_edges(y, z, &mut self.edges);
        let edges = &self.edges[..self.count];
        set_places(rows, y, z, edges, &mut self.places);
        self.texts.move_to(y, z, block);
    }

    /// Puts the line of the vertex on the edge of that number behind the others, and first makes room for it.
    #[inline(always)]
    fn write_edge<H: Heights, K: Sink>(
        &self,
        field: &H,
        k: usize,
        block: &mut LineBuffer,
        sink: &mut K,
    ) -> Result<(), Failed>
        requires edges { AreRowEdges (H.leveled field.now) self.now }
        requires k { k < self.now.count }
        ensures adds { let v = H.leveled field.now in
            let row = self.now.texts in
            let name = 3 * row_start v.grid row.y row.z + slice_index self.now.edges k in
            Adds (K.seen sink.old) (K.seen sink.new) block.old block.new result (edge_line row.style v name) }
        ensures bytes { IfOk result (λ _. block.new.total ≤ block.old.total + 64) }
    {
        let _ = field.sizes();
        block.reserve(sink)?;
        block.push_edge(&self.texts, self.edges[k], self.places[k]);
        Ok(())
    }

    /// Puts the lines of the vertices on these edges behind the others.
    fn write<H: Heights, K: Sink>(
        &self,
        field: &H,
        block: &mut LineBuffer,
        sink: &mut K,
    ) -> Result<(), Failed>
        requires edges { AreRowEdges (H.leveled field.now) self.now }
        ensures adds { let v = H.leveled field.now in
            let row = self.now.texts in
            Adds (K.seen sink.old) (K.seen sink.new) block.old block.new result
            (edges_text row.style v (3 * row_start v.grid row.y row.z) (3 * v.grid.nx)) }
        ensures bytes { IfOk result (λ _. block.new.total ≤ block.old.total + 192 * (H.leveled field.now).grid.nx) }
    {
        let _ = field.sizes();
        for k in 0..self.count {
            self.write_edge(field, k, block, sink)?;
        }
        Ok(())
    }
}

/// Puts the lines of the vertices on the edges that begin in a row of points behind the others, where there are any.
/// `edges` is a buffer, with texts in the style of the walk.
fn write_row<R: MeshRows, K: Sink>(
    rows: &mut R,
    walk: Walk<'_>,
    row: RowPlace,
    edges: &mut RowEdges,
    block: &mut LineBuffer,
    sink: &mut K,
) -> Result<(), Failed>
    requires ranks { AreRowRanks (R.leveled rows.old) walk.ranks.now walk.total }
    requires y { row.y < (R.leveled rows.old).grid.ny }
    requires z { row.z < (R.leveled rows.old).grid.nz }
    requires style { edges.old.texts.style ≡ walk.style }
    requires width { edges.old.texts.count ≡ (R.leveled rows.old).grid.nx }
    ensures style { edges.new.texts.style ≡ edges.old.texts.style }
    ensures width { edges.new.texts.count ≡ edges.old.texts.count }
    ensures adds { let v = R.leveled rows.old in
        Adds (K.seen sink.old) (K.seen sink.new) block.old block.new result
        (row_edges_text walk.entry.style v (row_number v.grid row)) }
    ensures bytes { IfOk result (λ _. block.new.total ≤ block.old.total + 192 * (R.leveled rows.old).grid.nx) }
    ensures volume { R.leveled rows.new ≡ R.leveled rows.old }
    ensures kept { R.kept rows.new ≡ R.kept rows.old }
    ensures spent { R.spent rows.new ≡ R.spent rows.old }
{
    let _ = rows.sizes();
    let RowPlace { y, z } = row;
    if !walk.has_edges(rows, y, z) {
        return Ok(());
    }
    edges.move_to(rows, y, z, block);
    edges.write(rows, block, sink)
}

/// Puts the lines of the vertices on all crossing edges behind the others.
#[inline(never)]
pub fn write_edges<R: MeshRows, K: Sink>(
    rows: &mut R,
    walk: Walk<'_>,
    block: &mut LineBuffer,
    sink: &mut K,
) -> Result<(), Failed>
    requires ranks { AreRowRanks (R.leveled rows.old) walk.ranks.now walk.total }
    requires slices { walk.slices ≤ (R.leveled rows.old).grid.nz }
    ensures adds { let v = R.leveled rows.old in
        Adds (K.seen sink.old) (K.seen sink.new) block.old block.new result
        (owned_edges_text walk.entry.style v walk.entry.slices) }
    ensures bytes { let points = points_to (R.leveled rows.old) walk.entry.slices in
        IfOk result (λ _. block.new.total ≤ block.old.total + 192 * points) }
    ensures volume { R.leveled rows.new ≡ R.leveled rows.old }
    ensures kept { R.kept rows.new ≡ R.kept rows.old }
    ensures spent { R.spent rows.new ≡ R.spent rows.old }
{
    let sizes = rows.sizes();
    let mut edges = RowEdges::new(RowTexts::new(walk.style, sizes.nx(), block));
    let mut place = RowPlace::first();
    for _row in 0..sizes.ny() * walk.slices {
        write_row(rows, walk, place, &mut edges, block, sink)?;
        place = place.next(&sizes);
    }
    Ok(())
}
