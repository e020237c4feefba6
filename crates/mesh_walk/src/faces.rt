//! The lines of the triangles: those of a row of cells are listed first, and then written one after the other.
ghost use Rattle.std.specs.Prelude.{◌≡◌, ℕ, ◌+◌, ◌*◌, ◌/◌, ◌<◌, ◌≤◌, List, All, IfOk, length, map, slice_index};
ghost use Rattle.std.specs.List.{concat};
ghost use Rattle.mesh_text.specs.Numbers.{IsShort, number_text, text_at};
ghost use Rattle.mesh_lines.specs.Blocks.{Adds};
ghost use Rattle.mesh_lines.specs.Triangles.{corner_text};
ghost use Rattle.mesh_walk.specs.Cells.{AreCells, cells_start};
ghost use Rattle.mesh_walk.specs.Listed.{HaveCorners};
ghost use Rattle.mesh_walk.specs.Numbers.{AreFirst, AreRowRanks, HasNumber, cost_before, cost_of_row, row_number};
ghost use Rattle.mesh_walk.specs.Slots.{AreAround, IsReady};
ghost use Rattle.mesh_walk.specs.Spans.{face_lines, faces_text, owned_faces_text, points_to, row_faces_text};
ghost use Rattle.mesh_walk.specs.Texts.{HasText, number_due};

use crate::cells::RowCells;
use crate::corners::{CornerSlots, LIST_SLOTS, list_corners};
use crate::ranks::RowPlace;
use crate::slots::{CellEdgeSlots, TEXT_SLOTS};
use crate::texts::NumberTexts;
use crate::walk::Walk;
use byte_streams::{Failed, Sink};
use flat_mesh::Heights;
use mesh_lines::{LineBuffer, Style};
use mesh_rows::MeshRows;
use mesh_text::Number;

/// The text in the slot that a list has at a place.
#[inline(always)]
fn text_of<'a>(slots: &[u16], i: usize, texts: &'a [Number; TEXT_SLOTS]) -> &'a Number
    requires slots { All (HasText texts.now) slots.now }
    requires i { i < length slots.now }
    ensures text { number_text result.now ≡ text_at texts.now (slice_index slots.now i) }
    ensures short { IsShort result.now }
{
    &texts[slots[i] as usize]
}

/// Puts the lines of triangles behind the others, by the slots of the texts of their corners, three by three.
fn put_faces<K: Sink>(
    style: Style,
    slots: &[u16],
    texts: &[Number; TEXT_SLOTS],
    block: &mut LineBuffer,
    sink: &mut K,
) -> Result<(), Failed>
    requires { All (HasText texts.now) slots.now }
    ensures adds { (faces : List (List ℕ)) → All (λ t. length t ≡ 3) faces
        → map (text_at texts.now) slots.now ≡ map (corner_text style.format) (concat faces)
        → Adds (K.seen sink.old) (K.seen sink.new) block.old block.new result (face_lines style.format faces) }
    ensures bytes { IfOk result (λ _. block.new.total ≤ block.old.total + 64 * (length slots.now / 3)) }
{
    for i in 0..slots.len() / 3 {
        block.reserve(sink)?;
        let a = text_of(slots, 3 * i, texts);
        let b = text_of(slots, 3 * i + 1, texts);
        let c = text_of(slots, 3 * i + 2, texts);
        block.push_texts(style, a, b, c);
    }
    Ok(())
}

/// How far the lines of the triangles are: the number of the next centre, the slots of the corners of all triangles, and buffers for a
/// row of cells, the slots of the corners of its triangles, and the texts in the slots around it.
#[derive(Drop)]
struct Faces {
    cells: RowCells,
    slots: CornerSlots,
    list: [u16; LIST_SLOTS],
    texts: CellEdgeSlots<NumberTexts>,
    next: u32,
}

impl Faces {
    /// Puts the lines of the triangles of the row of cells behind the others, with the texts around it.
    fn write<H: Heights, K: Sink>(
        &mut self,
        field: &H,
        walk: Walk<'_>,
        block: &mut LineBuffer,
        sink: &mut K,
    ) -> Result<(), Failed>
        requires cells { AreCells (H.leveled field.now) self.old.cells }
        requires slots { HaveCorners self.old.slots.tables }
        requires texts { let v = H.leveled field.now in
            let cells = self.old.cells in
            AreAround (text_at self.old.texts.slots.texts) (number_due walk.style walk.numbers v) v cells.y cells.z }
        requires next { let v = H.leveled field.now in
            HasNumber walk.numbers.first_centre v (cells_start v self.old.cells) self.old.next }
        requires first { AreFirst walk.numbers }
        ensures adds { let v = H.leveled field.now in
            let start = cells_start v self.old.cells in
            Adds (K.seen sink.old) (K.seen sink.new) block.old block.new result
            (faces_text walk.entry.style.format walk.entry.numbers v start v.grid.nx) }
        ensures edges { (i : ℕ) → i < 12312
            → text_at self.new.texts.slots.texts i ≡ text_at self.old.texts.slots.texts i }
        ensures row { self.new.texts.next ≡ self.old.texts.next }
        ensures slots { HaveCorners self.new.slots.tables }
        ensures next { let v = H.leveled field.now in
            HasNumber walk.entry.numbers.first_centre v (cells_start v self.old.cells + v.grid.nx) self.new.next }
        ensures bytes { IfOk result (λ _. block.new.total ≤ block.old.total + 3072 * (H.leveled field.now).grid.nx) }
    {
        let _ = field.sizes();
        let cells = &self.cells;
        self.next += self
            .texts
            .slots
            .set_centres(field, cells, walk, self.next, block);
        let table = self.slots.of_row(cells.y, cells.z);
        let count = list_corners(cells, table, &mut self.list);
        put_faces(
            walk.style,
            &self.list[..count],
            &self.texts.slots.texts,
            block,
            sink,
        )
    }
}

/// Puts the lines of the triangles of the row of cells that a row of points begins behind the others.
fn write_row<R: MeshRows, K: Sink>(
    rows: &mut R,
    walk: Walk<'_>,
    row: RowPlace,
    faces: &mut Faces,
    block: &mut LineBuffer,
    sink: &mut K,
) -> Result<(), Failed>
    requires ranks { AreRowRanks (R.leveled rows.old) walk.ranks.now walk.total }
    requires numbers { AreFirst walk.numbers }
    requires y { row.y < (R.leveled rows.old).grid.ny }
    requires z { row.z < (R.leveled rows.old).grid.nz }
    requires ready { let v = R.leveled rows.old in
        IsReady (text_at faces.old.texts.slots.texts) (number_due walk.style walk.numbers v) v faces.old.texts.next }
    requires slots { HaveCorners faces.old.slots.tables }
    requires next { let v = R.leveled rows.old in
        HasNumber walk.numbers.first_centre v (v.grid.nx * row_number v.grid row) faces.old.next }
    ensures adds { let v = R.leveled rows.old in
        Adds (K.seen sink.old) (K.seen sink.new) block.old block.new result
        (row_faces_text walk.entry.style.format walk.entry.numbers v (row_number v.grid row)) }
    ensures next { let v = R.leveled rows.old in
        let first = walk.entry.numbers.first_centre in
        IfOk result (λ _. HasNumber first v (v.grid.nx * (row_number v.grid row + 1)) faces.new.next) }
    ensures ready { let v = R.leveled rows.old in
        let expected = number_due walk.entry.style walk.entry.numbers v in
        IsReady (text_at faces.new.texts.slots.texts) expected v faces.new.texts.next }
    ensures slots { HaveCorners faces.new.slots.tables }
    ensures bytes { IfOk result (λ _. block.new.total ≤ block.old.total + 3072 * (R.leveled rows.old).grid.nx) }
    ensures volume { R.leveled rows.new ≡ R.leveled rows.old }
    ensures kept { R.kept rows.new ≡ R.kept rows.old }
    ensures least { R.spent rows.old ≤ R.spent rows.new }
    ensures most { let g = (R.leveled rows.old).grid in
        R.spent rows.new ≤ R.spent rows.old + cost_of_row g (R.row_cost (R.kept rows.old)) (row_number g row) }
{
    let _ = rows.sizes();
    let RowPlace { y, z } = row;
    if !faces.cells.find(rows, walk, y, z) {
        return Ok(());
    }
    faces.texts.move_to(rows, walk, block, y, z);
    faces.write(rows, walk, block, sink)
}

/// Puts the lines of all triangles behind the others.
#[inline(never)]
pub fn write_faces<R: MeshRows, K: Sink>(
    rows: &mut R,
    walk: Walk<'_>,
    block: &mut LineBuffer,
    sink: &mut K,
) -> Result<(), Failed>
    requires ranks { AreRowRanks (R.leveled rows.old) walk.ranks.now walk.total }
    requires numbers { AreFirst walk.numbers }
    requires slices { walk.slices ≤ (R.leveled rows.old).grid.nz }
    ensures adds { Adds (K.seen sink.old) (K.seen sink.new) block.old block.new result
        (owned_faces_text walk.entry.style.format walk.entry.numbers (R.leveled rows.old) walk.entry.slices) }
    ensures bytes { let points = points_to (R.leveled rows.old) walk.entry.slices in
        IfOk result (λ _. block.new.total ≤ block.old.total + 3072 * points) }
    ensures volume { R.leveled rows.new ≡ R.leveled rows.old }
    ensures kept { R.kept rows.new ≡ R.kept rows.old }
    ensures least { R.spent rows.old ≤ R.spent rows.new }
    ensures most { let g = (R.leveled rows.old).grid in
        R.spent rows.new ≤ R.spent rows.old + cost_before g (R.row_cost (R.kept rows.old)) (g.ny * walk.entry.slices) }
{
    let sizes = rows.sizes();
    let mut faces = Faces {
        cells: RowCells::new(),
        slots: CornerSlots::none(),
        list: [0; LIST_SLOTS],
        texts: CellEdgeSlots::of(NumberTexts::new()),
        next: walk.numbers.first_centre,
    };
    faces.slots.fill();
    let mut place = RowPlace::first();
    for _row in 0..sizes.ny() * walk.slices {
        write_row(rows, walk, place, &mut faces, block, sink)?;
        place = place.next(&sizes);
    }
    Ok(())
}
