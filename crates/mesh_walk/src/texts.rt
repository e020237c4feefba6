//! The texts of the numbers of crossing edges and of centres, each in its slot.
ghost use Rattle.std.specs.Prelude.{◌≡◌, ℕ, ◌+◌, ◌<◌, ◌≤◌, ◌^◌, All, length, slice_index};
ghost use Rattle.mesh_text.specs.Numbers.{text_at};
ghost use Rattle.mesh_lines.specs.Triangles.{corner_text};
ghost use Rattle.mesh_walk.specs.Cells.{AreCells, cells_start};
ghost use Rattle.mesh_walk.specs.Numbers.{AreFirst, HasNumber};
ghost use Rattle.mesh_walk.specs.Slots.{AreApart};
ghost use Rattle.mesh_walk.specs.Texts.{HasCentres, number_due};

use crate::cells::RowCells;
use crate::corners::list_centres;
use crate::slots::{FIRST_CENTRE_SLOT, Slots, TEXT_SLOTS, row_slot};
use crate::walk::Walk;
use flat_mesh::Heights;
use iso_base::ROW_EDGES;
use mesh_lines::{LineBuffer, Style};
use mesh_rows::MeshRows;
use mesh_text::Number;

/// Sets the texts of the numbers of edges or of centres, from that of the first one on, in their slots, which begin at a place.
fn set_texts(
    block: &LineBuffer,
    style: Style,
    edges: &[u16],
    number: u32,
    first: usize,
    texts: &mut [Number; TEXT_SLOTS],
)
    requires low { All (λ e. e < 3078) edges.now }
    requires apart { AreApart edges.now }
    requires few { number + length edges.now < 2 ^ 32 }
    requires first { first ≤ 12312 }
    ensures set { (k : ℕ) → k < length edges.now
        → text_at texts.new (first + slice_index edges.now k) ≡ corner_text style.format (number + k) }
    ensures before { (i : ℕ) → i < first → text_at texts.new i ≡ text_at texts.old i }
    ensures behind { (i : ℕ) → first + 3078 ≤ i → text_at texts.new i ≡ text_at texts.old i }
{
    let mut corners = block.count_corners(style, number);
    for k in 0..edges.len() {
        let slot = first + edges[k] as usize;
        block.set_next(&mut corners, &mut texts[slot]);
    }
}

/// The texts of the numbers of the crossing edges of the rows of points around a row of cells, with a buffer.
#[derive(Drop)]
pub struct NumberTexts {
    pub texts: [Number; TEXT_SLOTS],
    offsets: [u16; ROW_EDGES],
}

impl NumberTexts {
    /// Texts of nothing.
    pub fn new() -> NumberTexts {
        NumberTexts {
            texts: [Number::none(); TEXT_SLOTS],
            offsets: [0; ROW_EDGES],
        }
    }

    /// Sets the texts of the numbers of the centres of a row's cells, from that of the first one on, and says how many there are.
    pub fn set_centres<H: Heights>(
        &mut self,
        field: &H,
        cells: &RowCells,
        walk: Walk<'_>,
        number: u32,
        block: &LineBuffer,
    ) -> u32
        requires cells { AreCells (H.leveled field.now) cells.now }
        requires number { let v = H.leveled field.now in
            HasNumber walk.numbers.first_centre v (cells_start v cells.now) number }
        requires first { AreFirst walk.numbers }
        ensures centres { let v = H.leveled field.now in
            let format = walk.entry.style.format in
            (k : ℕ) → k < cells.now.count
            → HasCentres format walk.entry.numbers v cells.now self.new.texts k }
        ensures edges { (i : ℕ) → i < 12312 → text_at self.new.texts i ≡ text_at self.old.texts i }
        ensures next { let v = H.leveled field.now in
            HasNumber walk.entry.numbers.first_centre v (cells_start v cells.now + v.grid.nx) (number + result) }
        ensures few { number + result < 2 ^ 32 }
    {
        let _ = field.sizes();
        let count = list_centres(cells, &mut self.offsets);
        set_texts(
            block,
            walk.style,
            &self.offsets[..count],
            number,
            usize::from(FIRST_CENTRE_SLOT),
            &mut self.texts,
        );
        count as u32
    }
}

impl Slots for NumberTexts {
    ghost at = { λ s. text_at s.texts };

    ghost expected = { number_due };

    fn fill_row<R: MeshRows>(
        &mut self,
        rows: &mut R,
        walk: Walk<'_>,
        block: &LineBuffer,
        y: u32,
        z: u32,
    ) {
        let _ = rows.sizes();
        if !walk.has_edges(rows, y, z) {
            return;
        }
        let before = walk.edges_to_row(rows, y, z);
        let count = rows.list_edges(y, z, &mut self.offsets);
        let edges = &self.offsets[..count];
        set_texts(
            block,
            walk.style,
            edges,
            walk.numbers.first_edge + before,
            row_slot(y, z),
            &mut self.texts,
        );
    }
}
