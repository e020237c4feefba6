//! What belongs to the crossing edges of the four rows of points around a row of cells, each edge's in a slot of its own.
//!
//! Ranks would find the edges around a row of cells too, one for each of twelve edges of a cell, where a slot takes one
//! look into a table. Slots of rows at even and odd coordinates are apart, so rows stay where they are while the cells
//! move on.
ghost use Rattle.std.specs.Prelude.{◌≡◌, ℕ, List, [], ◌∷◌, ◌+◌, ◌*◌, ◌<◌, ◌≤◌, slice_index};
ghost use Rattle.iso_base.specs.Volume.{IsGrid};
ghost use Rattle.flat_mesh.specs.Lattice.{Leveled};
ghost use Rattle.mesh_lines.specs.declared.style.Style.{Style};
ghost use Rattle.mesh_walk.specs.Numbers.{AreFirst, AreRowRanks};
ghost use Rattle.mesh_walk.specs.Slots.{AreAround, AreLaid, AreLaidInBoth, IsReady, edge_slot, row_slot};
ghost use Rattle.mesh_walk.specs.declared.walk.Numbering.{Numbering};

use crate::walk::Walk;
use mesh_lines::{LineBuffer, Style};
use mesh_rows::MeshRows;

/// The number of slots: those of four of the longest rows of points.
pub const SLOTS: usize = 12_312;

/// The number of slots for the texts of corners: those of edges, and behind them three for each cell of the longest row, for the texts
/// of its centres.
pub const TEXT_SLOTS: usize = 15_390;

/// The first slot of the centres of a row's cells.
pub const FIRST_CENTRE_SLOT: u16 = 12_312;

/// The first slot of a row of points.
#[inline(always)]
pub fn row_slot(y: u32, z: u32) -> usize
    ensures value { result ≡ row_slot y z }
    ensures bound { result ≤ 9234 }
{
    3078 * (y % 2 + 2 * (z % 2)) as usize
}

/// The first slots of the four rows of points around a row of cells.
pub fn first_slots(y: u32, z: u32) -> [usize; 4]
    requires y { y < 1026 }
    requires z { z < 1026 }
    ensures { result ≡ row_slot y z ∷ row_slot (y + 1) z ∷ row_slot y (z + 1) ∷ row_slot (y + 1) (z + 1) ∷ [] }
{
    [
        row_slot(y, z),
        row_slot(y + 1, z),
        row_slot(y, z + 1),
        row_slot(y + 1, z + 1),
    ]
}

/// The slots of the edges of the first cell of a row.
pub fn edge_slots(y: u32, z: u32) -> [u16; 12]
    requires y { y < 1026 }
    requires z { z < 1026 }
    ensures slots { (e : ℕ) → e < 12 → slice_index result e ≡ edge_slot y z e }
    ensures bound { (e : ℕ) → e < 12 → slice_index result e ≤ 9239 }
{
    let near = row_slot(y, z) as u16;
    let up = row_slot(y + 1, z) as u16;
    let far = row_slot(y, z + 1) as u16;
    let diagonal = row_slot(y + 1, z + 1) as u16;
    [
        near,
        up,
        far,
        diagonal,
        near + 1,
        near + 4,
        far + 1,
        far + 4,
        near + 2,
        near + 5,
        up + 2,
        up + 5,
    ]
}

/// What is laid into slots. Contracts see what stands in each, and what is due to an edge, by its name.
pub trait Slots {
    ghost at: { Self → ℕ → List ℕ };

    ghost expected: { Style → Numbering → Leveled → ℕ → List ℕ };

    /// Lays what is due to the crossing edges that begin in a row of points into their slots.
    fn fill_row<R: MeshRows>(
        &mut self,
        rows: &mut R,
        walk: Walk<'_>,
        block: &LineBuffer,
        y: u32,
        z: u32,
    )
        requires ranks { AreRowRanks (R.leveled rows.old) walk.ranks.now walk.total }
        requires numbers { AreFirst walk.numbers }
        requires y { y < (R.leveled rows.old).grid.ny }
        requires z { z < (R.leveled rows.old).grid.nz }
        ensures laid { let v = R.leveled rows.old in
            AreLaid (at self.new) (expected walk.entry.style walk.entry.numbers v) v y z }
        ensures before { (i : ℕ) → i < row_slot y z → at self.new i ≡ at self.old i }
        ensures behind { (i : ℕ) → row_slot y z + 3078 ≤ i → at self.new i ≡ at self.old i }
        ensures volume { R.leveled rows.new ≡ R.leveled rows.old }
        ensures kept { R.kept rows.new ≡ R.kept rows.old }
        ensures spent { R.spent rows.new ≡ R.spent rows.old };
}

/// The slots of the rows of points around a row of cells. Two of these rows stay when the next row of cells is the one behind,
/// which begins with the row of points numbered `next`.
#[derive(Drop)]
pub struct CellEdgeSlots<S: Slots> {
    pub slots: S,
    pub next: u32,
}

impl<S: Slots> CellEdgeSlots<S> {
    /// Slots of which nothing is known.
    pub fn of(slots: S) -> CellEdgeSlots<S>
        ensures slots { result.slots ≡ slots }
        ensures ready { (style : Style) → (numbers : Numbering) → (v : Leveled) → IsGrid v.grid
            → IsReady (S.at result.slots) (S.expected style numbers v) v result.next }
    {
        CellEdgeSlots {
            slots,
            next: u32::MAX,
        }
    }

    /// Lays the rows of points that a row of cells begins with in its two slices, unless they are laid.
    fn fill_near_rows<R: MeshRows>(
        &mut self,
        rows: &mut R,
        walk: Walk<'_>,
        block: &LineBuffer,
        y: u32,
        z: u32,
    )
        requires ready { let v = R.leveled rows.old in
            IsReady (S.at self.old.slots) (S.expected walk.style walk.numbers v) v self.old.next }
        requires ranks { AreRowRanks (R.leveled rows.old) walk.ranks.now walk.total }
        requires numbers { AreFirst walk.numbers }
        requires y { y + 1 < (R.leveled rows.old).grid.ny }
        requires z { z + 1 < (R.leveled rows.old).grid.nz }
        ensures near { let v = R.leveled rows.old in
            AreLaidInBoth (S.at self.new.slots) (S.expected walk.entry.style walk.entry.numbers v) v y z }
        ensures volume { R.leveled rows.new ≡ R.leveled rows.old }
        ensures kept { R.kept rows.new ≡ R.kept rows.old }
        ensures spent { R.spent rows.new ≡ R.spent rows.old }
    {
        let sizes = rows.sizes();
        if self.next != y + sizes.ny() * z {
            self.slots.fill_row(rows, walk, block, y, z);
            self.slots.fill_row(rows, walk, block, y, z + 1);
        }
    }

    /// Lays the rows of points around a row of cells.
    pub fn move_to<R: MeshRows>(
        &mut self,
        rows: &mut R,
        walk: Walk<'_>,
        block: &LineBuffer,
        y: u32,
        z: u32,
    )
        requires ready { let v = R.leveled rows.old in
            IsReady (S.at self.old.slots) (S.expected walk.style walk.numbers v) v self.old.next }
        requires ranks { AreRowRanks (R.leveled rows.old) walk.ranks.now walk.total }
        requires numbers { AreFirst walk.numbers }
        requires y { y + 1 < (R.leveled rows.old).grid.ny }
        requires z { z + 1 < (R.leveled rows.old).grid.nz }
        ensures around { let v = R.leveled rows.old in
            AreAround (S.at self.new.slots) (S.expected walk.entry.style walk.entry.numbers v) v y z }
        ensures ready { let v = R.leveled rows.old in
            IsReady (S.at self.new.slots) (S.expected walk.entry.style walk.entry.numbers v) v self.new.next }
        ensures volume { R.leveled rows.new ≡ R.leveled rows.old }
        ensures kept { R.kept rows.new ≡ R.kept rows.old }
        ensures spent { R.spent rows.new ≡ R.spent rows.old }
    {
        let sizes = rows.sizes();
        self.fill_near_rows(rows, walk, block, y, z);
        self.slots.fill_row(rows, walk, block, y + 1, z);
        self.slots.fill_row(rows, walk, block, y + 1, z + 1);
        self.next = y + sizes.ny() * z + 1;
    }
}
