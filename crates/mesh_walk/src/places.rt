//! Where crossing edges are crossed, and where the centres of loops are by that, relative to their cells.
ghost use Rattle.std.specs.Prelude.{◌≡◌, ℕ, List, ◌+◌, ◌*◌, ◌%◌, ◌<◌, ◌≤◌, length, slice_index, take};
ghost use Rattle.case_faces.specs.Fans.{fan_of};
ghost use Rattle.mesh_rows.specs.Rows.{AreEdges, row_places};
ghost use Rattle.mesh_walk.specs.Places.{ArePlaced, IsCentre, axis_sum, due_to, in_slot, slot_place};
ghost use Rattle.mesh_walk.specs.Slots.{AreLaid, row_slot};

use crate::edges::set_places;
use crate::slots::{Slots, row_slot};
use crate::walk::Walk;
use edge_points::rounded_mean;
use flat_mesh::Heights;
use iso_base::ROW_EDGES;
use mesh_lines::LineBuffer;
use mesh_rows::MeshRows;
use std::simd::prelude::*;

/// The length of the list of places: two more than there are slots, so that eight can be read from each cell on.
const PLACE_SLOTS: usize = 12_314;

/// The places on the edges around a cell. Those of the four rows of points stand in slots, so far behind those of the first cell of its
/// row, with which the rows begin.
#[derive(Clone, Copy)]
pub struct CellPlaces<'a> {
    pub places: &'a [u16; PLACE_SLOTS],
    pub rows: [usize; 4],
    pub at: usize,
}

impl<'a> CellPlaces<'a> {
    /// The places on the edges that begin in a row of points, by their weights.
    #[inline(always)]
    fn weigh_row(self, fan: &[u16; 40], row: usize) -> u16x8
        requires row { row < 4 }
        requires room { slice_index self.rows row + self.at + 8 ≤ 12314 }
        ensures eight { length result ≡ 8 }
        ensures lanes { let places = slot_place self.entry.places.now self.entry.rows self.entry.at in
            (s : ℕ) → s < 8 → slice_index result s
            ≡ (places (8 * row + s) * slice_index fan.now (8 * row + s)) % 65536 }
    {
        let from = self.rows[row] + self.at;
        let places = self.places;
        let eight = u16x8::from_slice(&places[from..from + 8]);
        eight * u16x8::from_slice(&fan[8 * row..8 * row + 8])
    }

    /// The weighted places on the edges of all four rows, added up lane by lane.
    #[inline(always)]
    fn sum_rows(self, fan: &[u16; 40]) -> u16x8
        requires room { (row : ℕ) → row < 4 → slice_index self.rows row + self.at + 8 ≤ 12314 }
        ensures eight { length result ≡ 8 }
        ensures lanes { let places = slot_place self.entry.places.now self.entry.rows self.entry.at in
            let part = λ (i : ℕ). places i * slice_index fan.now i in
            (s : ℕ) → s < 8 → slice_index result s ≡ (part s + part (8 + s) + part (16 + s) + part (24 + s)) % 65536 }
    {
        let near = self.weigh_row(fan, 0) + self.weigh_row(fan, 1);
        let far = self.weigh_row(fan, 2) + self.weigh_row(fan, 3);
        near + far
    }

    /// The sums of the coordinates of the vertices of a loop, in the first three numbers. Eight numbers are summed up at once, as many
    /// as edges can begin at two points: so there is no branch whose way a processor would have to guess.
    #[inline(always)]
    fn sums(self, fan: &[u16; 40]) -> [u16; 8]
        requires room { (row : ℕ) → row < 4 → slice_index self.rows row + self.at + 8 ≤ 12314 }
        ensures { (axis : ℕ) → axis < 3 → slice_index result axis
            ≡ axis_sum (slot_place self.entry.places.now self.entry.rows self.entry.at) fan.now axis % 65536 }
    {
        let sums = self.sum_rows(fan);
        let begins = u16x8::from_slice(&fan[32..40]);
        (sums + sums.rotate_elements_left::<3>() + begins).to_array()
    }

    /// The centre of a loop, by its numbers.
    #[inline(always)]
    pub fn centre(self, fan: &[u16; 40]) -> [u32; 3]
        requires room { (row : ℕ) → row < 4 → slice_index self.rows row + self.at + 8 ≤ 12314 }
        requires some { 0 < slice_index fan.now 39 }
        requires few { slice_index fan.now 39 ≤ 12 }
        ensures { let at = slot_place self.entry.places.now self.entry.rows self.entry.at in
            (place : ℕ → ℕ) → (edges : List ℕ) → fan.now ≡ fan_of edges → ArePlaced place edges at
            → IsCentre place edges result }
    {
        let sums = self.sums(fan);
        let count = u32::from(fan[39]);
        [
            rounded_mean(u32::from(sums[0]), count),
            rounded_mean(u32::from(sums[1]), count),
            rounded_mean(u32::from(sums[2]), count),
        ]
    }
}

/// Lays the places of the crossing edges of a row of points into their slots.
fn fill_slots<H: Heights>(
    field: &H,
    y: u32,
    z: u32,
    edges: &[u16],
    row: &[u16],
    places: &mut [u16; PLACE_SLOTS],
)
    requires y { y < (H.leveled field.now).grid.ny }
    requires z { z < (H.leveled field.now).grid.nz }
    requires edges { AreEdges (H.leveled field.now) y z edges.now }
    requires row { row.now ≡ row_places (H.leveled field.now) y z }
    ensures laid { let v = H.leveled field.now in
        AreLaid (in_slot places.new) (due_to v) v y z }
    ensures before { (i : ℕ) → i < row_slot y z → in_slot places.new i ≡ in_slot places.old i }
    ensures behind { (i : ℕ) → row_slot y z + 3078 ≤ i → in_slot places.new i ≡ in_slot places.old i }
{
    let _ = field.sizes();
    let first = row_slot(y, z);
    for k in 0..edges.len() {
        places[first + edges[k] as usize] = row[k];
    }
}

/// The places of the crossing edges of the rows of points around a row of cells, in thousandths from the edges' lower
/// ends. The other fields are buffers for a row: its crossing edges by their offsets, and their places.
#[derive(Drop)]
pub struct EdgePlaces {
    pub places: [u16; PLACE_SLOTS],
    pub edges: [u16; ROW_EDGES],
    pub row: [u16; ROW_EDGES],
}

impl EdgePlaces {
    /// Slots in which nothing is laid.
    pub fn new() -> EdgePlaces {
        EdgePlaces {
            places: [0; PLACE_SLOTS],
            edges: [0; ROW_EDGES],
            row: [0; ROW_EDGES],
        }
    }

    /// Lists the crossing edges of a row of points and where they are crossed, and says how many there are.
    fn list<R: MeshRows>(&mut self, rows: &mut R, y: u32, z: u32) -> usize
        requires y { y < (R.leveled rows.old).grid.ny }
        requires z { z < (R.leveled rows.old).grid.nz }
        ensures few { result ≤ 3078 }
        ensures edges { AreEdges (R.leveled rows.old) y z (take result self.new.edges) }
        ensures row { take result self.new.row ≡ row_places (R.leveled rows.old) y z }
        ensures still { self.new.places ≡ self.old.places }
        ensures volume { R.leveled rows.new ≡ R.leveled rows.old }
        ensures kept { R.kept rows.new ≡ R.kept rows.old }
        ensures spent { R.spent rows.new ≡ R.spent rows.old }
    {
        let _ = rows.sizes();
        let count = rows.list_edges(y, z, &mut self.edges);
        set_places(rows, y, z, &self.edges[..count], &mut self.row);
        count
    }
}

impl Slots for EdgePlaces {
    ghost at = { λ p. in_slot p.places };

    ghost expected = { λ _ _. due_to };

    fn fill_row<R: MeshRows>(
        &mut self,
        rows: &mut R,
        walk: Walk<'_>,
        block: &LineBuffer,
        y: u32,
        z: u32,
    ) {
        let _ = block;
        if !walk.has_edges(rows, y, z) {
            return;
        }
        let count = self.list(rows, y, z);
        fill_slots(
            rows,
            y,
            z,
            &self.edges[..count],
            &self.row[..count],
            &mut self.places,
        );
    }
}
