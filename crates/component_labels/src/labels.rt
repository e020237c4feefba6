//! Labels of loops, and which of them meet.

ghost use Rattle.std.specs.Prelude.{◌≡◌, ◌≢◌, IsTrue, ℕ, ◌+◌, ◌*◌, ◌%◌, ◌<◌, ◌≤◌, All, IfOk, OnOk, [], length, slice_index, slice_set};
ghost use Rattle.std.specs.Int.{bit_at};
ghost use Rattle.iso_defs.specs.Cell.{cell_edge};
ghost use Rattle.part_laws.specs.Meets.{least_joined};
ghost use Rattle.component_labels.specs.Chains.{ArePaired};
ghost use Rattle.component_labels.specs.Fronts.{none, room, row_name, slot_of};
ghost use Rattle.component_labels.specs.Labelling.{Adds, AreMet, IsAdded, IsLabelFor, IsOneOf, Known, Stands, stand_of};

use crate::front::{Front, NO_LABEL, label_range, set_all};
use iso_base::{Memory, Sizes};
use std::alloc::Global;
use std::marker::Model;

/// The most pairs or labels that are made, since the place of each is a number of 32 bits. That many take 30 gigabytes.
const MOST_LABELS: usize = 4_294_967_292;

/// Labels of loops, and the pairs of them that met, each in both orders. For each label the lesser one is kept that it was noted with last, so
/// that a pair is not noted again and again where two labels run side by side.
#[derive(Drop)]
pub struct Labels {
    front: Front,
    met: Vec<u32>,
    pairs: Vec<(u32, u32)>,
}

impl Model for Labels {
    ghost use Rattle.std.specs.Prelude.{length};
    ghost use Rattle.component_labels.specs.Chains.{ArePaired};
    ghost use Rattle.component_labels.specs.Fronts.{none, room, row_name, slot_of};
    ghost use Rattle.component_labels.specs.Labelling.{AreKnown, AreMet, Known};

    ghost Value = { Known };

    ghost view = { λ l. record { marks = l.front; count = length l.met.items; pairs = l.pairs.items } };

    ghost invariant = { λ l. AreMet l.pairs.items l.met.items × AreKnown l.front (length l.met.items) };
}

/// Notes a pair of labels that meet, the lesser first, unless the greater one was noted with the lesser one last.
fn note(met: &mut Vec<u32>, pairs: &mut Vec<(u32, u32)>, low: u32, high: u32) -> Result<(), Memory>
    requires known { AreMet pairs.old.items met.old.items }
    requires low { low < length met.old.items }
    requires high { high < length met.old.items }
    ensures known { AreMet pairs.new.items met.new.items }
    ensures count { length met.new.items ≡ length met.old.items }
    ensures pairs { OnOk result (Adds (IsOneOf low high) pairs.old.items pairs.new.items) }
    ensures joined { OnOk result (least_joined pairs.new.items low ≡ least_joined pairs.new.items high) }
{
    if met[high as usize] == low {
        return Ok(());
    }
    if pairs.len() > MOST_LABELS {
        return Err(Memory);
    }
    pairs.extend_from_slice(&[(low, high), (high, low)])?;
    met[high as usize] = low;
    Ok(())
}

impl Labels {
    /// No loop has a label.
    pub fn new(alloc: Global, sizes: Sizes) -> Result<Labels, Memory>
        ensures grid { IfOk result (λ l. l.marks.grid ≡ sizes) }
        ensures none { IfOk result (λ l. (k : ℕ) → k < room sizes → slice_index l.marks.labels k ≡ none) }
        ensures count { IfOk result (λ l. l.count ≡ 0) }
        ensures pairs { IfOk result (λ l. l.pairs ≡ []) }
    {
        let front = Front::new(alloc, sizes)?;
        Ok(Labels {
            front,
            met: Vec::new(alloc),
            pairs: Vec::new(alloc),
        })
    }

    /// The sizes of the grid.
    pub fn sizes(&self) -> Sizes
        ensures { result ≡ self.now.marks.grid }
    {
        self.front.sizes()
    }

    /// How many labels there are.
    pub fn count(&self) -> u32
        ensures value { result ≡ self.now.count }
        ensures few { result < none }
    {
        self.met.len() as u32
    }

    /// The pairs of labels that met, each in both orders.
    pub fn pairs(&self) -> &[(u32, u32)]
        ensures value { result.now ≡ self.now.pairs }
        ensures few { length result.now < 4294967296 }
        ensures paired { ArePaired self.now.count result.now }
    {
        &self.pairs
    }

    /// How many labels there are, and the pairs of them that met, each in both orders. All else is given up.
    pub fn into_pairs(self) -> (u32, Vec<(u32, u32)>)
        ensures count { result.0 ≡ self.count }
        ensures few { result.0 < none }
        ensures pairs { result.1.items ≡ self.pairs }
        ensures few_pairs { length result.1.items < 4294967296 }
        ensures paired { ArePaired self.count result.1.items }
    {
        (self.met.len() as u32, self.pairs)
    }

    /// A new label.
    // Apart, as few loops have no label.
    #[inline(never)]
    fn start(&mut self) -> Result<u32, Memory>
        ensures marks { OnOk result (self.new.marks ≡ self.old.marks) }
        ensures count { OnOk result (self.new.count ≡ self.old.count + 1) }
        ensures pairs { OnOk result (self.new.pairs ≡ self.old.pairs) }
        ensures value { IfOk result (λ label. label ≡ self.old.count) }
    {
        if self.met.len() > MOST_LABELS {
            return Err(Memory);
        }
        let label = self.met.len() as u32;
        self.met.push(label)?;
        Ok(label)
    }

    /// Notes that a label meets a lesser one.
    #[inline(always)]
    fn meet(&mut self, low: u32, high: u32) -> Result<(), Memory>
        requires low { low < self.old.count }
        requires high { high < self.old.count }
        ensures marks { OnOk result (self.new.marks ≡ self.old.marks) }
        ensures count { OnOk result (self.new.count ≡ self.old.count) }
        ensures pairs { OnOk result (Adds (IsOneOf low high) self.old.pairs self.new.pairs) }
        ensures joined { OnOk result (least_joined self.new.pairs low ≡ least_joined self.new.pairs high) }
    {
        note(&mut self.met, &mut self.pairs, low, high)
    }

    /// The label at a place.
    #[inline(always)]
    fn label_at(&self, place: u32) -> u32
        requires { place < room self.now.marks.grid }
        ensures value { result ≡ slice_index self.now.marks.labels place }
        ensures low { result ≢ none → result < self.now.count }
    {
        self.front.label(place)
    }

    /// Notes that the labels of the edges of a loop meet the smallest of them. One more than `NO_LABEL` wraps to zero, so that one comparison tells an
    /// edge that has another label from those that have this one or none.
    // Apart, as few loops have several labels.
    #[inline(never)]
    fn join(&mut self, places: &[u32; 12], shift: u32, edges: &[u8], low: u32) -> Result<(), Memory>
        requires edges { All (λ e. e < 12) edges.now }
        requires inside { (e : ℕ) → e < 12 → slice_index places.now e + shift < room self.old.marks.grid }
        requires fits { (e : ℕ) → e < 12 → slice_index places.now e + shift < 4294967296 }
        requires low { low < self.old.count }
        requires smallest { (i : ℕ) → i < length edges.now → low
            ≤ stand_of self.old.marks places.now shift edges.now i }
        requires own { Stands (stand_of self.old.marks places.now shift edges.now) (length edges.now) low }
        ensures { OnOk result (IsLabelFor self.old self.new (stand_of self.old.marks places.now shift edges.now)
            (length edges.now) low) }
    {
        // Reading the number brings in that there are fewer labels than the number that stands for none.
        let _ = self.count();
        for edge in edges {
            let label = self.label_at(places[*edge as usize] + shift);
            if label.wrapping_add(1) > low + 1 {
                self.meet(low, label)?;
            }
        }
        Ok(())
    }

    /// The label that a loop gets whose edges have their labels at some places: one that they have, else a new one.
    #[inline(always)]
    fn label_of(&mut self, places: &[u32; 12], shift: u32, edges: &[u8]) -> Result<u32, Memory>
        requires edges { All (λ e. e < 12) edges.now }
        requires inside { (e : ℕ) → e < 12 → slice_index places.now e + shift < room self.old.marks.grid }
        requires fits { (e : ℕ) → e < 12 → slice_index places.now e + shift < 4294967296 }
        ensures { IfOk result (λ label. IsLabelFor self.old self.new
            (stand_of self.old.marks places.now shift edges.now) (length edges.now) label) }
    {
        let (low, end) = label_range(&self.front, places, shift, edges);
        if low == NO_LABEL {
            let new = self.start()?;
            return Ok(new);
        }
        if end > low + 1 {
            self.join(places, shift, edges, low)?;
        }
        Ok(low)
    }

    /// Gives a loop a label whose edges have their labels at some places: the loop's edges have it from then on.
    #[inline(always)]
    pub fn add_loop(&mut self, places: &[u32; 12], shift: u32, edges: &[u8]) -> Result<u32, Memory>
        requires edges { All (λ e. e < 12) edges.now }
        requires inside { (e : ℕ) → e < 12 → slice_index places.now e + shift < room self.old.marks.grid }
        requires fits { (e : ℕ) → e < 12 → slice_index places.now e + shift < 4294967296 }
        ensures { IfOk result (λ label. IsAdded self.old self.new (slot_of places.now shift edges.now)
            (length edges.now) label) }
    {
        let label = self.label_of(places, shift, edges)?;
        set_all(&mut self.front, places, shift, edges, label);
        Ok(label)
    }

    /// Where the labels of the edges of the first cell of a row stand.
    pub fn places(&self, row: u32) -> [u32; 12]
        requires { row < 1026 * 1026 }
        ensures { (e x : ℕ) → e < 12 → x + 1 < self.now.marks.grid.nx →
            slice_index result e + 3 * x ≡ cell_edge self.now.marks.grid (self.now.marks.grid.nx * row + x) e % room
            self.now.marks.grid }
    {
        self.front.places(row)
    }

    /// Where the labels of the edges stand that begin in a row of points.
    pub fn row_place(&self, row: u32) -> u32
        ensures value { result ≡ row_name self.now.marks.grid row % room self.now.marks.grid }
        ensures bound { result + 3 * self.now.marks.grid.nx ≤ room self.now.marks.grid }
    {
        self.front.row_place(row)
    }

    /// Whether none of the 24 edges from a place on has a label. The contract leaves `false` free.
    #[inline(always)]
    pub fn are_unlabelled(&self, place: u32) -> bool
        requires { place + 24 ≤ room self.now.marks.grid }
        ensures { IsTrue result → (k : ℕ) → k < 24 → slice_index self.now.marks.labels (place + k) ≡ none }
    {
        self.front.are_unlabelled(place)
    }

    /// Which of the eight edges from a place on have labels: each has a bit, the first the lowest.
    #[inline(always)]
    pub fn eight_with_labels(&self, place: u32) -> u64
        requires { place + 8 ≤ room self.now.marks.grid }
        ensures bits { (k : ℕ) → k < 8 → bit_at result k ≡ 0 → slice_index self.now.marks.labels (place + k) ≡ none }
        ensures bound { result < 256 }
    {
        self.front.eight_with_labels(place)
    }

    /// The label at a place, which is given up.
    #[inline(always)]
    pub fn leave(&mut self, place: u32) -> u32
        requires { place < room self.old.marks.grid }
        ensures label { result ≡ slice_index self.old.marks.labels place }
        ensures low { result ≢ none → result < self.old.count }
        ensures grid { self.new.marks.grid ≡ self.old.marks.grid }
        ensures labels { self.new.marks.labels ≡ slice_set self.old.marks.labels place none }
        ensures gone { slice_index self.new.marks.labels place ≡ none }
        ensures count { self.new.count ≡ self.old.count }
        ensures pairs { self.new.pairs ≡ self.old.pairs }
    {
        let label = self.front.label(place);
        self.front.set(place, NO_LABEL);
        label
    }
}
