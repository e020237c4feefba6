//! The labels of the lattice edges around the row of cells at hand.

ghost use Rattle.std.specs.Prelude.{◌≡◌, ◌≢◌, ◌⊎◌, IsTrue, ℕ, ◌+◌, ◌*◌, ◌%◌, ◌<◌, ◌≤◌, All, IfOk, length, slice_index, slice_set};
ghost use Rattle.std.specs.Int.{bit_at};
ghost use Rattle.iso_defs.specs.Cell.{cell_edge};
ghost use Rattle.component_labels.specs.Fronts.{none, room, row_name, slot_of};
ghost use Rattle.component_labels.specs.Labelling.{Stands, stand_of};

use iso_base::{Memory, Sizes};
use std::alloc::Global;
use std::marker::Model;
use std::simd::prelude::*;

/// The label of an edge that no loop has met yet.
pub const NO_LABEL: u32 = u32::MAX;

/// A label for each lattice edge that begins in two slices across z: edges with the same remainder share a place. The edges of the cells of a
/// row, and those that stay of the rows before it, lie within two slices.
#[derive(Drop)]
pub struct Front {
    sizes: Sizes,
    labels: Vec<u32>,
}

impl Model for Front {
    ghost use Rattle.std.specs.Prelude.{◌≡◌, length};
    ghost use Rattle.component_labels.specs.Fronts.{Marks, room};

    ghost Value = { Marks };

    ghost view = { λ f. record { grid = f.sizes; labels = f.labels.items } };

    ghost invariant = { λ f. length f.labels.items ≡ room f.sizes };
}

/// Which of the eight labels from a place on stand for one: each has a bit, the first the lowest.
#[inline(always)]
fn some_of(labels: &[u32], from: usize) -> u64
    requires { from + 8 ≤ length labels.now }
    ensures bits { (k : ℕ) → k < 8 → bit_at result k ≡ 0 → slice_index labels.now (from + k) ≡ none }
    ensures bound { result < 256 }
{
    let eight = u32x8::from_slice(&labels[from..]);
    eight.simd_ne(u32x8::splat(NO_LABEL)).to_bitmask()
}

/// Whether none of the eight labels from a place on stands for one. This saves work and no result rests on it: the contract leaves `false`
/// free.
#[inline(always)]
fn are_none(labels: &[u32], from: usize) -> bool
    requires { from + 8 ≤ length labels.now }
    ensures { IsTrue result → (k : ℕ) → k < 8 → slice_index labels.now (from + k) ≡ none }
{
    u32x8::from_slice(&labels[from..])
        .simd_eq(u32x8::splat(NO_LABEL))
        .all()
}

impl Front {
    /// Whether none of the 24 edges from a place on has a label. The contract leaves `false` free.
    #[inline(always)]
    pub fn are_unlabelled(&self, place: u32) -> bool
        requires { place + 24 ≤ room self.now.grid }
        ensures { IsTrue result → (k : ℕ) → k < 24 → slice_index self.now.labels (place + k) ≡ none }
    {
        let from = place as usize;
        are_none(&self.labels, from)
            & are_none(&self.labels, from + 8)
            & are_none(&self.labels, from + 16)
    }

    /// No edge has a label.
    pub fn new(alloc: Global, sizes: Sizes) -> Result<Front, Memory>
        ensures grid { IfOk result (λ f. f.grid ≡ sizes) }
        ensures none { IfOk result (λ f. (k : ℕ) → k < room sizes → slice_index f.labels k ≡ none) }
    {
        let count = 6 * (sizes.nx() as usize * sizes.ny() as usize);
        let labels = vec![in alloc; NO_LABEL; count]?;
        Ok(Front { sizes, labels })
    }

    /// The sizes of the grid.
    pub fn sizes(&self) -> Sizes
        ensures value { result ≡ self.now.grid }
        ensures room { length self.now.labels ≡ room self.now.grid }
    {
        self.sizes
    }

    /// Where the labels of the edges stand that begin in a row of points.
    pub fn row_place(&self, row: u32) -> u32
        ensures value { result ≡ row_name self.now.grid row % room self.now.grid }
        ensures bound { result + 3 * self.now.grid.nx ≤ room self.now.grid }
    {
        3 * self.sizes.nx() * (row % (2 * self.sizes.ny()))
    }

    /// Where the labels of the edges of the first cell of a row stand. Those of the other cells of the row are three behind, for each cell.
    pub fn places(&self, row: u32) -> [u32; 12]
        requires { row < 1026 * 1026 }
        ensures { (e x : ℕ) → e < 12 → x + 1 < self.now.grid.nx →
            slice_index result e + 3 * x ≡ cell_edge self.now.grid (self.now.grid.nx * row + x) e % room self.now.grid }
    {
        let ny = self.sizes.ny();
        let near = self.row_place(row);
        let up = self.row_place(row + 1);
        let far = self.row_place(row + ny);
        let both = self.row_place(row + ny + 1);
        [
            near,
            up,
            far,
            both,
            near + 1,
            near + 4,
            far + 1,
            far + 4,
            near + 2,
            near + 5,
            up + 2,
            up + 5,
        ]
    }

    /// The label at a place.
    #[inline(always)]
    pub fn label(&self, place: u32) -> u32
        requires { place < room self.now.grid }
        ensures { result ≡ slice_index self.now.labels place }
    {
        self.labels[place as usize]
    }

    /// Gives the edge at a place a label.
    #[inline(always)]
    pub fn set(&mut self, place: u32, label: u32)
        requires { place < room self.old.grid }
        ensures { self.new ≡ record self.old { labels = slice_set self.old.labels place label } }
    {
        self.labels[place as usize] = label;
    }

    /// Which of the eight edges from a place on have labels: each has a bit, the first the lowest.
    #[inline(always)]
    pub fn eight_with_labels(&self, place: u32) -> u64
        requires { place + 8 ≤ room self.now.grid }
        ensures bits { (k : ℕ) → k < 8 → bit_at result k ≡ 0 → slice_index self.now.labels (place + k) ≡ none }
        ensures bound { result < 256 }
    {
        some_of(&self.labels, place as usize)
    }
}

/// The smallest label of the edges of a loop, which have their labels at some places, and one more than the greatest one. Edges that have none do not
/// count; where no edge has one, the two are `NO_LABEL` and zero. No edge takes a branch, which could not be foreseen: `NO_LABEL` is the greatest number, and
/// one more wraps to zero.
#[inline(always)]
pub(crate) fn label_range(front: &Front, places: &[u32; 12], shift: u32, edges: &[u8]) -> (u32, u32)
    requires edges { All (λ e. e < 12) edges.now }
    requires inside { (e : ℕ) → e < 12 → slice_index places.now e + shift < room front.now.grid }
    ensures low { (i : ℕ) → i < length edges.now → result.0 ≤ stand_of front.now places.now shift edges.now i }
    ensures empty { result.0 ≡ none → (i : ℕ) → i < length edges.now →
        stand_of front.now places.now shift edges.now i ≡ none }
    ensures own { result.0 ≢ none → Stands (stand_of front.now places.now shift edges.now) (length edges.now) result.0 }
    ensures end { (i : ℕ) → i < length edges.now → stand_of front.now places.now shift edges.now i ≢ none →
        stand_of front.now places.now shift edges.now i < result.1 }
{
    let labels: &[u32] = &front.labels[shift as usize..];
    let mut low = NO_LABEL;
    let mut end = 0u32;
    for edge in edges {
        let label = labels[places[*edge as usize] as usize];
        low = low.min(label);
        end = end.max(label.wrapping_add(1));
    }
    (low, end)
}

/// Gives the labels at the places of the edges of a loop a value.
#[inline(always)]
fn set_each(labels: &mut [u32], places: &[u32; 12], edges: &[u8], label: u32)
    requires edges { All (λ e. e < 12) edges.now }
    requires inside { (e : ℕ) → e < 12 → slice_index places.now e < length labels.old }
    ensures size { length labels.new ≡ length labels.old }
    ensures set { (i : ℕ) → i < length edges.now →
        slice_index labels.new (slice_index places.now (slice_index edges.now i)) ≡ label }
    ensures others { (k : ℕ) → ((i : ℕ) → i < length edges.now → slice_index places.now (slice_index edges.now i)
        ≢ k) → slice_index labels.new k ≡ slice_index labels.old k }
    ensures either { (k : ℕ) → (slice_index labels.new k ≡ label)
        ⊎ (slice_index labels.new k ≡ slice_index labels.old k) }
{
    for edge in edges {
        labels[places[*edge as usize] as usize] = label;
    }
}

/// Gives the edges of a loop a label, which have their labels at some places.
#[inline(always)]
pub(crate) fn set_all(front: &mut Front, places: &[u32; 12], shift: u32, edges: &[u8], label: u32)
    requires edges { All (λ e. e < 12) edges.now }
    requires inside { (e : ℕ) → e < 12 → slice_index places.now e + shift < room front.old.grid }
    requires fits { (e : ℕ) → e < 12 → slice_index places.now e + shift < 4294967296 }
    ensures grid { front.new.grid ≡ front.old.grid }
    ensures size { length front.new.labels ≡ room front.new.grid }
    ensures set { (i : ℕ) → i < length edges.now →
        slice_index front.new.labels (slot_of places.now shift edges.now i) ≡ label }
    ensures others { (k : ℕ) → ((i : ℕ) → i < length edges.now → slot_of places.now shift edges.now i ≢ k) →
        slice_index front.new.labels k ≡ slice_index front.old.labels k }
    ensures either { (k : ℕ) → (slice_index front.new.labels k ≡ label)
        ⊎ (slice_index front.new.labels k ≡ slice_index front.old.labels k) }
{
    // Reading the sizes brings in that there is a label for each place.
    let _ = front.sizes();
    set_each(&mut front.labels[shift as usize..], places, edges, label);
}
