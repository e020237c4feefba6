//! The tree of the minimum and the maximum sample of each brick.

ghost use Rattle.std.specs.Prelude.{◌≡◌, ℕ, ◌+◌, ◌*◌, ◌^◌, ◌<◌, ◌≤◌, IfOk, IfSome, length, slice_set};
ghost use Rattle.iso_defs.specs.Bricks.{brick_count, is_active};
ghost use Rattle.iso_base.specs.Points.{IsPoint};
ghost use Rattle.iso_base.specs.Volume.{field, IsVolume, Volume};
ghost use Rattle.span_tree.specs.Spans.{IsRightFor, no_span, span_at, span_of, straddles};
ghost use Rattle.brick_store.specs.Boxes.{AreOne};
ghost use Rattle.brick_store.specs.Next.{IsNext};
ghost use Rattle.span_tree.specs.Nodes.{IsTree, first_spans, node_at};

use crate::bricks;
use crate::nodes::{join_all, next_place, places_below, put};
use crate::one_value::{first_least, is_one};
use crate::span::Span;
use brick_store::{BrickId, BrickStore};
use iso_base::{Level, Memory, Sizes};
use std::alloc::{AllocError, Global};
use std::marker::Model;
use voxel_list::FillBox;

/// The least and the greatest sample of each brick of a store, by number. Contracts see a tree as the list of them:
/// it is right for a store where these are the store's.
#[derive(Drop)]
pub struct SpanTree {
    sizes: Sizes,
    height: u32,
    nodes: Vec<Span>,
}

impl Model for SpanTree {
    ghost use Rattle.span_tree.specs.Spans.{Tree};
    ghost use Rattle.span_tree.specs.Nodes.{IsTree, tree_of};

    ghost Value = { Tree };

    ghost view = { λ t. tree_of t.sizes t.height t.nodes.items };

    ghost invariant = { λ t. IsTree t.sizes t.height t.nodes.items };
}

/// The height of a tree with so many places at least.
fn height_of(count: u32) -> u32
    requires { count ≤ 2 ^ 22 }
    ensures room { count ≤ 2 ^ result }
    ensures low { result ≤ 22 }
{
    for height in 0..22 {
        if count as usize <= places_below(height) {
            return height;
        }
    }
    22
}

/// The nodes of a tree before they are joined: the span of each brick from the middle on, and that of no samples elsewhere.
fn leaves(alloc: Global, store: &BrickStore, half: usize) -> Result<Vec<Span>, AllocError>
    requires room { brick_count store.now.grid ≤ half }
    requires few { half ≤ 2 ^ 22 }
    ensures count { IfOk result (λ v. length v.items ≡ 2 * half) }
    ensures bricks { IfOk result (λ v. (k : ℕ) → k < brick_count store.now.grid → node_at v.items (half + k)
        ≡ span_of store.now k) }
    ensures rest { IfOk result (λ v. (k : ℕ) → brick_count store.now.grid ≤ k → k < half →
        node_at v.items (half + k) ≡ no_span) }
{
    let mut nodes = Vec::with_capacity(alloc, 2 * half)?;
    nodes.resize(half, Span::none())?;
    for brick in 0..store.brick_count() {
        nodes.push(bricks::span_of(store, BrickId(brick)))?;
    }
    nodes.resize(2 * half, Span::none())?;
    Ok(nodes)
}

impl SpanTree {
    /// The tree of a store, which is right for it.
    pub fn of(alloc: Global, store: &BrickStore) -> Result<SpanTree, Memory>
        ensures { IfOk result (λ t. IsRightFor t store.now) }
    {
        let sizes = store.sizes();
        let height = height_of(store.brick_count());
        let half = places_below(height);
        let mut nodes = leaves(alloc, store, half)?;
        join_all(&mut nodes, half);
        Ok(SpanTree {
            sizes,
            height,
            nodes,
        })
    }

    /// The least brick with this number or a greater one whose least sample is below the level and whose greatest is not.
    /// Where the tree is right for a volume, that is its next brick with a crossing edge. None: there is none from `from` on.
    pub fn next_active(&self, from: u32, level: Level) -> Option<BrickId>
        ensures value { IsNext (λ b. straddles level (span_at self.now.spans b)) from (length self.now.spans) result }
        ensures active { (v : Volume) → IsVolume v → IsRightFor self.now v →
            IsNext (is_active v.grid (field v.samples level)) from (brick_count v.grid) result }
    {
        let half = places_below(self.height);
        let leaf = next_place(&self.nodes, self.height, half + from as usize, level)?;
        Some(BrickId((leaf - half) as u32))
    }

    /// The value of all samples of a box where it is that of each brick that has one of them, by their spans, without a look at
    /// any sample. None says nothing of them.
    pub fn one_value(&self, area: &FillBox) -> Option<i64>
        requires { IsPoint self.now.grid area.now.high }
        ensures { (v : Volume) → IsVolume v → IsRightFor self.now v →
            IfSome result (λ value. AreOne v.grid area.now value v.samples) }
    {
        // Reading a corner brings in that the box's corners are in order.
        let _ = area.low();
        let half = places_below(self.height);
        let value = first_least(&self.sizes, &self.nodes, half, area);
        if !is_one(&self.sizes, &self.nodes, half, area, value) {
            return None;
        }
        Some(value)
    }

    /// Takes the least and the greatest sample of one brick from the store again. Those of the others stay.
    pub fn touch(&mut self, store: &BrickStore, brick: BrickId)
        requires grid { self.old.grid ≡ store.now.grid }
        requires brick { brick.0 < brick_count store.now.grid }
        ensures { self.new ≡ record self.old { spans = slice_set self.old.spans brick.0 (span_of store.now brick.0) } }
    {
        let leaf = places_below(self.height) + brick.0 as usize;
        put(&mut self.nodes, leaf, bricks::span_of(store, brick));
    }

    /// Takes the least and the greatest samples again after those of a box were replaced, by one value if one is given: a brick within
    /// the box has that value alone then, and its samples are not read.
    pub fn touch_in(
        &mut self,
        store: &BrickStore,
        brick: BrickId,
        area: &FillBox,
        value: Option<i64>,
    )
        requires grid { self.old.grid ≡ store.now.grid }
        requires brick { brick.0 < brick_count store.now.grid }
        requires filled { IfSome value (λ value. AreOne store.now.grid area.now value store.now.samples) }
        ensures { self.new ≡ record self.old { spans = slice_set self.old.spans brick.0 (span_of store.now brick.0) } }
    {
        let leaf = places_below(self.height) + brick.0 as usize;
        let span = bricks::span_in(store, brick, area, value);
        put(&mut self.nodes, leaf, span);
    }
}
