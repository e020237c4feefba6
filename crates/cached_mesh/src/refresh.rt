//! A refresh of what is kept of the mesh of a volume in bricks.

ghost use Rattle.std.specs.Prelude.{◌≡◌, ◌+◌, ◌*◌, ◌≤◌, length, min, take};
ghost use Rattle.mesh_cache.specs.Economy.{Refresh, waiting};
ghost use Rattle.span_tree.specs.Spans.{IsRightFor};

use arrayvec::ArrayVec;
use brick_mesh::extract_brick;
use brick_store::{BrickId, BrickStore};
use iso_base::{Level, Steps};
use mesh_cache::{Bricks, MeshCache, refresh};
use span_tree::SpanTree;
use std::marker::Model;
use std::sync::ledger::Ledger;

/// A volume in bricks with the tree of their spans. Contracts see it as the volume.
#[derive(Drop)]
struct Spanned<'a> {
    store: &'a BrickStore,
    tree: &'a SpanTree,
}

impl<'a> Model for Spanned<'a> {
    ghost use Rattle.iso_base.specs.Volume.{Volume};
    ghost use Rattle.span_tree.specs.Spans.{IsRightFor};

    ghost Value = { Volume };

    ghost view = { λ s. s.store.now };

    ghost invariant = { λ s. IsRightFor s.tree.now s.store.now };
}

impl<'a> Spanned<'a> {
    /// A store with a tree that is right for it.
    fn new(store: &'a BrickStore, tree: &'a SpanTree) -> Spanned<'a>
        requires { IsRightFor tree.now store.now }
        ensures { result ≡ store.now }
    {
        Spanned { store, tree }
    }
}

impl<'a> Bricks for Spanned<'a> {
    ghost grid = { λ s. s.grid };

    ghost samples = { λ s. s.samples };

    fn next_active(&self, from: u32, level: Level) -> Option<BrickId> {
        // Reading the sizes brings in what is true of every volume.
        let _ = self.store.sizes();
        // Reading the number of bricks brings in that it fits its type.
        let _ = self.store.brick_count();
        self.tree.next_active(from, level)
    }

    fn extract<L: Ledger>(
        &self,
        brick: BrickId,
        level: Level,
        entries: &mut ArrayVec<u32, 512>,
        steps: &mut Steps<L>,
    ) {
        extract_brick(self.store, brick, level, entries, steps);
    }
}

/// Offers the cache what is to be kept of the first `n` bricks that wait at a level, ascending. The counter is raised by at most
/// 512 for each.
pub fn refresh_bricks<L: Ledger>(
    cache: &mut MeshCache,
    store: &BrickStore,
    tree: &SpanTree,
    level: Level,
    n: u32,
    steps: &mut Steps<L>,
)
    requires { IsRightFor tree.now store.now }
    ensures refresh { Refresh store.now.grid store.now.samples level cache.old
        (take n (waiting store.now.grid store.now.samples level cache.old.items)) cache.new }
    ensures least { steps.old ≤ steps.new }
    ensures bound { steps.new ≤ steps.old + 512 * min n
        (length (waiting store.now.grid store.now.samples level cache.old.items)) }
{
    let bricks = Spanned::new(store, tree);
    refresh(cache, &bricks, level, n, steps);
}
