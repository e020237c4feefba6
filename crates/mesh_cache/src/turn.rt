//! A turn of refreshing: the bricks that wait at a level are offered to the cache.
//!
//! Why: DECISIONS.md, "A crate depends on what it reads".
ghost use Rattle.std.specs.Prelude.{◌≡◌, ◌+◌, ◌*◌, ◌^◌, ◌<◌, ◌≤◌, ℤ, List, length, min, take, IfSome};
ghost use Rattle.iso_defs.specs.Bricks.{brick_count, is_active, entries as entries_of_brick};
ghost use Rattle.iso_defs.specs.Grid.{Grid};
ghost use Rattle.iso_base.specs.Volume.{field};
ghost use Rattle.brick_store.specs.Next.{IsNext};
ghost use Rattle.mesh_cache.specs.Economy.{Refresh, waiting};

use crate::MeshCache;
use arrayvec::ArrayVec;
use brick_store::BrickId;
use iso_base::{Level, Steps};
use std::sync::ledger::Ledger;

/// The bricks of a volume as a refresh asks for them: which are active at a level, and what their entries are.
pub trait Bricks {
    ghost grid: { Self → Grid };

    ghost samples: { Self → List ℤ };

    /// The least active brick numbered `from` or more.
    fn next_active(&self, from: u32, level: Level) -> Option<BrickId>
        ensures next { IsNext (is_active (grid self.now) (field (samples self.now) level)) from
            (brick_count (grid self.now)) result }
        ensures few { IfSome result (λ brick. brick.0 < 2 ^ 22) };

    /// Replaces the entries by those of a brick, by ascending cell. The counter is raised by at most 512.
    fn extract<L: Ledger>(
        &self,
        brick: BrickId,
        level: Level,
        entries: &mut ArrayVec<u32, 512>,
        steps: &mut Steps<L>,
    )
        requires { brick.0 < brick_count (grid self.now) }
        ensures entries { entries.new.items ≡ entries_of_brick (grid self.now) (field (samples self.now) level)
            brick.0 }
        ensures least { steps.old ≤ steps.new }
        ensures bound { steps.new ≤ steps.old + 512 };
}

/// Offers the entries of the first `n` bricks that wait at a level, ascending: the active ones of which nothing is kept there.
/// The counter is raised by at most 512 for each. What the cache refuses is left out.
pub fn refresh<B: Bricks, L: Ledger>(
    cache: &mut MeshCache,
    bricks: &B,
    level: Level,
    n: u32,
    steps: &mut Steps<L>,
)
    ensures refresh { Refresh (B.grid bricks.now) (B.samples bricks.now) level cache.old
        (take n (waiting (B.grid bricks.now) (B.samples bricks.now) level cache.old.items)) cache.new }
    ensures least { steps.old ≤ steps.new }
    ensures bound { steps.new ≤ steps.old
        + 512 * min n (length (waiting (B.grid bricks.now) (B.samples bricks.now) level cache.old.items)) }
{
    let mut entries = ArrayVec::new();
    let mut from = 0;
    let mut left = n;
    while left > 0 {
        let Some(brick) = bricks.next_active(from, level) else {
            return;
        };
        if cache.kept(brick, level).is_none() {
            bricks.extract(brick, level, &mut entries, steps);
            // Whatever becomes of the offer, the walk goes on.
            let _ = cache.offer(brick, level, entries.as_slice());
            left -= 1;
        }
        from = brick.0 + 1;
    }
}
