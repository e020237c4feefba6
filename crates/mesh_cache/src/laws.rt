//! Laws of kept entries, over the definitions alone. Each call says its law and does nothing else.
ghost use Rattle.std.specs.Prelude.{◌≡◌, ◌++◌, ◌<◌, ◌≤◌, ◌^◌, ◌-◌, ℕ, ℤ, List, Some, All, true};
ghost use Rattle.iso_defs.specs.Grid.{Grid};
ghost use Rattle.iso_defs.specs.Bricks.{brick_count, brick_point, entries, in_brick};
ghost use Rattle.iso_base.specs.Volume.{field};
ghost use Rattle.mesh_cache.specs.Cache.{Item, Cache, kept_at};
ghost use Rattle.mesh_cache.specs.Economy.{SameSamples, IsRight, Refresh, waiting};

/// Where items are right, what is kept of a brick at a level are its entries at that level.
pub fn kept_is_right()
    ensures { (g : Grid) (samples : List ℤ) (items : List Item) (brick : ℕ) (level : ℤ) (kept : List ℕ)
        → IsRight g samples items → kept_at brick level items ≡ Some kept
        → kept ≡ entries g (field samples level) brick }
{}

/// The entries of a brick come from the values at its own points alone.
pub fn entries_by_points()
    ensures { (g : Grid) (s t : ℕ → ℤ) (brick : ℕ)
        → ((x y z : ℕ) → x < 9 → y < 9 → z < 9 → in_brick g brick x y z ≡ true
        → s (brick_point g brick x y z) ≡ t (brick_point g brick x y z))
        → entries g s brick ≡ entries g t brick }
{}

/// Items stay right through a change of samples off the points of their bricks.
pub fn items_stay_right()
    ensures { (g : Grid) (before now : List ℤ) (items : List Item)
        → IsRight g before items → All (λ item. SameSamples g before now item.brick) items
        → IsRight g now items }
{}

/// What is kept at the level is not lost: it is kept afterwards, with the same entries.
pub fn refresh_loses_nothing()
    ensures { (g : Grid) (samples : List ℤ) (level : ℤ) (before after : Cache) (bricks : List ℕ)
        → Refresh g samples level before bricks after
        → (brick : ℕ) (kept : List ℕ) → kept_at brick level before.items ≡ Some kept
        → kept_at brick level after.items ≡ Some kept }
{}

/// A cache whose items are right has right items afterwards.
pub fn refresh_stays_right()
    ensures { (g : Grid) (samples : List ℤ) (level : ℤ) (before after : Cache) (bricks : List ℕ)
        → Refresh g samples level before bricks after → IsRight g samples before.items
        → IsRight g samples after.items }
{}

/// Bricks that are kept stay below a number that those offered are below, as those that wait are below their count.
pub fn refresh_stays_below()
    ensures kept { (g : Grid) (samples : List ℤ) (level : ℤ) (n : ℕ) (before after : Cache) (bricks : List ℕ)
        → Refresh g samples level before bricks after
        → All (λ brick. brick < n) bricks → All (λ item. item.brick < n) before.items
        → All (λ item. item.brick < n) after.items }
    ensures waiting { (g : Grid) (samples : List ℤ) (level : ℤ) (items : List Item)
        → All (λ brick. brick < brick_count g) (waiting g samples level items) }
{}

/// Two refreshes, one after the other, are one.
pub fn refreshes_join()
    ensures { (g : Grid) (samples : List ℤ) (level : ℤ) (before between after : Cache) (bricks others : List ℕ)
        → Refresh g samples level before bricks between → Refresh g samples level between others after
        → Refresh g samples level before (bricks ++ others) after }
{}

/// The limits stay, and the number of times that memory was wanting does not fall.
pub fn refresh_keeps_limits()
    ensures limits { (g : Grid) (samples : List ℤ) (level : ℤ) (before after : Cache) (bricks : List ℕ)
        → Refresh g samples level before bricks after → after.limits ≡ before.limits }
    ensures missed { (g : Grid) (samples : List ℤ) (level : ℤ) (before after : Cache) (bricks : List ℕ)
        → Refresh g samples level before bricks after → before.missed ≤ 2 ^ 64 - 1
        → before.missed ≤ after.missed }
{}
