//! The numbers and the measures of the mesh of a volume in bricks.

ghost use Rattle.std.specs.Prelude.{◌≡◌, ◌<◌, All, IfOk, length};
ghost use Rattle.iso_defs.specs.Scratch.{triangles, vertices};
ghost use Rattle.iso_base.specs.Volume.{field};
ghost use Rattle.fan_laws.specs.Padded.{HasPadBelow};
ghost use Rattle.measure.specs.Measures.{HasNoArea};
ghost use Rattle.mesh_cache.specs.Economy.{IsRight};
ghost use Rattle.part_laws.specs.Printed.{HasNoBorder, HasOneVolumeIn, measures_at};
ghost use Rattle.mesh_report.specs.Report.{summary_of};
ghost use Rattle.span_tree.specs.Spans.{IsRightFor};

use brick_store::BrickStore;
use cached_mesh::{CachedRows, Held, no_signs, no_slices};
use component_walk::{part_measures, part_numbers};
use iso_base::{Level, Memory, Steps};
use measure::Measures;
use mesh_cache::MeshCache;
use mesh_report::Report;
use part_laws::parts_without_border;
use span_tree::SpanTree;
use std::alloc::Global;
use std::marker::Brand;
use std::sync::ledger::{Blank, Ledger};

// Apart, so that the slices are not on the stack of commands that walk over no rows.
#[inline(never)]
fn counted_numbers<L: Ledger>(
    blank: Blank,
    alloc: Global,
    store: &BrickStore,
    tree: &SpanTree,
    cache: &MeshCache,
    level: Level,
) -> Result<Report, Memory>
    requires name { blank.name ≡ L.name }
    requires parts { blank.parts ≡ L.parts }
    requires some { 0 < blank.parts }
    requires tree { IsRightFor tree.now store.now }
    requires items { IsRight store.now.grid store.now.samples cache.now.items }
    ensures { IfOk result (λ r. r ≡ summary_of
        (length (vertices store.now.grid (field store.now.samples level)))
        (triangles store.now.grid (field store.now.samples level))) }
{
    let (book, share) = blank.open::<L>();
    let mut slices = no_slices();
    let mut signed = no_signs();
    let held = Held::new(&mut slices, &mut signed);
    let mut rows = CachedRows::new(store, cache, level, held);
    let mut steps = Steps::new(book, share);
    part_numbers(alloc, store, tree, level, &mut rows, &mut steps)
}

/// The numbers of the mesh of a volume at a level, and of each of its components.
pub fn walked_numbers(
    alloc: Global,
    store: &BrickStore,
    tree: &SpanTree,
    cache: &MeshCache,
    level: Level,
) -> Result<Report, Memory>
    requires tree { IsRightFor tree.now store.now }
    requires items { IsRight store.now.grid store.now.samples cache.now.items }
    ensures { IfOk result (λ r. r ≡ summary_of
        (length (vertices store.now.grid (field store.now.samples level)))
        (triangles store.now.grid (field store.now.samples level))) }
{
    counted_numbers::<Brand>(Blank::new(1), alloc, store, tree, cache, level)
}

// Apart for the same reason.
#[inline(never)]
fn counted_measures<L: Ledger>(
    blank: Blank,
    alloc: Global,
    store: &BrickStore,
    tree: &SpanTree,
    cache: &MeshCache,
    level: Level,
) -> Result<Measures, Memory>
    requires name { blank.name ≡ L.name }
    requires parts { blank.parts ≡ L.parts }
    requires some { 0 < blank.parts }
    requires tree { IsRightFor tree.now store.now }
    requires items { IsRight store.now.grid store.now.samples cache.now.items }
    ensures { IfOk result (λ m. m ≡ measures_at store.now level) }
{
    let (book, share) = blank.open::<L>();
    let mut slices = no_slices();
    let mut signed = no_signs();
    let held = Held::new(&mut slices, &mut signed);
    let mut rows = CachedRows::new(store, cache, level, held);
    let mut steps = Steps::new(book, share);
    part_measures(alloc, store, tree, level, &mut rows, &mut steps)
}

/// The measures of the mesh of a volume at a level.
///
/// A part without border has no area, and its volume is the same from every point. Where a pad is below the level, no part
/// has a border.
pub fn walked_measures(
    alloc: Global,
    store: &BrickStore,
    tree: &SpanTree,
    cache: &MeshCache,
    level: Level,
) -> Result<Measures, Memory>
    requires tree { IsRightFor tree.now store.now }
    requires items { IsRight store.now.grid store.now.samples cache.now.items }
    ensures measures { IfOk result (λ m. m ≡ measures_at store.now level) }
    ensures areas { IfOk result (λ m. All HasNoArea m) }
    ensures volumes { IfOk result (λ m. All (HasOneVolumeIn store.now level) m) }
    ensures closed { HasPadBelow store.now level → IfOk result (λ m. All HasNoBorder m) }
{
    parts_without_border();
    // Reading the sizes brings in what is true of every volume.
    let _ = store.sizes();
    counted_measures::<Brand>(Blank::new(1), alloc, store, tree, cache, level)
}
