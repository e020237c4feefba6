//! The numbers of a mesh and of its components.

ghost use Rattle.std.specs.Prelude.{◌≡◌, ℕ, ◌+◌, ◌*◌, ◌<◌, ◌≤◌, All, IfOk, length, map, slice_index_or};
ghost use Rattle.indexmap.specs.IndexMap.{values};
ghost use Rattle.iso_defs.specs.Bricks.{brick_count};
ghost use Rattle.iso_defs.specs.Scratch.{triangles, vertices};
ghost use Rattle.iso_base.specs.Volume.{field};
ghost use Rattle.mesh_report.specs.Report.{summary_of};
ghost use Rattle.span_tree.specs.Spans.{IsRightFor};
ghost use Rattle.brick_rows.specs.Named.{NamesCases, asked_among};
ghost use Rattle.component_walk.specs.Counts.{AreFew, part_with};
ghost use Rattle.component_walk.specs.declared.components.Component.{Component as ComponentOf};
ghost use Rattle.component_walk.specs.declared.tally.LoopCounts.{LoopCounts as CountsOf};

use crate::components::{Component, components};
use crate::rows::walk;
use crate::tally::{LoopCounts, sum_of};
use brick_rows::CellRows;
use brick_store::BrickStore;
use indexmap::IndexMap;
use iso_base::{Level, Memory, Steps};
use mesh_report::{Part, Report, add_part};
use span_tree::SpanTree;
use std::alloc::Global;
use std::sync::ledger::Ledger;

/// The numbers of a part, by its crossing edges and what is counted of its loops.
fn part_of(least: u32, crossings: u32, counts: &LoopCounts) -> Part
    requires { AreFew crossings counts.now }
    ensures { result ≡ part_with least crossings counts.now }
{
    let spokes = u64::from(counts.spokes);
    let border = u64::from(counts.border);
    let vertices = crossings + counts.centres;
    let edges = (3 * u64::from(counts.threes) + spokes + border) / 2 + spokes;
    let faces = counts.threes + counts.spokes;
    Part {
        least,
        vertices,
        edges,
        faces,
        border,
        euler: i64::from(vertices) - edges as i64 + i64::from(faces),
    }
}

/// The numbers of components whose smallest vertices ascend.
fn parts_of(
    alloc: Global,
    components: &[Component<LoopCounts>],
) -> Result<IndexMap<u32, Part>, Memory>
    requires few { All (λ c. AreFew c.crossings c.tally) components.now }
    requires ascending { (i j : ℕ) (d : ComponentOf CountsOf) → i < j → j < length components.now →
        (slice_index_or components.now i d).least < (slice_index_or components.now j d).least }
    ensures { IfOk result (λ parts. values parts ≡ map (λ c. part_with c.least c.crossings c.tally) components.now) }
{
    let mut parts = IndexMap::new(alloc);
    for component in components {
        let part = part_of(component.least, component.crossings, &component.tally);
        add_part(&mut parts, part)?;
    }
    Ok(parts)
}

/// The numbers of the mesh of a volume at a level, and of each of its components. Each row of an active brick is asked for at
/// most once, and no other row.
pub fn part_numbers<R: CellRows, L: Ledger>(
    alloc: Global,
    store: &BrickStore,
    tree: &SpanTree,
    level: Level,
    rows: &mut R,
    steps: &mut Steps<L>,
) -> Result<Report, Memory>
    requires tree { IsRightFor tree.now store.now }
    requires named { NamesCases (R.named rows.old) store.now.grid (field store.now.samples level) }
    ensures report { IfOk result (λ r. r ≡ summary_of
        (length (vertices store.now.grid (field store.now.samples level)))
        (triangles store.now.grid (field store.now.samples level))) }
    ensures same { R.named rows.new ≡ R.named rows.old }
    ensures least { steps.old ≤ steps.new }
    ensures most { steps.new ≤ steps.old + 512 * asked_among store.now.grid (field store.now.samples level)
        (R.named rows.old) 0 (brick_count store.now.grid) }
{
    // Reading the sizes brings in what is true of every volume.
    let _ = store.sizes();
    let walked = walk::<LoopCounts, R, L>(alloc, store, tree, level, rows, steps)?;
    let all = sum_of(walked.tallies.as_slice());
    let total = part_of(0, walked.edges.count, &all);
    let parts = parts_of(alloc, components(alloc, walked)?.as_slice())?;
    Ok(Report::new(total, parts))
}
