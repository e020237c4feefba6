//! What the lowest slices of a volume have of its mesh, in numbers alone: nothing is kept of their rows.
ghost use Rattle.std.specs.Prelude.{◌≡◌, ◌+◌, ◌*◌, ◌<◌, ◌≤◌, All, IfOk, length};
ghost use Rattle.iso_defs.specs.Grid.{point_count};
ghost use Rattle.iso_base.specs.Volume.{IsSample};
ghost use Rattle.crossing_edges.specs.Flags.{rank};
ghost use Rattle.flat_mesh.specs.Lattice.{Leveled, heights};
ghost use Rattle.flat_mesh.specs.Rows.{row_start};
ghost use Rattle.sample_rows.specs.Counted.{AreRowCounts, HaveCountRoom};
ghost use Rattle.sample_rows.specs.Signs.{AreRowSigns, AreSlices, AreSliceSigns};

use crate::cases::{CaseBuffers, case_buffers, fill_row};
use crate::field::ListField;
use crate::row_storage::{first_signs, make_next};
use crate::signs::{RowSigns, are_alike, fill_flags, row_signs};
use crossing_edges::{SliceSigns, count_all_edges};
use iso_base::{Level, Memory, Sizes};
use mesh_rows::Counts;
use samples::Samples;
use std::alloc::{AllocError, Global};
use std::mem;

/// How many crossing edges begin in slices of points, and how many centres and triangles the cells have that begin there.
#[derive(Clone, Copy)]
pub struct SliceCounts {
    pub edges: u32,
    pub cells: Counts,
}

/// Buffers for a row of points: their flags, and the cases of its cells.
#[derive(Drop)]
struct CountBuffers {
    flags: Vec<u8>,
    cells: CaseBuffers,
}

/// Buffers for the rows of a volume.
fn count_buffers(alloc: Global, sizes: &Sizes) -> Result<CountBuffers, AllocError>
    ensures { IfOk result (HaveCountRoom sizes.now) }
{
    Ok(CountBuffers {
        flags: vec![in alloc; 0u8; sizes.nx() as usize]?,
        cells: case_buffers(alloc, sizes)?,
    })
}

/// How many crossing edges begin in a row of points. `flags` is a buffer.
fn count_row_edges<S: Samples>(
    field: &ListField<S>,
    signs: RowSigns,
    y: u32,
    z: u32,
    flags: &mut [u8],
) -> u32
    requires y { y < field.now.grid.ny }
    requires z { z < field.now.grid.nz }
    requires signs { AreRowSigns field.now y z signs }
    requires count { length flags.old ≡ field.now.grid.nx }
    ensures count { let g = field.now.grid in
        rank g (heights field.now) (3 * row_start g (y + 1) z)
        ≡ rank g (heights field.now) (3 * row_start g y z) + result }
    ensures few { result ≤ 3 * field.now.grid.nx }
{
    let _ = field.sizes();
    fill_flags(field, signs, y, z, flags);
    count_all_edges(flags)
}

/// Counts any row of points, from the signs of the points around it.
fn count_mixed<S: Samples>(
    field: &ListField<S>,
    signs: RowSigns,
    y: u32,
    z: u32,
    row: &mut CountBuffers,
    counts: SliceCounts,
) -> SliceCounts
    requires y { y < field.now.grid.ny }
    requires z { z < field.now.grid.nz }
    requires signs { AreRowSigns field.now y z signs }
    requires room { HaveCountRoom field.now.grid row.old }
    requires counts { AreRowCounts field.now (y + field.now.grid.ny * z) counts }
    ensures counts { AreRowCounts field.now (y + field.now.grid.ny * z + 1) result }
    ensures room { HaveCountRoom field.now.grid row.new }
{
    let _ = field.sizes();
    let edges = count_row_edges(field, signs, y, z, &mut row.flags);
    SliceCounts {
        edges: counts.edges + edges,
        cells: fill_row(field, signs, y, z, &mut row.cells, counts.cells),
    }
}

/// Counts a row of points.
fn count_one<S: Samples>(
    field: &ListField<S>,
    signs: &SliceSigns,
    y: u32,
    z: u32,
    row: &mut CountBuffers,
    counts: SliceCounts,
) -> SliceCounts
    requires y { y < field.now.grid.ny }
    requires z { z < field.now.grid.nz }
    requires signs { AreSlices field.now z signs.now }
    requires room { HaveCountRoom field.now.grid row.old }
    requires counts { AreRowCounts field.now (y + field.now.grid.ny * z) counts }
    ensures counts { AreRowCounts field.now (y + field.now.grid.ny * z + 1) result }
    ensures room { HaveCountRoom field.now.grid row.new }
{
    let signs = row_signs(field, signs, y, z);
    if are_alike(field, signs, y, z) {
        return counts;
    }
    count_mixed(field, signs, y, z, row, counts)
}

/// Counts a slice of points.
fn count_slice<S: Samples>(
    field: &ListField<S>,
    signs: &SliceSigns,
    z: u32,
    row: &mut CountBuffers,
    counts: SliceCounts,
) -> SliceCounts
    requires z { z < field.now.grid.nz }
    requires signs { AreSlices field.now z signs.now }
    requires room { HaveCountRoom field.now.grid row.old }
    requires counts { AreRowCounts field.now (field.now.grid.ny * z) counts }
    ensures counts { AreRowCounts field.now (field.now.grid.ny * (z + 1)) result }
    ensures room { HaveCountRoom field.now.grid row.new }
{
    let sizes = field.sizes();
    let mut counts = counts;
    for y in 0..sizes.ny() {
        counts = count_one(field, signs, y, z, row, counts);
    }
    counts
}

/// Counts so many of the lowest slices of points. `signs` has those of the first.
fn count_lowest<S: Samples>(
    field: &ListField<S>,
    signs: &mut SliceSigns,
    row: &mut CountBuffers,
    slices: u32,
) -> SliceCounts
    requires slices { slices ≤ field.now.grid.nz }
    requires near { AreSliceSigns field.now 0 signs.old.near.items }
    requires far { length signs.old.far.items ≡ field.now.grid.nx * field.now.grid.ny }
    requires room { HaveCountRoom field.now.grid row.old }
    ensures { AreRowCounts field.now (field.now.grid.ny * slices) result }
{
    let _ = field.sizes();
    let mut counts = SliceCounts {
        edges: 0,
        cells: Counts {
            centres: 0,
            faces: 0,
        },
    };
    for z in 0..slices {
        make_next(field, z, signs);
        counts = count_slice(field, signs, z, row, counts);
        mem::swap(&mut signs.near, &mut signs.far);
    }
    counts
}

/// How many crossing edges begin in so many of the lowest slices of points of a volume at a level, and how many centres and triangles
/// the cells have that begin there.
pub fn count_slices<S: Samples>(
    alloc: Global,
    sizes: Sizes,
    samples: &S,
    level: Level,
    slices: u32,
) -> Result<SliceCounts, Memory>
    requires count { length (S.list samples.now) ≡ point_count sizes }
    requires samples { All IsSample (S.list samples.now) }
    requires slices { slices ≤ sizes.nz }
    ensures { let v : Leveled = record { grid = sizes; samples = S.list samples.now; level = level } in
        IfOk result (AreRowCounts v (sizes.ny * slices)) }
{
    let _ = sizes.count();
    let field = ListField::new(sizes, samples, level);
    let mut signs = first_signs(alloc, &field)?;
    let mut row = count_buffers(alloc, &sizes)?;
    Ok(count_lowest(&field, &mut signs, &mut row, slices))
}
