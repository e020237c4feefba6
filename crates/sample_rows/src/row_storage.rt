//! What is kept of the rows of a volume, made row by row.
ghost use Rattle.std.specs.Prelude.{◌≡◌, ℕ, ◌+◌, ◌*◌, ◌<◌, ◌≤◌, All, IfOk, length, slice_index, take};
ghost use Rattle.flat_mesh.specs.Rows.{row_start};
ghost use Rattle.mesh_rows.specs.Counts.{AreCounts};
ghost use Rattle.mesh_rows.specs.Rows.{AreEdges, AreFlags, IsStill};
ghost use Rattle.sample_rows.specs.Cases.{AreRowBytes, AreRowCases, HasNoLoops};
ghost use Rattle.sample_rows.specs.Kept.{AreAllKept, AreKept, HaveBuffers};
ghost use Rattle.sample_rows.specs.Parts.{AreNumbers, HaveRows};
ghost use Rattle.sample_rows.specs.Signs.{AreRowSigns, AreSlices, AreSliceSigns};

use crate::cases::{CaseBuffers, case_buffers, fill_row};
use crate::field::ListField;
use crate::lists::{CellLists, list_row};
use crate::parts::{FewLists, RowParts, add_few, add_still, add_whole, no_rows};
use crate::places::{CrossingPlaces, PlaceBuffers, add_none, add_row, no_places, place_buffers};
use crate::signs::{RowSigns, are_alike, fill_flags, row_signs};
use crossing_edges::SliceSigns;
use flat_mesh::Heights;
use iso_base::Sizes;
use mesh_rows::Counts;
use samples::Samples;
use std::alloc::{AllocError, Global};
use std::mem;

/// What is kept of the rows of a volume. `counts` says how many centres and triangles the cells of these rows have.
#[derive(Drop)]
pub struct StoredRows {
    pub rows: RowParts,
    pub counts: Counts,
    pub places: CrossingPlaces,
}

/// Buffers for a row of points: their flags and their numbers, the cases of its cells and those of the active ones, and the places of
/// its edges.
#[derive(Drop)]
struct RowBuffers {
    flags: Vec<u8>,
    numbers: Vec<u16>,
    cells: CaseBuffers,
    active: CellLists,
    edges: PlaceBuffers,
}

/// Writes the numbers of points, from their flags and the cases of the cells that begin at them.
#[inline(always)]
fn fill_numbers(flags: &[u8], cases: &[u16], numbers: &mut [u16])
    requires cases { length cases.now ≡ length flags.now }
    requires numbers { length numbers.old ≡ length flags.now }
    requires small { All (λ c. c < 656) cases.now }
    ensures { (x : ℕ) → x < length flags.now → slice_index numbers.new x
        ≡ slice_index flags.now x + 8 * slice_index cases.now x }
{
    for x in 0..flags.len() {
        numbers[x] = u16::from(flags[x]) + 8 * cases[x];
    }
}

/// Keeps a row of points as the numbers of its points. `row` has their flags and the cases of the cells that begin at them.
fn keep_whole<S: Samples>(
    field: &ListField<S>,
    y: u32,
    z: u32,
    row: &mut RowBuffers,
    rows: &mut RowParts,
) -> Result<(), AllocError>
    requires y { y < field.now.grid.ny }
    requires z { z < field.now.grid.nz }
    requires buffers { HaveBuffers field.now.grid row.old }
    requires flags { AreFlags field.now y z row.old.flags.items }
    requires cases { AreRowCases field.now y z row.old.cells.cases.items }
    requires rows { HaveRows field.now (y + field.now.grid.ny * z) rows.old }
    ensures rows { IfOk result (λ _. HaveRows field.now (y + field.now.grid.ny * z + 1) rows.new) }
    ensures buffers { HaveBuffers field.now.grid row.new }
{
    fill_numbers(&row.flags, &row.cells.cases, &mut row.numbers);
    add_whole(field, y, z, &row.numbers, rows)
}

/// Keeps a row of points as what it has. `row` has the sign bytes and the cases of the cells that begin at them, and so many crossing
/// edges.
fn keep_few<S: Samples>(
    field: &ListField<S>,
    y: u32,
    z: u32,
    edges: usize,
    row: &mut RowBuffers,
    rows: &mut RowParts,
) -> Result<(), AllocError>
    requires y { y < field.now.grid.ny }
    requires z { z < field.now.grid.nz }
    requires buffers { HaveBuffers field.now.grid row.old }
    requires few { edges ≤ 3078 }
    requires edges { AreEdges field.now y z (take edges row.old.edges.edges) }
    requires cases { AreRowCases field.now y z row.old.cells.cases.items }
    requires bytes { AreRowBytes field.now y z row.old.cells.bytes.items }
    requires rows { HaveRows field.now (y + field.now.grid.ny * z) rows.old }
    ensures rows { IfOk result (λ _. HaveRows field.now (y + field.now.grid.ny * z + 1) rows.new) }
    ensures buffers { HaveBuffers field.now.grid row.new }
{
    let _ = field.sizes();
    let cells = list_row(field, y, z, &row.cells, &mut row.active);
    let few = FewLists {
        edges: &row.edges.edges[..edges],
        places: &row.active.places[..cells],
        cases: &row.active.cases[..cells],
    };
    add_few(field, y, z, few, rows)
}

/// Adds a row of points where no crossing edge begins, and no cell with loops.
fn add_quiet<S: Samples>(
    field: &ListField<S>,
    y: u32,
    z: u32,
    kept: &mut StoredRows,
) -> Result<(), AllocError>
    requires y { y < field.now.grid.ny }
    requires z { z < field.now.grid.nz }
    requires still { IsStill field.now y z }
    requires none { HasNoLoops field.now y z }
    requires kept { AreKept field.now (y + field.now.grid.ny * z) kept.old }
    ensures { IfOk result (λ _. AreKept field.now (y + field.now.grid.ny * z + 1) kept.new) }
{
    let _ = field.sizes();
    add_none(field, y, z, &mut kept.places)?;
    add_still(field, y, z, &mut kept.rows)?;
    Ok(())
}

/// Adds any row of points, from the signs of the points around it.
fn add_mixed<S: Samples>(
    field: &ListField<S>,
    signs: RowSigns,
    y: u32,
    z: u32,
    row: &mut RowBuffers,
    kept: &mut StoredRows,
) -> Result<(), AllocError>
    requires y { y < field.now.grid.ny }
    requires z { z < field.now.grid.nz }
    requires signs { AreRowSigns field.now y z signs }
    requires buffers { HaveBuffers field.now.grid row.old }
    requires kept { AreKept field.now (y + field.now.grid.ny * z) kept.old }
    ensures kept { IfOk result (λ _. AreKept field.now (y + field.now.grid.ny * z + 1) kept.new) }
    ensures buffers { HaveBuffers field.now.grid row.new }
{
    let _ = field.sizes();
    fill_flags(field, signs, y, z, &mut row.flags);
    let edges = add_row(field, &row.flags, y, z, &mut row.edges, &mut kept.places)?;
    kept.counts = fill_row(field, signs, y, z, &mut row.cells, kept.counts);
    // Lists take less room than a number for each point where few of these have crossing edges, and are sooner copied.
    if 2 * edges > row.flags.len() {
        keep_whole(field, y, z, row, &mut kept.rows)
    } else {
        keep_few(field, y, z, edges, row, &mut kept.rows)
    }
}

/// Adds a row of points.
fn add_one<S: Samples>(
    field: &ListField<S>,
    signs: &SliceSigns,
    y: u32,
    z: u32,
    row: &mut RowBuffers,
    kept: &mut StoredRows,
) -> Result<(), AllocError>
    requires y { y < field.now.grid.ny }
    requires z { z < field.now.grid.nz }
    requires signs { AreSlices field.now z signs.now }
    requires buffers { HaveBuffers field.now.grid row.old }
    requires kept { AreKept field.now (y + field.now.grid.ny * z) kept.old }
    ensures kept { IfOk result (λ _. AreKept field.now (y + field.now.grid.ny * z + 1) kept.new) }
    ensures buffers { HaveBuffers field.now.grid row.new }
{
    let signs = row_signs(field, signs, y, z);
    if are_alike(field, signs, y, z) {
        return add_quiet(field, y, z, kept);
    }
    add_mixed(field, signs, y, z, row, kept)
}

/// Adds the rows of a slice of points.
fn add_slice<S: Samples>(
    field: &ListField<S>,
    signs: &SliceSigns,
    z: u32,
    row: &mut RowBuffers,
    kept: &mut StoredRows,
) -> Result<(), AllocError>
    requires z { z < field.now.grid.nz }
    requires signs { AreSlices field.now z signs.now }
    requires buffers { HaveBuffers field.now.grid row.old }
    requires kept { AreKept field.now (field.now.grid.ny * z) kept.old }
    ensures kept { IfOk result (λ _. AreKept field.now (field.now.grid.ny * (z + 1)) kept.new) }
    ensures buffers { HaveBuffers field.now.grid row.new }
{
    let sizes = field.sizes();
    for y in 0..sizes.ny() {
        add_one(field, signs, y, z, row, kept)?;
    }
    Ok(())
}

/// Makes the signs of the next slice, if there is one.
pub fn make_next<S: Samples>(field: &ListField<S>, z: u32, signs: &mut SliceSigns)
    requires z { z < field.now.grid.nz }
    requires near { AreSliceSigns field.now z signs.old.near.items }
    requires count { length signs.old.far.items ≡ field.now.grid.nx * field.now.grid.ny }
    ensures signs { AreSlices field.now z signs.new }
    ensures near { length signs.new.near.items ≡ field.now.grid.nx * field.now.grid.ny }
    ensures far { length signs.new.far.items ≡ field.now.grid.nx * field.now.grid.ny }
{
    let sizes = field.sizes();
    if z + 1 < sizes.nz() {
        field.fill_signs(z + 1, &mut signs.far);
    }
}

/// Adds the rows of all slices of points. `signs` has those of the first.
fn add_slices<S: Samples>(
    field: &ListField<S>,
    signs: &mut SliceSigns,
    row: &mut RowBuffers,
    kept: &mut StoredRows,
) -> Result<(), AllocError>
    requires near { AreSliceSigns field.now 0 signs.old.near.items }
    requires far { length signs.old.far.items ≡ field.now.grid.nx * field.now.grid.ny }
    requires buffers { HaveBuffers field.now.grid row.old }
    requires none { AreKept field.now 0 kept.old }
    ensures { IfOk result (λ _. AreAllKept field.now kept.new) }
{
    let sizes = field.sizes();
    for z in 0..sizes.nz() {
        make_next(field, z, signs);
        add_slice(field, signs, z, row, kept)?;
        mem::swap(&mut signs.near, &mut signs.far);
    }
    Ok(())
}

/// The signs of the first slice, and room for those of the next one.
pub fn first_signs<S: Samples>(
    alloc: Global,
    field: &ListField<S>,
) -> Result<SliceSigns, AllocError>
    ensures near { IfOk result (λ s. AreSliceSigns field.now 0 s.near.items) }
    ensures far { IfOk result (λ s. length s.far.items ≡ field.now.grid.nx * field.now.grid.ny) }
{
    let sizes = field.sizes();
    let count = (sizes.nx() * sizes.ny()) as usize;
    let mut near = vec![in alloc; 0u8; count]?;
    field.fill_signs(0, &mut near);
    Ok(SliceSigns {
        near,
        far: vec![in alloc; 0u8; count]?,
    })
}

/// Buffers for the rows of a volume.
fn row_buffers(alloc: Global, sizes: &Sizes) -> Result<RowBuffers, AllocError>
    ensures { IfOk result (HaveBuffers sizes.now) }
{
    let nx = sizes.nx() as usize;
    Ok(RowBuffers {
        flags: vec![in alloc; 0u8; nx]?,
        numbers: vec![in alloc; 0u16; nx]?,
        cells: case_buffers(alloc, sizes)?,
        active: CellLists::new(),
        edges: place_buffers(alloc, sizes)?,
    })
}

/// Nothing of no rows.
fn none_kept<S: Samples>(alloc: Global, field: &ListField<S>) -> Result<StoredRows, AllocError>
    ensures { IfOk result (AreKept field.now 0) }
{
    let _ = field.sizes();
    Ok(StoredRows {
        rows: no_rows(alloc, field)?,
        counts: Counts {
            centres: 0,
            faces: 0,
        },
        places: no_places(alloc, field)?,
    })
}

/// What is kept of all rows.
pub fn all_rows<S: Samples>(alloc: Global, field: &ListField<S>) -> Result<StoredRows, AllocError>
    ensures { IfOk result (AreAllKept field.now) }
{
    let mut signs = first_signs(alloc, field)?;
    let mut row = row_buffers(alloc, &field.sizes())?;
    let mut kept = none_kept(alloc, field)?;
    add_slices(field, &mut signs, &mut row, &mut kept)?;
    Ok(kept)
}
