//! Rows of points, kept one behind the other: each as a number for each of its points, or as its few crossing edges and active cells.
//!
//! Most rows are lists. Where crossing edges are more than half as many as points, lists would take more room: there
//! the flags of a point and the case of the cell that begins at it are one number of 16 bits.
ghost use Rattle.std.specs.Prelude.{◌≡◌, ◌+◌, ◌*◌, ◌<◌, ◌≤◌, [], IfOk, drop, length, take};
ghost use Rattle.mesh_rows.specs.Rows.{AreEdges, IsStill};
ghost use Rattle.sample_rows.specs.Cases.{HasNoLoops};
ghost use Rattle.sample_rows.specs.Parts.{AreCells, AreNumbers, HaveAllRows, HaveRows, IsKeptRow};

use flat_mesh::Heights;
use std::alloc::{AllocError, Global};

/// Where a row is kept in the list of all: from a place on, a number for each of its points; or so many crossing edges, behind them
/// how far so many active cells are along x, and behind these the cases of the cells.
#[derive(Clone, Copy)]
pub struct RowPart {
    pub start: u32,
    pub edges: u16,
    pub cells: u16,
    pub is_whole: bool,
}

/// Rows of points, and where each of them is kept.
#[derive(Drop)]
pub struct RowParts {
    pub list: Vec<u16>,
    pub parts: Vec<RowPart>,
}

/// The crossing edges of a row by their offsets, and its active cells: how far each is along x, and its case.
#[derive(Clone, Copy)]
pub struct FewLists<'a> {
    pub edges: &'a [u16],
    pub places: &'a [u16],
    pub cases: &'a [u16],
}

/// No rows, with room for where those of a volume are kept.
pub fn no_rows<H: Heights>(alloc: Global, field: &H) -> Result<RowParts, AllocError>
    ensures { IfOk result (HaveRows (H.leveled field.now) 0) }
{
    let sizes = field.sizes();
    Ok(RowParts {
        list: Vec::new(alloc),
        parts: Vec::with_capacity(alloc, (sizes.ny() * sizes.nz()) as usize)?,
    })
}

/// Adds a row of points of these numbers.
pub fn add_whole<H: Heights>(
    field: &H,
    y: u32,
    z: u32,
    numbers: &[u16],
    rows: &mut RowParts,
) -> Result<(), AllocError>
    requires y { y < (H.leveled field.now).grid.ny }
    requires z { z < (H.leveled field.now).grid.nz }
    requires numbers { AreNumbers (H.leveled field.now) y z numbers.now }
    requires rows { HaveRows (H.leveled field.now) (y + (H.leveled field.now).grid.ny * z) rows.old }
    ensures { let v = H.leveled field.now in
        IfOk result (λ _. HaveRows v (y + v.grid.ny * z + 1) rows.new) }
{
    let _ = (field.sizes(), y, z);
    let start = rows.list.len() as u32;
    rows.list.extend_from_slice(numbers)?;
    rows.parts.push(RowPart {
        start,
        edges: 0,
        cells: 0,
        is_whole: true,
    })?;
    Ok(())
}

/// Adds a row of points with these crossing edges and active cells.
pub fn add_few<H: Heights>(
    field: &H,
    y: u32,
    z: u32,
    few: FewLists,
    rows: &mut RowParts,
) -> Result<(), AllocError>
    requires y { y < (H.leveled field.now).grid.ny }
    requires z { z < (H.leveled field.now).grid.nz }
    requires edges { AreEdges (H.leveled field.now) y z few.edges.now }
    requires cells { AreCells (H.leveled field.now) y z few.places.now few.cases.now }
    requires rows { HaveRows (H.leveled field.now) (y + (H.leveled field.now).grid.ny * z) rows.old }
    ensures { let v = H.leveled field.now in
        IfOk result (λ _. HaveRows v (y + v.grid.ny * z + 1) rows.new) }
{
    let _ = (field.sizes(), y, z);
    let start = rows.list.len() as u32;
    rows.list.extend_from_slice(few.edges)?;
    rows.list.extend_from_slice(few.places)?;
    rows.list.extend_from_slice(few.cases)?;
    rows.parts.push(RowPart {
        start,
        edges: few.edges.len() as u16,
        cells: few.places.len() as u16,
        is_whole: false,
    })?;
    Ok(())
}

/// Adds a row of points where no crossing edge begins, and no cell with loops.
pub fn add_still<H: Heights>(
    field: &H,
    y: u32,
    z: u32,
    rows: &mut RowParts,
) -> Result<(), AllocError>
    requires y { y < (H.leveled field.now).grid.ny }
    requires z { z < (H.leveled field.now).grid.nz }
    requires still { IsStill (H.leveled field.now) y z }
    requires none { HasNoLoops (H.leveled field.now) y z }
    requires rows { HaveRows (H.leveled field.now) (y + (H.leveled field.now).grid.ny * z) rows.old }
    ensures { let v = H.leveled field.now in
        IfOk result (λ _. HaveRows v (y + v.grid.ny * z + 1) rows.new) }
{
    let _ = (field.sizes(), y, z);
    rows.parts.push(RowPart {
        start: rows.list.len() as u32,
        edges: 0,
        cells: 0,
        is_whole: false,
    })?;
    Ok(())
}

/// Where a row of points is kept.
#[inline(always)]
pub fn part_of<H: Heights>(field: &H, rows: &RowParts, y: u32, z: u32) -> RowPart
    requires y { y < (H.leveled field.now).grid.ny }
    requires z { z < (H.leveled field.now).grid.nz }
    requires rows { HaveAllRows (H.leveled field.now) rows.now }
    ensures { IsKeptRow (H.leveled field.now) y z rows.now.list.items result }
{
    rows.parts[(y + field.sizes().ny() * z) as usize]
}

/// So many numbers of the list from a place on.
#[inline(always)]
pub fn numbers_from<'a>(rows: &'a RowParts, start: usize, count: usize) -> &'a [u16]
    requires { start + count ≤ length rows.now.list.items }
    ensures { result.now ≡ take count (drop start rows.now.list.items) }
{
    &rows.list[start..start + count]
}
