//! What is known of the rows of a volume in bricks.
ghost use Rattle.std.specs.Prelude.{◌≡◌, ◌+◌, ◌*◌, ◌/◌, ◌^◌, ◌<◌, ◌≤◌, ◌++◌, IfOk, IfSome, drop, length, take};
ghost use Rattle.flat_mesh.specs.Lattice.{Leveled, heights};
ghost use Rattle.mesh_rows.specs.Rows.{AreActive, AreCases, AreEdges, row_names, row_places};
ghost use Rattle.brick_rows.specs.Bricks.{AreMarked};
ghost use Rattle.brick_rows.specs.Named.{NamesCases, asked_along};
ghost use Rattle.stitch.specs.Recent.{AreKnown, AreRecent};

use crate::recent::RecentLists;
use brick_rows::{ActiveRow, BricksAtLevel, CellRows, case_row, flag_row, place_row};
use iso_base::{LONGEST_ROW, Memory, ROW_EDGES, Steps};
use row_bits::{CASES, list_edges};
use std::alloc::Global;
use std::sync::ledger::Ledger;

/// Whether a slice of points lies in a slice of bricks of even number.
#[inline(always)]
pub fn is_even(z: u32) -> bool {
    z / 8 % 2 == 0
}

/// Under which key the crossing edges of a row of points are kept. Under the next one it is where these are crossed, and under the one
/// behind the active cells of the row of cells.
#[inline(always)]
fn edges_key(field: &BricksAtLevel, y: u32, z: u32) -> u32
    requires y { y < field.now.grid.ny }
    requires z { z < field.now.grid.nz }
    ensures value { result ≡ 3 * (y + field.now.grid.ny * z) }
    ensures low { result + 2 < 2 ^ 23 }
{
    3 * (y + field.sizes().ny() * z)
}

/// Writes a list at the front of a buffer, and says how long it is.
#[inline(always)]
fn fill_front(list: &[u16], buffer: &mut [u16; ROW_EDGES]) -> usize
    requires few { length list.now ≤ 3078 }
    ensures count { result ≡ length list.now }
    ensures list { take result buffer.new ≡ list.now }
{
    buffer[..list.len()].copy_from_slice(list);
    list.len()
}

/// Writes some cells and their cases one behind the other, and says how many numbers these are.
#[inline(always)]
fn join_cells(places: &[u16], cases: &[u16], list: &mut [u16; ROW_EDGES]) -> usize
    requires few { length places.now ≤ 1026 }
    requires same { length cases.now ≡ length places.now }
    ensures count { result ≡ 2 * length places.now }
    ensures list { take result list.new ≡ places.now ++ cases.now }
{
    let count = places.len();
    list[..count].copy_from_slice(places);
    list[count..2 * count].copy_from_slice(cases);
    2 * count
}

/// The reverse, at the front of two buffers.
#[inline(always)]
fn part_cells(
    list: &[u16],
    places: &mut [u16; LONGEST_ROW],
    cases: &mut [u16; LONGEST_ROW],
) -> usize
    requires few { length list.now ≤ 2052 }
    ensures count { result ≡ length list.now / 2 }
    ensures places { take result places.new ≡ take result list.now }
    ensures cases { take result cases.new ≡ take result (drop result list.now) }
{
    let count = list.len() / 2;
    places[..count].copy_from_slice(&list[..count]);
    cases[..count].copy_from_slice(&list[count..2 * count]);
    count
}

/// Lists the crossing edges that begin in a row of points whose bricks are marked, and says how many there are. `flags` is a buffer.
fn list_marked(
    field: &BricksAtLevel,
    active: &ActiveRow,
    flags: &mut [u8; LONGEST_ROW],
    edges: &mut [u16; ROW_EDGES],
) -> usize
    requires active { AreMarked field.now active.now }
    requires y { active.now.y < field.now.grid.ny }
    requires z { active.now.z < field.now.grid.nz }
    ensures few { result ≤ 3 * field.now.grid.nx }
    ensures edges { AreEdges field.now active.now.y active.now.z (take result edges.new) }
{
    if active.is_still(field) {
        return 0;
    }
    let nx = field.sizes().nx() as usize;
    flag_row(field, active, &mut flags[..nx]);
    list_edges(&flags[..nx], edges)
}

/// Writes the cases of the cells of a row whose bricks are marked at the front of a buffer.
fn case_marked<R: CellRows, L: Ledger>(
    field: &BricksAtLevel,
    active: &ActiveRow,
    rows: &mut R,
    all: &mut [u16; CASES],
    steps: &mut Steps<L>,
)
    requires active { AreMarked field.now active.now }
    requires y { active.now.y + 1 < field.now.grid.ny }
    requires z { active.now.z + 1 < field.now.grid.nz }
    requires named { NamesCases (R.named rows.old) field.now.grid (heights field.now) }
    ensures cases { AreCases field.now active.now.y active.now.z all.new }
    ensures same { R.named rows.new ≡ R.named rows.old }
    ensures least { steps.old ≤ steps.new }
    ensures most { steps.new
        ≤ steps.old + 8 * asked_along field.now.grid (heights field.now) (R.named rows.old) active.now.y active.now.z }
{
    let nx = field.sizes().nx() as usize;
    case_row(field, active, rows, &mut all[..nx], steps);
}

/// What is known of the rows of a volume: the lists of those that were asked for last, buffers for the flags, the crossing edges and
/// the cases of one, and the bricks that hold those rows, in slices of bricks of even and of odd number: a traversal goes to and fro
/// between two slices of points. The lists stay from one traversal to the next.
#[derive(Drop)]
pub struct KnownRows {
    pub even: Box<ActiveRow>,
    pub odd: Box<ActiveRow>,
    pub recent: RecentLists,
    flags: Box<[u8; LONGEST_ROW]>,
    list: Box<[u16; ROW_EDGES]>,
    pub cases: Box<[u16; CASES]>,
}

// Apart, so that what is moved is gone from the stack then.
#[inline(never)]
fn new_row(alloc: Global) -> Result<Box<ActiveRow>, Memory> {
    Ok(Box::new(alloc, ActiveRow::new())?)
}

impl KnownRows {
    /// Nothing is known, and there is room for the numbers of lists.
    pub fn new(alloc: Global, numbers: Option<Vec<u16>>) -> Result<KnownRows, Memory>
        ensures { IfOk result (λ r. (v : Leveled) → AreRecent v r.recent) }
    {
        Ok(KnownRows {
            even: new_row(alloc)?,
            odd: new_row(alloc)?,
            recent: RecentLists::new(alloc, numbers)?,
            flags: Box::new(alloc, [0; LONGEST_ROW])?,
            list: Box::new(alloc, [0; ROW_EDGES])?,
            cases: Box::new(alloc, [0; CASES])?,
        })
    }

    /// Forgets the bricks of the last traversal. The lists have to be those of the volume.
    pub fn begin(&mut self, field: &BricksAtLevel)
        requires { AreRecent field.now self.old.recent }
        ensures { AreKnown field.now self.new }
    {
        // Reading the sizes brings in what is true of every volume at a level.
        let _ = field.sizes();
        self.even.forget();
        self.odd.forget();
    }

    /// Lists the crossing edges of a row of points, and says how many there are.
    fn list_anew(&mut self, field: &BricksAtLevel, y: u32, z: u32) -> usize
        requires y { y < field.now.grid.ny }
        requires z { z < field.now.grid.nz }
        requires known { AreKnown field.now self.old }
        ensures few { result ≤ 3 * field.now.grid.nx }
        ensures edges { AreEdges field.now y z (take result self.new.list.value) }
        ensures known { AreKnown field.now self.new }
    {
        if is_even(z) {
            self.even.mark(field, y, z);
            list_marked(field, &self.even, &mut self.flags, &mut self.list)
        } else {
            self.odd.mark(field, y, z);
            list_marked(field, &self.odd, &mut self.flags, &mut self.list)
        }
    }

    /// Lists the crossing edges of a row of points, keeps them under their key, and says how many there are.
    fn keep_edges(&mut self, field: &BricksAtLevel, y: u32, z: u32, key: u32) -> usize
        requires y { y < field.now.grid.ny }
        requires z { z < field.now.grid.nz }
        requires known { AreKnown field.now self.old }
        requires key { key ≡ 3 * (y + field.now.grid.ny * z) }
        requires low { key < 2 ^ 23 }
        ensures few { result ≤ 3 * field.now.grid.nx }
        ensures edges { AreEdges field.now y z (take result self.new.list.value) }
        ensures known { AreKnown field.now self.new }
    {
        // Reading the sizes brings in what is true of every volume at a level.
        let _ = field.sizes();
        let count = self.list_anew(field, y, z);
        if count == 0 {
            // A walk does not come back to a row without crossing edges.
            return count;
        }
        self.recent.put(key, &self.list[..count]);
        count
    }

    /// How many crossing edges begin in a row of points.
    pub fn count_edges(&mut self, field: &BricksAtLevel, y: u32, z: u32) -> u32
        requires y { y < field.now.grid.ny }
        requires z { z < field.now.grid.nz }
        requires known { AreKnown field.now self.old }
        ensures count { result ≡ length (row_names field.now y z) }
        ensures known { AreKnown field.now self.new }
    {
        // Reading the sizes brings in what is true of every volume at a level.
        let _ = field.sizes();
        let key = edges_key(field, y, z);
        if self.recent.has(key) {
            return self.recent.list(key).len() as u32;
        }
        let count = self.keep_edges(field, y, z, key);
        self.list[..count].len() as u32
    }

    /// Lists the crossing edges of a row of points, and says how many there are.
    pub fn list_edges(
        &mut self,
        field: &BricksAtLevel,
        y: u32,
        z: u32,
        edges: &mut [u16; ROW_EDGES],
    ) -> usize
        requires y { y < field.now.grid.ny }
        requires z { z < field.now.grid.nz }
        requires known { AreKnown field.now self.old }
        ensures few { result ≤ 3 * field.now.grid.nx }
        ensures edges { AreEdges field.now y z (take result edges.new) }
        ensures known { AreKnown field.now self.new }
    {
        // Reading the sizes brings in what is true of every volume at a level.
        let _ = field.sizes();
        let key = edges_key(field, y, z);
        if self.recent.has(key) {
            return fill_front(self.recent.list(key), edges);
        }
        let count = self.keep_edges(field, y, z, key);
        fill_front(&self.list[..count], edges)
    }

    /// Fills in where the crossing edges of a row are crossed.
    pub fn fill_places(
        &mut self,
        field: &BricksAtLevel,
        y: u32,
        z: u32,
        edges: &[u16],
        places: &mut [u16],
    )
        requires y { y < field.now.grid.ny }
        requires z { z < field.now.grid.nz }
        requires known { AreKnown field.now self.old }
        requires edges { AreEdges field.now y z edges.now }
        requires count { length places.old ≡ length edges.now }
        ensures places { places.new ≡ row_places field.now y z }
        ensures known { AreKnown field.now self.new }
    {
        // Reading the sizes brings in what is true of every volume at a level.
        let _ = field.sizes();
        let key = edges_key(field, y, z) + 1;
        if self.recent.has(key) {
            places.copy_from_slice(self.recent.list(key));
            return;
        }
        place_row(field, y, z, edges, places);
        self.recent.put(key, places);
    }

    /// Writes the cases of the cells of a row at the front of their buffer.
    pub fn case_cells<R: CellRows, L: Ledger>(
        &mut self,
        field: &BricksAtLevel,
        y: u32,
        z: u32,
        rows: &mut R,
        steps: &mut Steps<L>,
    )
        requires y { y + 1 < field.now.grid.ny }
        requires z { z + 1 < field.now.grid.nz }
        requires known { AreKnown field.now self.old }
        requires named { NamesCases (R.named rows.old) field.now.grid (heights field.now) }
        ensures cases { AreCases field.now y z self.new.cases.value }
        ensures known { AreKnown field.now self.new }
        ensures same { R.named rows.new ≡ R.named rows.old }
        ensures least { steps.old ≤ steps.new }
        ensures most { steps.new
            ≤ steps.old + 8 * asked_along field.now.grid (heights field.now) (R.named rows.old) y z }
    {
        if is_even(z) {
            self.even.mark(field, y, z);
            case_marked(field, &self.even, rows, &mut self.cases, steps);
        } else {
            self.odd.mark(field, y, z);
            case_marked(field, &self.odd, rows, &mut self.cases, steps);
        }
    }

    /// Lists the active cells of a row with their cases, and says how many there are, if that is known.
    #[inline(always)]
    pub fn find_cells(
        &self,
        field: &BricksAtLevel,
        y: u32,
        z: u32,
        places: &mut [u16; LONGEST_ROW],
        cases: &mut [u16; LONGEST_ROW],
    ) -> Option<usize>
        requires y { y + 1 < field.now.grid.ny }
        requires z { z + 1 < field.now.grid.nz }
        requires known { AreKnown field.now self.now }
        ensures cells { IfSome result (λ n. AreActive field.now y z (take n places.new) (take n cases.new)) }
        ensures few { IfSome result (λ n. n < field.now.grid.nx) }
    {
        // Reading the sizes brings in what is true of every volume at a level.
        let _ = field.sizes();
        let key = edges_key(field, y, z) + 2;
        if self.recent.has(key) {
            return Some(part_cells(self.recent.list(key), places, cases));
        }
        None
    }

    /// Keeps the active cells of a row with their cases.
    pub fn keep_cells(
        &mut self,
        field: &BricksAtLevel,
        y: u32,
        z: u32,
        places: &[u16],
        cases: &[u16],
    )
        requires y { y < field.now.grid.ny }
        requires z { z < field.now.grid.nz }
        requires known { AreKnown field.now self.old }
        requires few { length places.now < field.now.grid.nx }
        requires cells { AreActive field.now y z places.now cases.now }
        ensures known { AreKnown field.now self.new }
    {
        // Reading the sizes brings in what is true of every volume at a level.
        let _ = field.sizes();
        let key = edges_key(field, y, z) + 2;
        let count = join_cells(places, cases, &mut self.list);
        self.recent.put(key, &self.list[..count]);
    }
}
