//! The cases of the cells of a row, from the signs of the points around it.
//!
//! Of 64 cells each gets the case of its signs with no joined face first, by one look into a table; those with an
//! ambiguous face get their own case after that. Asked for each cell in turn, that branch cannot be predicted on noise.
ghost use Rattle.std.specs.Prelude.{◌≡◌, ℕ, ◌+◌, ◌-◌, ◌*◌, ◌<◌, ◌≤◌, IfOk, length, min, slice_index};
ghost use Rattle.iso_defs.specs.Grid.{index};
ghost use Rattle.flat_mesh.specs.Centres.{IsCellAt};
ghost use Rattle.flat_mesh.specs.Rows.{IsSignRow, byte_of, row_start};
ghost use Rattle.mesh_rows.specs.Counts.{AreCounts};
ghost use Rattle.mesh_rows.specs.Rows.{AreCases, AreCasesTo};
ghost use Rattle.sample_rows.specs.Cases.{AreBytes, AreCasesBut, AreMixed, ArePut, AreRowBytes, AreRowCases, HaveRoom};
ghost use Rattle.sample_rows.specs.Signs.{AreRowSigns};

use crate::counts::count_cell;
use crate::lanes::fill_many_bytes;
use crate::signs::RowSigns;
use case_table::{ambiguous_set, row_of};
use flat_mesh::{Cell, Heights, cell_case, cell_row};
use iso_base::{Point, Sizes};
use mesh_rows::Counts;
use row_bits::mixed_at;
use std::alloc::{AllocError, Global};

/// The index of the first point of a row.
#[inline(always)]
fn row_index<H: Heights>(field: &H, y: u32, z: u32) -> u32
    requires y { y < (H.leveled field.now).grid.ny }
    requires z { z < (H.leveled field.now).grid.nz }
    ensures { result ≡ row_start (H.leveled field.now).grid y z }
{
    let sizes = field.sizes();
    sizes.nx() * (y + sizes.ny() * z)
}

/// The cell so many places behind a point of a row, which begins with the point of index `start`.
#[inline(always)]
fn cell_behind<H: Heights>(field: &H, start: u32, low: Point, place: u32) -> Cell
    requires start { start ≡ row_start (H.leveled field.now).grid low.y low.z }
    requires x { low.x + place + 1 < (H.leveled field.now).grid.nx }
    requires y { low.y + 1 < (H.leveled field.now).grid.ny }
    requires z { low.z + 1 < (H.leveled field.now).grid.nz }
    ensures cell { IsCellAt (H.leveled field.now).grid result }
    ensures index { result.index ≡ index (H.leveled field.now).grid (low.x + place) low.y low.z }
{
    let _ = field.sizes();
    let x = low.x + place;
    Cell {
        index: start + x,
        low: Point { x, ..low },
    }
}

/// Writes the cases of the cells of these bits as if none of their faces were joined, and gives the bits of those that have an ambiguous
/// face: whether it is joined remains to be asked.
#[inline(always)]
fn fill_clear<H: Heights>(field: &H, low: Point, bytes: &[u8], mixed: u64, cases: &mut [u16]) -> u64
    requires x { low.x < (H.leveled field.now).grid.nx }
    requires many { low.x + 64 ≤ length bytes.now }
    requires bytes { AreBytes (H.leveled field.now) low.y low.z bytes.now }
    requires count { length cases.old ≡ (H.leveled field.now).grid.nx }
    requires before { AreCasesBut (H.leveled field.now) low.y low.z low.x mixed cases.old }
    ensures { AreCasesBut (H.leveled field.now) low.y low.z low.x result cases.new }
{
    let _ = (field.sizes(), low.y, low.z);
    let mut unclear = 0u64;
    let mut rest = mixed;
    while rest != 0 {
        let place = rest.trailing_zeros();
        let x = (low.x + place) as usize;
        let signs = bytes[x];
        // With no joined face this is one look into a table.
        cases[x] = row_of(signs, 0).number();
        // A bit in place of a branch: where cells have ambiguous faces here and there, it cannot be foreseen.
        unclear |= u64::from(ambiguous_set(signs) != 0) << place;
        rest ^= 1 << place;
    }
    unclear
}

/// Writes the cases of the cells of these bits, whose faces have to be asked.
#[inline(always)]
fn fill_unclear<H: Heights>(field: &H, low: Point, bytes: &[u8], unclear: u64, cases: &mut [u16])
    requires y { low.y + 1 < (H.leveled field.now).grid.ny }
    requires z { low.z + 1 < (H.leveled field.now).grid.nz }
    requires x { low.x < (H.leveled field.now).grid.nx }
    requires many { low.x + 64 ≤ length bytes.now }
    requires bytes { AreBytes (H.leveled field.now) low.y low.z bytes.now }
    requires count { length cases.old ≡ (H.leveled field.now).grid.nx }
    requires before { AreCasesBut (H.leveled field.now) low.y low.z low.x unclear cases.old }
    ensures { AreCasesBut (H.leveled field.now) low.y low.z low.x 0 cases.new }
{
    let start = row_index(field, low.y, low.z);
    let mut rest = unclear;
    while rest != 0 {
        let place = rest.trailing_zeros();
        let cell = cell_behind(field, start, low, place);
        let x = (low.x + place) as usize;
        cases[x] = cell_case(field, cell, bytes[x]).number();
        rest ^= 1 << place;
    }
}

/// Counts 64 cells of a row from one on, bit after bit of those that may have loops.
#[inline(always)]
fn count_many<H: Heights>(
    field: &H,
    low: Point,
    mixed: u64,
    cases: &[u16],
    counts: Counts,
) -> Counts
    requires y { low.y + 1 < (H.leveled field.now).grid.ny }
    requires z { low.z + 1 < (H.leveled field.now).grid.nz }
    requires x { low.x < (H.leveled field.now).grid.nx }
    requires count { length cases.now ≡ (H.leveled field.now).grid.nx }
    requires mixed { AreMixed (H.leveled field.now) low.y low.z low.x mixed }
    requires cases { AreCasesTo (H.leveled field.now) low.y low.z (low.x + 64) cases.now }
    requires counts { let g = (H.leveled field.now).grid in
        AreCounts (H.leveled field.now) (row_start g low.y low.z + min low.x g.nx) counts }
    ensures { let g = (H.leveled field.now).grid in
        AreCounts (H.leveled field.now) (row_start g low.y low.z + min (low.x + 64) g.nx) result }
{
    let start = row_index(field, low.y, low.z);
    let mut counts = counts;
    let mut rest = mixed;
    while rest != 0 {
        let place = rest.trailing_zeros();
        let cell = cell_behind(field, start, low, place);
        let case = cases[(low.x + place) as usize];
        counts = count_cell(field, cell, case, counts);
        rest ^= 1 << place;
    }
    counts
}

/// Writes and counts the cases of 64 cells of a row from one on. Those that have to ask for their faces come after the others, so that
/// each loop does the same for all of its cells.
#[inline(always)]
fn fill_many<H: Heights>(
    field: &H,
    low: Point,
    bytes: &[u8],
    cases: &mut [u16],
    counts: Counts,
) -> Counts
    requires y { low.y + 1 < (H.leveled field.now).grid.ny }
    requires z { low.z + 1 < (H.leveled field.now).grid.nz }
    requires x { low.x < (H.leveled field.now).grid.nx }
    requires many { low.x + 64 ≤ length bytes.now }
    requires room { HaveRoom (H.leveled field.now).grid bytes.now }
    requires bytes { AreBytes (H.leveled field.now) low.y low.z bytes.now }
    requires count { length cases.old ≡ (H.leveled field.now).grid.nx }
    requires before { ArePut (H.leveled field.now) low.y low.z low.x cases.old counts }
    ensures { ArePut (H.leveled field.now) low.y low.z (low.x + 64) cases.new result }
{
    let mixed = mixed_at(bytes, low.x as usize);
    let unclear = fill_clear(field, low, bytes, mixed, cases);
    fill_unclear(field, low, bytes, unclear, cases);
    count_many(field, low, mixed, cases, counts)
}

/// Writes and counts the cases of the cells of a row over zeros, from their sign bytes.
fn fill_cases<H: Heights>(
    field: &H,
    y: u32,
    z: u32,
    bytes: &[u8],
    cases: &mut [u16],
    counts: Counts,
) -> Counts
    requires y { y + 1 < (H.leveled field.now).grid.ny }
    requires z { z + 1 < (H.leveled field.now).grid.nz }
    requires room { HaveRoom (H.leveled field.now).grid bytes.now }
    requires bytes { AreBytes (H.leveled field.now) y z bytes.now }
    requires count { length cases.old ≡ (H.leveled field.now).grid.nx }
    requires zeros { ArePut (H.leveled field.now) y z 0 cases.old counts }
    ensures cases { AreCases (H.leveled field.now) y z cases.new }
    ensures last { slice_index cases.new ((H.leveled field.now).grid.nx - 1) ≡ 0 }
    ensures counts { let g = (H.leveled field.now).grid in
        AreCounts (H.leveled field.now) (row_start g (y + 1) z) result }
{
    let nx = field.sizes().nx();
    let mut counts = counts;
    for many in 0..(nx + 63) / 64 {
        let low = Point { x: 64 * many, y, z };
        counts = fill_many(field, low, bytes, cases, counts);
    }
    counts
}

/// Writes the sign bytes of a row of cells at the front of a buffer, from their four rows of signs.
#[inline(always)]
fn fill_cell_bytes(near: &[u8], up: &[u8], far: &[u8], both: &[u8], bytes: &mut [u8])
    requires some { 0 < length near.now }
    requires near { IsSignRow (length near.now) near.now }
    requires up { IsSignRow (length near.now) up.now }
    requires far { IsSignRow (length near.now) far.now }
    requires both { IsSignRow (length near.now) both.now }
    requires room { length near.now ≤ length bytes.old }
    ensures bytes { (x : ℕ) → x + 1 < length near.now
        → slice_index bytes.new x ≡ byte_of near.now up.now far.now both.now x }
    ensures behind { (x : ℕ) → length near.now ≤ x → slice_index bytes.new x ≡ slice_index bytes.old x }
{
    let count = near.len();
    if count > 16 {
        fill_many_bytes(near, up, far, both, bytes);
    } else {
        cell_row(near, up, far, both, &mut bytes[..count]);
    }
}

/// Writes the sign bytes of a row of cells at the front of a buffer, from their four rows of signs, and a 0 behind them.
#[inline(always)]
fn fill_front_bytes(near: &[u8], up: &[u8], far: &[u8], both: &[u8], bytes: &mut [u8])
    requires some { 0 < length near.now }
    requires near { IsSignRow (length near.now) near.now }
    requires up { IsSignRow (length near.now) up.now }
    requires far { IsSignRow (length near.now) far.now }
    requires both { IsSignRow (length near.now) both.now }
    requires room { length near.now ≤ length bytes.old }
    ensures bytes { (x : ℕ) → x + 1 < length near.now
        → slice_index bytes.new x ≡ byte_of near.now up.now far.now both.now x }
    ensures last { slice_index bytes.new (length near.now - 1) ≡ 0 }
    ensures behind { (x : ℕ) → length near.now ≤ x → slice_index bytes.new x ≡ slice_index bytes.old x }
{
    fill_cell_bytes(near, up, far, both, bytes);
    bytes[near.len() - 1] = 0;
}

/// Buffers for a row of cells: their sign bytes, and the numbers of their cases.
#[derive(Drop)]
pub struct CaseBuffers {
    pub bytes: Vec<u8>,
    pub cases: Vec<u16>,
}

/// Buffers for the rows of a volume.
pub fn case_buffers(alloc: Global, sizes: &Sizes) -> Result<CaseBuffers, AllocError>
    ensures room { IfOk result (λ b. HaveRoom sizes.now b.bytes.items) }
    ensures count { IfOk result (λ b. length b.cases.items ≡ sizes.now.nx) }
{
    let nx = sizes.nx() as usize;
    Ok(CaseBuffers {
        bytes: vec![in alloc; 0u8; (nx + 63) / 64 * 64]?,
        cases: vec![in alloc; 0u16; nx]?,
    })
}

/// Writes the sign bytes of the cells of a row.
fn fill_bytes<H: Heights>(field: &H, signs: RowSigns, y: u32, z: u32, bytes: &mut [u8])
    requires y { y + 1 < (H.leveled field.now).grid.ny }
    requires z { z + 1 < (H.leveled field.now).grid.nz }
    requires signs { AreRowSigns (H.leveled field.now) y z signs }
    requires room { HaveRoom (H.leveled field.now).grid bytes.old }
    ensures bytes { AreBytes (H.leveled field.now) y z bytes.new }
    ensures room { HaveRoom (H.leveled field.now).grid bytes.new }
{
    let _ = (field.sizes(), y, z);
    fill_front_bytes(signs.here, signs.up, signs.far, signs.both, bytes);
}

/// Writes and counts the cases of the cells that begin in a row of points, and zeros where none begins.
pub fn fill_row<H: Heights>(
    field: &H,
    signs: RowSigns,
    y: u32,
    z: u32,
    row: &mut CaseBuffers,
    counts: Counts,
) -> Counts
    requires y { y < (H.leveled field.now).grid.ny }
    requires z { z < (H.leveled field.now).grid.nz }
    requires signs { AreRowSigns (H.leveled field.now) y z signs }
    requires room { HaveRoom (H.leveled field.now).grid row.old.bytes.items }
    requires count { length row.old.cases.items ≡ (H.leveled field.now).grid.nx }
    requires counts { AreCounts (H.leveled field.now) (row_start (H.leveled field.now).grid y z) counts }
    ensures cases { AreRowCases (H.leveled field.now) y z row.new.cases.items }
    ensures bytes { AreRowBytes (H.leveled field.now) y z row.new.bytes.items }
    ensures counts { let g = (H.leveled field.now).grid in
        AreCounts (H.leveled field.now) (row_start g (y + 1) z) result }
    ensures room { HaveRoom (H.leveled field.now).grid row.new.bytes.items }
{
    let sizes = field.sizes();
    row.cases.fill(0);
    if y + 1 == sizes.ny() || z + 1 == sizes.nz() {
        row.bytes.fill(0);
        return counts;
    }
    fill_bytes(field, signs, y, z, &mut row.bytes);
    fill_cases(field, y, z, &row.bytes, &mut row.cases, counts)
}
