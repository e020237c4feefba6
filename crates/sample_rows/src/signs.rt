//! The signs of the rows around a row of cells, out of those of two slices.
ghost use Rattle.std.specs.Prelude.{◌≡◌, ℕ, ◌+◌, ◌*◌, ◌<◌, ◌≤◌, IsTrue, length, slice_index};
ghost use Rattle.flat_mesh.specs.Rows.{AreSigns};
ghost use Rattle.mesh_rows.specs.Rows.{AreFlags, IsStill};
ghost use Rattle.sample_rows.specs.Cases.{HasNoLoops};
ghost use Rattle.sample_rows.specs.Signs.{AreAllOf, AreRowSigns, AreSliceSigns, AreSlices, next_to};

use crossing_edges::SliceSigns;
use flat_mesh::Heights;
use std::simd::prelude::*;

/// The signs of a row of points, and of the next rows along y, along z and along both. Where there is no next row, the row
/// itself stands for it.
#[derive(Clone, Copy)]
pub struct RowSigns<'a> {
    pub here: &'a [u8],
    pub up: &'a [u8],
    pub far: &'a [u8],
    pub both: &'a [u8],
}

/// The signs of the points of a row, out of those of its slice.
#[inline(always)]
fn sign_row<'a, H: Heights>(field: &H, slice: &'a [u8], y: u32, z: u32) -> &'a [u8]
    requires y { y < (H.leveled field.now).grid.ny }
    requires z { z < (H.leveled field.now).grid.nz }
    requires signs { AreSliceSigns (H.leveled field.now) z slice.now }
    ensures { AreSigns (H.leveled field.now) y z result.now }
{
    let _ = z;
    let nx = field.sizes().nx();
    let start = (nx * y) as usize;
    &slice[start..start + nx as usize]
}

/// The signs of the next slice, or of the same one if it is the last.
#[inline(always)]
fn next_slice<'a, H: Heights>(field: &H, signs: &'a SliceSigns, z: u32) -> &'a [u8]
    requires z { z < (H.leveled field.now).grid.nz }
    requires signs { AreSlices (H.leveled field.now) z signs.now }
    ensures { AreSliceSigns (H.leveled field.now) (next_to z (H.leveled field.now).grid.nz) result.now }
{
    let sizes = field.sizes();
    if z + 1 < sizes.nz() {
        &signs.far
    } else {
        &signs.near
    }
}

/// The signs of a row of points and of the next ones.
pub fn row_signs<'a, H: Heights>(field: &H, signs: &'a SliceSigns, y: u32, z: u32) -> RowSigns<'a>
    requires y { y < (H.leveled field.now).grid.ny }
    requires z { z < (H.leveled field.now).grid.nz }
    requires signs { AreSlices (H.leveled field.now) z signs.now }
    ensures { AreRowSigns (H.leveled field.now) y z result }
{
    let sizes = field.sizes();
    let next_y = (y + 1).min(sizes.ny() - 1);
    let next_z = (z + 1).min(sizes.nz() - 1);
    let far = next_slice(field, signs, z);
    RowSigns {
        here: sign_row(field, &signs.near, y, z),
        up: sign_row(field, &signs.near, next_y, z),
        far: sign_row(field, far, y, next_z),
        both: sign_row(field, far, next_y, next_z),
    }
}

/// Writes the flags of the points of a row.
pub fn fill_flags<H: Heights>(field: &H, signs: RowSigns, y: u32, z: u32, flags: &mut [u8])
    requires y { y < (H.leveled field.now).grid.ny }
    requires z { z < (H.leveled field.now).grid.nz }
    requires signs { AreRowSigns (H.leveled field.now) y z signs }
    requires count { length flags.old ≡ (H.leveled field.now).grid.nx }
    ensures { AreFlags (H.leveled field.now) y z flags.new }
{
    let _ = (field.sizes(), y, z);
    crossing_edges::flag_row(signs.here, signs.up, signs.far, flags);
}

/// Whether the 64 bytes from a place on are this one. `false` is free: where it comes too often, work is lost and no text.
#[inline(always)]
fn are_many(bytes: &[u8], from: usize, byte: u8) -> bool
    requires { from + 64 ≤ length bytes.now }
    ensures { IsTrue result → (k : ℕ) → k < 64 → slice_index bytes.now (from + k) ≡ byte }
{
    // That none is another one takes fewer steps to ask than that each is this one.
    let many = u8x64::from_slice(&bytes[from..]);
    !many.simd_ne(u8x64::splat(byte)).any()
}

/// Whether the bytes from a place on are this one. `false` is free, as above.
#[inline(always)]
fn are_from(bytes: &[u8], from: usize, byte: u8) -> bool
    requires { from ≤ length bytes.now }
    ensures { IsTrue result → (x : ℕ) → from ≤ x → x < length bytes.now → slice_index bytes.now x ≡ byte }
{
    // No branch leaves the loop, so that many bytes are looked at in one step.
    let mut alike = true;
    for x in from..bytes.len() {
        alike = alike & (bytes[x] == byte);
    }
    alike
}

/// Whether each of the signs or the flags of a row is this one. `false` is free, as above.
#[inline(always)]
pub fn are_all(bytes: &[u8], byte: u8) -> bool
    ensures { IsTrue result → AreAllOf bytes.now byte }
{
    let runs = bytes.len() / 64;
    for run in 0..runs {
        if !are_many(bytes, 64 * run, byte) {
            return false;
        }
    }
    are_from(bytes, 64 * runs, byte)
}

/// Whether the 64 bytes of each of these rows of signs from a place on are this one. `false` is free, as above.
#[inline(always)]
fn are_many_alike(signs: RowSigns, from: usize, sign: u8) -> bool
    requires here { from + 64 ≤ length signs.here.now }
    requires up { from + 64 ≤ length signs.up.now }
    requires far { from + 64 ≤ length signs.far.now }
    requires both { from + 64 ≤ length signs.both.now }
    ensures here { IsTrue result → (k : ℕ) → k < 64 → slice_index signs.entry.here.now (from + k) ≡ sign }
    ensures up { IsTrue result → (k : ℕ) → k < 64 → slice_index signs.entry.up.now (from + k) ≡ sign }
    ensures far { IsTrue result → (k : ℕ) → k < 64 → slice_index signs.entry.far.now (from + k) ≡ sign }
    ensures both { IsTrue result → (k : ℕ) → k < 64 → slice_index signs.entry.both.now (from + k) ≡ sign }
{
    are_many(signs.here, from, sign)
        && are_many(signs.up, from, sign)
        && are_many(signs.far, from, sign)
        && are_many(signs.both, from, sign)
}

/// Whether each of the signs of these rows is this one. `false` is free, as above.
#[inline(always)]
fn are_rows_alike(signs: RowSigns, sign: u8) -> bool
    requires up { length signs.up.now ≡ length signs.here.now }
    requires far { length signs.far.now ≡ length signs.here.now }
    requires both { length signs.both.now ≡ length signs.here.now }
    ensures here { IsTrue result → AreAllOf signs.entry.here.now sign }
    ensures up { IsTrue result → AreAllOf signs.entry.up.now sign }
    ensures far { IsTrue result → AreAllOf signs.entry.far.now sign }
    ensures both { IsTrue result → AreAllOf signs.entry.both.now sign }
{
    let runs = signs.here.len() / 64;
    for run in 0..runs {
        if !are_many_alike(signs, 64 * run, sign) {
            return false;
        }
    }
    are_from(signs.here, 64 * runs, sign)
        && are_from(signs.up, 64 * runs, sign)
        && are_from(signs.far, 64 * runs, sign)
        && are_from(signs.both, 64 * runs, sign)
}

/// Whether all points around a row of cells are above, or none is: no crossing edge begins in the row of points then, and the
/// cells have no loops. `false` is free, as above.
pub fn are_alike<H: Heights>(field: &H, signs: RowSigns, y: u32, z: u32) -> bool
    requires y { y < (H.leveled field.now).grid.ny }
    requires z { z < (H.leveled field.now).grid.nz }
    requires signs { AreRowSigns (H.leveled field.now) y z signs }
    ensures still { IsTrue result → IsStill (H.leveled field.now) y z }
    ensures none { IsTrue result → HasNoLoops (H.leveled field.now) y z }
{
    let _ = (field.sizes(), y, z);
    are_rows_alike(signs, signs.here[0])
}
