//! The cases of the cells of a brick that lie in some slices, by the brick's entries.

ghost use Rattle.std.specs.Prelude.{◌≡◌, ℕ, ◌*◌, ◌/◌, ◌<◌, ◌≤◌, ◌∷◌, [], All, false, IsTrue, length, nat_lt};
ghost use Rattle.std.specs.Prelude.{slice_index};
ghost use Rattle.std.specs.List.Sorted.{IsPartitionedBy};
ghost use Rattle.cached_mesh.specs.Kept.{last_case};

use page_pool::Entries;

/// The most cells of a brick.
pub const BRICK_CELLS: usize = 512;

/// Planes across z of the cells of a brick: from one to before another.
#[derive(Clone, Copy, Drop)]
pub struct Across {
    pub first: u8,
    pub end: u8,
}

/// Writes the case of an entry in the place of its cell.
#[inline(always)]
fn set_case(entry: u32, cases: &mut [u16; BRICK_CELLS])
    requires cell { entry < 524288 }
    ensures { (k : ℕ) → k < 512 → slice_index cases.new k ≡ last_case (slice_index cases.old k) (entry ∷ []) k }
{
    cases[(entry / 1024) as usize] = (entry % 1024) as u16;
}

/// Writes the cases of some entries in the places of their cells.
#[inline(always)]
fn fill_each(entries: &[u32], cases: &mut [u16; BRICK_CELLS])
    requires cells { All (λ e. e < 524288) entries.now }
    ensures { (k : ℕ) → k < 512 → slice_index cases.new k ≡ last_case (slice_index cases.old k) entries.now k }
{
    for entry in entries {
        set_case(*entry, cases);
    }
}

/// In which slice the cell of an entry lies.
#[inline(always)]
fn slice_of_entry(entry: u32) -> u32
    ensures { result ≡ entry / 65536 }
{
    entry / 65_536
}

/// Whether the cells of some ascending entries all lie in slices before one.
#[inline(always)]
fn end_before(page: &[u32], z: u8) -> bool
    requires { IsPartitionedBy (λ e. nat_lt e (65536 * z)) page.now }
    ensures { IsTrue result → (i : ℕ) → i < length page.now → slice_index page.now i < 65536 * z }
{
    match page.last() {
        Some(last) => slice_of_entry(*last) < u32::from(z),
        None => true,
    }
}

/// Whether there are entries, and the first one's cell lies in a slice before one.
#[inline(always)]
fn begin_before(page: &[u32], z: u8) -> bool
    ensures some { IsTrue result → 0 < length page.now }
    ensures behind { result ≡ false → 0 < length page.now → 65536 * z ≤ slice_index page.now 0 }
{
    match page.first() {
        Some(first) => slice_of_entry(*first) < u32::from(z),
        None => false,
    }
}

/// Writes the cases of some ascending entries in the places of their cells, unless all of them lie in slices before
/// one. To test each entry would cost more than to write the few of such slices too.
#[inline(always)]
fn fill_page(page: &[u32], first: u8, cases: &mut [u16; BRICK_CELLS])
    requires cells { All (λ e. e < 524288) page.now }
    requires begins { IsPartitionedBy (λ e. nat_lt e (65536 * first)) page.now }
    ensures { (k : ℕ) → 64 * first ≤ k → k < 512
        → slice_index cases.new k ≡ last_case (slice_index cases.old k) page.now k }
{
    if end_before(page, first) {
        return;
    }
    fill_each(page, cases);
}

/// Writes the cases of the cells of some slices over zeros in their places, by the entries of their brick.
/// What stands in the places of other cells is left free. Of pages that end before the slices the last entry is read,
/// and none of those behind them.
// What is written stays where it is: a list of so many cases that were a result would be copied.
#[inline(always)]
pub fn fill_across(entries: Entries<'_>, across: Across, cases: &mut [u16; BRICK_CELLS])
    requires end { across.end ≤ 8 }
    requires cells { All (λ e. e < 524288) entries }
    requires begins { IsPartitionedBy (λ e. nat_lt e (65536 * across.first)) entries }
    requires ends { IsPartitionedBy (λ e. nat_lt e (65536 * across.end)) entries }
    requires zeros { (k : ℕ) → k < 512 → slice_index cases.old k ≡ 0 }
    ensures { (k : ℕ) → 64 * across.first ≤ k → k < 64 * across.end
        → slice_index cases.new k ≡ last_case 0 entries.entry k }
{
    let mut left = entries;
    while begin_before(left.front(), across.end) {
        fill_page(left.front(), across.first, cases);
        left = left.rest();
    }
}
