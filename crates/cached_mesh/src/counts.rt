//! How many centres and triangles the cells of a brick have, by the brick's entries.

ghost use Rattle.std.specs.Prelude.{◌≡◌, ◌+◌, ◌%◌, ◌^◌, ◌<◌, ◌≤◌, All, length};
ghost use Rattle.iso_defs.specs.Bricks.{brick_count, entries as entries_of_brick};
ghost use Rattle.iso_base.specs.Volume.{field};
ghost use Rattle.cell_loops.specs.Loops.{row_centres, row_triangles};
ghost use Rattle.brick_rows.specs.Named.{centres_of_entries, counts_of_entries, triangles_of_entries};

use arrayvec::ArrayVec;
use brick_mesh::extract_brick;
use brick_rows::Counts;
use brick_store::{BrickId, BrickStore};
use case_table::CaseRow;
use cell_loops::{centre_count, triangle_count};
use iso_base::{Level, Steps};
use page_pool::Entries;
use std::sync::ledger::Ledger;

/// Counts the cell of an entry with those before.
#[inline(always)]
fn count_entry(entry: u32, counts: Counts) -> Counts
    requires case { entry % 1024 < 656 }
    requires centres { counts.centres + length (row_centres (entry % 1024)) < 2 ^ 32 }
    requires faces { counts.faces + length (row_triangles (entry % 1024)) < 2 ^ 32 }
    ensures centres { result.centres ≡ counts.centres + length (row_centres (entry % 1024)) }
    ensures faces { result.faces ≡ counts.faces + length (row_triangles (entry % 1024)) }
{
    let case = CaseRow::of((entry % 1024) as u16);
    Counts {
        centres: counts.centres + u32::from(centre_count(case)),
        faces: counts.faces + u32::from(triangle_count(case)),
    }
}

/// Counts the cells of some entries with those before.
#[inline(always)]
fn count_page(page: &[u32], counts: Counts) -> Counts
    requires cases { All (λ e. e % 1024 < 656) page.now }
    requires centres { counts.centres + centres_of_entries page.now < 2 ^ 32 }
    requires faces { counts.faces + triangles_of_entries page.now < 2 ^ 32 }
    ensures centres { result.centres ≡ counts.centres + centres_of_entries page.now }
    ensures faces { result.faces ≡ counts.faces + triangles_of_entries page.now }
{
    let mut counts = counts;
    for entry in page {
        counts = count_entry(*entry, counts);
    }
    counts
}

/// How many centres and triangles the cells of some entries have: of no more than a brick has cells.
pub fn count_entries(entries: &[u32]) -> Counts
    requires few { length entries.now ≤ 512 }
    requires cases { All (λ e. e % 1024 < 656) entries.now }
    ensures { result ≡ counts_of_entries entries.now }
{
    let none = Counts {
        centres: 0,
        faces: 0,
    };
    count_page(entries, none)
}

/// How many the cells of entries have that are lent page by page.
pub fn count_pages(entries: Entries<'_>) -> Counts
    requires few { length entries ≤ 512 }
    requires cases { All (λ e. e % 1024 < 656) entries }
    ensures { result ≡ counts_of_entries entries.entry }
{
    let mut counts = Counts {
        centres: 0,
        faces: 0,
    };
    let mut left = entries;
    while !left.front().is_empty() {
        counts = count_page(left.front(), counts);
        left = left.rest();
    }
    counts
}

/// How many the cells of a brick have at a level, by its samples. The counter is raised by at most 512.
pub fn count_anew<L: Ledger>(
    store: &BrickStore,
    brick: BrickId,
    level: Level,
    steps: &mut Steps<L>,
) -> Counts
    requires { brick.0 < brick_count store.now.grid }
    ensures counts { result ≡ counts_of_entries
        (entries_of_brick store.now.grid (field store.now.samples level) brick.0) }
    ensures least { steps.old ≤ steps.new }
    ensures most { steps.new ≤ steps.old + 512 }
{
    let mut entries = ArrayVec::new();
    extract_brick(store, brick, level, &mut entries, steps);
    count_entries(entries.as_slice())
}
