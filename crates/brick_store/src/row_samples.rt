//! Samples of a row, along x, taken from the bricks that hold them.
ghost use Rattle.std.specs.Prelude.{◌≡◌, ℕ, ◌+◌, ◌*◌, ◌^◌, ◌<◌, ◌≤◌, length, map};
ghost use Rattle.iso_defs.specs.Lists.{below};
ghost use Rattle.iso_base.specs.Points.{IsPoint, index_of};
ghost use Rattle.iso_base.specs.Volume.{sample};
ghost use Rattle.brick_store.specs.Copies.{AreCopies, first_brick_along, samples_of};

use crate::copies::first_copy_place;
use crate::numbering::first_brick_along;
use iso_base::{Point, Sizes};
use packed_samples::PackedList;

/// Copies eights of samples: of each brick along x those behind its first, which the brick before it has too. The first of them
/// has its copy at a place, and from the copy of one brick to that of the next are 729 places.
fn copy_eights<C: PackedList>(copies: &C, place: usize, into: &mut [i64], eights: usize)
    requires few { place + 729 * eights < 2 ^ 33 }
    requires room { 8 * eights ≤ length into.old }
    requires there { place + 729 * eights ≤ length (C.list copies.now) + 721 }
    ensures count { length into.new ≡ length into.old }
    ensures taken { (k d : ℕ) → k < eights → d < 8 → sample into.new (8 * k + d)
        ≡ sample (C.list copies.now) (place + 729 * k + d) }
{
    for k in 0..eights {
        copies.copy_to(place + 729 * k, &mut into[8 * k..8 * k + 8]);
    }
}

/// Copies the samples of a row from a point on that is the second of a brick along x, so many as there is room for.
fn copy_rest<C: PackedList>(sizes: &Sizes, copies: &C, p: Point, into: &mut [i64])
    requires copies { AreCopies sizes.now (C.list copies.now) }
    requires point { IsPoint sizes.now p }
    requires second { p.x ≡ 8 * first_brick_along p.x + 1 }
    requires fits { p.x + length into.old ≤ sizes.now.nx }
    ensures { into.new ≡ map (λ d. sample (samples_of sizes.now (C.list copies.now)) (index_of sizes.now p + d))
        (below (length into.old)) }
{
    // Reading a size brings in that the sizes are those of a grid.
    let _ = sizes.nx();
    let place = first_copy_place(sizes, p);
    let eights = into.len() / 8;
    copy_eights(copies, place, into, eights);
    let done = 8 * eights;
    if done < into.len() {
        copies.copy_to(place + 729 * eights, &mut into[done..]);
    }
}

/// Copies the samples of a row from a point on along x, so many as there is room for: those that the first brick has which
/// holds the point, and then those of the bricks behind it.
pub fn copy_row<C: PackedList>(sizes: &Sizes, copies: &C, p: Point, into: &mut [i64])
    requires copies { AreCopies sizes.now (C.list copies.now) }
    requires point { IsPoint sizes.now p }
    requires fits { p.x + length into.old ≤ sizes.now.nx }
    ensures { into.new ≡ map (λ d. sample (samples_of sizes.now (C.list copies.now)) (index_of sizes.now p + d))
        (below (length into.old)) }
{
    // Reading a size brings in that the sizes are those of a grid.
    let _ = sizes.nx();
    let first = (8 * first_brick_along(p.x) + 9 - p.x) as usize;
    let begun = first.min(into.len());
    copies.copy_to(first_copy_place(sizes, p), &mut into[..begun]);
    if begun < into.len() {
        let x = p.x + begun as u32;
        copy_rest(sizes, copies, Point { x, ..p }, &mut into[begun..]);
    }
}
