//! The edges that begin in a row of points are left behind: they give up their labels, and are counted.

ghost use Rattle.std.specs.Prelude.{◌≡◌, ℕ, ◌+◌, ◌*◌, ◌^◌, ◌<◌, ◌≤◌, OnOk, slice_index};
ghost use Rattle.std.specs.Int.{bit_at};
ghost use Rattle.component_labels.specs.Fronts.{none, room};
ghost use Rattle.component_walk.specs.Passed.{CanLeave, HasLeft};

use crate::edges_behind::Passed;
use component_labels::{Labels, NO_LABEL};
use iso_base::Memory;

/// Leaves the edge at a place behind: it is crossing where it has a label.
#[inline(always)]
fn leave(labels: &mut Labels, edges: &mut Passed, place: u32) -> Result<(), Memory>
    requires place { place < room labels.old.marks.grid }
    requires state { CanLeave place 1 labels.old edges.old }
    ensures { OnOk result (HasLeft place 1 labels.old edges.old labels.new edges.new) }
{
    let label = labels.leave(place);
    if label == NO_LABEL {
        return Ok(());
    }
    edges.pass(label)?;
    Ok(())
}

/// Which of 24 edges from a place on have labels, as many as begin at the points of a whole brick in a row: each has a bit, the first the lowest.
#[inline(always)]
fn labelled_of_brick(labels: &Labels, place: u32) -> u64
    requires place { place + 24 ≤ room labels.now.marks.grid }
    requires low { place + 24 < 2 ^ 32 }
    ensures bits { (k : ℕ) → k < 24 → bit_at result k ≡ 0 → slice_index labels.now.marks.labels (place + k) ≡ none }
    ensures bound { result < 2 ^ 24 }
{
    labels.eight_with_labels(place)
        + 256 * labels.eight_with_labels(place + 8)
        + 65_536 * labels.eight_with_labels(place + 16)
}

/// Which of so many edges from a place on may have labels. It is known of 24 edges alone: the last brick of a row has more or fewer.
#[inline(always)]
fn labelled_among(labels: &Labels, place: u32, count: u32) -> u64
    requires place { place + count ≤ room labels.now.marks.grid }
    requires few { count ≤ 24 }
    requires low { place + count < 2 ^ 32 }
    ensures bits { (k : ℕ) → k < count → bit_at result k ≡ 0 → slice_index labels.now.marks.labels (place + k) ≡ none }
    ensures bound { result < 2 ^ count }
{
    if count == 24 {
        return labelled_of_brick(labels, place);
    }
    (1 << count) - 1
}

/// Leaves up to 24 edges behind from a place on, those that may have labels one by one. So there is one branch whose way a processor would have to
/// guess for all of them.
// Apart, since many rows of bricks have no labels.
#[inline(never)]
fn leave_labelled(
    labels: &mut Labels,
    edges: &mut Passed,
    place: u32,
    count: u32,
) -> Result<(), Memory>
    requires place { place + count ≤ room labels.old.marks.grid }
    requires some { 0 < count }
    requires few { count ≤ 24 }
    requires state { CanLeave place count labels.old edges.old }
    ensures { OnOk result (HasLeft place count labels.old edges.old labels.new edges.new) }
{
    let mut bits = labelled_among(labels, place, count);
    let mut at = 0;
    while bits != 0 {
        let skipped = bits.trailing_zeros();
        leave(labels, edges, place + (at + skipped))?;
        at += skipped + 1;
        bits = (bits >> skipped) / 2;
    }
    Ok(())
}

/// Leaves up to 24 edges behind from a place on: at once where none of them has a label.
#[inline(always)]
fn leave_some(labels: &mut Labels, edges: &mut Passed, place: u32, count: u32) -> Result<(), Memory>
    requires place { place + count ≤ room labels.old.marks.grid }
    requires some { 0 < count }
    requires few { count ≤ 24 }
    requires state { CanLeave place count labels.old edges.old }
    ensures { OnOk result (HasLeft place count labels.old edges.old labels.new edges.new) }
{
    if count == 24 && labels.are_unlabelled(place) {
        return Ok(());
    }
    leave_labelled(labels, edges, place, count)
}

/// Leaves so many edges behind from a place on.
#[inline(always)]
pub fn leave_edges(
    labels: &mut Labels,
    edges: &mut Passed,
    place: u32,
    count: u32,
) -> Result<(), Memory>
    requires place { place + count ≤ room labels.old.marks.grid }
    requires state { CanLeave place count labels.old edges.old }
    ensures { OnOk result (HasLeft place count labels.old edges.old labels.new edges.new) }
{
    let mut at = 0;
    while at < count {
        let some = (count - at).min(24);
        leave_some(labels, edges, place + at, some)?;
        at += some;
    }
    Ok(())
}
