//! Whether the arcs around a vertex form one fan.

ghost use Rattle.std.specs.Prelude.{◌≡◌, ℕ, ◌+◌, ◌<◌, ◌^◌, length, All, Option, None};
ghost use Rattle.arc_rings.specs.Arcs.{ArcBelow};
ghost use Rattle.mesh_check.specs.Marks.{IsMarked, IsUnmarked, IsLeastTwice};
ghost use Rattle.mesh_check.specs.Judged.{IsFanOf};

use crate::marks::{Mark, ends_of, mark_arcs, walk_length};

/// What the arcs around one vertex are.
#[derive(Clone, Copy)]
pub enum Fan {
    /// Some vertex begins two of them: the least one.
    Twice(u32),
    /// One fan; with the number of arcs that begin where none ends.
    Whole(u32),
    /// Several fans; with that number.
    Split(u32),
}

/// Looks at the arcs around one vertex. The stamp is new to the marks, and stays in them.
pub fn fan_of(marks: &mut [Mark], arcs: &[(u32, u32)], stamp: u32) -> Fan
    requires vertices { All (ArcBelow (length marks.old)) arcs.now }
    requires unmarked { IsUnmarked marks.old stamp }
    requires few { length arcs.now < 2 ^ 32 }
    ensures older { IsUnmarked marks.new (stamp + 1) }
    ensures fan { IsFanOf arcs.now result }
{
    match mark_arcs(marks, arcs, stamp) {
        Some(b) => Fan::Twice(b),
        None => walked_fan(marks, arcs, stamp),
    }
}

fn walked_fan(marks: &[Mark], arcs: &[(u32, u32)], stamp: u32) -> Fan
    requires marked { IsMarked marks.now stamp arcs.now }
    requires vertices { All (ArcBelow (length marks.now)) arcs.now }
    requires few { length arcs.now < 2 ^ 32 }
    requires once { IsLeastTwice arcs.now None }
    ensures { IsFanOf arcs.now result }
{
    if arcs.is_empty() {
        return Fan::Whole(0);
    }
    let ends = ends_of(marks, arcs, stamp);
    if walk_length(marks, arcs, stamp, ends.start) == arcs.len() {
        Fan::Whole(ends.loose)
    } else {
        Fan::Split(ends.loose)
    }
}
