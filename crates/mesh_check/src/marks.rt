//! Marks at the vertices around one vertex: where its arcs begin and end, and how far a path over them leads.

ghost use Rattle.std.specs.Prelude.{◌≡◌, ℕ, ◌+◌, ◌<◌, ◌≤◌, List, length, All, ◌^◌, not};
ghost use Rattle.std.specs.List.{count_by};
ghost use Rattle.iso_defs.specs.FanWalk.{walked, IsFanStart};
ghost use Rattle.iso_defs.specs.Lists.{ends};
ghost use Rattle.arc_rings.specs.Arcs.{ArcBelow};
ghost use Rattle.mesh_check.specs.Marks.{IsMarked, IsUnmarked, IsPut, begun, noted_of, IsLeastTwice};

/// What the arcs around one vertex do at another. Marks are written with a stamp that is new for each vertex looked at,
/// so they are never cleared.
#[derive(Clone, Copy)]
pub struct Mark {
    /// The stamp, where an arc begins here.
    pub owner: u32,
    /// Where that arc ends.
    pub to: u32,
    /// The stamp, where an arc ends here.
    pub ended: u32,
}

/// Marks the vertices of the arcs; answers the least vertex that begins two of them.
pub fn mark_arcs(marks: &mut [Mark], arcs: &[(u32, u32)], stamp: u32) -> Option<u32>
    requires vertices { All (ArcBelow (length marks.old)) arcs.now }
    requires unmarked { IsUnmarked marks.old stamp }
    ensures marked { IsMarked marks.new stamp arcs.now }
    ensures older { IsUnmarked marks.new (stamp + 1) }
    ensures twice { IsLeastTwice arcs.now result }
{
    let mut twice = None;
    for &(begin, end) in arcs.iter().rev() {
        twice = least_twice(twice, begin, marks[begin as usize].owner == stamp);
        set_mark(marks, begin, end, stamp);
    }
    twice
}

/// The least vertex at which two arcs begin, with one more arc that begins at b, again or for the first time.
fn least_twice(twice: Option<u32>, b: u32, again: bool) -> Option<u32>
    ensures { result ≡ noted_of twice b again }
{
    match twice {
        _ if !again => twice,
        Some(c) if c < b => Some(c),
        _ => Some(b),
    }
}

fn set_mark(marks: &mut [Mark], begin: u32, end: u32, stamp: u32)
    requires begin { begin < length marks.old }
    requires end { end < length marks.old }
    ensures { IsPut marks.old marks.new begin end stamp }
{
    let from = &mut marks[begin as usize];
    from.owner = stamp;
    from.to = end;
    marks[end as usize].ended = stamp;
}

/// How many of the arcs the walk from the start takes.
pub fn walk_length(marks: &[Mark], arcs: &[(u32, u32)], stamp: u32, start: u32) -> usize
    requires marked { IsMarked marks.now stamp arcs.now }
    requires vertices { All (ArcBelow (length marks.now)) arcs.now }
    requires start { start < length marks.now }
    ensures { result ≡ length (walked arcs.now (length arcs.now) start start) }
{
    let most = arcs.len();
    let mut steps = 0;
    let mut at = start;
    while steps < most && marks[at as usize].owner == stamp {
        steps += 1;
        at = marks[at as usize].to;
        if at == start {
            return steps;
        }
    }
    steps
}

/// Where a walk may start, and how many arcs begin where none ends.
#[derive(Clone, Copy)]
pub struct Ends {
    pub start: u32,
    pub loose: u32,
}

/// The ends of the arcs, of which there are some.
pub fn ends_of(marks: &[Mark], arcs: &[(u32, u32)], stamp: u32) -> Ends
    requires marked { IsMarked marks.now stamp arcs.now }
    requires vertices { All (ArcBelow (length marks.now)) arcs.now }
    requires some { 0 < length arcs.now }
    requires few { length arcs.now < 2 ^ 32 }
    ensures start { IsFanStart arcs.now result.start }
    ensures below { result.start < length marks.now }
    ensures loose { result.loose ≡ count_by (λ (p : ℕ × ℕ). not (ends arcs.now p.0)) arcs.now }
{
    let (mut start, _) = arcs[0];
    let mut loose = 0u32;
    for &(begin, _) in arcs {
        if marks[begin as usize].ended != stamp {
            start = begin;
            loose += 1;
        }
    }
    Ends { start, loose }
}
