//! Laws of one face and of one cell.

ghost use Rattle.iso_defs.specs.Cell.{crosses, joined_of, next_pairs, signs_of};
ghost use Rattle.iso_defs.specs.CellLaws.{IsPermutationOfCrossings, IsWedge};
ghost use Rattle.iso_defs.specs.Face.{cycle_segments, reversed_edge, reversed_segments};
ghost use Rattle.iso_defs.specs.Lists.{has_pair};
ghost use Rattle.std.specs.Prelude.{ℕ, ◌<◌, ◌≡◌, true};

/// The segments of a face cycle with these shifted values and of the reversed cycle are each other's reverses.
/// So two cells that share a face run its segments in opposite directions.
pub fn face_agrees(cycle: [i64; 4])
    ensures { (i k : ℕ) → i < 4 → k < 4 → has_pair (cycle_segments cycle) i k
        ≡ has_pair (reversed_segments cycle) (reversed_edge k) (reversed_edge i) }
{}

/// The segments of a cell with these shifted values at its corners permute its crossing edges, and each of its
/// loops has at least three of them.
pub fn cell_successor_is_permutation(values: [i64; 8])
    ensures { IsPermutationOfCrossings (signs_of values) (next_pairs (signs_of values) (joined_of values)) }
{}

/// Exactly one loop of a cell with these shifted values holds a crossing edge. The arcs around the vertex of that edge
/// in the loop's triangles form one path from the edge that follows to the edge before, straight or through the loop's
/// centre. The edge that follows lies in the face where the edge runs from below to above, and the edge before in the
/// face where it runs from above to below.
pub fn wedge(values: [i64; 8], edge: u8)
    requires low { edge < 12 }
    requires crossing { crosses (signs_of values) edge ≡ true }
    ensures { IsWedge (signs_of values) (joined_of values) edge }
{}
