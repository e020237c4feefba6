//! The faces of a cell: how an ambiguous one is decided, and where the segments of each run.
//!
//! A face is read along its cycle of four corners. Edge i of the cycle runs from corner i to the next corner.
//!
//! Why: DECISIONS.md, "Ties".
#![tactic(auto)]

ghost use Rattle.std.specs.Prelude.{◌≡◌, ℕ, ◌^◌, ◌*ℤ◌, ◌<◌, ◌==◌, IsTrue, reverse, unsigned_abs, slice_index};
ghost use Rattle.std.specs.List.{All};
ghost use Rattle.iso_defs.specs.Lists.{has_pair};
ghost use Rattle.iso_defs.specs.Face.{is_ambiguous, segments, reversed_edge};
ghost use Rattle.iso_defs.specs.Cell.{signs_of};
ghost use Rattle.iso_defs.specs.Bricks.{bits_of};
ghost use Rattle.face_decider.specs.Cycle.{AreReverses, cycle_ends, cycle_joined, mirrored, mirrored_edge};

/// Where the segments of a face end: `next[i]` is the cycle edge at which the segment that begins at cycle edge i ends,
/// or 4 where none begins there.
#[derive(Clone, Copy, Debug, PartialEq, Eq)]
pub struct FaceSegs {
    pub next: [u8; 4],
}

/// The ends of the segments by signs: 16 rows for faces that are not joined, then 16 for those that are.
const ROWS: [[u8; 4]; 32] = [
    [4, 4, 4, 4],
    [4, 4, 4, 0],
    [1, 4, 4, 4],
    [4, 4, 4, 1],
    [4, 2, 4, 4],
    [4, 2, 4, 0],
    [2, 4, 4, 4],
    [4, 4, 4, 2],
    [4, 4, 3, 4],
    [4, 4, 0, 4],
    [1, 4, 3, 4],
    [4, 4, 1, 4],
    [4, 3, 4, 4],
    [4, 0, 4, 4],
    [3, 4, 4, 4],
    [4, 4, 4, 4],
    [4, 4, 4, 4],
    [4, 4, 4, 0],
    [1, 4, 4, 4],
    [4, 4, 4, 1],
    [4, 2, 4, 4],
    [4, 0, 4, 2],
    [2, 4, 4, 4],
    [4, 4, 4, 2],
    [4, 4, 3, 4],
    [4, 4, 0, 4],
    [3, 4, 1, 4],
    [4, 4, 1, 4],
    [4, 3, 4, 4],
    [4, 0, 4, 4],
    [3, 4, 4, 4],
    [4, 4, 4, 4],
];

/// The exact product of two shifted values.
fn product(a: i64, b: i64) -> i128
    requires a { unsigned_abs a < 2 ^ 44 }
    requires b { unsigned_abs b < 2 ^ 44 }
    ensures { result ≡ a *ℤ b }
{
    i128::from(a) * i128::from(b)
}

/// Whether an ambiguous face with these shifted values in cycle order is joined: the product of the two values above
/// is at least that of the two below. The products are exact, in 128 bits.
pub fn face_joined(cycle: [i64; 4]) -> bool
    requires ambiguous { IsTrue (is_ambiguous (signs_of cycle)) }
    requires small { All (λ v. unsigned_abs v < 2 ^ 44) cycle }
    ensures { result ≡ cycle_joined cycle }
{
    let even = product(cycle[0], cycle[2]);
    let odd = product(cycle[1], cycle[3]);
    if cycle[0] >= 0 {
        odd <= even
    } else {
        even <= odd
    }
}

/// The segments of a face. Bit i of `signs` is set where corner i of the cycle is above. Where the face is not ambiguous,
/// `joined` makes no difference.
pub fn face_segments(signs: u8, joined: bool) -> FaceSegs
    requires { signs < 16 }
    ensures ends { result.next ≡ cycle_ends (bits_of 4 signs) joined }
    ensures segments { (i k : ℕ) → i < 4 → k < 4
        → (slice_index result.next i == k) ≡ has_pair (segments (bits_of 4 signs) joined) i k }
{
    let row = if joined { signs + 16 } else { signs };
    FaceSegs {
        next: ROWS[row as usize],
    }
}

/// A law: a cycle that is run the other way has the reversed segments. The cycle is reversed from its last corner
/// (c3, c2, c1, c0) or, as the cell beyond the face runs it, from its first one (c0, c3, c2, c1).
pub fn row_reversal(signs: u8, joined: bool)
    requires { signs < 16 }
    ensures reversed { AreReverses (bits_of 4 signs) (reverse (bits_of 4 signs)) joined reversed_edge }
    ensures beyond { AreReverses (bits_of 4 signs) (mirrored (bits_of 4 signs)) joined mirrored_edge }
{}
