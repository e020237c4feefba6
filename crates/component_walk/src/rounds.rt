//! What a loop of a cell spans, from the cell's lowest point.

ghost use Rattle.std.specs.Prelude.{◌≡◌, ℕ, ◌+◌, ◌*◌, ◌<◌, ◌≤◌, ◌^◌, All, IsTrue, pos, ◌*ℤ◌, unsigned_abs};
ghost use Rattle.cell_loops.specs.Loops.{IsLoop};
ghost use Rattle.iso_defs.specs.Cell.{crosses, signs_of};
ghost use Rattle.measure_laws.specs.Vectors.{cross, dot, minor as minor_of, plus};
ghost use Rattle.measure.specs.Measures.{IsWithin, coordinates, vector_of};
ghost use Rattle.part_laws.specs.Swept.{swept as swept_by};
ghost use Rattle.component_walk.specs.Local.{listed, local_tip, local_vertex, position_of};
ghost use Rattle.component_walk.specs.Sweep.{vector_at};

use crate::positions::{local_lanes, parts, tip_of};

/// What a loop of a cell spans.
#[derive(Clone, Copy)]
pub struct Round {
    /// The sum of the vector products of each two neighbours.
    pub swept: [i64; 3],
    /// Where its centre is from the cell's lowest point, or its first vertex if it has none.
    pub tip: [u32; 3],
}

/// The determinant of two vectors of two coordinates.
#[inline(always)]
fn minor(a: u32, b: u32, c: u32, d: u32) -> i64
    requires a { a ≤ 1000 }
    requires b { b ≤ 1000 }
    requires c { c ≤ 1000 }
    requires d { d ≤ 1000 }
    ensures value { result ≡ minor_of (pos a) (pos b) (pos c) (pos d) }
    ensures within { unsigned_abs result ≤ 1000000 }
{
    i64::from(a * d) - i64::from(b * c)
}

/// A vector and the vector product of two positions.
#[inline(always)]
fn with_cross(swept: &[i64; 3], a: &[u32; 3], b: &[u32; 3]) -> [i64; 3]
    requires room { IsWithin (2 ^ 40) (vector_of swept.now) }
    requires a { All (λ c. c ≤ 1000) a.now }
    requires b { All (λ c. c ≤ 1000) b.now }
    ensures value { result ≡ coordinates (plus (vector_of swept.now)
        (cross (vector_at (position_of a.now)) (vector_at (position_of b.now)))) }
    ensures within { (m : ℕ) → IsWithin m (vector_of swept.now) → IsWithin (m + 1000000) (vector_of result) }
{
    [
        swept[0] + minor(a[1], a[2], b[1], b[2]),
        swept[1] + minor(a[2], a[0], b[2], b[0]),
        swept[2] + minor(a[0], a[1], b[0], b[1]),
    ]
}

/// What the loop of these edges of a cell spans, by the shifted values at the cell's corners.
#[inline(always)]
pub fn round_of(heights: &[i64; 8], edges: &[u8]) -> Round
    requires bound { All (λ h. unsigned_abs h < 2 ^ 44) heights.now }
    requires edges { IsLoop edges.now }
    requires crossing { All (λ e. IsTrue (crosses (signs_of heights.now) e)) edges.now }
    ensures swept { result.swept ≡ coordinates (swept_by (λ e. vector_at (local_vertex heights.now e)) edges.now) }
    ensures within { IsWithin 12000000 (vector_of result.swept) }
    ensures tip { result.tip ≡ listed (local_tip (local_vertex heights.now) edges.now) }
    ensures bound { All (λ c. c ≤ 1000) result.tip }
{
    let count = edges.len();
    let mut sum = local_lanes(heights, edges[0]);
    let first = parts(sum);
    let mut swept = [0; 3];
    let mut last = first;
    for at in 1..count {
        let lanes = local_lanes(heights, edges[at]);
        let next = parts(lanes);
        swept = with_cross(&swept, &last, &next);
        sum += lanes;
        last = next;
    }
    Round {
        swept: with_cross(&swept, &last, &first),
        tip: tip_of(&parts(sum), &first, count as u32),
    }
}

/// A coordinate times that of a vector.
#[inline(always)]
fn product(a: u32, b: i64) -> i64
    requires a { a < 2 ^ 20 }
    requires b { unsigned_abs b < 2 ^ 24 }
    ensures value { result ≡ pos a *ℤ b }
    ensures within { unsigned_abs result < 2 ^ 44 }
{
    i64::from(a) * b
}

/// Six times the volume between the origin and what is spanned from a point.
#[inline(always)]
pub fn six_over(tip: &[u32; 3], swept: &[i64; 3]) -> i64
    requires tip { All (λ c. c ≤ 1027000) tip.now }
    requires swept { IsWithin 12000000 (vector_of swept.now) }
    ensures value { result ≡ dot (vector_at (position_of tip.now)) (vector_of swept.now) }
    ensures within { unsigned_abs result < 2 ^ 46 }
{
    product(tip[0], swept[0]) + product(tip[1], swept[1]) + product(tip[2], swept[2])
}
