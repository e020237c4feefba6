//! The lattice edges of a plane, and which of them a contour line joins.
//!
//! A plane has numbers of its own, by point and axis, so that one list of flags says which lines were met, and the cost
//! grows with the plane alone.

ghost use Rattle.std.specs.Prelude.{◌≡◌, ℕ, ◌+◌, ◌*◌, ◌<◌, ◌^◌, ◌==◌, ◌∷◌, [], ℤ, true, false, MatchOption, IfSome, position, slice_index, unsigned_abs};
ghost use Rattle.iso_defs.specs.Bricks.{bits_of};
ghost use Rattle.iso_defs.specs.Face.{is_ambiguous, is_joined, value_segments};
ghost use Rattle.iso_defs.specs.Grid.{is_above, index, edge_lower, edge_upper};
ghost use Rattle.iso_defs.specs.Lists.{begins, ends, has_pair};
ghost use Rattle.plane_laws.specs.Sides.{side, side_pairs, runs_along, HasSide};
ghost use Rattle.plane_contour.specs.Planes.{IsPlane, IsEdge, IsSideOf, IsNext, IsPrevious, square_side, field_of, pairs_of, name_at};

use face_decider::{FaceSegs, face_joined, face_segments};
use iso_base::{Level, Sizes};

/// The samples of plane z = k of a grid, by index, at a level.
#[derive(Clone, Copy)]
pub struct Plane<'a> {
    pub values: &'a [i64],
    pub sizes: Sizes,
    pub k: u32,
    pub level: Level,
}

/// A lattice edge of a plane: from the point (x, y) along axis 0, which is x, or 1, which is y.
#[derive(Clone, Copy)]
pub struct Edge {
    pub x: u32,
    pub y: u32,
    pub axis: u8,
}

impl Plane<'_> {
    /// The shifted value at (x, y).
    fn value(&self, x: u32, y: u32) -> i64
        requires plane { IsPlane self.now }
        requires x { x < self.now.sizes.nx }
        requires y { y < self.now.sizes.ny }
        ensures value { result ≡ field_of self.now (index self.now.sizes x y self.now.k) }
        ensures bound { unsigned_abs result < 2 ^ 44 }
    {
        self.level
            .shifted(self.values[(x + self.sizes.nx() * y) as usize])
    }

    /// The shifted values at the lower and at the upper end of an edge.
    pub fn ends(&self, edge: Edge) -> (i64, i64)
        requires plane { IsPlane self.now }
        requires edge { IsEdge self.now.sizes edge }
        ensures lower { result.0 ≡ field_of self.now (edge_lower (name_at self.now.sizes self.now.k edge)) }
        ensures upper { result.1 ≡ field_of self.now
            (edge_upper self.now.sizes (name_at self.now.sizes self.now.k edge)) }
        ensures low_bound { unsigned_abs result.0 < 2 ^ 44 }
        ensures high_bound { unsigned_abs result.1 < 2 ^ 44 }
    {
        let lower = self.value(edge.x, edge.y);
        if edge.axis == 0 {
            (lower, self.value(edge.x + 1, edge.y))
        } else {
            (lower, self.value(edge.x, edge.y + 1))
        }
    }

    /// Whether the lower and whether the upper end of an edge is above.
    fn signs(&self, edge: Edge) -> (bool, bool)
        requires plane { IsPlane self.now }
        requires edge { IsEdge self.now.sizes edge }
        ensures lower { result.0 ≡ is_above (field_of self.now (edge_lower (name_at self.now.sizes self.now.k edge))) }
        ensures upper { result.1 ≡ is_above (field_of self.now
            (edge_upper self.now.sizes (name_at self.now.sizes self.now.k edge))) }
    {
        let (lower, upper) = self.ends(edge);
        (is_above(lower), is_above(upper))
    }

    /// The edge at which the segment that begins at this one ends; none where none begins here.
    pub fn next(&self, edge: Edge) -> Option<Edge>
        requires plane { IsPlane self.now }
        requires edge { IsEdge self.now.sizes edge }
        ensures { IsNext self.now (name_at self.now.sizes self.now.k edge) result }
    {
        let (lower, upper) = self.signs(edge);
        if lower == upper {
            return None;
        }
        let side = self.square(edge, upper)?;
        let ends = self.segments(side.x, side.y).next;
        Some(side_edge(side.x, side.y, ends[side.number as usize]))
    }

    /// The edge at which the segment that ends at this one begins; none where none ends here.
    pub fn previous(&self, edge: Edge) -> Option<Edge>
        requires plane { IsPlane self.now }
        requires edge { IsEdge self.now.sizes edge }
        ensures { IsPrevious self.now (name_at self.now.sizes self.now.k edge) result }
    {
        let (lower, upper) = self.signs(edge);
        if lower == upper {
            return None;
        }
        let side = self.square(edge, lower)?;
        let ends = self.segments(side.x, side.y).next;
        let start = start_of(ends, side.number)?;
        Some(side_edge(side.x, side.y, start as u8))
    }

    /// The square that runs along the edge from its lower to its upper end, or back; none beyond the border.
    fn square(&self, edge: Edge, along: bool) -> Option<Side>
        requires plane { IsPlane self.now }
        requires edge { IsEdge self.now.sizes edge }
        ensures found { IfSome result (λ q. IsSideOf self.now edge along q) }
        ensures none { MatchOption result (¬ HasSide self.now.sizes self.now.k
            (name_at self.now.sizes self.now.k edge) along) (λ q. Unit {0}) }
    {
        let Edge { x, y, axis } = edge;
        match (axis, along) {
            (0, true) if y + 1 < self.sizes.ny() => Some(Side { x, y, number: 0 }),
            (0, false) if y > 0 => Some(Side {
                x,
                y: y - 1,
                number: 2,
            }),
            (1, true) if x > 0 => Some(Side {
                x: x - 1,
                y,
                number: 1,
            }),
            (1, false) if x + 1 < self.sizes.nx() => Some(Side { x, y, number: 3 }),
            _ => None,
        }
    }

    /// The segments of the square at (x, y).
    fn segments(&self, x: u32, y: u32) -> FaceSegs
        requires plane { IsPlane self.now }
        requires x { x + 1 < self.now.sizes.nx }
        requires y { y + 1 < self.now.sizes.ny }
        ensures { (i k : ℕ) → i < 4 → k < 4 →
            (slice_index result.next i == k) ≡ has_pair
            (side_pairs self.now.sizes (field_of self.now) (index self.now.sizes x y self.now.k)) i k }
    {
        square_segments(
            self.value(x, y),
            self.value(x + 1, y),
            self.value(x + 1, y + 1),
            self.value(x, y + 1),
        )
    }
}

/// A side of a unit square of a plane: the square by its lowest point, and the number of the edge in its cycle.
#[derive(Clone, Copy)]
struct Side {
    x: u32,
    y: u32,
    number: u8,
}

/// An edge of the square at (x, y), by its number in the cycle (x, y), (x+1, y), (x+1, y+1), (x, y+1).
fn side_edge(x: u32, y: u32, number: u8) -> Edge
    requires x { x < 2 ^ 31 }
    requires y { y < 2 ^ 31 }
    ensures { result ≡ square_side x y number }
{
    match number {
        0 => Edge { x, y, axis: 0 },
        1 => Edge {
            x: x + 1,
            y,
            axis: 1,
        },
        2 => Edge {
            x,
            y: y + 1,
            axis: 0,
        },
        _ => Edge { x, y, axis: 1 },
    }
}

/// Where the segment begins that ends there.
fn start_of(ends: [u8; 4], end: u8) -> Option<usize>
    ensures { result ≡ position (λ e. e == end) ends }
{
    ends.iter().position(|e| *e == end)
}

/// The segments of a square with these shifted values around it.
fn square_segments(a: i64, b: i64, c: i64, d: i64) -> FaceSegs
    requires a { unsigned_abs a < 2 ^ 44 }
    requires b { unsigned_abs b < 2 ^ 44 }
    requires c { unsigned_abs c < 2 ^ 44 }
    requires d { unsigned_abs d < 2 ^ 44 }
    ensures { (i k : ℕ) → i < 4 → k < 4 →
        (slice_index result.next i == k) ≡ has_pair (value_segments a b c d) i k }
{
    let (first, second) = (is_above(a), is_above(b));
    let (third, fourth) = (is_above(c), is_above(d));
    let joined = is_ambiguous(first, second, third, fourth) && is_joined(a, b, c, d);
    face_segments(sign_number(first, second, third, fourth), joined)
}

fn is_above(value: i64) -> bool
    ensures { result ≡ is_above value }
{
    value >= 0
}

fn is_ambiguous(a: bool, b: bool, c: bool, d: bool) -> bool
    ensures { result ≡ is_ambiguous (a ∷ b ∷ c ∷ d ∷ []) }
{
    a != b && b != c && c != d
}

fn is_joined(a: i64, b: i64, c: i64, d: i64) -> bool
    requires ambiguous { is_ambiguous (is_above a ∷ is_above b ∷ is_above c ∷ is_above d ∷ []) ≡ true }
    requires a { unsigned_abs a < 2 ^ 44 }
    requires b { unsigned_abs b < 2 ^ 44 }
    requires c { unsigned_abs c < 2 ^ 44 }
    requires d { unsigned_abs d < 2 ^ 44 }
    ensures { result ≡ is_joined a b c d }
{
    face_joined([a, b, c, d])
}

/// Four signs as a binary number, the first one lowest.
fn sign_number(a: bool, b: bool, c: bool, d: bool) -> u8
    ensures bound { result < 16 }
    ensures bits { bits_of 4 result ≡ a ∷ b ∷ c ∷ d ∷ [] }
{
    u8::from(a) + 2 * u8::from(b) + 4 * u8::from(c) + 8 * u8::from(d)
}
