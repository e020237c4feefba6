//! What is said of a list of triangles.

/// What is said of a list of triangles: the first of these that holds, from `RepeatedCorner` to `SplitVertex`,
/// then `Border` and `Closed`. Triangles and vertices are counted from 0.
#[derive(Clone, Copy, Debug, PartialEq, Eq)]
pub enum Verdict {
    /// A surface without a border.
    Closed,
    /// A surface; with the number of edges that one triangle alone has.
    Border { edges: u32 },
    /// The least triangle that repeats a corner.
    RepeatedCorner { t: u32 },
    /// The least ordered pair of vertices that two triangles run.
    EdgeTwice { a: u32, b: u32 },
    /// The least vertex around which the triangles form more than one fan.
    SplitVertex { v: u32 },
}
