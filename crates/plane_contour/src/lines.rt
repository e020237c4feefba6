//! The contour lines of a plane, in the order of their names.

ghost use Rattle.std.specs.Prelude.{◌≡◌, ℕ, ◌*◌, ◌<◌, ℤ, All, IfOk, IsTrue, ◌↔◌, length, map};
ghost use Rattle.iso_defs.specs.Contours.{contours};
ghost use Rattle.iso_base.specs.Volume.{IsSample};
ghost use Rattle.iso_defs.specs.Lists.{ends};
ghost use Rattle.plane_contour.specs.Planes.{IsActive, IsEdge, IsPlane, name_at, pairs_of, plane_size};
ghost use Rattle.plane_contour.specs.Drawn.{HasPlane, IsLineMet, IsNumbered, drawn};

use crate::line::{Contours, Line};
use crate::plane::{Edge, Plane};
use iso_base::{Level, Memory, Sizes};
use std::alloc::Global;

/// The contour lines of plane z = k at a level: its values are the samples of the plane, by index. Coordinates are
/// stored ones, in thousandths of a voxel.
///
/// The cost grows with the number of points of the plane alone.
pub fn contours(
    alloc: Global,
    values: &[i64],
    sizes: &Sizes,
    k: u32,
    level: Level,
) -> Result<Contours, Memory>
    requires count { length values.now ≡ plane_size sizes.now }
    requires samples { All IsSample values.now }
    requires plane { k < sizes.now.nz }
    ensures { IfOk result (λ r. (s : ℕ → ℤ) → HasPlane sizes.now k values.now level s → r
        ≡ map (drawn sizes.now s) (contours sizes.now s k)) }
{
    let plane = Plane {
        values,
        sizes: *sizes,
        k,
        level,
    };
    let count = 2 * (sizes.nx() * sizes.ny());
    let mut seen = vec![in alloc; false; count as usize]?;
    let mut lines = Vec::new(alloc);
    for number in 0..count {
        if let Some(line) = plane.line_at(alloc, number, &mut seen)? {
            lines.push(line)?;
        }
    }
    Ok(Contours::new(lines))
}

impl Plane<'_> {
    /// The line that is met first at the edge of a number; none where there is no edge, where none of its segments is,
    /// or where its line was met before.
    fn line_at(&self, alloc: Global, number: u32, seen: &mut [bool]) -> Result<Option<Line>, Memory>
        requires plane { IsPlane self.now }
        requires count { length seen.old ≡ 2 * plane_size self.now.sizes }
        requires number { number < 2 * plane_size self.now.sizes }
        ensures { IfOk result (λ o. IsLineMet self.now number seen.old seen.new o) }
    {
        if seen[number as usize] {
            return Ok(None);
        }
        let Some(edge) = self.edge(number) else {
            return Ok(None);
        };
        if !self.is_active(edge) {
            return Ok(None);
        }
        let start = self.start(edge);
        let cycle = self.is_ended(start);
        let mut points = Vec::new(alloc);
        self.follow(start, seen, &mut points)?;
        Ok(Some(Line::new(cycle, points)))
    }

    /// Whether a segment ends at an edge.
    fn is_ended(&self, edge: Edge) -> bool
        requires plane { IsPlane self.now }
        requires edge { IsEdge self.now.sizes edge }
        ensures { result ≡ ends (pairs_of self.now) (name_at self.now.sizes self.now.k edge) }
    {
        self.previous(edge).is_some()
    }

    /// Whether a segment begins or ends at an edge.
    fn is_active(&self, edge: Edge) -> bool
        requires plane { IsPlane self.now }
        requires edge { IsEdge self.now.sizes edge }
        ensures { IsTrue result ↔ IsActive (pairs_of self.now) (name_at self.now.sizes self.now.k edge) }
    {
        self.next(edge).is_some() || self.is_ended(edge)
    }

    /// The edge of a number, by name; none where the plane ends.
    fn edge(&self, number: u32) -> Option<Edge>
        requires plane { IsPlane self.now }
        requires number { number < 2 * plane_size self.now.sizes }
        ensures { IsNumbered self.now number result }
    {
        let x = number / 2 % self.sizes.nx();
        let y = number / 2 / self.sizes.nx();
        let axis = (number % 2) as u8;
        let inside = if axis == 0 {
            x + 1 < self.sizes.nx()
        } else {
            y + 1 < self.sizes.ny()
        };
        if inside {
            Some(Edge { x, y, axis })
        } else {
            None
        }
    }
}
