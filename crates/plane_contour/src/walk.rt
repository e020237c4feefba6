//! A contour line followed from edge to edge.

ghost use Rattle.std.specs.Prelude.{◌≡◌, ◌+◌, ◌*◌, ◌<◌, ◌++◌, ◌^◌, pos, OnOk, All, length, map, true, unsigned_abs};
ghost use Rattle.iso_defs.specs.Lists.{begins};
ghost use Rattle.iso_defs.specs.Contours.{line_from};
ghost use Rattle.plane_laws.specs.Lines.{start_of};
ghost use Rattle.plane_contour.specs.Planes.{IsPlane, IsEdge, IsActive, AreMarked, field_of, pairs_of, name_at, plane_size, slot_of};
ghost use Rattle.plane_contour.specs.Texts.{IsNear, point_at};

use crate::plane::{Edge, Plane};
use edge_points::place;
use iso_base::{EdgeName, Memory, Point, Thousandth, edge_name};

impl Plane<'_> {
    /// The name of an edge in the grid.
    fn name(&self, edge: Edge) -> EdgeName
        requires plane { IsPlane self.now }
        requires edge { IsEdge self.now.sizes edge }
        ensures { result.0 ≡ name_at self.now.sizes self.now.k edge }
    {
        let Edge { x, y, axis } = edge;
        edge_name(&self.sizes, Point { x, y, z: self.k }, axis)
    }

    /// The number of an edge among those of the plane, by name.
    fn slot(&self, edge: Edge) -> usize
        requires plane { IsPlane self.now }
        requires edge { IsEdge self.now.sizes edge }
        ensures value { result ≡ slot_of self.now.sizes edge }
        ensures bound { result < 2 * plane_size self.now.sizes }
    {
        (2 * (edge.x + self.sizes.nx() * edge.y) + u32::from(edge.axis)) as usize
    }

    /// The point of a line on an edge: its name, and its coordinates along x and y.
    fn point(&self, edge: Edge) -> (EdgeName, Thousandth, Thousandth)
        requires plane { IsPlane self.now }
        requires edge { IsEdge self.now.sizes edge }
        requires active { IsActive (pairs_of self.now) (name_at self.now.sizes self.now.k edge) }
        ensures value { result ≡ point_at self.now.sizes (field_of self.now) (name_at self.now.sizes self.now.k edge) }
        ensures near { IsNear result }
    {
        let (lower, upper) = self.ends(edge);
        let along = place(lower, upper);
        let (x, y) = if edge.axis == 0 {
            (along, 0)
        } else {
            (0, along)
        };
        (
            self.name(edge),
            thousandths(edge.x, x),
            thousandths(edge.y, y),
        )
    }

    /// The edge where the line through an edge begins: the first one of a path, the edge itself on a cycle.
    pub fn start(&self, edge: Edge) -> Edge
        requires plane { IsPlane self.now }
        requires edge { IsEdge self.now.sizes edge }
        ensures edge { IsEdge self.now.sizes result }
        ensures name { name_at self.now.sizes self.now.k result
            ≡ start_of (pairs_of self.now) (name_at self.now.sizes self.now.k edge) }
    {
        let mut at = edge;
        while let Some(previous) = self.previous(at) {
            if self.name(previous) == self.name(edge) {
                return edge;
            }
            at = previous;
        }
        at
    }

    /// Follows the line from an edge, marks its edges and puts its points behind the others.
    pub fn follow(
        &self,
        start: Edge,
        seen: &mut [bool],
        points: &mut Vec<(EdgeName, Thousandth, Thousandth)>,
    ) -> Result<(), Memory>
        requires plane { IsPlane self.now }
        requires edge { IsEdge self.now.sizes start }
        requires active { IsActive (pairs_of self.now) (name_at self.now.sizes self.now.k start) }
        requires room { length seen.old ≡ 2 * plane_size self.now.sizes }
        requires near { All IsNear points.old.items }
        ensures points { OnOk result (points.new.items ≡ points.old.items
            ++ map (point_at self.now.sizes (field_of self.now))
            (line_from (pairs_of self.now) (name_at self.now.sizes self.now.k start))) }
        ensures near { OnOk result (All IsNear points.new.items) }
        ensures marks { OnOk result (AreMarked self.now (name_at self.now.sizes self.now.k start) seen.old seen.new) }
    {
        let first = self.name(start);
        let mut edge = start;
        loop {
            seen[self.slot(edge)] = true;
            points.push(self.point(edge))?;
            let Some(next) = self.next(edge) else {
                return Ok(());
            };
            if self.name(next) == first {
                return Ok(());
            }
            edge = next;
        }
    }
}

/// So many voxels and thousandths of a voxel.
fn thousandths(whole: u32, rest: u16) -> Thousandth
    requires { whole < 2 ^ 16 }
    ensures value { result ≡ record { 0 = pos (1000 * whole + rest) } }
    ensures near { unsigned_abs result.0 < 2 ^ 32 }
{
    Thousandth(i64::from(1000 * whole + u32::from(rest)))
}
