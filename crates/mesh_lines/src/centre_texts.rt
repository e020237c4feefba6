//! The parts that the lines of centres in a row of cells have in common, made once for the row.
ghost use Rattle.std.specs.Prelude.{◌≡◌, ℕ, ◌+◌, ◌*◌, ◌/◌, ◌%◌, ◌<◌, ◌≤◌, ◌++◌, All, length, slice_index};
ghost use Rattle.iso_base.specs.Triangles.{triangle_of};
ghost use Rattle.mesh_lines.specs.Lines.{vertex_line};
ghost use Rattle.mesh_lines.specs.RowLines.{centre_at};

use crate::line_buffer::LineBuffer;
use crate::row_texts::{FRONTS, least_of, set_fronts, turn_wholes, wholes_of};
use crate::style::Style;
use mesh_text::{Lines, Piece};
use std::marker::Model;

/// The offset from which on no edge has a whole coordinate in a pad's layer.
fn first_inside(least: &[u16; 3]) -> u16
    ensures { (axis : ℕ) → axis < 3 → slice_index least.now axis ≤ result }
{
    least[0].max(least[1]).max(least[2])
}

/// The decimals of places.
fn decimals(at: &[u32; 3]) -> [u32; 3]
    ensures x { slice_index result 0 ≡ slice_index at.now 0 % 1000 }
    ensures y { slice_index result 1 ≡ slice_index at.now 1 % 1000 }
    ensures z { slice_index result 2 ≡ slice_index at.now 2 % 1000 }
{
    [at[0] % 1000, at[1] % 1000, at[2] % 1000]
}

/// The parts of the lines of centres in the cells that begin at a row of points: the fronts of the lines, and what stands
/// behind the decimals of the first and of the second number. Contracts see how the lines are written, how many points
/// there are, and where the row is.
#[derive(Drop)]
pub struct CentreTexts {
    style: Style,
    count: u32,
    y: u32,
    z: u32,
    fronts: [Piece<16>; FRONTS],
    y_texts: [Piece<16>; 2],
    z_texts: [Piece<16>; 2],
    inside: u16,
}

impl Model for CentreTexts {
    ghost use Rattle.mesh_lines.specs.RowLines.{AreCentreTexts, RowPlace};

    ghost Value = { RowPlace };

    ghost view = { λ t. record { style = t.style; count = t.count; y = t.y; z = t.z } };

    ghost invariant = { λ t. AreCentreTexts (record { style = t.style; count = t.count; y = t.y; z = t.z }) t.fronts
        t.y_texts t.z_texts t.inside };
}

impl CentreTexts {
    /// The parts for the first row of a slice of so many points a row.
    pub fn new(style: Style, count: u32, block: &LineBuffer) -> CentreTexts
        requires { count ≤ 1026 }
        ensures { result ≡ record { style = style; count = count; y = 0; z = 0 } }
    {
        let (origin, digits) = (style.origin, block.digits());
        let mut fronts = [Piece::new(); FRONTS];
        set_fronts(&mut fronts, style, count, digits);
        CentreTexts {
            style,
            count,
            y: 0,
            z: 0,
            fronts,
            y_texts: wholes_of(origin, 1, 0, digits),
            z_texts: wholes_of(origin, 2, 0, digits),
            inside: first_inside(&least_of(origin, 0, 0)),
        }
    }

    /// Turns to a row.
    pub fn move_to(&mut self, y: u32, z: u32, block: &LineBuffer)
        requires y { y ≤ 1026 }
        requires z { z ≤ 1026 }
        ensures { self.new ≡ record { style = self.old.style; count = self.old.count; y = y; z = z } }
    {
        let (origin, digits) = (self.style.origin, block.digits());
        turn_wholes(&mut self.y_texts, origin, 1, self.y, y, digits);
        turn_wholes(&mut self.z_texts, origin, 2, self.z, z, digits);
        self.y = y;
        self.z = z;
        self.inside = first_inside(&least_of(origin, y, z));
    }

    /// Puts the line of the centre in a cell behind others, where it is not made of the texts for the row alone: a place of 1000
    /// lies at the next whole coordinate. Where a whole coordinate is in a pad's layer no text is at hand.
    #[inline(never)]
    fn gather_centre_apart(&self, x: u32, at: &[u32; 3], lines: &mut Lines)
        requires x { x < self.now.count }
        requires at { All (λ n. n ≤ 1000) at.now }
        requires room { length lines.old + 64 ≤ 69632 }
        ensures line { lines.new ≡ lines.old ++ vertex_line self.now.style (0, centre_at self.now x at.now) }
        ensures few { length lines.new ≤ length lines.old + 64 }
    {
        if u32::from(self.inside) <= 3 * x {
            let front = &self.fronts[(x + at[0] / 1000) as usize];
            let y = &self.y_texts[(at[1] / 1000) as usize];
            let z = &self.z_texts[(at[2] / 1000) as usize];
            lines.push_thirds(front, y, z, &decimals(at));
            return;
        }
        let (y, z) = (1000 * self.y, 1000 * self.z);
        let at = [1000 * x + at[0], y + at[1], z + at[2]];
        self.style.gather_vertex(&at, lines);
    }

    /// Puts the line of the centre in a cell behind others, by how far the cell is along x and by the place in it.
    #[inline(always)]
    pub fn gather_centre(&self, x: u32, at: &[u32; 3], lines: &mut Lines)
        requires x { x < self.now.count }
        requires at { All (λ n. n ≤ 1000) at.now }
        requires room { length lines.old + 64 ≤ 69632 }
        ensures line { lines.new ≡ lines.old ++ vertex_line self.now.style (0, centre_at self.now x at.now) }
        ensures few { length lines.new ≤ length lines.old + 64 }
    {
        let inside = u32::from(self.inside);
        if inside <= 3 * x && at[0] < 1000 && at[1] < 1000 && at[2] < 1000 {
            let front = &self.fronts[x as usize];
            lines.push_thirds(front, &self.y_texts[0], &self.z_texts[0], at);
            return;
        }
        self.gather_centre_apart(x, at, lines);
    }
}
