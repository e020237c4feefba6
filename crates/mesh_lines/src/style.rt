//! How vertices and faces are written.
ghost use Rattle.std.specs.Prelude.{◌≡◌, ◌+◌, ◌<◌, ◌≤◌, ◌^◌, ◌++◌, is_some, length, unsigned_abs};
ghost use Rattle.iso_base.specs.Triangles.{triangle_of};
ghost use Rattle.mesh_text.specs.Lines.{letter_line};
ghost use Rattle.mesh_text.specs.Numbers.{IsShort, number_text};
ghost use Rattle.mesh_lines.specs.Lines.{origin_coordinate, vertex_line};
ghost use Rattle.mesh_lines.specs.Origins.{origin_of};
ghost use Rattle.mesh_lines.specs.Triangles.{first_of, letter_of};

use iso_base::{MeshFormat, PAD_SHIFT, Point, Thousandth};
use mesh_text::{Counter, Lines, Number};

/// Where the coordinates of a mesh are counted from.
#[derive(Clone, Copy)]
pub enum Origin {
    /// The lowest point of the volume.
    Volume,
    /// The lowest point of the volume within its padding: the padding's layer is subtracted from each coordinate.
    Pad,
    /// The lowest point of a larger volume, of which this one is a window that begins at that point: its coordinates are added.
    Window(Point),
    /// The lowest point of a volume within its padding, of which this one is a padded slab that begins with so many of the volume's
    /// slices below it and no layer of padding: the ring's layer is subtracted along x and y, and the slices below are added.
    PaddedSlab(u32),
}

impl Origin {
    /// That of a whole volume, in its padding where it has one.
    pub fn of(pad: Option<i64>) -> Origin
        ensures { result ≡ origin_of (is_some pad) }
    {
        match pad {
            Some(_) => Origin::Pad,
            None => Origin::Volume,
        }
    }
}

/// How a mesh is written: its format, and where its coordinates are counted from.
#[derive(Clone, Copy)]
pub struct Style {
    pub format: MeshFormat,
    pub origin: Origin,
}

/// A coordinate, in thousandths, as it is printed.
#[inline(always)]
fn printed_at(stored: u32, origin: Origin, axis: usize) -> Thousandth
    requires axis { axis < 3 }
    ensures value { result.0 ≡ origin_coordinate origin axis stored }
    ensures bound { unsigned_abs result.0 < 2 ^ 44 }
{
    let stored = i64::from(stored);
    Thousandth(match origin {
        Origin::Volume => stored,
        Origin::Pad => stored - PAD_SHIFT,
        Origin::Window(at) => 1000 * i64::from([at.x, at.y, at.z][axis]) + stored,
        Origin::PaddedSlab(below) if axis == 2 => 1000 * i64::from(below) + stored,
        Origin::PaddedSlab(_) => stored - PAD_SHIFT,
    })
}

impl Style {
    /// Puts the line of a vertex at a place behind others, where coordinates are counted from this origin, which is that of the style.
    #[inline(always)]
    #[tactic(auto, unfolding(crate::specs::Lines::vertex_line))]
    fn gather_printed(self, origin: Origin, at: &[u32; 3], lines: &mut Lines)
        requires same { origin ≡ self.origin }
        requires room { length lines.old + 64 ≤ 69632 }
        ensures line { lines.new ≡ lines.old ++ vertex_line self (0, triangle_of at.now) }
        ensures few { length lines.new ≤ length lines.old + 64 }
    {
        let at = [
            printed_at(at[0], origin, 0),
            printed_at(at[1], origin, 1),
            printed_at(at[2], origin, 2),
        ];
        match self.format {
            MeshFormat::Obj => lines.push_obj_vertex(&at),
            MeshFormat::Ply | MeshFormat::Off | MeshFormat::Vtk => lines.push_ply_vertex(&at),
        }
    }

    /// Appends the line of a vertex of a part of a volume. It is a function of its own, so that what is inlined for volumes stays short.
    #[inline(never)]
    fn gather_in_part(self, at: &[u32; 3], lines: &mut Lines)
        requires room { length lines.old + 64 ≤ 69632 }
        ensures line { lines.new ≡ lines.old ++ vertex_line self (0, triangle_of at.now) }
        ensures few { length lines.new ≤ length lines.old + 64 }
    {
        self.gather_printed(self.origin, at, lines);
    }

    /// Puts the line of a vertex at a place behind others, under the name 0, since a line has no name in it.
    #[inline(always)]
    pub fn gather_vertex(self, at: &[u32; 3], lines: &mut Lines)
        requires { length lines.old + 64 ≤ 69632 }
        ensures line { lines.new ≡ lines.old ++ vertex_line self (0, triangle_of at.now) }
        ensures few { length lines.new ≤ length lines.old + 64 }
    {
        // Calls of what is inlined, since without a pad no number has a sign, and no sign is looked for.
        match self.origin {
            Origin::Volume => self.gather_printed(Origin::Volume, at, lines),
            Origin::Pad => self.gather_printed(Origin::Pad, at, lines),
            Origin::Window(_) | Origin::PaddedSlab(_) => self.gather_in_part(at, lines),
        }
    }

    /// The letter that begins the line of a triangle.
    #[inline(always)]
    fn letter(self) -> u8
        ensures { result ≡ letter_of self.format }
    {
        match self.format {
            MeshFormat::Obj => b'f',
            MeshFormat::Ply | MeshFormat::Off | MeshFormat::Vtk => b'3',
        }
    }

    /// The number of the first vertex.
    #[inline(always)]
    fn first(self) -> u64
        ensures value { result ≡ first_of self.format }
        ensures bound { result ≤ 1 }
    {
        match self.format {
            MeshFormat::Obj => 1,
            MeshFormat::Ply | MeshFormat::Off | MeshFormat::Vtk => 0,
        }
    }

    /// Counts corners of triangles in text, from one on.
    #[inline(always)]
    pub fn count_corners(self, corner: u32, lines: &Lines) -> Counter
        ensures { result ≡ first_of self.format + corner }
    {
        Counter::from(self.first() + u64::from(corner), lines.digits())
    }

    /// Puts the line of a triangle, whose corners' texts are at hand, behind others.
    #[inline(always)]
    pub fn gather_texts(self, a: &Number, b: &Number, c: &Number, lines: &mut Lines)
        requires first { IsShort a.now }
        requires second { IsShort b.now }
        requires third { IsShort c.now }
        requires room { length lines.old + 64 ≤ 69632 }
        ensures line { let letter = letter_of self.format in
            lines.new ≡ lines.old ++ letter_line letter (number_text a.now) (number_text b.now) (number_text c.now) }
        ensures few { length lines.new ≤ length lines.old + 64 }
    {
        lines.push_numbers(self.letter(), a, b, c);
    }
}
