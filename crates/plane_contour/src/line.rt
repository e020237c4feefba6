//! Contour lines, and lists of them.

ghost use Rattle.std.specs.Prelude.{◌≡◌, All};
ghost use Rattle.plane_contour.specs.Texts.{IsNear};

use iso_base::{EdgeName, Thousandth};
use std::marker::Model;

/// One contour line: a closed one, or a path from border to border. Contracts see whether it is a cycle, and its points.
#[derive(Drop)]
pub struct Line {
    cycle: bool,
    points: Vec<(EdgeName, Thousandth, Thousandth)>,
}

impl Model for Line {
    ghost use Rattle.std.specs.Prelude.{All};
    ghost use Rattle.plane_contour.specs.Texts.{DrawnLine, IsNear};

    ghost Value = { DrawnLine };

    ghost view = { λ l. (l.cycle, l.points.items) };

    ghost invariant = { λ l. All IsNear l.points.items };
}

impl Line {
    /// The line of these points.
    pub(crate) fn new(cycle: bool, points: Vec<(EdgeName, Thousandth, Thousandth)>) -> Line
        requires { All IsNear points.items }
        ensures { result ≡ (cycle, points.items) }
    {
        Line { cycle, points }
    }

    /// Whether the line leads back to its first point.
    pub fn cycle(&self) -> bool
        ensures { result ≡ self.now.0 }
    {
        self.cycle
    }

    /// The points of the line in order, each with the name of its lattice edge and its stored x and y. A path begins
    /// where no segment leads to, a cycle at its least name.
    pub fn points(&self) -> &[(EdgeName, Thousandth, Thousandth)]
        ensures value { result.now ≡ self.now.1 }
        ensures near { All IsNear self.now.1 }
    {
        &self.points
    }
}

/// The contour lines of a plane, in the order of their least names. Contracts see the list of lines.
#[derive(Drop)]
pub struct Contours {
    lines: Vec<Line>,
}

impl Model for Contours {
    ghost use Rattle.std.specs.Prelude.{List};
    ghost use Rattle.plane_contour.specs.Texts.{DrawnLine};

    ghost Value = { List DrawnLine };

    ghost view = { λ c. c.lines.items };
}

impl Contours {
    /// The list of these lines.
    pub(crate) fn new(lines: Vec<Line>) -> Contours
        ensures { result ≡ lines.items }
    {
        Contours { lines }
    }

    /// The lines.
    pub fn lines(&self) -> &[Line]
        ensures { result.now ≡ self.now }
    {
        &self.lines
    }
}
