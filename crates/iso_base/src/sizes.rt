//! The sizes of a grid, and why they are refused.

ghost use Rattle.std.specs.Prelude.{◌≡◌};
ghost use Rattle.iso_defs.specs.Grid.{point_count};
ghost use Rattle.iso_base.specs.Volume.{IsGrid, sized};

use std::marker::Model;
use thiserror::Error;

/// The most points along an axis, and so of a row.
pub const LONGEST_ROW: usize = 1026;

/// The most lattice edges that begin in a row of points.
pub const ROW_EDGES: usize = 3 * LONGEST_ROW;

/// Why sizes are refused. Axis 0 is x, 1 is y, 2 is z.
#[derive(Clone, Copy, Debug, PartialEq, Eq, Error)]
pub enum SizeFault {
    /// An axis has fewer than 2 samples.
    #[error("axis of fewer than 2 samples")]
    TooThin { axis: u8, n: u64 },
    /// An axis has more than 1,026 samples.
    #[error("axis of more than 1026 samples")]
    AxisTooLong { axis: u8, n: u64 },
    /// The grid has more than 160,000,000 samples.
    #[error("more than 160000000 samples")]
    TooMany { n: u64 },
}

/// The sizes of a grid, in samples along x, y and z: 2 to 1,026 each, with a product of at most 160,000,000.
/// Contracts see them as a grid.
#[derive(Clone, Copy)]
pub struct Sizes {
    nx: u32,
    ny: u32,
    nz: u32,
}

impl Model for Sizes {
    ghost use Rattle.iso_defs.specs.Grid.{Grid};
    ghost use Rattle.iso_base.specs.Volume.{IsGrid};

    ghost Value = { Grid };

    ghost view = { λ s. record { nx = s.nx; ny = s.ny; nz = s.nz } };

    ghost invariant = { λ s. IsGrid (record { nx = s.nx; ny = s.ny; nz = s.nz }) };

    ghost inverse = { λ g. record { nx = g.nx; ny = g.ny; nz = g.nz } };
}

impl Sizes {
    /// The sizes, or the first fault: a thin axis, then a long one, then too many samples.
    pub fn new(nx: u64, ny: u64, nz: u64) -> Result<Sizes, SizeFault>
        ensures { result ≡ sized (record { nx = nx; ny = ny; nz = nz }) }
    {
        if nx < 2 {
            return Err(SizeFault::TooThin { axis: 0, n: nx });
        }
        if ny < 2 {
            return Err(SizeFault::TooThin { axis: 1, n: ny });
        }
        if nz < 2 {
            return Err(SizeFault::TooThin { axis: 2, n: nz });
        }
        if nx > LONGEST_ROW as u64 {
            return Err(SizeFault::AxisTooLong { axis: 0, n: nx });
        }
        if ny > LONGEST_ROW as u64 {
            return Err(SizeFault::AxisTooLong { axis: 1, n: ny });
        }
        if nz > LONGEST_ROW as u64 {
            return Err(SizeFault::AxisTooLong { axis: 2, n: nz });
        }
        let n = nx * ny * nz;
        if n > 160_000_000 {
            return Err(SizeFault::TooMany { n });
        }
        Ok(Sizes {
            nx: nx as u32,
            ny: ny as u32,
            nz: nz as u32,
        })
    }

    /// The samples along x.
    pub fn nx(&self) -> u32
        ensures value { result ≡ self.now.nx }
        ensures grid { IsGrid self.now }
    {
        self.nx
    }

    /// The samples along y.
    pub fn ny(&self) -> u32
        ensures value { result ≡ self.now.ny }
        ensures grid { IsGrid self.now }
    {
        self.ny
    }

    /// The samples along z.
    pub fn nz(&self) -> u32
        ensures value { result ≡ self.now.nz }
        ensures grid { IsGrid self.now }
    {
        self.nz
    }

    /// The number of points.
    pub fn count(&self) -> u32
        ensures value { result ≡ point_count self.now }
        ensures grid { IsGrid self.now }
    {
        self.nx * self.ny * self.nz
    }
}
