//! Where the crossings of the edges of a cell are, in thousandths from its lowest point.
ghost use Rattle.std.specs.Prelude.{◌≡◌, ◌<◌, ◌≤◌};
ghost use Rattle.edge_points.specs.Points.{local_coordinate};

// The coordinates of a vertex are told by tables alone: the axis of an edge cannot be foreseen, so each choice by it would cost more
// than two products.

/// Where the edges of a cell are along x. The first four run along x, and this is where they begin.
const X: [u32; 12] = [0, 0, 0, 0, 0, 1000, 0, 1000, 0, 1000, 0, 1000];

/// And along y, as the next four run.
const Y: [u32; 12] = [0, 1000, 0, 1000, 0, 0, 0, 0, 0, 0, 1000, 1000];

/// And along z, as the last four run.
const Z: [u32; 12] = [0, 0, 1000, 1000, 0, 0, 1000, 1000, 0, 0, 0, 0];

/// Whether the edges run along x: 1 where they do, and else 0.
const ALONG_X: [u32; 12] = [1, 1, 1, 1, 0, 0, 0, 0, 0, 0, 0, 0];

/// And along y.
const ALONG_Y: [u32; 12] = [0, 0, 0, 0, 1, 1, 1, 1, 0, 0, 0, 0];

/// And along z.
const ALONG_Z: [u32; 12] = [0, 0, 0, 0, 0, 0, 0, 0, 1, 1, 1, 1];

/// Where the crossing of an edge of a cell is along x, in thousandths from the cell's lowest point, by its place on the edge.
#[inline(always)]
pub fn x_in_cell(edge: u8, place: u16) -> u32
    requires edge { edge < 12 }
    requires place { place ≤ 1000 }
    ensures value { result ≡ local_coordinate (λ _. place) 0 edge }
    ensures bound { result ≤ 1000 }
{
    X[edge as usize] + ALONG_X[edge as usize] * u32::from(place)
}

/// Where the crossing of an edge of a cell is along y, as `x_in_cell` says it along x.
#[inline(always)]
pub fn y_in_cell(edge: u8, place: u16) -> u32
    requires edge { edge < 12 }
    requires place { place ≤ 1000 }
    ensures value { result ≡ local_coordinate (λ _. place) 1 edge }
    ensures bound { result ≤ 1000 }
{
    Y[edge as usize] + ALONG_Y[edge as usize] * u32::from(place)
}

/// Where the crossing of an edge of a cell is along z, as `x_in_cell` says it along x.
#[inline(always)]
pub fn z_in_cell(edge: u8, place: u16) -> u32
    requires edge { edge < 12 }
    requires place { place ≤ 1000 }
    ensures value { result ≡ local_coordinate (λ _. place) 2 edge }
    ensures bound { result ≤ 1000 }
{
    Z[edge as usize] + ALONG_Z[edge as usize] * u32::from(place)
}
