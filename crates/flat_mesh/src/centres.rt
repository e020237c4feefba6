//! Where the centres of loops are.
ghost use Rattle.std.specs.Prelude.{◌≡◌, ℕ, ◌+◌, ◌*◌, ◌/◌, ◌<◌, ◌≤◌, All, IsTrue, length, map, slice_index};
ghost use Rattle.iso_defs.specs.Cell.{cell_edge, cell_signs, crosses};
ghost use Rattle.iso_defs.specs.Place.{centre_position};
ghost use Rattle.iso_defs.specs.Scratch.{centre_name};
ghost use Rattle.flat_mesh.specs.Lattice.{heights};
ghost use Rattle.flat_mesh.specs.Numbers.{AreNumbers};
ghost use Rattle.flat_mesh.specs.Centres.{IsCellAt, cell_place, centre_of, local_mean};
ghost use Rattle.cell_loops.specs.Loops.{IsLoop};
ghost use Rattle.flat_mesh.specs.Faces.{AllCross};

use crate::lattice::Lattice;
use edge_points::{rounded_mean, x_in_cell, y_in_cell, z_in_cell};
use iso_base::Point;

/// A cell: the index of its lowest point, and that point.
#[derive(Clone, Copy)]
pub struct Cell {
    pub index: u32,
    pub low: Point,
}

/// A vertex at the centre of a loop: its name, and its position in thousandths of a voxel.
/// The centres are named after all lattice edges, four names to a cell.
#[derive(Clone, Copy, Debug)]
pub struct LoopCentre {
    pub name: u32,
    pub at: [u32; 3],
}

/// The place on a crossing edge of a cell.
#[inline(always)]
fn place_on(lattice: &Lattice, cell: Cell, numbers: &[u32; 12], edge: u8) -> u16
    requires cell { IsCellAt lattice.now.grid cell }
    requires numbers { AreNumbers lattice.now cell.index numbers.now }
    requires edge { edge < 12 }
    requires crossing { IsTrue (crosses (cell_signs lattice.now.grid (heights lattice.now) cell.index) edge) }
    ensures value { result ≡ cell_place lattice.now cell.index edge }
    ensures bound { result ≤ 1000 }
{
    lattice.place(numbers[edge as usize])
}

/// The centre of a loop, relative to its cell.
fn local_centre(lattice: &Lattice, cell: Cell, numbers: &[u32; 12], edges: &[u8]) -> [u32; 3]
    requires cell { IsCellAt lattice.now.grid cell }
    requires numbers { AreNumbers lattice.now cell.index numbers.now }
    requires edges { IsLoop edges.now }
    requires crossing { AllCross lattice.now cell.index edges.now }
    ensures x { slice_index result 0 ≡ local_mean (cell_place lattice.now cell.index) 0 edges.now }
    ensures y { slice_index result 1 ≡ local_mean (cell_place lattice.now cell.index) 1 edges.now }
    ensures z { slice_index result 2 ≡ local_mean (cell_place lattice.now cell.index) 2 edges.now }
    ensures bound { All (λ c. c ≤ 1000) result }
{
    let mut x = 0;
    let mut y = 0;
    let mut z = 0;
    for edge in edges {
        let place = place_on(lattice, cell, numbers, *edge);
        x += x_in_cell(*edge, place);
        y += y_in_cell(*edge, place);
        z += z_in_cell(*edge, place);
    }
    let count = edges.len() as u32;
    [
        rounded_mean(x, count),
        rounded_mean(y, count),
        rounded_mean(z, count),
    ]
}

/// The vertex at the centre of the loop of that turn.
pub fn centre_vertex(
    lattice: &Lattice,
    cell: Cell,
    numbers: &[u32; 12],
    turn: u8,
    edges: &[u8],
) -> LoopCentre
    requires cell { IsCellAt lattice.now.grid cell }
    requires numbers { AreNumbers lattice.now cell.index numbers.now }
    requires turn { turn < 4 }
    requires edges { IsLoop edges.now }
    requires crossing { AllCross lattice.now cell.index edges.now }
    ensures { result ≡ centre_of (
      centre_name lattice.now.grid cell.index turn,
      centre_position lattice.now.grid (heights lattice.now) (map (cell_edge lattice.now.grid cell.index) edges.now),
    ) }
{
    let at = local_centre(lattice, cell, numbers, edges);
    LoopCentre {
        name: 3 * lattice.sizes().count() + (4 * cell.index + u32::from(turn)),
        at: [
            1000 * cell.low.x + at[0],
            1000 * cell.low.y + at[1],
            1000 * cell.low.z + at[2],
        ],
    }
}
