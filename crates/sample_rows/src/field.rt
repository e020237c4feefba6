//! A volume in a list at a level: its shifted values.
ghost use Rattle.std.specs.Prelude.{◌≡◌, ℕ, ◌+◌, ◌*◌, ◌<◌, ◌≤◌, ◌^◌, All, length, map, true, unsigned_abs};
ghost use Rattle.iso_defs.specs.Grid.{index, is_crossing};
ghost use Rattle.iso_base.specs.Volume.{IsSample, shifted, sample};
ghost use Rattle.crossing_edges.specs.Flags.{edge_place};
ghost use Rattle.flat_mesh.specs.Centres.{IsCellAt};
ghost use Rattle.flat_mesh.specs.Cases.{values_at};
ghost use Rattle.flat_mesh.specs.Lattice.{IsLeveled, heights};
ghost use Rattle.flat_mesh.specs.Rows.{row_start};
ghost use Rattle.mesh_rows.specs.Rows.{AreEdges, row_places};
ghost use Rattle.sample_rows.specs.Ends.{HaveEnds};
ghost use Rattle.sample_rows.specs.Signs.{AreSliceSigns};

use edge_points::sample_place;
use flat_mesh::{Cell, Heights};
use iso_base::{Level, Point, Sizes};
use samples::{Samples, each_corner};
use std::marker::Model;

/// Samples are copied row by row where a row has more crossing edges than one for so many points.
const FEW: usize = 2;

/// A volume in a list at a level. Contracts see its grid, its samples and the level.
#[derive(Drop)]
pub struct ListField<'a, S: Samples> {
    sizes: Sizes,
    level: Level,
    samples: &'a S,
}

impl<'a, S: Samples> Model for ListField<'a, S> {
    ghost use Rattle.flat_mesh.specs.Lattice.{IsLeveled, Leveled};

    ghost Value = { Leveled };

    ghost view = { λ f. record { grid = f.sizes; samples = S.list f.samples.now; level = f.level } };

    ghost invariant = { λ f. IsLeveled (record { grid = f.sizes; samples = S.list f.samples.now; level = f.level }) };
}

impl<'a, S: Samples> ListField<'a, S> {
    /// A volume at a level, from its sizes and its samples.
    pub fn new(sizes: Sizes, samples: &'a S, level: Level) -> ListField<'a, S>
        requires { IsLeveled (record { grid = sizes; samples = S.list samples.now; level = level }) }
        ensures { result ≡ record { grid = sizes; samples = S.list samples.now; level = level } }
    {
        ListField {
            sizes,
            level,
            samples,
        }
    }

    /// The sizes of the grid.
    pub fn sizes(&self) -> Sizes
        ensures value { result ≡ self.now.grid }
        ensures leveled { IsLeveled self.now }
    {
        self.sizes
    }

    /// Writes the signs of the points of a slice.
    pub fn fill_signs(&self, z: u32, slice: &mut [u8])
        requires z { z < self.now.grid.nz }
        requires count { length slice.old ≡ self.now.grid.nx * self.now.grid.ny }
        ensures { AreSliceSigns self.now z slice.new }
    {
        let sizes = self.sizes();
        let start = sizes.nx() * sizes.ny() * z;
        self.samples.fill_signs(start, self.level, slice);
    }

    /// The shifted value of one of the samples at the corners of a cell.
    #[inline(always)]
    fn height_of(&self, corners: &[i64; 8], corner: usize) -> i64
        requires range { All IsSample corners.now }
        requires corner { corner < 8 }
        ensures value { result ≡ shifted (sample corners.now corner) self.now.level }
        ensures bound { unsigned_abs result < 2 ^ 44 }
    {
        self.level.shifted(corners[corner])
    }

    /// The shifted values of the samples at the corners of a cell.
    #[inline(always)]
    fn heights_of(&self, corners: &[i64; 8]) -> [i64; 8]
        requires { All IsSample corners.now }
        ensures values { result ≡ map (λ s. shifted s self.now.level) corners.now }
        ensures bound { All (λ v. unsigned_abs v < 2 ^ 44) result }
    {
        [
            self.height_of(corners, 0),
            self.height_of(corners, 1),
            self.height_of(corners, 2),
            self.height_of(corners, 3),
            self.height_of(corners, 4),
            self.height_of(corners, 5),
            self.height_of(corners, 6),
            self.height_of(corners, 7),
        ]
    }

    /// The shifted values at the corners of a cell.
    fn values(&self, cell: Cell) -> [i64; 8]
        requires { IsCellAt self.now.grid cell }
        ensures values { result ≡ values_at self.now cell.index }
        ensures bound { All (λ v. unsigned_abs v < 2 ^ 44) result }
    {
        match self.samples.corners_at_once(&self.sizes, cell.low) {
            Some(corners) => self.heights_of(&corners),
            None => self.heights_of(&each_corner(self.samples, &self.sizes, cell.low)),
        }
    }

    /// Copies the samples of a row of points over a part of a list.
    #[inline(always)]
    fn copy_over(&self, y: u32, z: u32, from: usize, into: &mut [i64])
        requires y { y < self.now.grid.ny }
        requires z { z < self.now.grid.nz }
        requires room { from + self.now.grid.nx ≤ length into.old }
        ensures inside { let v = self.now in
            (x : ℕ) → x < v.grid.nx → sample into.new (from + x) ≡ sample v.samples (index v.grid x y z) }
        ensures before { (k : ℕ) → k < from → sample into.new k ≡ sample into.old k }
    {
        let first = Point { x: 0, y, z };
        let count = self.sizes.nx() as usize;
        self.samples
            .copy_row(&self.sizes, first, &mut into[from..from + count]);
    }

    /// Copies the samples at the ends of the edges that begin in a row of points.
    fn copy_ends(&self, y: u32, z: u32, ends: &mut [i64])
        requires y { y < self.now.grid.ny }
        requires z { z < self.now.grid.nz }
        requires room { length ends.old ≡ 3 * self.now.grid.nx }
        ensures { HaveEnds self.now y z ends.new }
    {
        let sizes = self.sizes();
        let nx = sizes.nx() as usize;
        self.copy_over(y, z, 0, ends);
        if y + 1 < sizes.ny() {
            self.copy_over(y + 1, z, nx, ends);
        }
        if z + 1 < sizes.nz() {
            self.copy_over(y, z + 1, 2 * nx, ends);
        }
    }

    /// Where a crossing edge that begins in a row of points is crossed, in thousandths from its lower end. `edge` is three times how
    /// far its point is along x, and its axis. No branch rests on the axis, whose way a processor would have to guess.
    #[inline(always)]
    fn place_on(&self, y: u32, z: u32, ends: &[i64], edge: u16) -> u16
        requires y { y < self.now.grid.ny }
        requires z { z < self.now.grid.nz }
        requires ends { HaveEnds self.now y z ends.now }
        requires edge { edge < 3 * self.now.grid.nx }
        requires crossing { let v = self.now in
            is_crossing v.grid (heights v) (3 * row_start v.grid y z + edge) ≡ true }
        ensures { let v = self.now in
            result ≡ edge_place v.grid (heights v) (3 * row_start v.grid y z + edge) }
    {
        let _ = (y, z);
        let nx = self.sizes.nx() as usize;
        let x = usize::from(edge / 3);
        let axis = usize::from(edge % 3);
        let step = nx * axis + usize::from(axis == 0);
        sample_place(self.level, ends[x], ends[x + step])
    }

    /// The place of `place_on`, from samples that are asked for by their points.
    #[inline(always)]
    fn place_between(&self, y: u32, z: u32, edge: u16) -> u16
        requires y { y < self.now.grid.ny }
        requires z { z < self.now.grid.nz }
        requires edge { edge < 3 * self.now.grid.nx }
        requires crossing { is_crossing self.now.grid (heights self.now) (3 * row_start self.now.grid y z + edge)
            ≡ true }
        ensures { result ≡ edge_place self.now.grid (heights self.now) (3 * row_start self.now.grid y z + edge) }
    {
        // Reading the sizes brings in that the coordinates of the next points fit.
        let _ = self.sizes();
        let x = u32::from(edge / 3);
        let axis = edge % 3;
        let low = Point { x, y, z };
        let high = Point {
            x: x + u32::from(axis == 0),
            y: y + u32::from(axis == 1),
            z: z + u32::from(axis == 2),
        };
        sample_place(
            self.level,
            self.samples.at_point(&self.sizes, low),
            self.samples.at_point(&self.sizes, high),
        )
    }

    /// Fills in where the crossing edges of a row of points are crossed, where these are few: no row of samples is copied.
    fn fill_few(&self, y: u32, z: u32, edges: &[u16], places: &mut [u16])
        requires y { y < self.now.grid.ny }
        requires z { z < self.now.grid.nz }
        requires edges { AreEdges self.now y z edges.now }
        requires count { length places.old ≡ length edges.now }
        ensures { places.new ≡ row_places self.now y z }
    {
        for i in 0..edges.len() {
            places[i] = self.place_between(y, z, edges[i]);
        }
    }

    /// Fills in where the crossing edges of a row of points are crossed. `ends` is a buffer.
    pub fn fill_crossings(
        &self,
        y: u32,
        z: u32,
        edges: &[u16],
        ends: &mut [i64],
        places: &mut [u16],
    )
        requires y { y < self.now.grid.ny }
        requires z { z < self.now.grid.nz }
        requires edges { AreEdges self.now y z edges.now }
        requires room { length ends.old ≡ 3 * self.now.grid.nx }
        requires count { length places.old ≡ length edges.now }
        ensures { places.new ≡ row_places self.now y z }
    {
        if edges.len() < self.sizes.nx() as usize / FEW {
            self.fill_few(y, z, edges, places);
            return;
        }
        self.copy_ends(y, z, ends);
        for i in 0..edges.len() {
            places[i] = self.place_on(y, z, ends, edges[i]);
        }
    }
}

impl<'a, S: Samples> Heights for ListField<'a, S> {
    ghost leveled = { λ f. f };

    fn sizes(&self) -> Sizes {
        ListField::sizes(self)
    }

    fn corner_heights(&self, cell: Cell) -> [i64; 8] {
        self.values(cell)
    }
}
