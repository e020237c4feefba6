//! Volumes at a level whose shifted values are asked for, however their samples lie.
ghost use Rattle.std.specs.Prelude.{◌≡◌, ◌<◌, ◌^◌, All, unsigned_abs};
ghost use Rattle.flat_mesh.specs.Cases.{values_at};
ghost use Rattle.flat_mesh.specs.Centres.{IsCellAt};
ghost use Rattle.flat_mesh.specs.Lattice.{IsLeveled, Leveled};

use crate::centres::Cell;
use iso_base::Sizes;

/// A volume at a level: its grid, its samples and the level, whether the samples are a list in memory, stay in the bytes of a
/// file or lie in bricks.
pub trait Heights {
    ghost leveled: { Self → Leveled };

    /// The sizes of the grid.
    fn sizes(&self) -> Sizes
        ensures value { result ≡ (leveled self.now).grid }
        ensures leveled { IsLeveled (leveled self.now) };

    /// The shifted values at the corners of a cell.
    fn corner_heights(&self, cell: Cell) -> [i64; 8]
        requires { IsCellAt (leveled self.now).grid cell }
        ensures value { result ≡ values_at (leveled self.now) cell.index }
        ensures bound { All (λ v. unsigned_abs v < 2 ^ 44) result };
}
