//! Grids of the examples.

ghost use Rattle.std.specs.Prelude.{◌≡◌, IfSome};
ghost use Rattle.iso_defs.specs.Grid.{Grid};

use iso_base::Sizes;

/// These sizes. Of any numbers, since the checker is long over what sizes of figures are.
pub fn sizes_of(nx: u64, ny: u64, nz: u64) -> Option<Sizes>
    ensures { IfSome result (λ g. g ≡ record { nx = nx; ny = ny; nz = nz }) }
{
    Sizes::new(nx, ny, nz).ok()
}

/// The sizes of a grid of two points a side.
pub fn two_a_side() -> Option<Sizes>
    ensures { IfSome result (λ g. g ≡ record { nx = 2; ny = 2; nz = 2 }) }
{
    sizes_of(2, 2, 2)
}

/// The sizes of a grid of three points a side.
pub fn three_a_side() -> Option<Sizes>
    ensures { IfSome result (λ g. g ≡ record { nx = 3; ny = 3; nz = 3 }) }
{
    sizes_of(3, 3, 3)
}
