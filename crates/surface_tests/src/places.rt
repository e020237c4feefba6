//! Tests of `edge_points`.

ghost use Rattle.std.specs.Prelude.{◌≡◌, IfOk};
ghost use Rattle.iso_defs.specs.Grid.{Grid};

use crate::grids::two_a_side;
use edge_points::{RowRanks, centre, place};
use iso_base::{Memory, Sizes};
use std::alloc::Global;
use std::test::Fail;

#[test]
fn worked_places(rt: HostRuntime) {
    let found = [
        place(5, -5),
        place(2, -1),
        place(-1, 2),
        place(0, -4_294_967_295),
        place(-17_592_186_044_415, 0),
    ];
    assert!(rt; found == [500, 667, 333, 0, 1000]);
}

#[test]
fn worked_centre(rt: HostRuntime) {
    let points = [
        [667, 0, 0],
        [1000, 333, 0],
        [1000, 1000, 667],
        [667, 1000, 0],
        [0, 333, 0],
        [0, 0, 667],
    ];
    assert_eq!(rt; centre(&points), [556, 444, 222]);
}

/// Three edges in a row, and four in one a layer above.
fn seven_edges(alloc: Global, sizes: &Sizes) -> Result<RowRanks, Memory>
    requires { sizes.now ≡ record { nx = 2; ny = 2; nz = 2 } }
    ensures { IfOk result (λ r. r.grid ≡ record { nx = 2; ny = 2; nz = 2 }) }
{
    let mut ranks = RowRanks::new(alloc, sizes)?;
    ranks.set_count(0, 0, 3);
    ranks.set_count(0, 1, 4);
    ranks.finish();
    Ok(ranks)
}

fn before_each(ranks: &RowRanks) -> [u32; 4]
    requires { ranks.now.grid ≡ record { nx = 2; ny = 2; nz = 2 } }
{
    [
        ranks.before(0, 0),
        ranks.before(1, 0),
        ranks.before(0, 1),
        ranks.before(1, 1),
    ]
}

#[test]
fn edges_in_the_rows_before(rt: HostRuntime) -> Result<(), Fail> {
    let sizes = two_a_side().ok_or("2, 2 and 2 are sizes")?;
    let ranks = seven_edges(rt.alloc(), &sizes)?;
    assert!(rt; before_each(&ranks) == [0, 3, 3, 7]);
    Ok(())
}
