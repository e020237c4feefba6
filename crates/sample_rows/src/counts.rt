//! How many centres and triangles a cell adds to those of the cells before it.
ghost use Rattle.std.specs.Prelude.{◌+◌};
ghost use Rattle.flat_mesh.specs.Centres.{IsCellAt};
ghost use Rattle.mesh_rows.specs.Counts.{AreCounts};
ghost use Rattle.mesh_rows.specs.Rows.{IsCaseOf};

use case_table::CaseRow;
use cell_loops::{centre_count, triangle_count};
use flat_mesh::{Cell, Heights};
use mesh_rows::Counts;

/// Counts a cell.
#[inline(always)]
pub fn count_cell<H: Heights>(field: &H, cell: Cell, case: u16, counts: Counts) -> Counts
    requires cell { IsCellAt (H.leveled field.now).grid cell }
    requires case { IsCaseOf (H.leveled field.now) cell.index case }
    requires counts { AreCounts (H.leveled field.now) cell.index counts }
    ensures { AreCounts (H.leveled field.now) (cell.index + 1) result }
{
    let _ = field.sizes();
    let case = CaseRow::of(case);
    Counts {
        centres: counts.centres + u32::from(centre_count(case)),
        faces: counts.faces + u32::from(triangle_count(case)),
    }
}
