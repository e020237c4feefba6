//! The rows of a volume whose samples are a list.
ghost use Rattle.std.specs.Prelude.{◌≡◌, All, IfOk, length};
ghost use Rattle.iso_defs.specs.Grid.{point_count};
ghost use Rattle.iso_base.specs.Volume.{IsSample};

use crate::field::ListField;
use crate::lists::{WholeRow, list_few_cells, list_row_edges, list_whole_cells};
use crate::parts::{numbers_from, part_of};
use crate::places::{count_row, place_row};
use crate::row_storage::{StoredRows, all_rows};
use flat_mesh::{Cell, Heights};
use iso_base::{LONGEST_ROW, Level, Memory, ROW_EDGES, Sizes};
use mesh_rows::{Counts, MeshRows};
use samples::Samples;
use std::alloc::Global;
use std::marker::Model;

/// A volume at a level, with the flags of its points, the cases of its cells and where its edges are crossed, and with buffers for a
/// row. Contracts see the grid, the samples and the level.
#[derive(Drop)]
pub struct ListRows<'a, S: Samples> {
    field: ListField<'a, S>,
    kept: StoredRows,
    whole: WholeRow,
}

impl<'a, S: Samples> Model for ListRows<'a, S> {
    ghost use Rattle.flat_mesh.specs.Lattice.{Leveled};
    ghost use Rattle.sample_rows.specs.Kept.{AreAllKept};

    ghost Value = { Leveled };

    ghost view = { λ r. r.field };

    ghost invariant = { λ r. AreAllKept r.field r.kept };
}

impl<'a, S: Samples> ListRows<'a, S> {
    /// The rows of a volume at a level, from its sizes and its samples.
    pub fn of(
        alloc: Global,
        sizes: Sizes,
        samples: &'a S,
        level: Level,
    ) -> Result<ListRows<'a, S>, Memory>
        requires count { length (S.list samples.now) ≡ point_count sizes }
        requires samples { All IsSample (S.list samples.now) }
        ensures { IfOk result (λ r. r ≡ record { grid = sizes; samples = S.list samples.now; level = level }) }
    {
        let _ = sizes.count();
        let field = ListField::new(sizes, samples, level);
        let kept = all_rows(alloc, &field)?;
        Ok(ListRows {
            field,
            kept,
            whole: WholeRow::new(),
        })
    }
}

impl<'a, S: Samples> Heights for ListRows<'a, S> {
    ghost leveled = { λ r. r };

    fn sizes(&self) -> Sizes {
        self.field.sizes()
    }

    fn corner_heights(&self, cell: Cell) -> [i64; 8] {
        self.field.corner_heights(cell)
    }
}

// No cell is counted as classified: the cases of all cells are at hand.
impl<'a, S: Samples> MeshRows for ListRows<'a, S> {
    ghost Kept = { Unit {0} };

    ghost kept = { λ _. tt };

    ghost row_cost = { λ _ _. 0 };

    ghost count_cost = { λ _. 0 };

    ghost spent = { λ _. 0 };

    fn count_edges(&mut self, y: u32, z: u32) -> u32 {
        count_row(&self.field, &self.kept.places, y, z)
    }

    fn list_edges(&mut self, y: u32, z: u32, edges: &mut [u16; ROW_EDGES]) -> usize {
        list_row_edges(&self.field, &self.kept.rows, y, z, &mut self.whole, edges)
    }

    fn fill_places(&mut self, y: u32, z: u32, edges: &[u16], places: &mut [u16]) {
        let _ = self.field.sizes();
        places.copy_from_slice(place_row(&self.field, &self.kept.places, y, z, edges.len()));
    }

    fn list_cells(
        &mut self,
        y: u32,
        z: u32,
        places: &mut [u16; LONGEST_ROW],
        cases: &mut [u16; LONGEST_ROW],
    ) -> usize {
        let nx = self.field.sizes().nx() as usize;
        let rows = &self.kept.rows;
        let part = part_of(&self.field, rows, y, z);
        if part.is_whole {
            let numbers = numbers_from(rows, part.start as usize, nx);
            return list_whole_cells(numbers, &mut self.whole.cases, places, cases);
        }
        list_few_cells(rows, part, places, cases)
    }

    fn count_cells(&mut self) -> Counts {
        self.kept.counts
    }
}
