//! The loops of a case as a list of lists.

ghost use Rattle.std.specs.Prelude.{◌≡◌, ◌<◌, ◌≤◌, length, slice_index_or, []};
ghost use Rattle.cell_loops.specs.Loops.{IsLoop, row_loops};

use crate::table::{loop_count, loop_edges};
use arrayvec::ArrayVec;
use case_table::CaseRow;
use std::marker::Model;

/// The loops of a cell: at most four lists of three to twelve cell edges. Contracts see it as the list of these lists.
#[derive(Drop)]
pub struct CellLoops {
    loops: ArrayVec<&'static [u8], 4>,
}

impl Model for CellLoops {
    ghost use Rattle.std.specs.Prelude.{ℕ, List, map};
    ghost use Rattle.std.specs.List.{All};
    ghost use Rattle.cell_loops.specs.Loops.{IsLoop};

    ghost Value = { List (List ℕ) };

    ghost view = { λ c. map (λ l. l.now) c.loops.items };

    ghost invariant = { λ c. All IsLoop (map (λ l. l.now) c.loops.items) };
}

impl CellLoops {
    /// How many loops there are.
    pub fn count(&self) -> u8
        ensures value { result ≡ length self.now }
        ensures bound { result ≤ 4 }
    {
        self.loops.len() as u8
    }

    /// The edges of a loop, from its least edge on.
    pub fn edges(&self, i: u8) -> &[u8]
        requires { i < length self.now }
        ensures value { result.now ≡ slice_index_or self.now i [] }
        ensures shape { IsLoop result.now }
    {
        self.loops.as_slice()[i as usize]
    }
}

/// The loops of a case.
pub fn loops_of(row: CaseRow) -> CellLoops
    ensures { result ≡ row_loops row }
{
    let mut loops = ArrayVec::new();
    for turn in 0..loop_count(row) {
        loops.push(loop_edges(row, turn));
    }
    CellLoops { loops }
}
