//! Numbers of crossing edges, row by row.
ghost use Rattle.std.specs.Prelude.{◌≡◌, ◌+◌, ◌*◌, ◌<◌, ◌≤◌, All, IfOk, length, slice_index, slice_set};
ghost use Rattle.iso_defs.specs.Rows.{row_count};
ghost use Rattle.edge_points.specs.Rows.{no_counts, row_of, sums_before};

use iso_base::{Memory, Sizes};
use std::alloc::Global;
use std::marker::Model;

/// Turns each number into the sum of those before it.
fn add_up(numbers: &mut [u32])
    requires bound { All (λ n. n ≤ 3 * 1026) numbers.old }
    requires few { length numbers.old ≤ 1026 * 1026 }
    ensures { numbers.new ≡ sums_before numbers.old }
{
    let mut total = 0;
    for row in 0..numbers.len() {
        let count = numbers[row];
        numbers[row] = total;
        total += count;
    }
}

/// One number for each row of points along x: first how many crossing edges begin in the row, then, once that is set for
/// all rows, how many begin in the rows before it. Contracts see the grid and the numbers, row by row.
///
/// Who goes over the rows may borrow room for lists of what they have: it stays with the ranks from one traversal to the next, so
/// that a traversal takes no memory. No contract speaks of it.
#[derive(Drop)]
pub struct RowRanks {
    sizes: Sizes,
    numbers: Vec<u32>,
    room: Option<Vec<u16>>,
}

impl Model for RowRanks {
    ghost use Rattle.std.specs.Prelude.{◌≡◌, length};
    ghost use Rattle.iso_defs.specs.Rows.{row_count};
    ghost use Rattle.edge_points.specs.Rows.{RowNumbers};

    ghost Value = { RowNumbers };

    ghost view = { λ r. record { grid = r.sizes; numbers = r.numbers.items } };

    ghost invariant = { λ r. length r.numbers.items ≡ row_count r.sizes };
}

impl RowRanks {
    /// A number for each row, 0 at first.
    pub fn new(alloc: Global, sizes: &Sizes) -> Result<RowRanks, Memory>
        ensures { IfOk result (λ r. r ≡ no_counts sizes.now) }
    {
        let numbers = vec![in alloc; 0u32; (sizes.ny() * sizes.nz()) as usize]?;
        Ok(RowRanks {
            sizes: *sizes,
            numbers,
            room: None,
        })
    }

    /// Takes the room for lists out, if there is any. What it holds is open.
    pub fn take_room(&mut self) -> Option<Vec<u16>>
        ensures { self.new ≡ self.old }
    {
        self.room.take()
    }

    /// Puts the room for lists back.
    pub fn set_room(&mut self, room: Option<Vec<u16>>)
        ensures { self.new ≡ self.old }
    {
        self.room = room;
    }

    /// The sizes of the grid.
    pub fn sizes(&self) -> Sizes
        ensures value { result ≡ self.now.grid }
        ensures rows { length self.now.numbers ≡ row_count self.now.grid }
    {
        self.sizes
    }

    /// Sets how many crossing edges begin in a row.
    pub fn set_count(&mut self, y: u32, z: u32, crossing: u32)
        requires y { y < self.old.grid.ny }
        requires z { z < self.old.grid.nz }
        requires crossing { crossing ≤ 3 * self.old.grid.nx }
        ensures { self.new ≡ record self.old {
          numbers = slice_set self.old.numbers (row_of self.old.grid y z)
              crossing;
        } }
    {
        let row = (y + self.sizes.ny() * z) as usize;
        self.numbers[row] = crossing;
    }

    /// Turns the number of each row into the sum of those of the rows before it.
    pub fn finish(&mut self)
        requires { All (λ n. n ≤ 3 * self.old.grid.nx) self.old.numbers }
        ensures { self.new ≡ record self.old { numbers = sums_before self.old.numbers } }
    {
        // Reading the number of points brings in that the sizes are those of a grid.
        let _ = self.sizes.count();
        add_up(&mut self.numbers);
    }

    /// The number that is kept for a row.
    pub fn before(&self, y: u32, z: u32) -> u32
        requires y { y < self.now.grid.ny }
        requires z { z < self.now.grid.nz }
        ensures { result ≡ slice_index self.now.numbers (row_of self.now.grid y z) }
    {
        self.numbers[(y + self.sizes.ny() * z) as usize]
    }
}
