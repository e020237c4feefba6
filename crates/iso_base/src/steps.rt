//! The counter of classified cells.

ghost use Rattle.std.specs.Prelude.{◌≡◌, ℕ, ◌+◌, ◌<◌};

use std::marker::Model;
use std::sync::ledger::{Book, Ledger, Share};

/// How many cells were classified. It takes no bytes, and only `tick` changes it.
#[derive(Drop)]
pub struct Steps<L: Ledger> {
    book: Book<L>,
    share: Share<L>,
}

impl<L: Ledger> Model for Steps<L> {
    ghost use Rattle.std.specs.Prelude.{ℕ, ◌<◌};

    ghost Value = { ℕ };

    ghost view = { λ s. s.book.total };

    ghost invariant = { λ s. 0 < s.share.parts };
}

impl<L: Ledger> Steps<L> {
    /// A counter at 0, from a freshly opened ledger.
    pub fn new(book: Book<L>, share: Share<L>) -> Self
        requires fresh { book.total ≡ 0 }
        requires backed { 0 < share.parts }
        ensures { result ≡ 0 }
    {
        Steps { book, share }
    }

    /// Raises the counter by one, for a cell that is classified. `classify_with` of `case_table` is its one caller, so that the
    /// counter tells how many cells came past there.
    pub fn tick(&mut self)
        ensures { self.new ≡ self.old + 1 }
    {
        self.book.add(&mut self.share, 1);
    }
}
