//! What a session is lent.
ghost use Rattle.std.specs.Prelude.{◌≡◌};

use bench_core::Bench;
use iso_base::Steps;
use iso_io::{Shelf, Sink};
use std::sync::ledger::Ledger;

/// What the lines of a script act on and where their replies go, lent for a session.
#[derive(Drop)]
pub struct Session<'a, K: Sink, H: Shelf, L: Ledger> {
    pub bench: &'a mut Bench,
    pub shelf: &'a mut H,
    pub steps: &'a mut Steps<L>,
    pub output: &'a mut K,
}

impl<'a, K: Sink, H: Shelf, L: Ledger> Session<'a, K, H, L> {
    /// The four loans as one value: each call of a session keeps them, and what it does to them is seen by its caller.
    pub fn new(
        bench: &'a mut Bench,
        shelf: &'a mut H,
        steps: &'a mut Steps<L>,
        output: &'a mut K,
    ) -> Session<'a, K, H, L>
        ensures same_bench { result.bench.ghost_name ≡ bench.entry.ghost_name }
        ensures same_shelf { result.shelf.ghost_name ≡ shelf.entry.ghost_name }
        ensures same_steps { result.steps.ghost_name ≡ steps.entry.ghost_name }
        ensures same_output { result.output.ghost_name ≡ output.entry.ghost_name }
        ensures bench { result.bench.now ≡ bench.old }
        ensures shelf { result.shelf.now ≡ shelf.old }
        ensures steps { result.steps.now ≡ steps.old }
        ensures output { result.output.now ≡ output.old }
    {
        Session {
            bench,
            shelf,
            steps,
            output,
        }
    }
}
