//! Sessions: a script on the volume of a file.
ghost use Rattle.std.specs.Prelude.{◌≡◌, None, IfSome};
ghost use Rattle.iso_base.specs.Volume.{IsSample};
ghost use Rattle.byte_streams.specs.Seen.{ReadsWithin};
ghost use Rattle.session.specs.Sessions.{script_limit};
ghost use Rattle.commands.specs.Outcome.{call_between};
ghost use Rattle.commands.specs.Serving.{asked_for};
ghost use Rattle.commands.specs.Sessions.{RunsSession, answer_of};

use crate::volumes::bricks_on_shelf;
use bench_core::{BeginFault, Bench, Capacity};
use iso_base::{Level, Memory, Steps};
use iso_io::{Shelf, Sink, Source};
use program::Answer;
use session::{Ending, run_session};
use std::alloc::Global;
use std::sync::ledger::Ledger;

/// What an ending of a session is answered.
fn answer(ending: Ending) -> Answer
    ensures { result ≡ answer_of ending }
{
    match ending {
        Ending::Done => Answer::Done,
        Ending::InputFault => Answer::InputFault,
        Ending::InputTooLong => Answer::InputTooLong,
        Ending::OutputFault => Answer::OutputFault,
    }
}

/// Runs the script of the input on the volume of a file, and leaves the bench on which it was run.
pub fn run_on_file<S: Source, K: Sink, H: Shelf, L: Ledger>(
    alloc: Global,
    level: Level,
    pad: Option<i64>,
    name: &str,
    capacity: Capacity,
    input: &mut S,
    output: &mut K,
    shelf: &mut H,
    left: &mut Option<Bench>,
    steps: &mut Steps<L>,
) -> Answer
    requires left { left.old ≡ None }
    requires pad { IfSome pad IsSample }
    ensures runs { RunsSession (asked_for level pad name.now capacity.bricks capacity.pages)
        (call_between S.seen K.seen H.seen input.old input.new output.old output.new
        shelf.old shelf.new left.new steps.old steps.new) result }
    ensures reading { ReadsWithin script_limit (S.seen input.old) (S.seen input.new) }
{
    let store = match bricks_on_shelf(alloc, shelf, name, pad, level) {
        Ok(store) => store,
        Err(answer) => return answer,
    };
    let mut bench = match Bench::begin_over(alloc, store, level, capacity) {
        Ok(bench) => bench,
        Err(BeginFault::Memory) => return Answer::Memory,
        // The level was found to be above the pad when the volume was opened.
        Err(BeginFault::LevelNotAbovePad { .. }) => unreachable!(),
    };
    match run_session(alloc, &mut bench, shelf, steps, input, output) {
        Ok(ending) => {
            *left = Some(bench);
            answer(ending)
        }
        Err(Memory) => Answer::Memory,
    }
}
