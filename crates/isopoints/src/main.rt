//! The command `points` of the isosurface workbench over the standard streams, for those who want nothing else of it.
#![tactic(auto)]

use byte_streams::{Sink, Source};
use point_command::run_points;
use program::{Program, Status, run_program};
use std::process::ExitCode;

struct Isopoints;

impl Program for Isopoints {
    ghost use Rattle.point_command.specs.Promise.{MayEnd};

    ghost ends = { λ _. MayEnd };

    fn name(&self) -> &'static str {
        "isobench"
    }

    fn run<S: Source, K: Sink, N: Sink>(
        &self,
        rt: &HostRuntime,
        words: &[String],
        input: &mut S,
        output: &mut K,
        notes: &mut N,
    ) -> Status {
        run_points(rt.alloc(), words, input, output, notes)
    }
}

fn main(rt: HostRuntime) -> ExitCode {
    run_program(&rt, &Isopoints)
}
