//! One slab of a volume that is larger than one process takes: its commands over the standard streams and the files of the system.
#![tactic(auto)]

use iso_io::{FileShelf, Sink, Source};
use program::{Program, Status, run_program};
use slab_command::run_slab;
use std::process::ExitCode;

struct Isoslab;

impl Program for Isoslab {
    ghost use Rattle.slab_command.specs.Promise.{MayEnd};

    ghost ends = { λ _. MayEnd };

    fn name(&self) -> &'static str {
        "isoslab"
    }

    fn run<S: Source, K: Sink, N: Sink>(
        &self,
        rt: &HostRuntime,
        words: &[String],
        input: &mut S,
        output: &mut K,
        notes: &mut N,
    ) -> Status {
        run_slab(
            rt.alloc(),
            words,
            input,
            output,
            notes,
            &mut FileShelf::new(rt),
        )
    }
}

fn main(rt: HostRuntime) -> ExitCode {
    run_program(&rt, &Isoslab)
}
