//! A program over the standard streams.

ghost use Rattle.std.specs.Prelude.{◌≡◌, ◌≤◌, ℕ, List, length, map, string_bytes};
ghost use Rattle.std.specs.Process.{exit_status};
ghost use Rattle.program.specs.Status.{number_of};
ghost use Rattle.program.specs.declared.answer.Status.{Status};
ghost use Rattle.program.specs.Ending.{ExitsBy, Given, MayEnd};

use crate::answer::{Answer, Status};
use crate::notes::put_note_by;
use crate::words::given_words;
use byte_streams::{Sink, Source, StdSink, StdSource};
use std::alloc::AllocError;
use std::env::{self, Args};
use std::io;
use std::process::ExitCode;

/// What a program does. It says by which statuses it may end on some words.
pub trait Program {
    ghost ends: { Self → List (List ℕ) → Status → Type 0 };

    /// The name that its notes begin with.
    fn name(&self) -> &'static str
        ensures { length result.now ≤ 8 };

    /// Does what the words ask for, which do not hold the program's name, and says by which status it ends.
    fn run<S: Source, K: Sink, N: Sink>(
        &self,
        rt: &HostRuntime,
        words: &[String],
        input: &mut S,
        output: &mut K,
        notes: &mut N,
    ) -> Status
        ensures { ends self.now (map string_bytes words.now) result };
}

/// The exit status of a program that ends so.
fn exit_code(status: Status) -> ExitCode
    ensures { exit_status result ≡ number_of status }
{
    ExitCode::from(status.number())
}

/// Says on the standard error that memory could not be had for the words.
fn without_words(rt: &HostRuntime, name: &str) -> Status
    requires { length name.now ≤ 8 }
    ensures { result ≡ Status.Memory }
{
    put_note_by(&mut StdSink::new(rt.stderr()), name, &Answer::Memory);
    Status::Memory
}

fn run_words<P: Program>(rt: &HostRuntime, program: &P, words: &[String]) -> Status
    ensures { P.ends program.now (map string_bytes words.now) result }
{
    let mut input = StdSource::new(rt.stdin());
    let mut output = StdSink::new(rt.stdout());
    let mut notes = StdSink::new(rt.stderr());
    program.run(rt, words, &mut input, &mut output, &mut notes)
}

/// Runs a program on the words of these arguments, over the standard streams, and says by which status it ends. Where memory
/// cannot be had for the words it is not run, and that is the status.
fn status_on<P: Program>(rt: &HostRuntime, program: &P, given: io::Result<Args>) -> Status
    ensures { MayEnd (P.ends program.now) given result }
{
    match given_words(rt.alloc(), given) {
        Ok(words) => run_words(rt, program, &words),
        Err(AllocError) => without_words(rt, program.name()),
    }
}

/// Runs a program on the words of these arguments, over the standard streams. The exit status is the number of a status by
/// which the program may end on these words; where memory cannot be had for the words, it is not run, and that is its status.
pub fn run_given<P: Program>(rt: &HostRuntime, program: &P, given: io::Result<Args>) -> ExitCode
    ensures { ExitsBy (MayEnd (P.ends program.now) given) result }
{
    exit_code(status_on(rt, program, given))
}

/// Runs a program on the arguments that it was given, as `run_given`. No contract tells what the system gives of them.
pub fn run_program<P: Program>(rt: &HostRuntime, program: &P) -> ExitCode
    ensures { (given : Given) × ExitsBy (MayEnd (P.ends program.now) given) result }
{
    run_given(rt, program, env::args(rt))
}
