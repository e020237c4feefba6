//! All that the program does.
//!
//! Why: DECISIONS.md, "A promise is a record".
ghost use Rattle.std.specs.Prelude.{◌≡◌, map, string_bytes, None};
ghost use Rattle.arguments.specs.Words.{HasCapacity, HasSamplePad, IsCapacity};
ghost use Rattle.commands.specs.Outcome.{call_between};
ghost use Rattle.commands.specs.Promise.{RunsAs};
ghost use Rattle.commands.specs.Reading.{ReadsFor, ReadsInput};
ghost use Rattle.commands.specs.Serving.{Ends, Serves};

use crate::checking::check;
use crate::extracting::extract;
use crate::generating::generate;
use crate::sessions::run_on_file;
use crate::soaking::soak;
use arguments::{Request, help_text, read_words, version_text};
use bench_core::{Bench, Capacity};
use command_terms::tell;
use iso_base::Steps;
use iso_io::{Shelf, Sink, Source};
use point_command::points;
use program::{Answer, Status, put_note};
use std::alloc::Global;
use std::sync::ledger::Ledger;

/// How much of the mesh is kept.
fn capacity_of(bricks: u32, pages: u32) -> Capacity
    requires { IsCapacity bricks pages }
    ensures { result ≡ record { bricks = bricks; pages = pages } }
{
    Capacity::new(bricks, pages).unwrap()
}

fn carry_out<S: Source, K: Sink, H: Shelf, L: Ledger>(
    alloc: Global,
    request: Request,
    input: &mut S,
    output: &mut K,
    shelf: &mut H,
    left: &mut Option<Bench>,
    steps: &mut Steps<L>,
) -> Answer
    requires left { left.old ≡ None }
    requires pad { HasSamplePad request }
    requires capacity { HasCapacity request }
    ensures serves { Serves request
        (call_between S.seen K.seen H.seen input.old input.new output.old output.new
        shelf.old shelf.new left.new steps.old steps.new) result }
    ensures reading { ReadsFor request (S.seen input.old) (S.seen input.new) }
{
    match request {
        Request::Points { level } => points(alloc, level, input, output),
        Request::Extract { level, pad, format } => {
            extract(alloc, level, pad, format, input, output)
        }
        Request::Session {
            level,
            pad,
            name,
            bricks,
            pages,
        } => run_on_file(
            alloc,
            level,
            pad,
            name.as_str(),
            capacity_of(bricks, pages),
            input,
            output,
            shelf,
            left,
            steps,
        ),
        Request::Check { format } => check(alloc, format, input, output),
        Request::Gen { seed, sizes } => generate(alloc, seed, &sizes, output),
        Request::Soak { seed } => soak(alloc, seed, output, shelf, left, steps),
        Request::Help => tell(help_text(), output),
        Request::Version => tell(version_text().as_str(), output),
    }
}

/// Does what the words ask for.
fn serve<S: Source, K: Sink, H: Shelf, L: Ledger>(
    alloc: Global,
    words: &[String],
    input: &mut S,
    output: &mut K,
    shelf: &mut H,
    left: &mut Option<Bench>,
    steps: &mut Steps<L>,
) -> Answer
    requires { left.old ≡ None }
    ensures ends { Ends (map string_bytes words.now)
        (call_between S.seen K.seen H.seen input.old input.new output.old output.new
        shelf.old shelf.new left.new steps.old steps.new) result }
    ensures reading { ReadsInput (map string_bytes words.now) (S.seen input.old) (S.seen input.new) }
{
    match read_words(words) {
        None => Answer::BadWords,
        Some(request) => carry_out(alloc, request, input, output, shelf, left, steps),
    }
}

/// Does what a command line asks for, and says by which status it ends; every status but `Done` and `MeshRefused` puts its
/// line into `notes`, whose failure changes nothing else.
///
/// `words` are those after the program's name. `points`, `extract` and `check` read a volume or a mesh from `input`; a session
/// reads its volume from the shelf and its script from `input`; `gen`, `soak`, help and the version read nothing. What a
/// command gives is appended to `output`; the lines of a session and of a soak write files of the shelf. `left` is empty at
/// first.
///
/// In a session, and after a soak, the bench that is left has the state to which its lines and replies lead, and the cache
/// that they leave of an empty one; the counter rises by no more than they allow. No other command leaves a bench or
/// classifies a cell.
///
/// All that it promises is `RunsAs` in `specs/Promise.antt`.
pub fn run<S: Source, K: Sink, N: Sink, H: Shelf, L: Ledger>(
    alloc: Global,
    words: &[String],
    input: &mut S,
    output: &mut K,
    notes: &mut N,
    shelf: &mut H,
    left: &mut Option<Bench>,
    steps: &mut Steps<L>,
) -> Status
    requires { left.old ≡ None }
    ensures run { RunsAs (map string_bytes words.now)
        (call_between S.seen K.seen H.seen input.old input.new output.old output.new
        shelf.old shelf.new left.new steps.old steps.new) result (N.seen notes.old) (N.seen notes.new) }
{
    let answer = serve(alloc, words, input, output, shelf, left, steps);
    put_note(notes, &answer);
    answer.status()
}
