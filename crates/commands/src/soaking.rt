//! The soak: the script of a seed, run on the volume that it generates.
ghost use Rattle.std.specs.Prelude.{◌≡◌, ℕ, List, Some, None, Ok, IfOk};
ghost use Rattle.byte_streams.specs.Seen.{Feed};
ghost use Rattle.bench_core.specs.Keeping.{first_bench};
ghost use Rattle.bench_core.specs.Machine.{IsState};
ghost use Rattle.volume_gen.specs.Soak.{soak_lines};
ghost use Rattle.script.specs.Commands.{read_of};
ghost use Rattle.session.specs.Responses.{response_text};
ghost use Rattle.session.specs.Worlds.{world};
ghost use Rattle.command_terms.specs.Outcome.{unread_between};
ghost use Rattle.commands.specs.Outcome.{call_with};
ghost use Rattle.commands.specs.SoakLoop.{Shows, SoaksLine, is_want_response};
ghost use Rattle.commands.specs.Soaking.{DoesSoak, RunsLines, is_ply, soak_level, soak_limits, soak_sizes, soak_volume};

use arrayvec::ArrayString;
use bench_core::{BeginFault, Bench, BenchFault, Capacity};
use iso_base::{Level, Memory, Sizes, Steps};
use iso_io::{Failed, Shelf, Sink};
use program::Answer;
use script::{Command, Reply, read_line};
use session::{Response, put_response, run_command};
use std::alloc::Global;
use std::sync::ledger::Ledger;
use volume_gen::{SoakLines, generate};
use voxel_list::VoxelList;

/// How a line ended.
enum Pace {
    /// The next one may come.
    On,
    /// Memory was wanting for it, and it left everything as it was.
    Wanting,
    /// Its reply was not written whole.
    Fault,
}

fn says_want(response: &Response) -> bool
    ensures { result ≡ is_want_response response.now }
{
    matches!(response, Response::Line(Reply::Refused(BenchFault::Memory)))
}

fn asks_for_ply(command: &Command) -> bool
    ensures { result ≡ is_ply (Ok (Some command.now)) }
{
    matches!(command, Command::Ply { .. })
}

/// Writes a reply, if it is shown.
fn show<K: Sink>(output: &mut K, response: &Response, is_shown: bool) -> Pace
    ensures { Shows (K.seen output.old) (K.seen output.new) (response_text response.now) is_shown result }
{
    if !is_shown {
        return Pace::On;
    }
    match put_response(output, response) {
        Ok(()) => Pace::On,
        Err(Failed) => Pace::Fault,
    }
}

/// Runs a command, and writes its reply where it asks for the mesh as PLY.
fn run_quietly<K: Sink, H: Shelf, L: Ledger>(
    bench: &mut Bench,
    shelf: &mut H,
    steps: &mut Steps<L>,
    output: &mut K,
    command: &Command,
) -> Pace
    ensures { (line : List ℕ) → Ok (Some command.now) ≡ read_of line → SoaksLine
        (world bench.old steps.old (H.seen shelf.old) (K.seen output.old))
        (world bench.new steps.new (H.seen shelf.new) (K.seen output.new))
        line result }
{
    let response = run_command(bench, shelf, steps, command);
    if says_want(&response) {
        return Pace::Wanting;
    }
    show(output, &response, asks_for_ply(command))
}

/// Runs a line, and writes its reply where it asks for the mesh as PLY.
fn run_line<K: Sink, H: Shelf, L: Ledger>(
    bench: &mut Bench,
    shelf: &mut H,
    steps: &mut Steps<L>,
    output: &mut K,
    line: &[u8],
) -> Pace
    ensures { SoaksLine
        (world bench.old steps.old (H.seen shelf.old) (K.seen output.old))
        (world bench.new steps.new (H.seen shelf.new) (K.seen output.new))
        line.now result }
{
    match read_line(line) {
        Ok(Some(command)) => run_quietly(bench, shelf, steps, output, &command),
        Ok(None) => Pace::On,
        Err(_) => Pace::On,
    }
}

/// Runs the lines of the script.
fn run_lines<K: Sink, H: Shelf, L: Ledger>(
    bench: &mut Bench,
    shelf: &mut H,
    steps: &mut Steps<L>,
    output: &mut K,
    mut lines: SoakLines,
) -> Answer
    ensures { (seed : ℕ) → lines ≡ soak_lines seed → RunsLines lines
        (world bench.old steps.old (H.seen shelf.old) (K.seen output.old))
        (world bench.new steps.new (H.seen shelf.new) (K.seen output.new))
        result }
{
    let mut line = ArrayString::new();
    while lines.next_line(&mut line) {
        match run_line(bench, shelf, steps, output, line.as_str().as_bytes()) {
            Pace::On => {}
            Pace::Wanting => return Answer::Memory,
            Pace::Fault => return Answer::OutputFault,
        }
    }
    Answer::Done
}

fn sizes() -> Sizes
    ensures { result ≡ soak_sizes }
{
    Sizes::new(64, 64, 64).unwrap()
}

fn level() -> Level
    ensures { result ≡ soak_level }
{
    Level::new(128_000).unwrap()
}

fn capacity() -> Capacity
    ensures { result ≡ soak_limits }
{
    Capacity::new(4_096, 65_536).unwrap()
}

/// A bench on the generated volume of a seed.
fn open(alloc: Global, seed: u64) -> Result<Bench, Memory>
    ensures opened { IfOk result (λ b. b ≡ first_bench (soak_volume seed) soak_level soak_limits) }
    ensures sound { IfOk result (λ b. IsState b.state) }
{
    let volume = generate(alloc, seed, &sizes())?;
    match Bench::begin(alloc, VoxelList::of(volume), level(), capacity()) {
        Ok(bench) => Ok(bench),
        Err(BeginFault::Memory) => Err(Memory),
        // There is no pad.
        Err(BeginFault::LevelNotAbovePad { .. }) => unreachable!(),
    }
}

/// Runs the soak script of a seed on the volume that it generates, at the level 128, and writes the replies to its lines `ply`
/// and no others. The bench on which it was run is left, with all that it keeps of its mesh.
pub fn soak<K: Sink, H: Shelf, L: Ledger>(
    alloc: Global,
    seed: u64,
    output: &mut K,
    shelf: &mut H,
    left: &mut Option<Bench>,
    steps: &mut Steps<L>,
) -> Answer
    requires { left.old ≡ None }
    ensures { (input : Feed) → DoesSoak seed
        (call_with (unread_between input K.seen output.old output.new)
        H.seen shelf.old shelf.new left.new steps.old steps.new) result }
{
    let Ok(mut bench) = open(alloc, seed) else {
        return Answer::Memory;
    };
    let answer = run_lines(&mut bench, shelf, steps, output, SoakLines::new(seed));
    *left = Some(bench);
    answer
}
