//! One line of a session: its effect, and then its reply.
ghost use Rattle.std.specs.Prelude.{◌≡◌, ℕ};
ghost use Rattle.iso_io.specs.Shelves.{Store};
ghost use Rattle.session.specs.Table.{reply_to_change, reply_to_mesh, reply_to_save};
ghost use Rattle.session.specs.Responses.{response_text};
ghost use Rattle.session.specs.Loop.{RanLine, Told, quits_by};
ghost use Rattle.session.specs.Worlds.{SameLoans, TakesTurn, world_of};

use crate::after::After;
use crate::loans::Session;
use crate::response::{Response, put_response};
use bench_core::{Bench, BenchFault, Written};
use iso_base::{MeshFormat, Steps};
use iso_io::{Failed, Shelf, Sink};
use script::{Command, LineFault, Reply};
use std::sync::ledger::Ledger;

/// The response to a change.
fn response_to_change(made: Result<(), BenchFault>) -> Response
    ensures { result ≡ Response.Line (reply_to_change made) }
{
    match made {
        Ok(()) => Response::Line(Reply::Done),
        Err(fault) => Response::Line(Reply::Refused(fault)),
    }
}

/// The response to the writing of a mesh.
fn response_to_mesh(made: Result<Written, BenchFault>) -> Response
    ensures { result ≡ Response.Line (reply_to_mesh made) }
{
    match made {
        Ok(written) => Response::Line(Reply::Meshed(written)),
        Err(fault) => Response::Line(Reply::Refused(fault)),
    }
}

/// The response to the saving of a volume.
fn response_to_save(made: Result<u64, BenchFault>) -> Response
    ensures { result ≡ Response.Line (reply_to_save made) }
{
    match made {
        Ok(bytes) => Response::Line(Reply::Saved { bytes }),
        Err(fault) => Response::Line(Reply::Refused(fault)),
    }
}

/// Writes the mesh to a file as PLY.
fn run_ply<H: Shelf, L: Ledger>(
    bench: &mut Bench,
    shelf: &mut H,
    steps: &mut Steps<L>,
    name: &str,
) -> Response
    ensures { TakesTurn bench.old steps.old (H.seen shelf.old) (Command.Ply name.now) (response_text result)
        bench.new steps.new (H.seen shelf.new) }
{
    response_to_mesh(bench.write_ply(shelf, name, steps))
}

/// Writes the mesh to a file as OBJ.
fn run_obj<H: Shelf, L: Ledger>(
    bench: &mut Bench,
    shelf: &mut H,
    steps: &mut Steps<L>,
    name: &str,
) -> Response
    ensures { TakesTurn bench.old steps.old (H.seen shelf.old) (Command.Obj name.now) (response_text result)
        bench.new steps.new (H.seen shelf.new) }
{
    response_to_mesh(bench.write_obj(shelf, name, steps))
}

/// Writes the volume to a file, with raw samples.
// Apart, since the buffers that it has on the stack would else be reserved, page by page, for each line of a script.
#[inline(never)]
fn run_save<H: Shelf>(bench: &Bench, shelf: &mut H, name: &str) -> Response
    ensures { (steps : ℕ) → TakesTurn bench.now steps (H.seen shelf.old) (Command.Save name.now)
        (response_text result) bench.now steps (H.seen shelf.new) }
{
    response_to_save(bench.save(shelf, name))
}

/// Writes the volume to a file, with its samples in decimal numbers.
fn run_savetext<H: Shelf>(bench: &Bench, shelf: &mut H, name: &str) -> Response
    ensures { (steps : ℕ) → TakesTurn bench.now steps (H.seen shelf.old) (Command.SaveText name.now)
        (response_text result) bench.now steps (H.seen shelf.new) }
{
    response_to_save(bench.save_text(shelf, name))
}

/// Writes the volume to a file, with its samples in hex digits.
fn run_savehex<H: Shelf>(bench: &Bench, shelf: &mut H, name: &str) -> Response
    ensures { (steps : ℕ) → TakesTurn bench.now steps (H.seen shelf.old) (Command.SaveHex name.now)
        (response_text result) bench.now steps (H.seen shelf.new) }
{
    response_to_save(bench.save_hex(shelf, name))
}

/// Writes the mesh of a box of points to a file.
// Apart, since the buffers that it has on the stack would else be reserved, page by page, for each line of a script.
#[inline(never)]
fn run_window<H: Shelf>(
    bench: &Bench,
    shelf: &mut H,
    name: &str,
    corners: [i64; 6],
    format: MeshFormat,
) -> Response
    ensures { (steps : ℕ) → TakesTurn bench.now steps (H.seen shelf.old) (Command.Window corners format name.now)
        (response_text result)
        bench.now steps (H.seen shelf.new) }
{
    response_to_mesh(bench.window(shelf, name, corners, format))
}

/// Draws the contour lines of a plane.
// Apart as well, and so are the two below.
#[inline(never)]
fn run_contour(bench: &Bench, k: i64) -> Response
    ensures { (steps : ℕ) (store : Store) → TakesTurn bench.now steps store (Command.Contour k)
        (response_text result) bench.now steps store }
{
    match bench.contour(k) {
        Ok(lines) => Response::Contours {
            lines,
            padded: bench.is_padded(),
        },
        Err(fault) => Response::Line(Reply::Refused(fault)),
    }
}

/// Counts the parts of the mesh.
#[inline(never)]
fn run_report(bench: &Bench) -> Response
    ensures { (steps : ℕ) (store : Store) → TakesTurn bench.now steps store Command.Report (response_text result)
        bench.now steps store }
{
    match bench.report() {
        Ok(report) => Response::Report(report),
        Err(fault) => Response::Line(Reply::Refused(fault)),
    }
}

/// Measures the parts of the mesh.
#[inline(never)]
fn run_measure(bench: &Bench) -> Response
    ensures { (steps : ℕ) (store : Store) → TakesTurn bench.now steps store Command.Measure (response_text result)
        bench.now steps store }
{
    match bench.measure() {
        Ok(measures) => Response::Measures(measures),
        Err(fault) => Response::Line(Reply::Refused(fault)),
    }
}

/// Does what a command asks for. Its reply is not written.
pub fn run_command<H: Shelf, L: Ledger>(
    bench: &mut Bench,
    shelf: &mut H,
    steps: &mut Steps<L>,
    command: &Command,
) -> Response
    ensures { TakesTurn bench.old steps.old (H.seen shelf.old) command.now (response_text result) bench.new
        steps.new (H.seen shelf.new) }
{
    match command {
        Command::Set { at, value } => response_to_change(bench.set(at[0], at[1], at[2], *value)),
        Command::Fill { corners, value } => response_to_change(bench.fill(*corners, *value)),
        Command::Level { value } => response_to_change(bench.level(*value)),
        Command::Undo => response_to_change(bench.undo()),
        Command::Redo => response_to_change(bench.redo()),
        Command::Work { n } => {
            bench.work(*n, steps);
            Response::Line(Reply::Done)
        }
        Command::Ply { name } => run_ply(bench, shelf, steps, name.as_str()),
        Command::Obj { name } => run_obj(bench, shelf, steps, name.as_str()),
        Command::Save { name } => run_save(bench, shelf, name.as_str()),
        Command::SaveText { name } => run_savetext(bench, shelf, name.as_str()),
        Command::SaveHex { name } => run_savehex(bench, shelf, name.as_str()),
        Command::Window {
            corners,
            format,
            name,
        } => run_window(bench, shelf, name.as_str(), *corners, *format),
        Command::Contour { k } => run_contour(bench, *k),
        Command::Report => run_report(bench),
        Command::Measure => run_measure(bench),
        Command::Quit => Response::Line(Reply::Done),
    }
}

fn quits(command: &Command) -> bool
    ensures { result ≡ quits_by command.now }
{
    matches!(command, Command::Quit)
}

/// Writes a response.
fn tell<K: Sink>(output: &mut K, response: &Response, quits: bool) -> After
    ensures { Told (K.seen output.old) (K.seen output.new) (response_text response.now) quits result }
{
    match put_response(output, response) {
        Ok(()) if quits => After::Quit,
        Ok(()) => After::On,
        Err(Failed) => After::Fault,
    }
}

/// Runs one line, and writes its reply.
pub fn run_line<K: Sink, H: Shelf, L: Ledger>(
    session: &mut Session<K, H, L>,
    says: Result<Option<Command>, LineFault>,
) -> After
    ensures same_reference { SameLoans session.old session.new }
    ensures ran { RanLine (world_of H.seen K.seen session.old) (world_of H.seen K.seen session.new) says result }
{
    match says {
        Ok(None) => After::On,
        Ok(Some(command)) => {
            let response = run_command(session.bench, session.shelf, session.steps, &command);
            tell(session.output, &response, quits(&command))
        }
        Err(fault) => tell(session.output, &Response::Line(Reply::Line(fault)), false),
    }
}
