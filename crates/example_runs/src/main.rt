//! The examples, run as a user runs them: each session on its volume, and `check` on the meshes that it wrote. All that they
//! answer goes to the standard output, one after another, where the gate compares it with what is stored.
#![tactic(auto)]

ghost use Rattle.std.specs.Prelude.{◌≡◌, ◌<◌};

use commands::run;
use iso_base::Steps;
use iso_io::{FileShelf, StdSink, StdSource};
use std::alloc::{AllocError, Global};
use std::fs::File;
use std::marker::Brand;
use std::process::ExitCode;
use std::sync::ledger::{Blank, Ledger};

fn words_of(alloc: Global, words: &[&str]) -> Result<Vec<String>, AllocError> {
    let mut all = Vec::new(alloc);
    for word in words {
        all.push(String::from_str(alloc, word)?)?;
    }
    Ok(all)
}

/// Runs a command line over the files of the system, of which one is its input. Its status is not looked at: what it answers
/// tells as much.
fn call<L: Ledger>(
    rt: &HostRuntime,
    steps: &mut Steps<L>,
    words: &[&str],
    input: &str,
) -> Result<(), AllocError> {
    let words = words_of(rt.alloc(), words)?;
    let Ok(input) = File::open(rt, input) else {
        return Ok(());
    };
    run(
        rt.alloc(),
        &words,
        &mut StdSource::new(input),
        &mut StdSink::new(rt.stdout()),
        &mut StdSink::new(rt.stderr()),
        &mut FileShelf::new(rt),
        &mut None,
        steps,
    );
    Ok(())
}

/// Runs a session at a level on a volume.
fn session<L: Ledger>(
    rt: &HostRuntime,
    steps: &mut Steps<L>,
    level: &str,
    volume: &str,
    script: &str,
) -> Result<(), AllocError> {
    call(rt, steps, &["session", level, volume], script)
}

/// Looks at a mesh that a session wrote.
fn check<L: Ledger>(
    rt: &HostRuntime,
    steps: &mut Steps<L>,
    format: &str,
    mesh: &str,
) -> Result<(), AllocError> {
    call(rt, steps, &["check", format], mesh)
}

fn run_ties<L: Ledger>(rt: &HostRuntime, steps: &mut Steps<L>) -> Result<(), AllocError> {
    call(
        rt,
        steps,
        &["session", "--level=4", "--pad=0", "ties.nrrd"],
        "ties.session",
    )?;
    check(rt, steps, "ply", "ties.ply")?;
    check(rt, steps, "obj", "ties.obj")
}

fn run_saddle<L: Ledger>(rt: &HostRuntime, steps: &mut Steps<L>) -> Result<(), AllocError> {
    session(rt, steps, "--level=0", "saddle.nrrd", "saddle.session")?;
    check(rt, steps, "ply", "saddle.ply")?;
    check(rt, steps, "ply", "apart.ply")
}

fn run_knot<L: Ledger>(rt: &HostRuntime, steps: &mut Steps<L>) -> Result<(), AllocError> {
    session(rt, steps, "--level=100.5", "knot.nrrd", "knot.session")?;
    check(rt, steps, "ply", "knot.ply")?;
    check(rt, steps, "ply", "cut.ply")?;
    check(rt, steps, "obj", "knot.obj")
}

fn run_all<L: Ledger>(rt: &HostRuntime, blank: Blank) -> Result<(), AllocError>
    requires name { blank.name ≡ L.name }
    requires parts { blank.parts ≡ L.parts }
    requires some { 0 < blank.parts }
{
    let (book, share) = blank.open::<L>();
    let mut steps = Steps::new(book, share);
    run_ties(rt, &mut steps)?;
    run_saddle(rt, &mut steps)?;
    run_knot(rt, &mut steps)
}

fn main(rt: HostRuntime) -> ExitCode {
    match run_all::<Brand>(&rt, Blank::new(1)) {
        Ok(()) => ExitCode::SUCCESS,
        Err(AllocError) => ExitCode::FAILURE,
    }
}
