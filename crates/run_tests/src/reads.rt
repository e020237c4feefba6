//! How often the input is read.

ghost use Rattle.std.specs.Prelude.{None};

use crate::calls::{Call, call_of, outcome_over};
use crate::faults::worked_call;
use crate::scripts::{SEVENTEEN, zeros};
use iso_io::{Failed, Source, count_read};
use program::Status;
use std::alloc::Global;
use std::process::Abort;
use std::test::Fail;

/// Gives bytes in pieces of at most 7, counts its reads, and fails at the read of one number, counted from 1.
#[derive(Drop)]
struct Pieces<'a> {
    rest: &'a [u8],
    failing: u64,
    reads: u64,
    empty_reads: u64,
    empty_at_end: u64,
    faults: u64,
}

impl<'a> Source for Pieces<'a> {
    ghost seen = { λ pieces. record {
      left = None;
      reads = pieces.reads;
      empty_reads = pieces.empty_reads;
      empty_at_end = pieces.empty_at_end;
      faults = pieces.faults;
    } };

    fn read(&mut self, into: &mut [u8]) -> Result<usize, Failed> {
        self.reads = self.reads.saturating_add(1);
        if self.reads == self.failing {
            count_read(0, &mut self.empty_reads, &mut self.empty_at_end);
            self.faults = self.faults.saturating_add(1);
            return Err(Failed);
        }
        let count = into.len().min(self.rest.len()).min(7);
        into[..count].copy_from_slice(&self.rest[..count]);
        self.rest = &self.rest[count..];
        count_read(count, &mut self.empty_reads, &mut self.empty_at_end);
        Ok(count)
    }
}

/// A call over these bytes, of which one read fails, ends so and reads so often.
fn check_reads(
    rt: &impl Abort,
    alloc: Global,
    call: &Call<'_>,
    input: &[u8],
    failing: u64,
    end: (Status, u64),
) -> Result<(), Fail> {
    let mut source = Pieces {
        rest: input,
        failing,
        reads: 0,
        empty_reads: 0,
        empty_at_end: 0,
        faults: 0,
    };
    let outcome = outcome_over(alloc, call, &mut source)?;
    assert_eq!(rt; outcome.status, end.0);
    assert_eq!(rt; source.reads, end.1);
    Ok(())
}

#[test]
fn a_script_is_read_no_further_than_its_quit(rt: HostRuntime) -> Result<(), Fail> {
    let alloc = rt.alloc();
    let zeros = zeros(alloc, SEVENTEEN, 4913)?;
    let call = worked_call(&zeros, b"");
    // The second piece has the end of the `quit`.
    let script = b"undo\nquit\nundo\nundo\nundo\n";
    check_reads(&rt, alloc, &call, script, 0, (Status::Done, 2))?;
    check_reads(&rt, alloc, &call, script, 2, (Status::InputFault, 2))?;
    // Behind the last piece one read finds the end.
    check_reads(&rt, alloc, &call, b"undo\nundo", 0, (Status::Done, 3))
}

#[test]
fn a_read_that_failed_is_not_tried_again(rt: HostRuntime) -> Result<(), Fail> {
    let alloc = rt.alloc();
    for words in [
        ["points", "--level=5"],
        ["extract", "--level=5"],
        ["check", "ply"],
    ] {
        let call = call_of(&words, b"");
        check_reads(&rt, alloc, &call, b"neither", 1, (Status::InputFault, 1))?;
        check_reads(&rt, alloc, &call, b"neither", 2, (Status::InputFault, 2))?;
    }
    Ok(())
}
