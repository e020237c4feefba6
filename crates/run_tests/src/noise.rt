//! Scripts and volumes of pseudo-random bytes, and an input without an end.

ghost use Rattle.std.specs.Prelude.{None};

use crate::calls::{Outcome, call_of, check_output, outcome_of, outcome_over};
use crate::faults::worked_call;
use crate::scripts::{SEVENTEEN, zeros};
use iso_io::{Failed, Source, count_read};
use program::Status;
use std::alloc::{AllocError, Global};
use std::process::Abort;
use std::test::Fail;

/// So many bytes.
fn noise(alloc: Global, seed: u64, count: usize) -> Result<Vec<u8>, AllocError> {
    let mut state = seed;
    let mut all = Vec::new(alloc);
    for _ in 0..count {
        state = state
            .wrapping_mul(6_364_136_223_846_793_005)
            .wrapping_add(1_442_695_040_888_963_407);
        all.push((state >> 56) as u8)?;
    }
    Ok(all)
}

/// No line of such a script is a command.
fn check_script(rt: &impl Abort, outcome: &Outcome) {
    let refused = b"error 2 syntax\n";
    let replies = outcome.output.bytes();
    assert_eq!(rt; outcome.status, Status::Done);
    assert!(rt; replies.starts_with(refused.as_slice()));
    assert_eq!(rt; replies.len() % refused.len(), 0);
}

/// No such bytes are a volume.
fn check_volume(rt: &impl Abort, alloc: Global, volume: &[u8]) -> Result<(), Fail> {
    let note = b"isobench: volume 1 not nrrd\n";
    let words = ["points", "--level=5"];
    check_output(rt, alloc, &words, volume, Status::BadVolume, b"", note)
}

#[test]
fn noise_is_refused(rt: HostRuntime) -> Result<(), Fail> {
    let alloc = rt.alloc();
    let zeros = zeros(alloc, SEVENTEEN, 4913)?;
    for seed in 0..32 {
        let script = noise(alloc, seed, 1024)?;
        check_script(&rt, &outcome_of(alloc, &worked_call(&zeros, &script))?);
        check_volume(&rt, alloc, &noise(alloc, seed, 256)?)?;
    }
    Ok(())
}

/// Gives the byte 0 without end, and counts its reads.
#[derive(Drop)]
struct Zeros {
    reads: u64,
    empty_reads: u64,
    empty_at_end: u64,
}

impl Source for Zeros {
    ghost seen = { λ zeros. record {
      left = None;
      reads = zeros.reads;
      empty_reads = zeros.empty_reads;
      empty_at_end = zeros.empty_at_end;
      faults = 0;
    } };

    fn read(&mut self, into: &mut [u8]) -> Result<usize, Failed> {
        self.reads = self.reads.saturating_add(1);
        into.fill(0);
        count_read(into.len(), &mut self.empty_reads, &mut self.empty_at_end);
        Ok(into.len())
    }
}

#[test]
fn an_input_without_end_is_too_long(rt: HostRuntime) -> Result<(), Fail> {
    let call = call_of(&["points", "--level=5"], b"");
    let mut zeros = Zeros {
        reads: 0,
        empty_reads: 0,
        empty_at_end: 0,
    };
    let outcome = outcome_over(rt.alloc(), &call, &mut zeros)?;
    assert_eq!(rt; outcome.status, Status::InputTooLong);
    // The limit of 640,065,536 bytes lies within the last of these pieces of 65,536.
    assert_eq!(rt; zeros.reads, 9_767);
    Ok(())
}
