//! Calls of the system that fail at first.

ghost use Rattle.std.specs.Prelude.{◌≡◌, IfOk};

use iso_io::{Failed, Sink, Source, StdSink, StdSource};
use std::io::{self, ErrorKind, Read, Write};
use std::process::Abort;

/// Fails so often, for one reason, and then gives or takes all that it is asked to.
#[derive(Drop)]
struct FailsFirst {
    times: u32,
    kind: ErrorKind,
}

impl FailsFirst {
    fn call(&mut self, count: usize) -> io::Result<usize>
        ensures { IfOk result (λ n. n ≡ count) }
    {
        if self.times == 0 {
            return Ok(count);
        }
        self.times -= 1;
        Err(self.kind.into())
    }
}

impl Read for FailsFirst {
    fn read(&mut self, into: &mut [u8]) -> io::Result<usize> {
        self.call(into.len())
    }
}

impl Write for FailsFirst {
    fn write(&mut self, bytes: &[u8]) -> io::Result<usize> {
        self.call(bytes.len())
    }

    fn flush(&mut self) -> io::Result<()> {
        Ok(())
    }
}

/// What is read first, and then.
fn check_reads(rt: &impl Abort, times: u32, kind: ErrorKind, want: Result<usize, Failed>) {
    let mut source = StdSource::new(FailsFirst { times, kind });
    assert!(rt; source.read(&mut [0; 3]) == want, "{times}");
    assert!(rt; source.read(&mut [0; 3]) == Ok(3), "{times}");
}

/// What is written first, and then.
fn check_writes(rt: &impl Abort, times: u32, kind: ErrorKind, want: Result<usize, Failed>) {
    let mut sink = StdSink::new(FailsFirst { times, kind });
    assert!(rt; sink.write(b"abc") == want, "{times}");
    assert!(rt; sink.write(b"abc") == Ok(3), "{times}");
}

/// The system fails so often, for one reason: what is answered to the first call.
fn check(rt: &impl Abort, times: u32, kind: ErrorKind, want: Result<usize, Failed>) {
    check_reads(rt, times, kind, want);
    check_writes(rt, times, kind, want);
}

#[test]
fn a_call_is_tried_again_where_a_signal_interrupted_it(rt: HostRuntime) {
    check(&rt, 0, ErrorKind::Interrupted, Ok(3));
    check(&rt, 100, ErrorKind::Interrupted, Ok(3));
    check(&rt, 101, ErrorKind::Interrupted, Err(Failed));
    check(&rt, 1, ErrorKind::WouldBlock, Err(Failed));
    check(&rt, 1, ErrorKind::BrokenPipe, Err(Failed));
}
