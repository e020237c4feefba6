//! Readers and writers of std as sources and sinks.

ghost use Rattle.std.specs.Prelude.{◌≡◌, ◌<◌, None, [], length, is_err, if◌then◌else◌};
ghost use Rattle.std.specs.Io.{ReadsAtMost, WritesAtMost};
ghost use Rattle.byte_streams.specs.Causes.{one_more};
ghost use Rattle.byte_streams.specs.Seen.{Reads, Writes, untold_feed, untold_tape};

use crate::Failed;
use crate::sink::Sink;
use crate::source::{Source, count_read};
use std::io::{self, ErrorKind, Read, Write};
use std::marker::Model;

/// So often is a call tried again that a signal interrupted.
const RETRIES: usize = 100;

/// Reads, and reads again where a signal interrupted it, which took nothing.
fn read_again<R: Read>(reader: &mut R, into: &mut [u8]) -> io::Result<usize>
    ensures { ReadsAtMost result into.new }
{
    for _ in 0..RETRIES {
        match reader.read(into) {
            Err(error) if error.kind() == ErrorKind::Interrupted => {}
            result => return result,
        }
    }
    reader.read(into)
}

/// Writes, and writes again where a signal interrupted it, which took nothing.
fn write_again<W: Write>(writer: &mut W, bytes: &[u8]) -> io::Result<usize>
    ensures { WritesAtMost result bytes.now }
{
    for _ in 0..RETRIES {
        match writer.write(bytes) {
            Err(error) if error.kind() == ErrorKind::Interrupted => {}
            result => return result,
        }
    }
    writer.write(bytes)
}

/// A reader of std, as standard input or a file. It tells nothing of its bytes, and is seen as the counts of a source; that of
/// faults rises at each read that fails and at no other. A read that a signal interrupts is tried again, a bounded number of
/// times, as one read.
#[derive(Drop)]
pub struct StdSource<R: Read> {
    reader: R,
    reads: u64,
    empty_reads: u64,
    empty_at_end: u64,
    faults: u64,
}

impl<R: Read> Model for StdSource<R> {
    ghost use Rattle.byte_streams.specs.Seen.{Counts};

    ghost Value = { Counts };

    ghost view = { λ s. record {
      reads = s.reads;
      empty_reads = s.empty_reads;
      empty_at_end = s.empty_at_end;
      faults = s.faults;
    } };
}

impl<R: Read> StdSource<R> {
    /// The source of what this reader gives.
    pub fn new(reader: R) -> StdSource<R>
        ensures { result ≡ record { reads = 0; empty_reads = 0; empty_at_end = 0; faults = 0 } }
    {
        StdSource {
            reader,
            reads: 0,
            empty_reads: 0,
            empty_at_end: 0,
            faults: 0,
        }
    }
}

impl<R: Read> Source for StdSource<R> {
    ghost seen = { untold_feed };

    fn read(&mut self, into: &mut [u8]) -> Result<usize, Failed>
        requires { 0 < length into.old }
        ensures bound { ReadsAtMost result into.new }
        ensures reads { Reads (untold_feed self.old) (untold_feed self.new) result into.new }
        ensures faults { self.new.faults ≡ (if is_err result then one_more self.old.faults else self.old.faults) }
    {
        self.reads = self.reads.saturating_add(1);
        match read_again(&mut self.reader, into) {
            Ok(count) => {
                count_read(count, &mut self.empty_reads, &mut self.empty_at_end);
                Ok(count)
            }
            Err(_) => {
                count_read(0, &mut self.empty_reads, &mut self.empty_at_end);
                self.faults = self.faults.saturating_add(1);
                Err(Failed)
            }
        }
    }
}

/// A writer of std, as standard output or a file. It tells nothing of its bytes, and is seen as a count, which rises at
/// each write that fails and at no other. A writer that takes nothing of a piece that is not empty failed. A write that a
/// signal interrupts is tried again, a bounded number of times, as one write.
#[derive(Drop)]
pub struct StdSink<W: Write> {
    writer: W,
    faults: u64,
}

impl<W: Write> Model for StdSink<W> {
    ghost use Rattle.std.specs.Prelude.{ℕ};

    ghost Value = { ℕ };

    ghost view = { λ s. s.faults };
}

impl<W: Write> StdSink<W> {
    /// The sink that hands what it takes to this writer.
    pub fn new(writer: W) -> StdSink<W>
        ensures { result ≡ 0 }
    {
        StdSink { writer, faults: 0 }
    }
}

impl<W: Write> Sink for StdSink<W> {
    ghost seen = { untold_tape };

    fn write(&mut self, bytes: &[u8]) -> Result<usize, Failed>
        ensures bound { WritesAtMost result bytes.now }
        ensures writes { Writes (untold_tape self.old) (untold_tape self.new) result bytes.now }
        ensures faults { self.new ≡ (if is_err result then one_more self.old else self.old) }
    {
        if bytes.is_empty() {
            return Ok(0);
        }
        match write_again(&mut self.writer, bytes) {
            Ok(count) if 0 < count => Ok(count),
            _ => {
                self.faults = self.faults.saturating_add(1);
                Err(Failed)
            }
        }
    }
}
