//! A source in memory, some of whose calls fail.

ghost use Rattle.std.specs.Prelude.{◌≡◌, ◌<◌, ◌≤◌, ◌↔◌, length, take, drop, ◌++◌, []};

use crate::Failed;
use crate::source::{Source, count_read};
use std::marker::Model;

/// Bytes in memory, given in pieces, with calls that fail. It is seen as the bytes to come, the piece, the calls that
/// fail, and the numbers so far of calls, of those that took nothing, of those among them after the last that took a byte,
/// and of faults.
#[derive(Drop)]
pub struct MemSource {
    bytes: Vec<u8>,
    at: usize,
    piece: u32,
    failing: Vec<u64>,
    calls: u64,
    empty_reads: u64,
    empty_at_end: u64,
    faults: u64,
}

impl Model for MemSource {
    ghost use Rattle.std.specs.Prelude.{drop, length, ◌≤◌, ◌<◌};
    ghost use Rattle.byte_streams.specs.Memory.{FedBytes};

    ghost Value = { FedBytes };

    ghost view = { λ m. record {
      left = drop m.at m.bytes.items;
      piece = m.piece;
      failing = m.failing.items;
      calls = m.calls;
      empty_reads = m.empty_reads;
      empty_at_end = m.empty_at_end;
      faults = m.faults;
    } };

    ghost invariant = { λ m. (m.at ≤ length m.bytes.items) × (0 < m.piece) };
}

impl MemSource {
    /// Gives the bytes, at most `piece` at a call. The calls numbered in `failing` fail, counted from 1.
    pub fn new(bytes: Vec<u8>, piece: u32, failing: Vec<u64>) -> MemSource
        requires { 0 < piece }
        ensures { result ≡ record {
          left = bytes.items;
          piece = piece;
          failing = failing.items;
          calls = 0;
          empty_reads = 0;
          empty_at_end = 0;
          faults = 0;
        } }
    {
        MemSource {
            bytes,
            at: 0,
            piece,
            failing,
            calls: 0,
            empty_reads: 0,
            empty_at_end: 0,
            faults: 0,
        }
    }
}

// Copies as many bytes as there are and fit, but no more than `most`.
fn copy_front(from: &[u8], into: &mut [u8], most: usize) -> usize
    requires room { 0 < length into.old }
    requires most { 0 < most }
    ensures within { result ≤ length from.now }
    ensures fits { result ≤ length into.new }
    ensures piece { result ≤ most }
    ensures same { from.now ≡ take result into.new ++ drop result from.now }
    ensures none { result ≡ 0 → from.now ≡ [] }
{
    let count = into.len().min(from.len()).min(most);
    into[..count].copy_from_slice(&from[..count]);
    count
}

impl Source for MemSource {
    ghost use Rattle.std.specs.Prelude.{◌≡◌, ◌<◌, ◌≤◌, ◌↔◌, length, IsErr, IfOk, Contains, if◌then◌else◌, is_err};
    ghost use Rattle.std.specs.Io.{ReadsAtMost};
    ghost use Rattle.byte_streams.specs.Seen.{Reads};
    ghost use Rattle.byte_streams.specs.Causes.{one_more};
    ghost use Rattle.byte_streams.specs.Memory.{feed_of};

    ghost seen = { feed_of };

    fn read(&mut self, into: &mut [u8]) -> Result<usize, Failed>
        requires { 0 < length into.old }
        ensures bound { ReadsAtMost result into.new }
        ensures reads { Reads (feed_of self.old) (feed_of self.new) result into.new }
        ensures piece { IfOk result (λ n. n ≤ self.old.piece) }
        ensures fails { IsErr result ↔ Contains self.old.failing (one_more self.old.calls) }
        ensures calls { self.new.calls ≡ one_more self.old.calls }
        ensures faults { self.new.faults ≡ (if is_err result then one_more self.old.faults else self.old.faults) }
        ensures kept_piece { self.new.piece ≡ self.old.piece }
        ensures kept_failing { self.new.failing ≡ self.old.failing }
    {
        self.calls = self.calls.saturating_add(1);
        if self.failing.contains(&self.calls) {
            count_read(0, &mut self.empty_reads, &mut self.empty_at_end);
            self.faults = self.faults.saturating_add(1);
            return Err(Failed);
        }
        let (_, rest) = self.bytes.split_at(self.at);
        let count = copy_front(rest, into, self.piece as usize);
        count_read(count, &mut self.empty_reads, &mut self.empty_at_end);
        self.at += count;
        Ok(count)
    }
}
