//! A sink in memory, some of whose calls fail.

ghost use Rattle.std.specs.Prelude.{◌≡◌, ◌<◌, IfOk, IfSome, [], None, Some, length};
ghost use Rattle.byte_streams.specs.Memory.{taken_of};

use crate::Failed;
use crate::sink::Sink;
use iso_base::Memory;
use std::alloc::Global;
use std::marker::Model;

/// Bytes taken into memory that was reserved, with calls that fail. It is seen as the bytes taken, the room for all, the
/// most that a write takes where that is bounded, the calls that fail, and the numbers of calls and of faults so far.
#[derive(Drop)]
pub struct MemSink {
    bytes: Vec<u8>,
    room: u32,
    piece: Option<u32>,
    failing: Vec<u64>,
    calls: u64,
    faults: u64,
}

impl Model for MemSink {
    ghost use Rattle.std.specs.Prelude.{◌<◌, ◌≤◌, IfSome, vec_len, vec_capacity};
    ghost use Rattle.byte_streams.specs.Memory.{KeptBytes};

    ghost Value = { KeptBytes };

    ghost view = { λ m. record {
      taken = m.bytes.items;
      room = m.room;
      piece = m.piece;
      failing = m.failing.items;
      calls = m.calls;
      faults = m.faults;
    } };

    ghost invariant = { λ m. (vec_len m.bytes ≤ m.room) × (m.room ≤ vec_capacity m.bytes)
        × IfSome m.piece (λ most. 0 < most) };
}

impl MemSink {
    /// Reserves `room` bytes. A write takes its whole piece. The calls numbered in `failing` fail, counted from 1.
    pub fn new(alloc: Global, room: u32, failing: Vec<u64>) -> Result<MemSink, Memory>
        ensures { IfOk result (λ m. m ≡ record {
          taken = [];
          room = room;
          piece = None;
          failing = failing.items;
          calls = 0;
          faults = 0;
        }) }
    {
        MemSink::with_room(alloc, room, None, failing)
    }

    /// As `new`, but a write takes only the first `piece` bytes of a longer piece, and fails for want of room exactly
    /// where these do not fit.
    pub fn cutting(
        alloc: Global,
        room: u32,
        piece: u32,
        failing: Vec<u64>,
    ) -> Result<MemSink, Memory>
        requires { 0 < piece }
        ensures { IfOk result (λ m. m ≡ record {
          taken = [];
          room = room;
          piece = Some piece;
          failing = failing.items;
          calls = 0;
          faults = 0;
        }) }
    {
        MemSink::with_room(alloc, room, Some(piece), failing)
    }

    fn with_room(
        alloc: Global,
        room: u32,
        piece: Option<u32>,
        failing: Vec<u64>,
    ) -> Result<MemSink, Memory>
        requires { IfSome piece (λ most. 0 < most) }
        ensures { IfOk result (λ m. m ≡ record {
          taken = [];
          room = room;
          piece = piece;
          failing = failing.items;
          calls = 0;
          faults = 0;
        }) }
    {
        let bytes = Vec::with_capacity(alloc, room as usize)?;
        Ok(MemSink {
            bytes,
            room,
            piece,
            failing,
            calls: 0,
            faults: 0,
        })
    }

    /// All bytes taken so far.
    pub fn bytes(&self) -> &[u8]
        ensures { result.now ≡ self.now.taken }
    {
        &self.bytes
    }
}

/// What a write takes of the bytes where there is room for it.
fn front(bytes: &[u8], piece: Option<u32>) -> &[u8]
    ensures front { result.now ≡ taken_of piece bytes.now }
{
    match piece {
        Some(most) if (most as usize) < bytes.len() => &bytes[..most as usize],
        _ => bytes,
    }
}

impl Sink for MemSink {
    ghost use Rattle.std.specs.Prelude.{◌≡◌, ◌+◌, ◌<◌, ◌≤◌, ◌↔◌, ◌⊎◌, length, IsErr, IfOk, OnErr, Contains, if◌then◌else◌, is_err};
    ghost use Rattle.std.specs.Io.{WritesAtMost};
    ghost use Rattle.byte_streams.specs.Seen.{Writes};
    ghost use Rattle.byte_streams.specs.Causes.{one_more};
    ghost use Rattle.byte_streams.specs.Memory.{tape_of, taken_of, RefusesWrite};

    ghost seen = { tape_of };

    fn write(&mut self, bytes: &[u8]) -> Result<usize, Failed>
        ensures bound { WritesAtMost result bytes.now }
        ensures writes { Writes (tape_of self.old) (tape_of self.new) result bytes.now }
        ensures count { IfOk result (λ n. n ≡ length (taken_of self.old.piece bytes.now)) }
        ensures fails { IsErr result ↔ RefusesWrite self.old bytes.now }
        ensures none { OnErr result (self.new.taken ≡ self.old.taken) }
        ensures calls { self.new.calls ≡ one_more self.old.calls }
        ensures faults { self.new.faults ≡ (if is_err result then one_more self.old.faults else self.old.faults) }
        ensures kept_room { self.new.room ≡ self.old.room }
        ensures kept_piece { self.new.piece ≡ self.old.piece }
        ensures kept_failing { self.new.failing ≡ self.old.failing }
    {
        self.calls = self.calls.saturating_add(1);
        let taken = front(bytes, self.piece);
        let free = self.room as usize - self.bytes.len();
        if self.failing.contains(&self.calls) || free < taken.len() {
            self.faults = self.faults.saturating_add(1);
            return Err(Failed);
        }
        match self.bytes.extend_from_slice(taken) {
            Ok(()) => Ok(taken.len()),
            Err(_) => {
                self.faults = self.faults.saturating_add(1);
                Err(Failed)
            }
        }
    }
}
