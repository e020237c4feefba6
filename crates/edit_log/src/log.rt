//! The last changes, and those that were taken back.

ghost use Rattle.std.specs.Prelude.{◌≡◌, ◌+◌, ◌≤◌, IfOk, [], length, option_copied, slice_get};
ghost use Rattle.edit_log.specs.Log.{last_change, most_changes, pushed, stepped_back, stepped_forward};
ghost use Rattle.std.specs.Borrow.{sem};

use crate::change::Change;
use circular_buffer::HeapCircularBuffer;
use iso_base::Memory;
use std::alloc::Global;
use std::marker::Model;

/// The most changes that are kept, done and undone together.
const MOST_CHANGES: usize = 128;

/// The last changes: those that were made, and those that were taken back and not yet made again, 128 together at most.
/// Contracts see two lists, the made ones with the newest last, the others with the next first.
#[derive(Drop)]
pub struct EditLog {
    changes: HeapCircularBuffer<Change>,
    /// So many of them are done; the others are undone.
    done: usize,
}

impl Model for EditLog {
    ghost use Rattle.std.specs.Prelude.{◌≡◌, ◌≤◌, length, take, drop};
    ghost use Rattle.edit_log.specs.Log.{Log, most_changes};

    ghost Value = { Log };

    ghost view = { λ l. record { done = take l.done l.changes.items; undone = drop l.done l.changes.items } };

    ghost invariant = { λ l. (l.done ≤ length l.changes.items) × (l.changes.capacity ≡ most_changes) };
}

impl EditLog {
    ghost use Rattle.edit_log.specs.Lending.{EndsAs};

    /// An empty log. It takes memory for all its changes; no other call takes any.
    pub fn new(alloc: Global) -> Result<EditLog, Memory>
        ensures { IfOk result (λ l. l ≡ record { done = []; undone = [] }) }
    {
        let changes = HeapCircularBuffer::with_capacity(alloc, MOST_CHANGES)?;
        Ok(EditLog { changes, done: 0 })
    }

    /// The number of changes that can be taken back.
    pub fn length(&self) -> u32
        ensures value { result ≡ length self.now.done }
        ensures most { length self.now.done + length self.now.undone ≤ most_changes }
    {
        // Reading the length brings in that there are no more changes than the log has room for.
        let _ = self.changes.len();
        self.done as u32
    }

    /// Notes a change that was made. What was taken back cannot be made again then, and where there are 129, the oldest
    /// is dropped.
    pub fn push(&mut self, change: Change)
        ensures { self.new ≡ pushed self.old change }
    {
        self.changes.truncate_back(self.done);
        self.changes.push_back(change);
        self.done = self.changes.len();
    }

    /// Hands out the newest change that was made, which from then on is the next that can be made again. None exactly
    /// where there is none.
    pub fn undo(&mut self) -> Option<&Change>
        ensures* moved { sem 𝓛 (EndsAs self.entry (stepped_back self.old)) }
        ensures change { option_copied result ≡ last_change self.old.done }
    {
        if self.done == 0 {
            return None;
        }
        self.done -= 1;
        self.changes.get(self.done)
    }

    /// Hands out the next change that can be made again, which from then on is the newest that was made. None exactly
    /// where there is none.
    pub fn redo(&mut self) -> Option<&Change>
        ensures* moved { sem 𝓛 (EndsAs self.entry (stepped_forward self.old)) }
        ensures change { option_copied result ≡ slice_get self.old.undone 0 }
    {
        if self.done == self.changes.len() {
            return None;
        }
        self.done += 1;
        self.changes.get(self.done - 1)
    }
}
