//! A file store in memory, some of whose calls fail.

ghost use Rattle.std.specs.Prelude.{◌≡◌, ◌⊎◌, ◌*◌, ◌+◌, ◌^◌, ◌<◌, ◌≤◌, length, true, false, IfOk, IsTrue, IsErrOf, IsSome, ◌↔◌, Contains};
ghost use Rattle.std.specs.FinMap.{get};
ghost use Rattle.std.specs.Option.{option_map};
ghost use Rattle.byte_streams.specs.Seen.{no_files};
ghost use Rattle.iso_io.specs.Places.{has_place};
ghost use Rattle.byte_streams.specs.Causes.{one_more};
ghost use Rattle.iso_io.specs.Memory.{KeptFiles, empty_shelf, stored};

use crate::places::Places;
use crate::shelf::Shelf;
use byte_streams::Failed;
use iso_base::Memory;
use refusals::ShelfError;
use std::alloc::Global;
use std::marker::Model;

/// Files in memory that was reserved, with calls that fail. It is seen as its files by name, the number of places that are
/// free, the room of each, the most that a failing append takes, the calls that fail, and the numbers of calls and of
/// faults so far.
#[derive(Drop)]
pub struct MemShelf {
    places: Places,
    cut: u32,
    failing: Vec<u64>,
    calls: u64,
    faults: u64,
}

impl Model for MemShelf {
    ghost use Rattle.iso_io.specs.Memory.{KeptFiles, kept_files_code};

    ghost Value = { KeptFiles };

    ghost coded = { kept_files_code };

    ghost view = { λ m. record {
      places = m.places;
      cut = m.cut;
      failing = m.failing.items;
      calls = m.calls;
      faults = m.faults;
    } };
}

impl MemShelf {
    /// Reserves `files` places of `room` bytes each, for names of at most 255 bytes. The calls of `read`, `start` and
    /// `append` whose numbers stand in `failing` fail, all counted together from 1, and change no file.
    pub fn new(alloc: Global, files: u32, room: u32, failing: Vec<u64>) -> Result<MemShelf, Memory>
        requires { files * room ≤ 2 ^ 32 }
        ensures { IfOk result (λ m. m ≡ empty_shelf files room 0 failing.items) }
    {
        MemShelf::cutting(alloc, files, room, 0, failing)
    }

    /// As `new`, but an append whose number stands in `failing` takes as many of the first `cut` bytes of its piece as
    /// there are and as fit. It makes no file where it takes none.
    pub fn cutting(
        alloc: Global,
        files: u32,
        room: u32,
        cut: u32,
        failing: Vec<u64>,
    ) -> Result<MemShelf, Memory>
        requires { files * room ≤ 2 ^ 32 }
        ensures { IfOk result (λ m. m ≡ empty_shelf files room cut failing.items) }
    {
        let places = Places::new(alloc, files, room)?;
        Ok(MemShelf {
            places,
            cut,
            failing,
            calls: 0,
            faults: 0,
        })
    }

    /// Makes the name's file these bytes, with no call counted.
    pub fn put(&mut self, name: &str, bytes: &[u8])
        requires place { has_place self.old.places name.now ≡ true }
        requires room { length bytes.now ≤ self.old.places.room }
        ensures { self.new ≡ stored self.old name.now bytes.now }
    {
        // There is a place and room, so it is not refused.
        let _ = self.places.put(name, bytes);
    }

    /// The bytes of a file; none exactly where there is no file of that name.
    pub fn file(&self, name: &str) -> Option<&[u8]>
        ensures { option_map (λ bytes. bytes.now) result ≡ get self.now.places.files name.now }
    {
        self.places.file(name)
    }
}

impl Shelf for MemShelf {
    ghost use Rattle.std.specs.Prelude.{◌≡◌, ◌⊎◌, ◌+◌, ◌<◌, ◌≤◌, ◌↔◌, ◌++◌, [], length, false, None, Some, IfOk, IfErr, IfSome, IsErr, IsErrOf, OnOk, OnErr};
    ghost use Rattle.std.specs.FinMap.{get};
    ghost use Rattle.byte_streams.specs.Causes.{Rose};
    ghost use Rattle.iso_io.specs.Memory.{store_of, stored, called, missed, cut_short, IsFailing, RefusesAppend};
    ghost use Rattle.iso_io.specs.Places.{has_place, content_in};
    ghost use Rattle.iso_io.specs.Shelves.{Starts, Grows};

    ghost seen = { store_of };

    ghost may_fail = { IsFailing };

    fn read(&mut self, alloc: Global, name: &str, limit: u64) -> Result<Vec<u8>, ShelfError>
        ensures same { self.new.places ≡ self.old.places }
        ensures later { self.old.faults ≤ self.new.faults }
        ensures bytes { IfOk result (λ v. get self.old.places.files name.now ≡ Some v.items) }
        ensures within { IfOk result (λ v. length v.items ≤ limit) }
        ensures failed { IsErrOf result ShelfError.Failed → Rose self.old.faults self.new.faults
            ⊎ (get self.old.places.files name.now ≡ None) }
        ensures too_long { IsErrOf result (ShelfError.TooLong limit) → limit
            < length (content_in self.old.places name.now) }
        ensures limit { IfErr result (λ e. e ≡ ShelfError.Failed ⊎ e ≡ ShelfError.TooLong limit ⊎ e
            ≡ ShelfError.Memory) }
        ensures fails { IsErrOf result ShelfError.Failed ↔ (IsFailing self.old
            ⊎ (get self.old.places.files name.now ≡ None)) }
        ensures counted { IsFailing self.old → self.new ≡ missed self.old }
        ensures uncounted { (IsFailing self.old → ⊥) → self.new ≡ called self.old }
    {
        self.calls = self.calls.saturating_add(1);
        if self.failing.contains(&self.calls) {
            self.faults = self.faults.saturating_add(1);
            return Err(ShelfError::Failed);
        }
        match self.places.file(name) {
            None => Err(ShelfError::Failed),
            Some(bytes) if bytes.len() as u64 > limit => Err(ShelfError::TooLong { limit }),
            Some(bytes) => match bytes.to_vec(alloc) {
                Ok(bytes) => Ok(bytes),
                Err(_) => Err(ShelfError::Memory),
            },
        }
    }

    fn start(&mut self, name: &str) -> Result<(), Failed>
        ensures starts { Starts (store_of self.old) (store_of self.new) result name.now }
        ensures fails { IsErr result ↔ (IsFailing self.old ⊎ (has_place self.old.places name.now ≡ false)) }
        ensures started { OnOk result (self.new ≡ stored (called self.old) name.now []) }
        ensures kept { OnErr result (self.new ≡ missed self.old) }
    {
        self.calls = self.calls.saturating_add(1);
        if self.failing.contains(&self.calls) || self.places.put(name, b"").is_err() {
            self.faults = self.faults.saturating_add(1);
            return Err(Failed);
        }
        Ok(())
    }

    fn append(&mut self, name: &str, bytes: &[u8]) -> Result<(), Failed>
        ensures grows { Grows (store_of self.old) (store_of self.new) result name.now bytes.now }
        ensures fails { IsErr result ↔ RefusesAppend self.old name.now bytes.now }
        ensures appended { OnOk result (self.new ≡ stored (called self.old) name.now
            (content_in self.old.places name.now ++ bytes.now)) }
        ensures cut { IsFailing self.old → self.new ≡ cut_short self.old name.now bytes.now }
        ensures kept { (IsFailing self.old → ⊥) → OnErr result (self.new ≡ missed self.old) }
    {
        self.calls = self.calls.saturating_add(1);
        if self.failing.contains(&self.calls) {
            self.faults = self.faults.saturating_add(1);
            self.places.append_front(name, bytes, self.cut);
            return Err(Failed);
        }
        if self.places.append(name, bytes).is_err() {
            self.faults = self.faults.saturating_add(1);
            return Err(Failed);
        }
        Ok(())
    }
}
