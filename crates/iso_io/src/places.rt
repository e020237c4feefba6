//! Files in places that were reserved for them.

ghost use Rattle.std.specs.Prelude.{◌≡◌, ◌⊎◌, ◌+◌, ◌<◌, ◌≤◌, ◌↔◌, ◌++◌, [], length, true, false, OnOk, OnErr, IfOk, IsErr, MatchOption, take};
ghost use Rattle.std.specs.FinMap.{get};
ghost use Rattle.std.specs.Option.{option_map};
ghost use Rattle.byte_streams.specs.Seen.{no_files};
ghost use Rattle.iso_io.specs.Places.{IsFound, IsLacking, AllOfRoom, entries_of, content_in, has_place, placed, placed_behind, fitting};

use crate::place::Place;
use byte_streams::Failed;
use iso_base::Memory;
use std::alloc::Global;
use std::marker::Model;

/// Places of which the first `used` hold files of different names; the others are free.
#[derive(Drop)]
pub(crate) struct Places {
    all: Vec<Place>,
    used: usize,
    room: u32,
}

impl Model for Places {
    ghost use Rattle.std.specs.Prelude.{◌≤◌, length};
    ghost use Rattle.iso_io.specs.Places.{Places, places_code, AllOfRoom, places_of};

    ghost Value = { Places };

    ghost coded = { places_code };

    ghost view = { λ p. places_of p.all.items p.used p.room };

    ghost invariant = { λ p. record { used : p.used ≤ length p.all.items; rooms : AllOfRoom p.room p.all.items } };
}

/// So many places of `room` bytes each.
fn reserve_places(alloc: Global, files: u32, room: u32) -> Result<Vec<Place>, Memory>
    ensures count { IfOk result (λ all. length all.items ≡ files) }
    ensures rooms { IfOk result (λ all. AllOfRoom room all.items) }
{
    let mut all = Vec::with_capacity(alloc, files as usize)?;
    for _ in 0..files {
        all.push(Place::new(alloc, room)?)?;
    }
    Ok(all)
}

/// Which place has the file of that name.
fn place_of(places: &[Place], name: &str) -> Option<usize>
    ensures { MatchOption result (IsLacking (entries_of places.now) name.now)
        (λ i. IsFound (entries_of places.now) name.now i) }
{
    for i in 0..places.len() {
        if places[i].is_named(name) {
            return Some(i);
        }
    }
    None
}

impl Places {
    pub(crate) fn new(alloc: Global, files: u32, room: u32) -> Result<Places, Memory>
        ensures { IfOk result (λ p. p ≡ record { files = no_files; free = files; room = room }) }
    {
        let all = reserve_places(alloc, files, room)?;
        Ok(Places { all, used: 0, room })
    }

    /// The bytes of the name's file; none where it has none.
    pub(crate) fn file(&self, name: &str) -> Option<&[u8]>
        ensures { option_map (λ bytes. bytes.now) result ≡ get self.now.files name.now }
    {
        match place_of(&self.all[..self.used], name) {
            Some(i) => Some(self.all[i].bytes()),
            None => None,
        }
    }

    /// Makes the name's file these bytes.
    pub(crate) fn put(&mut self, name: &str, bytes: &[u8]) -> Result<(), Failed>
        ensures fails { IsErr result ↔ ((has_place self.old name.now ≡ false) ⊎ (self.old.room < length bytes.now)) }
        ensures placed { OnOk result (self.new ≡ placed self.old name.now bytes.now) }
        ensures kept { OnErr result (self.new ≡ self.old) }
    {
        match place_of(&self.all[..self.used], name) {
            Some(i) => self.all[i].replace(bytes),
            None => {
                if self.used == self.all.len() {
                    return Err(Failed);
                }
                self.all[self.used].fill(name, bytes)?;
                self.used += 1;
                Ok(())
            }
        }
    }

    /// Puts bytes behind those of the name's file; a name without a file counts as an empty one.
    pub(crate) fn append(&mut self, name: &str, bytes: &[u8]) -> Result<(), Failed>
        ensures fails { IsErr result ↔ ((has_place self.old name.now ≡ false)
            ⊎ (self.old.room < length (content_in self.old name.now) + length bytes.now)) }
        ensures placed { OnOk result (self.new ≡ placed self.old name.now (content_in self.old name.now ++ bytes.now)) }
        ensures kept { OnErr result (self.new ≡ self.old) }
    {
        match place_of(&self.all[..self.used], name) {
            Some(i) => self.all[i].append(bytes),
            None => self.put(name, bytes),
        }
    }
    /// Puts as many of the first `most` bytes as there are and as fit behind those of the name's file. Where that is
    /// none, or there is no place for a new file, nothing is changed.
    pub(crate) fn append_front(&mut self, name: &str, bytes: &[u8], most: u32)
        ensures { self.new ≡ placed_behind self.old name.now (fitting self.old name.now most bytes.now) }
    {
        let held = match self.file(name) {
            Some(held) => held.len(),
            None => 0,
        };
        let free = (self.room as usize).saturating_sub(held);
        let count = bytes.len().min(most as usize).min(free);
        if 0 < count {
            // It fits, so it is refused only for want of a place.
            let _ = self.append(name, &bytes[..count]);
        }
    }
}
