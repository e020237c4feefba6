//! Memory that was reserved for the files of a shelf.

ghost use Rattle.std.specs.Prelude.{◌≡◌, ◌⊎◌, ◌+◌, ◌<◌, ◌↔◌, ◌++◌, length, IsTrue, IsErr, OnOk, OnErr, IfOk};

use arrayvec::ArrayString;
use byte_streams::Failed;
use iso_base::Memory;
use std::alloc::Global;
use std::marker::Model;

/// Memory for one file, and its name. A place without a file has any name and bytes.
#[derive(Drop)]
pub(crate) struct Place {
    name: ArrayString<255>,
    bytes: Vec<u8>,
    room: u32,
}

impl Model for Place {
    ghost use Rattle.std.specs.Prelude.{◌≤◌, vec_len, vec_capacity};
    ghost use Rattle.iso_io.specs.Places.{Place};

    ghost Value = { Place };

    ghost view = { λ p. record { name = p.name.bytes; bytes = p.bytes.items; room = p.room } };

    ghost invariant = { λ p. (vec_len p.bytes ≤ p.room) × (p.room ≤ vec_capacity p.bytes) };
}

impl Place {
    /// Reserves `room` bytes.
    pub(crate) fn new(alloc: Global, room: u32) -> Result<Place, Memory>
        ensures { IfOk result (λ p. p.room ≡ room) }
    {
        let bytes = Vec::with_capacity(alloc, room as usize)?;
        Ok(Place {
            name: ArrayString::new(),
            bytes,
            room,
        })
    }

    pub(crate) fn is_named(&self, name: &str) -> bool
        ensures { IsTrue result ↔ (self.now.name ≡ name.now) }
    {
        self.name.as_str() == name
    }

    pub(crate) fn bytes(&self) -> &[u8]
        ensures { result.now ≡ self.now.bytes }
    {
        &self.bytes
    }

    /// Takes these bytes in place of its own.
    pub(crate) fn replace(&mut self, bytes: &[u8]) -> Result<(), Failed>
        ensures fails { IsErr result ↔ (self.old.room < length bytes.now) }
        ensures replaced { OnOk result (self.new ≡ record {
          name = self.old.name;
          bytes = bytes.now;
          room = self.old.room;
        }) }
        ensures kept { OnErr result (self.new ≡ self.old) }
    {
        if (self.room as usize) < bytes.len() {
            return Err(Failed);
        }
        self.bytes.clear();
        match self.bytes.extend_from_slice(bytes) {
            Ok(()) => Ok(()),
            Err(_) => Err(Failed),
        }
    }

    /// Takes this name and these bytes in place of its own.
    pub(crate) fn fill(&mut self, name: &str, bytes: &[u8]) -> Result<(), Failed>
        ensures fails { IsErr result ↔ ((255 < length name.now) ⊎ (self.old.room < length bytes.now)) }
        ensures filled { OnOk result (self.new ≡ record { name = name.now; bytes = bytes.now; room = self.old.room }) }
        ensures kept { OnErr result (self.new ≡ self.old) }
    {
        let mut text = ArrayString::new();
        if text.try_push_str(name).is_err() {
            return Err(Failed);
        }
        self.replace(bytes)?;
        self.name = text;
        Ok(())
    }

    /// Puts bytes behind its own.
    pub(crate) fn append(&mut self, bytes: &[u8]) -> Result<(), Failed>
        ensures fails { IsErr result ↔ (self.old.room < length self.old.bytes + length bytes.now) }
        ensures appended { OnOk result (self.new ≡ record {
          name = self.old.name;
          bytes = self.old.bytes ++ bytes.now;
          room = self.old.room;
        }) }
        ensures kept { OnErr result (self.new ≡ self.old) }
    {
        if (self.room as usize) - self.bytes.len() < bytes.len() {
            return Err(Failed);
        }
        match self.bytes.extend_from_slice(bytes) {
            Ok(()) => Ok(()),
            Err(_) => Err(Failed),
        }
    }
}
