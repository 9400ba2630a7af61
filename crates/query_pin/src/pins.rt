//! The book of pins. A pin keeps versions of partitions from being reclaimed while somebody reads
//! them: a query that shows them, or a claim that computes from them.
//!
//! Beside the pins the book keeps their readers by version. So whether a version is read is told by
//! one search, and a pin that goes takes its own readers and no others.

ghost use Rattle.std.specs.Prelude.{None, Some, [], ◌≡◌, ◌<◌, IsSome, OnErr, OnOk, length, slice_get};
ghost use Rattle.query_pin.specs.Pins.{IsLeastFree, is_pinned, pin_at, versions_at, who_at};
ghost use Rattle.query_pin.specs.Pins.{with_pin, without_pin};

use crate::input::Input;
use crate::pin::Pin;
use crate::readers::{Reader, add_readers, is_read_by, remove_readers};
use depot_cell::Memory;
use desc_types::Key;
use std::alloc::Global;
use std::collections::{BTreeMap, BTreeSet};
use std::marker::Model;

/// The pins by id, and who reads which version.
#[derive(Debug, Drop)]
pub struct PinBook {
    pins: BTreeMap<u64, Pin>,
    readers: BTreeSet<Reader>,
}

impl Model for PinBook {
    ghost use Rattle.query_pin.specs.Pins.{IsPinBook, PinBookOf};

    ghost Value = { PinBookOf };

    ghost view = { λ book. record { pins = book.pins.entries } };

    ghost invariant = { λ book. IsPinBook book.pins.entries book.readers.keys };
}

impl PinBook {
    /// No pin.
    pub fn new(alloc: Global) -> PinBook
        ensures pins { result.pins ≡ [] }
    {
        PinBook {
            pins: BTreeMap::new(alloc),
            readers: BTreeSet::new(alloc),
        }
    }

    /// Makes a pin of an id that is free. It keeps the versions until it is let go. Without memory
    /// nothing changes.
    pub fn pin(&mut self, who: u64, id: u64, versions: Vec<Input>) -> Result<(), Memory>
        requires free { pin_at self.old.pins id ≡ None }
        ensures ok { OnOk result (self.new.pins
            ≡ with_pin id (record { who = who; versions = versions.items }) self.old.pins) }
        ensures err { OnErr result (self.new ≡ self.old) }
    {
        if add_readers(&mut self.readers, id, &versions).is_err() {
            remove_readers(&mut self.readers, id, &versions);
            return Err(Memory);
        }
        match self.pins.insert(id, Pin { who, versions }) {
            Ok(_) => Ok(()),
            Err(refused) => {
                let (_, pin) = refused.value;
                remove_readers(&mut self.readers, id, &pin.versions);
                Err(Memory)
            }
        }
    }

    /// Lets a pin go. It takes no memory.
    pub fn unpin(&mut self, id: u64)
        requires there { IsSome (pin_at self.old.pins id) }
        ensures exact { self.new.pins ≡ without_pin id self.old.pins }
    {
        match self.pins.remove(&id) {
            Some(pin) => remove_readers(&mut self.readers, id, &pin.versions),
            None => unreachable!(),
        }
    }

    /// Whether some pin keeps a version of a partition.
    pub fn is_pinned(&self, key: Key, version: u64) -> bool
        ensures exact { result ≡ is_pinned self.now.pins (record { key = key; version = version }) }
    {
        is_read_by(&self.readers, Input { key, version })
    }

    /// The least id that no pin has.
    pub fn free_id(&self) -> u64
        ensures exact { IsLeastFree self.now.pins result }
    {
        least_free(&self.pins)
    }

    /// Who asked for the pin of an id, if there is one.
    pub fn find_who(&self, id: u64) -> Option<u64>
        ensures exact { result ≡ who_at self.now.pins id }
    {
        match self.pins.get(&id) {
            Some(pin) => Some(pin.who),
            None => None,
        }
    }

    /// The versions that a pin keeps, as they were given.
    pub fn versions(&self, id: u64) -> &[Input]
        requires there { IsSome (pin_at self.now.pins id) }
        ensures exact { result.now ≡ versions_at self.now.pins id }
    {
        match self.pins.get(&id) {
            Some(pin) => &pin.versions,
            None => unreachable!(),
        }
    }

    /// One of the versions that a pin keeps.
    pub fn item(&self, id: u64, index: u64) -> Input
        requires within { index < length (versions_at self.now.pins id) }
        ensures exact { slice_get (versions_at self.now.pins id) index ≡ Some result }
    {
        self.versions(id)[index as usize]
    }
}

/// The least id that no pin has: the first one that the ids in order leave out.
fn least_free(pins: &BTreeMap<u64, Pin>) -> u64
    ensures exact { IsLeastFree pins.now.entries result }
{
    let mut free = 0;
    for id in pins.keys() {
        if *id != free {
            return free;
        }
        free += 1;
    }
    free
}
