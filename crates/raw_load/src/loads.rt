//! The accepted deliveries, and what they are found by. A delivery is loaded in two steps: the
//! first takes all memory that is needed, and changes nothing that can be seen; the second takes
//! none.

ghost use Rattle.std.specs.Prelude.{◌≡◌, [], OnErr, OnOk};
ghost use Rattle.raw_load.specs.Loads.{Accepts, HasRoomToCommit, IsAsBefore, IsReady};

use crate::parts::{make_room, push_pieces};
use crate::piece::{Number, Piece, Stretch};
use depot_cell::Memory;
use desc_types::{Delivery, Key};
use std::alloc::Global;
use std::collections::BTreeMap;

/// The accepted deliveries in order, the places of their entries in the same order, the index of
/// each by its number, and the pieces of each partition. What a number or a piece names need not be
/// there yet: it counts once the delivery stands at that index.
#[derive(Debug, Drop)]
pub(crate) struct Loads {
    pub(crate) places: Vec<u64>,
    pub(crate) deliveries: Vec<Delivery>,
    pub(crate) numbers: BTreeMap<Number, usize>,
    pub(crate) parts: BTreeMap<Key, Vec<Piece>>,
}

impl Loads {
    /// No delivery.
    pub(crate) fn new(alloc: Global) -> Loads
        ensures places { result.places.items ≡ [] }
        ensures deliveries { result.deliveries.items ≡ [] }
        ensures numbers { result.numbers.entries ≡ [] }
        ensures parts { result.parts.entries ≡ [] }
    {
        Loads {
            places: Vec::new(alloc),
            deliveries: Vec::new(alloc),
            numbers: BTreeMap::new(alloc),
            parts: BTreeMap::new(alloc),
        }
    }

    /// What memory is taken from.
    pub(crate) fn allocator(&self) -> Global {
        *self.deliveries.allocator()
    }

    /// Takes the memory that a delivery of this number with these stretches needs to be accepted.
    /// If there is none, each number leads to where it led.
    pub(crate) fn make_room(
        &mut self,
        number: Number,
        found: &BTreeMap<Key, Vec<Stretch>>,
    ) -> Result<(), Memory>
        ensures ok { OnOk result (IsReady number found.now.entries self.old self.new) }
        ensures err { OnErr result (IsAsBefore self.old self.new) }
    {
        make_room(self.allocator(), &mut self.parts, found)?;
        self.places.reserve(1)?;
        self.deliveries.reserve(1)?;
        match self.numbers.insert(number, self.deliveries.len()) {
            Ok(_) => Ok(()),
            Err(_) => Err(Memory),
        }
    }

    /// Accepts a delivery. It takes no memory.
    pub(crate) fn commit(
        &mut self,
        delivery: Delivery,
        place: u64,
        found: BTreeMap<Key, Vec<Stretch>>,
    )
        requires room { HasRoomToCommit self.old found.entries }
        ensures ok { Accepts delivery place found.entries self.old self.new }
    {
        push_pieces(&mut self.parts, self.deliveries.len(), found);
        match self.places.push(place) {
            Ok(()) => {}
            Err(_) => unreachable!(),
        }
        match self.deliveries.push(delivery) {
            Ok(()) => {}
            Err(_) => unreachable!(),
        }
    }
}
