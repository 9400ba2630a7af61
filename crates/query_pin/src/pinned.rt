//! What a pin answers to the one who asked for it.

use std::marker::Model;
use view_meaning::PinItem;

/// A pin as it is told: its id, the place of the journal at which it was made, and its partitions
/// in the order in which they are held.
#[derive(Debug, Drop)]
pub struct Pinned {
    pub id: u64,
    pub place: u64,
    pub items: Vec<PinItem>,
}

impl Model for Pinned {
    ghost use Rattle.query_pin.specs.Pins.{PinnedOf};

    ghost Value = { PinnedOf };

    ghost view = { λ pinned. record {
      id = pinned.id;
      place = pinned.place;
      items = pinned.items.items;
    } };
}
