//! Where rows of deliveries lie, and what tells one delivery from another.

ghost use Rattle.std.specs.Prelude.{◌≡◌};
ghost use Rattle.raw_load.specs.Loads.{number_of};

use desc_types::Delivery;

/// Rows of a delivery that follow one another: the index of the first, and how many they are.
#[derive(Clone, Copy, Debug, PartialEq, Eq)]
pub(crate) struct Stretch {
    pub(crate) first: usize,
    pub(crate) count: usize,
}

/// The rows that a delivery kept in a partition: the delivery's index, and the stretches in which
/// these rows lie in it, in order.
#[derive(Debug, Drop)]
pub(crate) struct Piece {
    pub(crate) delivery: usize,
    pub(crate) stretches: Vec<Stretch>,
}

/// What a delivery is known by: its feed and its number there.
#[derive(Clone, Copy, Debug, PartialEq, Eq, PartialOrd, Ord)]
pub(crate) struct Number {
    pub(crate) feed: u16,
    pub(crate) number: u32,
}

/// What a delivery is known by.
pub(crate) fn number_of(delivery: &Delivery) -> Number
    ensures exact { result ≡ number_of delivery.now }
{
    Number {
        feed: delivery.feed,
        number: delivery.number,
    }
}
