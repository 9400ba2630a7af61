//! Why a body is refused.

ghost use Rattle.std.specs.Prelude.{◌≡◌};
ghost use Rattle.feed_csv.specs.Bodies.{cause_text};

use depot_cell::Memory;
use std::alloc::AllocFailed;

/// Why a record is no row. A record that is none for several reasons has the first of them: the
/// table, then the count, then those of its fields in their order.
#[derive(Clone, Copy, Debug, PartialEq, Eq, Drop)]
pub enum RowCause {
    /// Its first field is not the name of a raw table of the feed.
    NoTable,
    /// It has not one field more than the table has columns.
    BadCount,
    /// A text of at most 255 bytes is no UTF-8.
    NotUtf8,
    /// A text has more than 255 bytes.
    LongText,
    /// An int is none.
    BadInt,
    /// The time is an int that does not lie in time.
    BadTime,
}

impl RowCause {
    /// The word that names the cause.
    pub fn text(&self) -> &'static str
        ensures exact { result.now ≡ cause_text self.now }
    {
        match self {
            RowCause::NoTable => "no_table",
            RowCause::BadCount => "bad_count",
            RowCause::NotUtf8 => "not_utf8",
            RowCause::LongText => "long_text",
            RowCause::BadInt => "bad_int",
            RowCause::BadTime => "bad_time",
        }
    }
}

/// A record of a body that is no row: its number, from 1, and the first cause of it.
#[derive(Clone, Copy, Debug, PartialEq, Eq, Drop)]
pub struct BadRecord {
    pub number: u32,
    pub cause: RowCause,
}

/// Why there is no delivery of a body.
#[derive(Clone, Copy, Debug, PartialEq, Eq, Drop)]
pub enum DeliveryFault {
    /// This record is the first that is no row.
    At(BadRecord),
    Memory,
}

impl From<Memory> for DeliveryFault {
    ghost use Rattle.std.specs.Prelude.{◌≡◌};
    ghost use Rattle.feed_csv.specs.declared.fault.DeliveryFault.TheVariants.{Memory as NoMemory};

    ghost from_gives = { λ _ fault. fault ≡ NoMemory };

    fn from(_refused: Memory) -> DeliveryFault {
        DeliveryFault::Memory
    }
}

impl<T: Drop> From<AllocFailed<T>> for DeliveryFault {
    ghost use Rattle.std.specs.Prelude.{◌≡◌};
    ghost use Rattle.feed_csv.specs.declared.fault.DeliveryFault.TheVariants.{Memory as NoMemory};

    ghost from_gives = { λ _ fault. fault ≡ NoMemory };

    fn from(_refused: AllocFailed<T>) -> DeliveryFault {
        DeliveryFault::Memory
    }
}
