//! The steps of a history, and what the core answers to them.

use desc_types::Key;
use query_pin::{Dead, Input};
use std::test::Fail;
use view_meaning::{Aside, Mark, MarkItem, PinItem};

/// A step of a history.
#[derive(Clone, Copy)]
pub enum Step {
    /// A delivery, with its number, the tick up to which it closes, and its body.
    Load(u32, u64, &'static str),
    Claim(Key),
    /// Installs the partition of the claim with this id.
    Install(u64),
    Abandon(u64),
    /// Pins what a query of the first two partitions of the first view shows, at a level.
    Pin(Mark),
    /// Ends the last pin.
    Unpin,
    /// Drops the first dead version.
    Reclaim,
    /// Asks, and changes nothing.
    Ask(Ask),
}

/// What a core may be asked.
#[derive(Clone, Copy)]
pub enum Ask {
    /// How many entries there are.
    Len,
    /// How many deliveries were accepted.
    Deliveries,
    /// The first ready partition.
    Next,
    /// The first dead version.
    Dead,
    /// The entry of a version.
    Entry(Input),
    /// The version of a partition, and its place.
    Version(Key),
    /// Whether a partition is settled, and whether all are.
    Settled(Key),
    Mark(Key),
    /// The marks of the first two partitions of the first view.
    Marks,
    /// The rows that were set aside.
    Aside,
}

/// What the core answers to a step.
#[derive(Clone, Copy, Debug, PartialEq, Eq)]
pub enum Told {
    Done,
    /// A load: its entry, and how many rows it kept and set aside.
    Loaded(u64, u64, u64),
    /// A number that came before, in the entry at this place.
    Repeat(u64),
    /// A claim: its id, its place, the first two versions that it reads, and how many are of the
    /// left source.
    Claimed(u64, u64, Option<Input>, Option<Input>, u64),
    NotReady,
    Installed(u64),
    /// A pin: its id, its place, and the first two partitions that it shows.
    Pinned(u64, u64, Option<PinItem>, Option<PinItem>),
    Count(u64),
    Next(Option<Key>),
    Dead(Option<Dead>),
    Entry(Option<u64>),
    /// A version, and its place.
    Version(u64, u64),
    /// Whether a partition is settled, and whether all are.
    Settled(bool, bool),
    Mark(Mark),
    Marks(Option<MarkItem>, Option<MarkItem>),
    /// How many rows were set aside, and the last of them.
    Aside(u64, Option<Aside>),
}

/// Another answer than the one that is wanted, to a step of a history.
#[derive(Debug, Drop)]
struct Other {
    step: usize,
    told: Told,
    want: Told,
}

/// Expects that a step of a history has the answer that is wanted.
pub fn expect_told(step: usize, told: Told, want: Told) -> Result<(), Fail> {
    if told == want {
        Ok(())
    } else {
        Err(Fail::from(Other { step, told, want }))
    }
}
