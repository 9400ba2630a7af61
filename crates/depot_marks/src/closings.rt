//! How far the deliveries of a feed closed: those that closed further than all before them.

ghost use Rattle.std.specs.Prelude.{ℕ, [], None, Some, ◌≡◌, ◌<◌, OnOk, max, nat_le};
ghost use Rattle.std.specs.Prelude.{if◌then◌else◌, option_map, slice_get};
ghost use Rattle.std.specs.Option.{option_or};
ghost use Rattle.std.specs.List.Sorted.{IsNonDecreasingBy};
ghost use Rattle.depot_marks.specs.Closings.{Rises, closes_of, greatest_at, greatest_of};

use depot_cell::Memory;
use std::alloc::Global;
use std::marker::Model;

/// A delivery that closed further than all before it: the tick up to which it closed, and the
/// greatest number that the feed had accepted by then, this one included.
#[derive(Clone, Copy, Debug, PartialEq, Eq)]
pub(crate) struct Closing {
    pub(crate) closes: u64,
    pub(crate) greatest: u32,
}

/// The deliveries of a feed that closed further than all before them, in order, and the greatest
/// number that the feed has accepted.
#[derive(Debug, Drop)]
pub(crate) struct Closings {
    items: Vec<Closing>,
    greatest: u32,
}

impl Model for Closings {
    ghost use Rattle.std.specs.Prelude.{◌-◌, vec_capacity, vec_len};
    ghost use Rattle.depot_marks.specs.Closings.{ClosingsOf, Rises};

    ghost Value = { ClosingsOf };

    ghost view = { λ closings. record {
      items = closings.items.items;
      greatest = closings.greatest;
      room = vec_capacity closings.items - vec_len closings.items;
    } };

    ghost invariant = { λ closings. Rises closings.items.items closings.greatest };
}

impl Closings {
    /// Those of no deliveries.
    pub(crate) fn new(alloc: Global) -> Closings
        ensures items { result.items ≡ [] }
        ensures greatest { result.greatest ≡ 0 }
    {
        Closings {
            items: Vec::new(alloc),
            greatest: 0,
        }
    }

    /// Takes room for one delivery more.
    pub(crate) fn reserve(&mut self) -> Result<(), Memory>
        ensures ok { OnOk result (0 < self.new.room) }
        ensures items { self.new.items ≡ self.old.items }
        ensures greatest { self.new.greatest ≡ self.old.greatest }
    {
        self.items.reserve(1)?;
        Ok(())
    }

    /// Notes a delivery. It takes no memory.
    pub(crate) fn note(&mut self, number: u32, closes: u64)
        requires room { 0 < self.old.room }
        ensures closed { (end : ℕ) → greatest_at self.new.items end
            ≡ option_or (greatest_at self.old.items end)
            (if nat_le end closes then Some self.new.greatest else None) }
        ensures greatest { self.new.greatest ≡ max self.old.greatest number }
    {
        self.greatest = self.greatest.max(number);
        if greatest_at(&self.items, closes).is_some() {
            return;
        }
        let closing = Closing {
            closes,
            greatest: self.greatest,
        };
        match self.items.push(closing) {
            Ok(()) => {}
            Err(_) => unreachable!(),
        }
    }

    /// The greatest number that the feed had accepted when a delivery of it first closed up to a
    /// tick.
    pub(crate) fn greatest_at(&self, end: u64) -> Option<u32>
        ensures exact { result ≡ greatest_at self.now.items end }
        ensures kept { Rises self.now.items self.now.greatest }
    {
        greatest_at(&self.items, end)
    }
}

/// The greatest number beside the first of these that closed up to a tick.
fn greatest_at(closings: &[Closing], end: u64) -> Option<u32>
    requires rising { IsNonDecreasingBy closes_of closings.now }
    ensures exact { result ≡ greatest_at closings.now end }
{
    match closings.get(first_closing(closings, end)) {
        Some(closing) => Some(closing.greatest),
        None => None,
    }
}

/// The index of the first of these that closed up to a tick, or how many they are if none did.
fn first_closing(closings: &[Closing], end: u64) -> usize
    requires rising { IsNonDecreasingBy closes_of closings.now }
    ensures exact { greatest_at closings.now end
        ≡ option_map greatest_of (slice_get closings.now result) }
{
    closings.partition_point(|closing| closing.closes < end)
}
