//! The law of a pass's own entries.

ghost use Rattle.turn_lock.specs.Laws.{HasOwnEntries};

use crate::grows::Grows;

/// A law: after a turn the entries under a pass's number are those that it had and those that it
/// added in the turn, in their order.
pub fn own_entries_are_those_added<V: Grows>()
    ensures law { HasOwnEntries V.meaning }
{}
