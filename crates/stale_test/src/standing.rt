//! Where a partition of a view stands: it is stale, or it waits for a source, or it is settled. Of
//! a settled one nothing is kept but perhaps room.

ghost use Rattle.std.specs.Prelude.{◌≡◌, All, find, not};
ghost use Rattle.std.specs.List.Sorted.{IsStrictlySortedBy};
ghost use Rattle.std.specs.Map.{keys_of};
ghost use Rattle.std.specs.Ordering.{is_gt};
ghost use Rattle.desc_types.specs.Keys.{key_cmp};
ghost use Rattle.stale_test.specs.Places.{HasPlace};
ghost use Rattle.stale_test.specs.Standings.{SetsStanding, WakesEach, tells_stale};
ghost use Rattle.stale_test.specs.Standings.{tells_unsettled, unsettled_keys, worse};

use crate::places::{put, value_of};
use desc_types::Key;
use std::collections::BTreeMap;

/// What is kept of a partition of a view.
#[derive(Clone, Copy, Debug)]
pub(crate) enum Standing {
    /// Nothing: there is only room.
    Place,
    /// It is not stale, and something below it is.
    Waits,
    /// A source changed after the place of its last install.
    Stale,
}

impl Standing {
    /// The worse one of two.
    pub(crate) fn worse(self, other: Standing) -> Standing
        ensures exact { result ≡ worse self other }
    {
        match self {
            Standing::Stale => Standing::Stale,
            Standing::Waits => match other {
                Standing::Stale => Standing::Stale,
                Standing::Waits | Standing::Place => Standing::Waits,
            },
            Standing::Place => other,
        }
    }

    /// Whether the partition is stale.
    pub(crate) fn is_stale(self) -> bool
        ensures exact { result ≡ tells_stale self }
    {
        match self {
            Standing::Stale => true,
            Standing::Waits | Standing::Place => false,
        }
    }

    /// Whether the partition is not settled.
    pub(crate) fn is_unsettled(self) -> bool
        ensures exact { result ≡ tells_unsettled self }
    {
        match self {
            Standing::Stale | Standing::Waits => true,
            Standing::Place => false,
        }
    }
}

/// Lets each of some partitions stand at least so badly. It takes no memory.
pub(crate) fn wake(unsettled: &mut BTreeMap<Key, Standing>, keys: &[Key], standing: Standing)
    requires places { All (HasPlace unsettled.old.entries) keys.now }
    ensures exact { WakesEach standing keys.now unsettled.old.entries
        unsettled.new.entries }
{
    for key in keys {
        let old = value_of(unsettled, *key, Standing::Place);
        put(unsettled, *key, standing.worse(old));
    }
}

/// Lets a partition that was installed stand like this. A settled one is taken out. It takes no
/// memory.
pub(crate) fn settle(unsettled: &mut BTreeMap<Key, Standing>, key: Key, standing: Standing)
    requires place { HasPlace unsettled.old.entries key }
    ensures exact { SetsStanding key standing unsettled.old.entries unsettled.new.entries }
{
    match standing {
        Standing::Place => {
            unsettled.remove(&key);
        }
        Standing::Waits | Standing::Stale => put(unsettled, key, standing),
    }
}

/// The first partition that is not settled, in order of key, and does not stand before one.
pub(crate) fn first_unsettled(unsettled: &BTreeMap<Key, Standing>, from: Key) -> Option<Key>
    ensures exact { result ≡ find (λ key. not (is_gt (key_cmp from key)))
        (unsettled_keys unsettled.now.entries) }
    ensures ordered { IsStrictlySortedBy key_cmp (keys_of unsettled.now.entries) }
{
    for (key, standing) in unsettled.range(from..) {
        if standing.is_unsettled() {
            return Some(*key);
        }
    }
    None
}
