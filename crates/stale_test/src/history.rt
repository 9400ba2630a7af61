//! What is kept of a partition that changed: how often, when the last time, and the place of its
//! last install.
//!
//! A version never falls. So a source has another version than at a place of the journal exactly if
//! it changed after that place, and the versions that an install recorded need not be kept.

ghost use Rattle.std.specs.Prelude.{◌≡◌, ◌<◌, ◌⊎◌, ◌∷◌, [], All};
ghost use Rattle.stale_test.specs.Histories.{AreBefore, installed, no_history, raised};
ghost use Rattle.stale_test.specs.Places.{ChangesEach, HasPlace};

use crate::places::{put, value_of};
use desc_types::Key;
use std::collections::BTreeMap;

/// The history of a partition: its version, how many entries stood when that last changed, with the
/// one that changed it, and the place of its last install. Each is 0 if there was none.
#[derive(Clone, Copy, Debug)]
pub(crate) struct History {
    pub(crate) version: u64,
    pub(crate) changed: u64,
    pub(crate) upto: u64,
}

impl History {
    /// Of a partition that never changed.
    pub(crate) fn none() -> History
        ensures exact { result ≡ no_history }
    {
        History {
            version: 0,
            changed: 0,
            upto: 0,
        }
    }

    /// The history after the entry with this number, which changed the partition.
    fn raised(self, entry: u64) -> History
        requires few { (self.changed ≡ entry) ⊎ (self.version < entry) }
        ensures exact { result ≡ raised entry self }
    {
        if self.changed == entry {
            return self;
        }
        History {
            version: self.version + 1,
            changed: entry,
            upto: self.upto,
        }
    }
}

/// Notes that the entry with this number changed some partitions. It takes no memory. One that is
/// named twice changed once.
pub(crate) fn raise(parts: &mut BTreeMap<Key, History>, keys: &[Key], entry: u64)
    requires places { All (HasPlace parts.old.entries) keys.now }
    requires before { AreBefore entry parts.old.entries }
    ensures exact { ChangesEach (raised entry) no_history keys.now
        parts.old.entries parts.new.entries }
{
    for key in keys {
        let history = value_of(parts, *key, History::none());
        put(parts, *key, history.raised(entry));
    }
}

/// Notes that the entry with this number installed a partition, with this place. It takes no
/// memory.
pub(crate) fn install(parts: &mut BTreeMap<Key, History>, key: Key, entry: u64, at: u64)
    requires place { HasPlace parts.old.entries key }
    requires before { AreBefore entry parts.old.entries }
    ensures exact { ChangesEach (installed entry at) no_history (key ∷ [])
        parts.old.entries parts.new.entries }
{
    let history = value_of(parts, key, History::none()).raised(entry);
    put(
        parts,
        key,
        History {
            version: history.version,
            changed: history.changed,
            upto: at,
        },
    );
}
