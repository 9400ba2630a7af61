//! Runs of partitions. A wide view rests on more raw partitions than can be listed, but on few runs
//! of them.

ghost use Rattle.std.specs.Prelude.{◌≡◌, ◌<◌, ◌+◌, ◌^◌, Some, All, filter};
ghost use Rattle.std.specs.BTreeMap.{is_at};
ghost use Rattle.std.specs.Map.{lookup};
ghost use Rattle.desc_types.specs.Keys.{key_cmp};
ghost use Rattle.view_meaning.specs.Partitions.{is_among};
ghost use Rattle.depot_marks.specs.Runs.{keys_of_run};

use desc_types::Key;
use partition_map::Parts;
use std::collections::BTreeMap;
use std::collections::btree_map::Range;

/// Partitions of a table, one after another.
#[derive(Clone, Copy, Debug, PartialEq, Eq)]
pub struct Run {
    pub table: u16,
    pub parts: Parts,
}

impl Run {
    /// The entries of a map at the partitions of the run, in order.
    pub fn entries_in<V>(self, map: &BTreeMap<Key, V>) -> Range<'_, Key, V>
        requires fits { self.parts.first + self.parts.count < 2 ^ 64 }
        ensures exact { result
            ≡ filter (λ entry. is_among (keys_of_run self) entry.0) map.now.entries }

        // Each is what the map has at its key.
        ensures found { All (λ entry.
            lookup (is_at (key_cmp entry.0)) map.now.entries ≡ Some entry.1) result }
    {
        let from = Key {
            table: self.table,
            part: self.parts.first,
        };
        let to = Key {
            table: self.table,
            part: self.parts.first + self.parts.count,
        };
        map.range(from..to)
    }
}
