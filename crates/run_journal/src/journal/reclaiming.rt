//! Dropping versions that nobody reads and that a later one has replaced, with their rows.

ghost use Rattle.std.specs.Prelude.{◌≡◌, ◌+◌, Some, length, suc};
ghost use Rattle.desc_types.specs.Descriptions.{DescOf};
ghost use Rattle.query_pin.specs.Held.{version_of};
ghost use Rattle.query_pin.specs.Kept.{entry_in};
ghost use Rattle.machine_meaning.specs.Events.{IsDead};
ghost use Rattle.machine_meaning.specs.VersionCounts.{versions_replaced};
ghost use Rattle.run_journal.specs.KeptJournals.{IsKept, entries_of, reclaimed_of};

use crate::journal::Journal;
use desc_types::Key;
use query_pin::Dead;

/// The first key of all.
const FIRST: Key = Key { table: 0, part: 0 };

impl Journal {
    /// Drops each version that is not the latest of its partition, with its rows, and says how many
    /// it dropped. With those that were dropped before they are all that were replaced. It takes no
    /// memory.
    pub fn reclaim(&mut self) -> u64
        requires kept { IsKept self.old.core.desc self.old }
        ensures exact { result + reclaimed_of self.old ≡ versions_replaced (entries_of self.old) }
        ensures all { reclaimed_of self.new ≡ versions_replaced (entries_of self.old) }
        ensures entries { entries_of self.new ≡ entries_of self.old }
        ensures kept { IsKept self.old.core.desc self.new }
    {
        let before = self.contents.len();
        'dead: while let Some(dead) = self.core.next_dead(FIRST) {
            self.drop_dead(dead);
        }
        before - self.contents.len()
    }

    /// Drops a dead version with its rows.
    fn drop_dead(&mut self, dead: Dead)
        requires dead { IsDead self.old.core.desc self.old.core.state (version_of dead) }
        requires entry { entry_in self.old.core.state.held (version_of dead) ≡ Some dead.entry }
        ensures entries { entries_of self.new ≡ entries_of self.old }
        ensures fewer { (desc : DescOf) → IsKept desc self.old
            → suc (length self.new.contents) ≡ length self.old.contents }
        ensures kept { (desc : DescOf) → IsKept desc self.old → IsKept desc self.new }
    {
        self.core.step_reclaim(dead);
        self.contents.remove(dead.entry);
    }
}
