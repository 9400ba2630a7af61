//! A load in two steps: the first takes all memory that is needed, and changes nothing that is told;
//! the second takes none.

ghost use Rattle.std.specs.Prelude.{◌≡◌, IfOk};
ghost use Rattle.desc_types.specs.Descriptions.{DescOf};
ghost use Rattle.view_meaning.specs.declared.journal.Entry.TheVariants as entry;
ghost use Rattle.view_meaning.specs.Journal.{FitsDelivery, accepted};
ghost use Rattle.view_meaning.specs.Loading.{loaded};
ghost use Rattle.raw_load.specs.Preparing.{counts_of};
ghost use Rattle.machine_meaning.specs.Events.{with_entry};
ghost use Rattle.claim_core.specs.Cores.{IsLoadCause, IsReadyToLoad};
ghost use Rattle.run_journal.specs.KeptJournals.{IsKept, TellsAsBefore, entries_of, reclaimed_of};

use crate::journal::Journal;
use desc_types::Delivery;
use raw_load::{LoadFault, Prepared};
use view_meaning::Loaded;

impl Journal {
    /// Takes all room that loading a delivery needs, and tells what loading it will do. A delivery
    /// whose number its feed has accepted is refused, with the place of the entry that accepted it.
    /// After a refusal the journal tells what it told before, and the delivery is dropped.
    pub fn ready_load(&mut self, delivery: Delivery) -> Result<Prepared, LoadFault>
        requires fits { FitsDelivery self.old.core.desc delivery }
        ensures ok { IfOk result (IsReadyToLoad self.new.core) }
        ensures exact { IfOk result (λ prepared. prepared.delivery ≡ delivery) }
        ensures counts { IfOk result (λ prepared. prepared.counts
            ≡ counts_of self.old.core.desc (accepted (entries_of self.old)) delivery) }
        ensures cause { IsLoadCause (entries_of self.old) delivery result }
        ensures kept { TellsAsBefore self.old self.new }
    {
        self.core.ready_load(delivery)
    }

    /// Loads a delivery that was prepared for the journal as it is now. It takes no memory.
    pub fn step_load(&mut self, prepared: Prepared) -> Loaded
        requires ready { IsReadyToLoad self.old.core prepared }
        ensures entries { entries_of self.new
            ≡ with_entry (entries_of self.old) (entry.Load prepared.delivery) }
        ensures exact { result
            ≡ loaded self.old.core.desc (entries_of self.old) prepared.delivery }
        ensures reclaimed { reclaimed_of self.new ≡ reclaimed_of self.old }
        ensures kept { (desc : DescOf) → IsKept desc self.old → IsKept desc self.new }
    {
        self.core.step_load(prepared)
    }
}
