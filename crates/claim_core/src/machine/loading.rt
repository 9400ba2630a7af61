//! A load in two steps: the first takes all memory that is needed, and changes nothing that is told;
//! the second takes none.

ghost use Rattle.std.specs.Prelude.{◌≡◌, IfOk, OnOk};
ghost use Rattle.view_meaning.specs.Journal.{FitsDelivery, accepted};
ghost use Rattle.view_meaning.specs.Loading.{loaded};
ghost use Rattle.raw_load.specs.Preparing.{counts_of};
ghost use Rattle.raw_load.specs.Ready.{IsPrepared};
ghost use Rattle.machine_meaning.specs.Events.{Loads};
ghost use Rattle.claim_core.specs.Cores.{GainsRoom, HasRoomBeside, IsLoadCause, IsReadyToLoad};
ghost use Rattle.claim_core.specs.Cores.{SameCore, Steps};

use crate::machine::Core;
use crate::step::Step;
use depot_cell::Memory;
use desc_types::Delivery;
use raw_load::{LoadFault, Prepared};
use view_meaning::Loaded;

impl Core {
    /// Takes all room that loading a delivery needs, and tells what loading it will do. A delivery
    /// whose number its feed has accepted is refused, with the place of the entry that accepted it.
    /// After a refusal all is as before, and the delivery is dropped.
    pub fn ready_load(&mut self, delivery: Delivery) -> Result<Prepared, LoadFault>
        requires fits { FitsDelivery self.old.desc delivery }
        ensures ok { IfOk result (IsReadyToLoad self.new) }
        ensures exact { IfOk result (λ prepared. prepared.delivery ≡ delivery) }
        ensures counts { IfOk result (λ prepared. prepared.counts
            ≡ counts_of self.old.desc (accepted self.old.state.journal) delivery) }
        ensures cause { IsLoadCause self.old.state.journal delivery result }
        ensures kept { SameCore self.old self.new }
    {
        match self.raw.prepare(&self.served, delivery) {
            Ok(prepared) => match self.reserve(&prepared) {
                Ok(()) => Ok(prepared),
                Err(_) => Err(LoadFault::Memory),
            },
            Err(fault) => Err(fault),
        }
    }

    /// Takes the room that loading a prepared delivery needs beside the raw rows. The state is the
    /// same, also without memory.
    fn reserve(&mut self, prepared: &Prepared) -> Result<(), Memory>
        requires prepared { IsPrepared self.old.desc self.old.raw prepared.now }
        requires fits { FitsDelivery self.old.desc prepared.now.delivery }
        ensures ok { OnOk result (HasRoomBeside self.new prepared.now) }
        ensures kept { GainsRoom self.old self.new }
    {
        self.order.reserve(1)?;
        self.stale.reserve_load(&self.served, prepared.touched())?;
        self.marks.reserve(prepared.delivery(), prepared.aside())
    }

    /// Loads a delivery that was prepared for the core as it is now. It takes no memory.
    pub fn step_load(&mut self, prepared: Prepared) -> Loaded
        requires ready { IsReadyToLoad self.old prepared }
        ensures step { Steps self.old (Loads prepared.delivery) self.new }
        ensures exact { result ≡ loaded self.old.desc self.old.state.journal prepared.delivery }
    {
        let entry = self.len() + 1;
        self.stale.note_load(prepared.touched());
        self.marks.note(prepared.delivery(), prepared.aside());
        let counts = self.raw.commit(prepared, entry);
        match self.order.push(Step::Load) {
            Ok(()) => {}
            Err(_) => unreachable!(),
        }
        Loaded {
            entry,
            kept: counts.kept,
            aside: counts.aside,
        }
    }
}
