//! The install of a partition: it is claimed, computed and installed in one go.

ghost use Rattle.std.specs.Prelude.{◌≡◌, ◌+◌, IfSome, OnErr, OnOk, length, slice_get};
ghost use Rattle.view_meaning.specs.Contents.{latest_content};
ghost use Rattle.view_meaning.specs.Drains.{unsettled, with_install};
ghost use Rattle.view_meaning.specs.Journal.{accepted};
ghost use Rattle.view_meaning.specs.Values.{value_over};
ghost use Rattle.machine_meaning.specs.Progress.{Settles};
ghost use Rattle.machine_meaning.specs.States.{IsReady};
ghost use Rattle.run_journal.specs.Changes.{IsClaimedIn, IsFilled};
ghost use Rattle.run_journal.specs.KeptJournals.{IsKept, TellsAsBefore, entries_of, reclaimed_of};

use crate::content::Content;
use crate::journal::Journal;
use claim_core::Ticket;
use depot_cell::Memory;
use desc_types::Key;
use std::alloc::Global;
use std::sync::Arc;

/// The one that claims, in a run of one thread.
const WORKER: u64 = 0;

impl Journal {
    /// The first partition that is not settled. It takes no memory.
    pub(crate) fn next_unsettled(&self) -> Option<Key>
        requires kept { IsKept self.now.core.desc self.now }
        ensures exact { result
            ≡ slice_get (unsettled self.now.core.desc (entries_of self.now)) 0 }
        ensures ready { IfSome result (IsReady self.now.core.desc self.now.core.state) }
    {
        self.core.next_ready(Key { table: 0, part: 0 })
    }

    /// Claims a partition that is ready, computes it, and installs it. Without memory the journal
    /// tells what it told before.
    pub(crate) fn install(&mut self, alloc: Global, key: Key) -> Result<(), Memory>
        requires kept { IsKept self.old.core.desc self.old }
        requires ready { IsReady self.old.core.desc self.old.core.state key }
        ensures ok { OnOk result (entries_of self.new ≡ with_install (entries_of self.old) key) }
        ensures left { OnOk result
            (Settles self.old.core.desc self.old.core.state self.new.core.state key) }
        ensures reclaimed { OnOk result (reclaimed_of self.new ≡ reclaimed_of self.old) }
        ensures kept { OnOk result (IsKept self.old.core.desc self.new) }
        ensures err { OnErr result (TellsAsBefore self.old self.new) }
    {
        let ticket = match self.core.step_claim(alloc, WORKER, key) {
            Ok(ticket) => ticket,
            Err(_) => return Err(Memory),
        };
        match self.fill(alloc, &ticket) {
            Ok(()) => {
                self.core.step_install(ticket.id);
                Ok(())
            }
            Err(Memory) => {
                self.core.step_abandon(ticket.id);
                Err(Memory)
            }
        }
    }

    /// Computes the partition of a claim, and takes all room that its install needs. Its rows stand
    /// under the entry to come. Without memory all is as before.
    fn fill(&mut self, alloc: Global, ticket: &Ticket) -> Result<(), Memory>
        requires claimed { IsClaimedIn self.old ticket.now }
        ensures ok { OnOk result (IsFilled self.old self.new ticket.now) }
        ensures err { OnErr result (TellsAsBefore self.old self.new) }
    {
        let rows = self.compute(alloc, ticket)?;
        let content = Content::new(Arc::new(alloc, rows)?);
        self.core.ready_install(ticket.id)?;
        let entry = self.core.len() + 1;
        self.contents.put(entry, content)
    }
}
