//! Reading for a query: the versions that it is shown are pinned in one step, read one by one, and
//! then the pin ends. So an answer is of one place of the journal, whatever comes between.

ghost use Rattle.std.specs.Prelude.{◌≡◌, IfOk, None, OnErr, false, slice_get, true};
ghost use Rattle.std.specs.Arc.{arc_value};
ghost use Rattle.view_meaning.specs.Versions.{is_raw};
ghost use Rattle.query_pin.specs.Requests.{request_fault};
ghost use Rattle.machine_meaning.specs.Events.{IsPinOf};
ghost use Rattle.claim_core.specs.Cores.{IsPinnedOf, version_shown};
ghost use Rattle.run_journal.specs.KeptJournals.{IsKept, JournalOf, TellsAsBefore, content_read};
ghost use Rattle.run_journal.specs.KeptJournals.{entries_of};
ghost use Rattle.run_journal.specs.Pinning.{IsBesidePin, IsPinnedIn, MayBeRead, READER};

use crate::journal::Journal;
use crate::journal::reading::is_raw_table;
use depot_cell::{Memory, Rows};
use query_pin::{Input, Pinned, Request};
use std::alloc::Global;
use std::sync::Arc;
use view_meaning::PinItem;

/// The one that reads, in a run of one thread.
const READER: u64 = 1;

impl Journal {
    /// Pins the version of each partition that a request is shown, and tells what is told of each.
    /// Partitions whose mark is below their item's level are left out. Without memory the journal
    /// tells what it told before.
    pub fn pin(&mut self, alloc: Global, request: &Request) -> Result<Pinned, Memory>
        requires kept { IsKept self.old.core.desc self.old }
        requires accepted { request_fault self.old.core.desc request.now ≡ None }
        ensures ok { IfOk result (IsPinnedIn self.old self.new) }
        ensures exact { IfOk result (IsPinnedOf self.old.core.desc self.old.core.state request.now) }
        ensures err { OnErr result (TellsAsBefore self.old self.new) }
    {
        self.core.step_pin(alloc, READER, request)
    }

    /// The rows of a version that may be read. Those of a view's partition are shared, those of a
    /// raw one are copied.
    pub fn rows(&self, alloc: Global, item: &PinItem) -> Result<Arc<Rows>, Memory>
        requires read { MayBeRead self.now (version_shown item.now) }
        ensures exact { IfOk result (λ rows. arc_value rows
            ≡ content_read self.now.core.desc (entries_of self.now) (version_shown item.now)) }
    {
        if is_raw_table(self.core.served(), item.key.table) {
            self.raw_rows(alloc, item)
        } else {
            self.view_rows(alloc, item)
        }
    }

    /// A copy of the rows of a version of a raw partition.
    fn raw_rows(&self, alloc: Global, item: &PinItem) -> Result<Arc<Rows>, Memory>
        requires read { MayBeRead self.now (version_shown item.now) }
        requires raw { is_raw (slice_get self.now.core.desc.tables item.now.key.table) ≡ true }
        ensures exact { IfOk result (λ rows. arc_value rows
            ≡ content_read self.now.core.desc (entries_of self.now) (version_shown item.now)) }
    {
        let rows = self.core.raw().raw_rows(alloc, item.key, item.version)?;
        Ok(Arc::new(alloc, rows)?)
    }

    /// The rows of a version of a view's partition. The empty version has none.
    fn view_rows(&self, alloc: Global, item: &PinItem) -> Result<Arc<Rows>, Memory>
        requires read { MayBeRead self.now (version_shown item.now) }
        requires view { is_raw (slice_get self.now.core.desc.tables item.now.key.table) ≡ false }
        ensures exact { IfOk result (λ rows. arc_value rows
            ≡ content_read self.now.core.desc (entries_of self.now) (version_shown item.now)) }
    {
        let read = Input {
            key: item.key,
            version: item.version,
        };
        match self.content(read) {
            Some(content) => Ok(Arc::clone(content.rows())?),
            None => Ok(Arc::new(alloc, Rows::new(alloc))?),
        }
    }

    /// Ends a pin of the reader. If nothing else came between, the journal tells what it told before
    /// the pin. It takes no memory.
    pub fn unpin(&mut self, id: u64)
        requires pin { IsPinOf self.old.core.state READER id }
        ensures kept { (before : JournalOf) → IsBesidePin before id self.old
            → TellsAsBefore before self.new }
    {
        self.core.step_unpin(id)
    }
}
