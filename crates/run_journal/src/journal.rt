//! The journal of a run: the core of the machine, and the rows of the versions that it holds.
//!
//! Deliveries are moved in and never copied, and nothing goes over them when one is added. Between
//! two calls nothing is claimed, and only what a reader pinned is pinned.

ghost use Rattle.std.specs.Prelude.{◌≡◌, ◌<◌, ◌^◌, [], IfOk, None, flat_map, length, option_copied};
ghost use Rattle.view_meaning.specs.Journal.{accepted};
ghost use Rattle.view_meaning.specs.SetAside.{asides};
ghost use Rattle.view_meaning.specs.Shown.{marks_shown};
ghost use Rattle.query_pin.specs.Requests.{request_fault};
ghost use Rattle.run_journal.specs.KeptJournals.{IsKept, content_of, entries_of, reclaimed_of};

mod installing;
mod loading;
mod pinning;
mod reading;
mod reclaiming;

use crate::content::Content;
use crate::contents::Contents;
use claim_core::Core;
use depot_cell::Memory;
use desc_types::AcceptedDesc;
use query_pin::{Input, Request};
use std::alloc::Global;
use std::marker::Model;
use view_meaning::{Aside, MarkItem};

/// What was accepted and installed in this run, in order, with the rows of the held versions.
#[derive(Debug, Drop)]
pub struct Journal {
    core: Core,
    contents: Contents,
}

impl Model for Journal {
    ghost use Rattle.run_journal.specs.KeptJournals.{JournalOf};

    ghost Value = { JournalOf };

    ghost view = { λ journal. record { core = journal.core; contents = journal.contents } };
}

impl Journal {
    /// Nothing accepted, and nothing dropped.
    pub fn new(alloc: Global, served: AcceptedDesc) -> Result<Journal, Memory>
        ensures entries { IfOk result (λ journal. entries_of journal ≡ []) }
        ensures reclaimed { IfOk result (λ journal. reclaimed_of journal ≡ 0) }
        ensures kept { IfOk result (IsKept served.desc) }
    {
        match Core::new(alloc, served) {
            Ok(core) => Ok(Journal {
                core,
                contents: Contents::new(alloc),
            }),
            Err(_) => Err(Memory),
        }
    }

    /// The description.
    pub fn served(&self) -> &AcceptedDesc
        ensures exact { result.now.desc ≡ self.now.core.desc }
    {
        self.core.served()
    }

    /// How many entries there are: the place of the last one.
    pub fn len(&self) -> u64
        ensures exact { result ≡ length (entries_of self.now) }
        ensures few { result < 2 ^ 63 }
    {
        self.core.len()
    }

    /// The rows of a feed that were set aside, in order of acceptance, then of record.
    pub fn aside(&self, feed: u16) -> &[Aside]
        requires within { feed < length self.now.core.desc.feeds }
        ensures exact { result.now
            ≡ asides self.now.core.desc (accepted (entries_of self.now)) feed }
    {
        self.core.aside(feed)
    }

    /// The mark of each partition that a request asks for, item by item. Levels leave nothing out.
    pub fn marks(&self, alloc: Global, request: &Request) -> Result<Vec<MarkItem>, Memory>
        requires accepted { request_fault self.now.core.desc request.now ≡ None }
        ensures exact { IfOk result (λ marks. marks.items
            ≡ flat_map (marks_shown self.now.core.desc (entries_of self.now)) request.now) }
    {
        self.core.marks(alloc, request)
    }

    /// The rows of a version of a view's partition, if it is held.
    pub(crate) fn content(&self, read: Input) -> Option<&Content>
        ensures exact { option_copied result ≡ content_of self.now read }
    {
        match self.core.entry_of(read.key, read.version) {
            Some(entry) => self.contents.get(entry),
            None => None,
        }
    }
}
