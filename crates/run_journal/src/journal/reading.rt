//! The rows of versions, for those who compute from them. They are lent where they lie, those of a
//! raw partition in the deliveries that brought them, and none is copied.

ghost use Rattle.std.specs.Prelude.{◌≡◌, ◌++◌, All, IfOk, OnErr, OnOk, false, length, slice_get, true};
ghost use Rattle.view_meaning.specs.Contents.{content, latest_content};
ghost use Rattle.view_meaning.specs.Journal.{accepted};
ghost use Rattle.view_meaning.specs.Values.{value_over};
ghost use Rattle.view_meaning.specs.Versions.{is_raw};
ghost use Rattle.raw_load.specs.Books.{rows_of};
ghost use Rattle.machine_meaning.specs.States.{IsAtHand, IsGood, inputs};
ghost use Rattle.claim_core.specs.Cores.{left_inputs};
ghost use Rattle.run_journal.specs.KeptJournals.{KeepsContents, content_of, contents_of};
ghost use Rattle.run_journal.specs.KeptJournals.{entries_of, rows_kept};

use crate::journal::Journal;
use claim_core::Ticket;
use depot_cell::{Memory, Rows};
use desc_types::{AcceptedDesc, Key, Kind};
use query_pin::Input;
use std::alloc::Global;
use view_eval::eval;
use view_meaning::Lent;

impl Journal {
    /// The rows of the partition of a claim, made of the versions that the claim reads.
    pub(crate) fn compute(&self, alloc: Global, ticket: &Ticket) -> Result<Rows, Memory>
        requires good { IsGood self.now.core.desc self.now.core.state }
        requires contents { KeepsContents self.now.core.desc self.now.core.state
            self.now.contents }
        requires view { is_raw (slice_get self.now.core.desc.tables ticket.now.key.table) ≡ false }
        requires inputs { ticket.now.inputs
            ≡ inputs self.now.core.desc (entries_of self.now) ticket.now.key }
        requires left { ticket.now.left
            ≡ length (left_inputs self.now.core.desc (entries_of self.now) ticket.now.key) }
        ensures exact { IfOk result (λ rows. rows ≡ value_over self.now.core.desc
            (accepted (entries_of self.now))
            (latest_content self.now.core.desc (entries_of self.now)) ticket.now.key
            (slice_get self.now.core.desc.tables ticket.now.key.table)) }
    {
        let left = ticket.left as usize;
        let (left, right) = ticket.inputs.split_at(left);
        let left = self.parts_of(alloc, left)?;
        let right = self.parts_of(alloc, right)?;
        eval(
            alloc,
            &self.core.served().desc,
            ticket.key.table,
            &left,
            &right,
        )
    }

    /// The rows of some versions, version by version.
    fn parts_of<'a>(&'a self, alloc: Global, reads: &[Input]) -> Result<Vec<Lent<'a>>, Memory>
        requires good { IsGood self.now.core.desc self.now.core.state }
        requires contents { KeepsContents self.now.core.desc self.now.core.state
            self.now.contents }
        requires hand { All (IsAtHand self.now.core.desc (entries_of self.now)
            self.now.core.state.held) reads.now }
        ensures exact { IfOk result (λ parts. rows_of parts.items
            ≡ contents_of self.now.core.desc (entries_of self.now) reads.now) }
    {
        let mut parts = Vec::new(alloc);
        for &read in reads {
            self.push_version(read, &mut parts)?;
        }
        Ok(parts)
    }

    /// Puts the rows of a version at the end. After an `Err` there may be some of them.
    fn push_version<'a>(&'a self, read: Input, parts: &mut Vec<Lent<'a>>) -> Result<(), Memory>
        requires good { IsGood self.now.core.desc self.now.core.state }
        requires contents { KeepsContents self.now.core.desc self.now.core.state
            self.now.contents }
        requires hand { IsAtHand self.now.core.desc (entries_of self.now)
            self.now.core.state.held read }
        ensures ok { OnOk result (rows_of parts.new.items ≡ rows_of parts.old.items
            ++ content self.now.core.desc (entries_of self.now) read.key read.version) }
    {
        if is_raw_table(self.core.served(), read.key.table) {
            self.core.raw().push_parts(read.key, read.version, parts)
        } else {
            self.push_held(read, parts)
        }
    }

    /// Puts the rows of a version of a view's partition at the end, if it is held.
    fn push_held<'a>(&'a self, read: Input, parts: &mut Vec<Lent<'a>>) -> Result<(), Memory>
        ensures ok { OnOk result (rows_of parts.new.items
            ≡ rows_of parts.old.items ++ rows_kept (content_of self.now read)) }
    {
        match self.content(read) {
            Some(content) => push_list(content.rows(), parts),
            None => Ok(()),
        }
    }
}

/// Whether there is a table with this number and it is raw.
pub(super) fn is_raw_table(served: &AcceptedDesc, table: u16) -> bool
    ensures exact { result ≡ is_raw (slice_get served.now.desc.tables table) }
{
    match served.desc.tables.get(usize::from(table)) {
        Some(table) => matches!(table.kind, Kind::Raw { .. }),
        None => false,
    }
}

/// Puts the rows of a list at the end.
fn push_list<'a>(rows: &'a Rows, parts: &mut Vec<Lent<'a>>) -> Result<(), Memory>
    ensures ok { OnOk result (rows_of parts.new.items ≡ rows_of parts.old.items ++ rows.now) }
    ensures err { OnErr result (parts.new.items ≡ parts.old.items) }
{
    parts.push(Lent::of_list(rows))?;
    Ok(())
}
