//! What is done for each item of a script, and what is written in reply.

mod loading;
mod reading;

ghost use Rattle.std.specs.Prelude.{◌≡◌, ◌-◌, length, IfOk, OnErr, OnOk};
ghost use Rattle.view_meaning.specs.Drains.{drained};
ghost use Rattle.run_journal.specs.KeptJournals.{DrainsSome, IsKept, entries_of, reclaimed_of};
ghost use Rattle.machine_meaning.specs.VersionCounts.{versions_replaced};
ghost use Rattle.depot_script.specs.Texts.{drained_text, reclaimed_text, refused_text};
ghost use Rattle.depot_cli.specs.declared.script.work.Work.TheVariants as work;
ghost use Rattle.depot_cli.specs.Items.{refusal_record, refusal_text};
ghost use Rattle.depot_cli.specs.Replies.{reply};
ghost use Rattle.depot_cli.specs.ScriptCalls.{IsAnswerable, IsCutShort};
ghost use Rattle.depot_cli.specs.SerialJournal.{after, made_of};

use crate::reply::loading::load;
use crate::reply::reading::{marks_reply, query_reply};
use crate::script::work::{Refusal, Work};
use depot_cell::Memory;
use depot_script::{asides_text, drained_text, reclaimed_text, refused_text};
use run_journal::{Journal, drain};
use std::alloc::Global;

/// Does what an item asks for, and makes the text of the reply. `line` is the item's line, from 1.
/// Without memory a drain may have made some of its installs and a reclaim may have dropped
/// versions, and otherwise the journal tells what it told before.
pub fn answer(
    alloc: Global,
    line: u64,
    journal: &mut Journal,
    work: Work,
) -> Result<Vec<u8>, Memory>
    requires kept { IsKept journal.old.core.desc journal.old }
    requires in_range { IsAnswerable journal.old.core.desc work }
    ensures exact { IfOk result (λ text.
        text.items ≡ reply journal.old.core.desc line (made_of journal.old) work) }
    ensures ok { OnOk result
        (made_of journal.new ≡ after journal.old.core.desc (made_of journal.old) work) }
    ensures kept { OnOk result (IsKept journal.old.core.desc journal.new) }
    ensures err { OnErr result (IsCutShort journal.old.core.desc journal.old journal.new work) }
{
    match work {
        Work::Nothing => Ok(Vec::new(alloc)),
        Work::Refused(refusal) => refusal_reply(alloc, line, refusal),
        Work::Load(delivery) => load(alloc, journal, delivery),
        Work::Drain => drain_reply(alloc, journal),
        Work::Query(request) => query_reply(alloc, journal, &request),
        Work::Marks(request) => marks_reply(alloc, journal, &request),
        Work::Aside(feed) => asides_text(
            alloc,
            journal.served(),
            feed,
            journal.len(),
            journal.aside(feed),
        ),
        Work::Reclaim => reclaim_reply(alloc, journal),
    }
}

/// Computes all that is not settled, and tells the place. Without memory the first of the installs
/// may be made.
fn drain_reply(alloc: Global, journal: &mut Journal) -> Result<Vec<u8>, Memory>
    requires kept { IsKept journal.old.core.desc journal.old }
    ensures exact { IfOk result (λ text. text.items
        ≡ drained_text (length (drained journal.old.core.desc (entries_of journal.old)))) }
    ensures ok { OnOk result (made_of journal.new
        ≡ after journal.old.core.desc (made_of journal.old) work.Drain) }
    ensures kept { OnOk result (IsKept journal.old.core.desc journal.new) }
    ensures err { OnErr result
        (DrainsSome journal.old.core.desc (entries_of journal.old) (entries_of journal.new)) }
{
    drain(alloc, journal)?;
    drained_text(alloc, journal.len())
}

/// Drops the versions that nothing needs any more, and tells how many. Without memory they are
/// dropped all the same.
fn reclaim_reply(alloc: Global, journal: &mut Journal) -> Result<Vec<u8>, Memory>
    requires kept { IsKept journal.old.core.desc journal.old }
    ensures exact { IfOk result (λ text. text.items ≡ reclaimed_text
        (versions_replaced (entries_of journal.old) - reclaimed_of journal.old)
        (length (entries_of journal.old))) }
    ensures made { made_of journal.new
        ≡ after journal.old.core.desc (made_of journal.old) work.Reclaim }
    ensures kept { IsKept journal.old.core.desc journal.new }
{
    let dropped = journal.reclaim();
    reclaimed_text(alloc, dropped, journal.len())
}

/// Tells that an item was refused, and why.
fn refusal_reply(alloc: Global, line: u64, refusal: Refusal) -> Result<Vec<u8>, Memory>
    ensures exact { IfOk result (λ text. text.items
        ≡ refused_text line (refusal_record refusal) (refusal_text refusal)) }
{
    match refusal {
        Refusal::Line(fault) => refused_text(alloc, line, None, fault.text()),
        Refusal::Record(bad) => {
            refused_text(alloc, line, Some(u64::from(bad.number)), bad.cause.text())
        }
        Refusal::Request(fault) => refused_text(alloc, line, None, fault.text()),
    }
}
