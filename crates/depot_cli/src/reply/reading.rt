//! What is shown of partitions: those that a query asks for with their rows, or marks alone.

ghost use Rattle.std.specs.Prelude.{◌≡◌, ◌++◌, All, IfOk, None, OnOk, flat_map, length, map};
ghost use Rattle.std.specs.Arc.{arc_value};
ghost use Rattle.view_meaning.specs.Shown.{marks_shown, shown};
ghost use Rattle.query_pin.specs.Requests.{request_fault};
ghost use Rattle.run_journal.specs.KeptJournals.{IsKept, TellsAsBefore, entries_of};
ghost use Rattle.run_journal.specs.Pinning.{MayBeRead};
ghost use Rattle.claim_core.specs.Cores.{version_shown};
ghost use Rattle.depot_script.specs.Texts.{marks_text};
ghost use Rattle.depot_cli.specs.Answers.{pinned_part, shown_text, whole_answer};

use depot_cell::Memory;
use depot_script::{answer_text, marks_text, part_text, rows_text, table_name};
use query_pin::{Pinned, Request};
use run_journal::Journal;
use std::alloc::Global;
use view_meaning::PinItem;

/// The answer to a query: the partitions that each item asks for, except those whose mark is below
/// the item's level, with their rows. What is shown is pinned while it is read; after the call the
/// journal tells what it told before, also without memory.
pub fn query_reply(
    alloc: Global,
    journal: &mut Journal,
    request: &Request,
) -> Result<Vec<u8>, Memory>
    requires kept { IsKept journal.old.core.desc journal.old }
    requires accepted { request_fault journal.old.core.desc request.now ≡ None }
    ensures exact { IfOk result (λ text. text.items
        ≡ whole_answer journal.old.core.desc (length (entries_of journal.old))
        (flat_map (shown journal.old.core.desc (entries_of journal.old)) request.now)) }
    ensures same { TellsAsBefore journal.old journal.new }
{
    let pinned = journal.pin(alloc, request)?;
    let text = pinned_text(alloc, journal, &pinned);
    journal.unpin(pinned.id);
    text
}

/// The first line of an answer, and then the partitions that were pinned for it.
fn pinned_text(alloc: Global, journal: &Journal, pinned: &Pinned) -> Result<Vec<u8>, Memory>
    requires readable { All (MayBeRead journal.now) (map version_shown pinned.now.items) }
    ensures exact { IfOk result (λ text. text.items
        ≡ whole_answer journal.now.core.desc pinned.now.place
        (map (pinned_part journal.now.core.desc (entries_of journal.now)) pinned.now.items)) }
{
    let mut text = answer_text(alloc, pinned.place, pinned.items.len() as u64)?;
    'items: for item in &pinned.items {
        push_part(alloc, journal, item, &mut text)?;
    }
    Ok(text)
}

/// Puts one partition of an answer at the end: its line, and the rows of the version that is pinned.
fn push_part(
    alloc: Global,
    journal: &Journal,
    item: &PinItem,
    text: &mut Vec<u8>,
) -> Result<(), Memory>
    requires readable { MayBeRead journal.now (version_shown item.now) }
    ensures ok { OnOk result (text.new.items ≡ text.old.items
        ++ shown_text journal.now.core.desc
        (pinned_part journal.now.core.desc (entries_of journal.now) item.now)) }
{
    let rows = journal.rows(alloc, item)?;
    let count = rows.rows().len() as u64;
    let line = part_text(
        alloc,
        table_name(journal.served(), item.key.table),
        item,
        count,
    )?;
    text.extend_from_slice(&line)?;
    text.extend_from_slice(&rows_text(alloc, &rows)?)?;
    Ok(())
}

/// The marks of the partitions that each item asks for.
pub fn marks_reply(alloc: Global, journal: &Journal, request: &Request) -> Result<Vec<u8>, Memory>
    requires accepted { request_fault journal.now.core.desc request.now ≡ None }
    ensures exact { IfOk result (λ text. text.items
        ≡ marks_text journal.now.core.desc (length (entries_of journal.now))
        (flat_map (marks_shown journal.now.core.desc (entries_of journal.now)) request.now)) }
{
    let marks = journal.marks(alloc, request)?;
    marks_text(alloc, journal.served(), journal.len(), &marks)
}
