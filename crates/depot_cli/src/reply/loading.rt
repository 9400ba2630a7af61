//! The reply to a delivery.

ghost use Rattle.std.specs.Prelude.{◌≡◌, IfOk, OnErr, OnOk};
ghost use Rattle.view_meaning.specs.Journal.{FitsDelivery};
ghost use Rattle.run_journal.specs.KeptJournals.{IsKept, TellsAsBefore, entries_of};
ghost use Rattle.depot_cli.specs.declared.script.work.Work.TheVariants as work;
ghost use Rattle.depot_cli.specs.Replies.{load_reply};
ghost use Rattle.depot_cli.specs.SerialJournal.{after, made_of};

use depot_cell::Memory;
use depot_script::{feed_name, loaded_text, repeat_text};
use desc_types::Delivery;
use raw_load::LoadFault;
use run_journal::Journal;
use std::alloc::Global;
use view_meaning::Loaded;

/// Loads a delivery, unless its number was accepted before. It is loaded only after its text is
/// made: without memory the journal tells what it told before.
pub fn load(alloc: Global, journal: &mut Journal, delivery: Delivery) -> Result<Vec<u8>, Memory>
    requires kept { IsKept journal.old.core.desc journal.old }
    requires fits { FitsDelivery journal.old.core.desc delivery }
    ensures exact { IfOk result (λ text.
        text.items ≡ load_reply journal.old.core.desc (entries_of journal.old) delivery) }
    ensures ok { OnOk result (made_of journal.new
        ≡ after journal.old.core.desc (made_of journal.old) (work.Load delivery)) }
    ensures kept { OnOk result (IsKept journal.old.core.desc journal.new) }
    ensures err { OnErr result (TellsAsBefore journal.old journal.new) }
{
    let (feed, number) = (delivery.feed, delivery.number);
    let ready = match journal.ready_load(delivery) {
        Ok(ready) => ready,
        Err(LoadFault::Repeat { .. }) => {
            return repeat_text(alloc, feed_name(journal.served(), feed), number);
        }
        Err(LoadFault::Memory) => return Err(Memory),
    };
    let counts = ready.counts();
    let loaded = Loaded {
        entry: journal.len() + 1,
        kept: counts.kept,
        aside: counts.aside,
    };
    let text = loaded_text(alloc, feed_name(journal.served(), feed), number, &loaded)?;
    journal.step_load(ready);
    Ok(text)
}
