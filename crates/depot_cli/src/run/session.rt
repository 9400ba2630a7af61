//! A session: each item is read, done and replied to before the next one is read.

ghost use Rattle.std.specs.Prelude.{◌≡◌, ◌≤◌, IfErr, IfSome, OnOk, if◌then◌else◌};
ghost use Rattle.depot_io.specs.Lines.{LIMIT};
ghost use Rattle.depot_cli.specs.Reading.{Serving, session};
ghost use Rattle.depot_cli.specs.ScriptCalls.{IsAnswerable, IsItemCut, IsReplied, IsReplyCause};
ghost use Rattle.depot_cli.specs.ScriptCalls.{IsReplyRoom, status_of_fault};
ghost use Rattle.depot_cli.specs.SerialJournal.{after, made_of, nothing};
ghost use Rattle.run_journal.specs.KeptJournals.{IsKept};
ghost use Rattle.depot_cli.specs.Replies.{is_refused, reply};
ghost use Rattle.depot_cli.specs.Runs.{EndsSession, HasRunCauses, IsRun};

use crate::reply::answer;
use crate::run::status::Status;
use crate::script::work::Work;
use crate::script::{ScriptFault, next_work};
use depot_cell::Memory;
use depot_io::{LineReader, Sink, Source, put_all};
use desc_types::AcceptedDesc;
use run_journal::Journal;
use std::alloc::Global;
use std::mem;

/// Serves the session lines that a reader has left, up to the end of its input or to the word
/// `end`. `base` is the place at which the reader's input begins. The description is moved into the
/// journal.
pub fn serve<S: Source, O: Sink>(
    alloc: Global,
    served: AcceptedDesc,
    base: u64,
    reader: &mut LineReader<S>,
    sink: &mut O,
) -> Status
    requires in_input { base ≤ LIMIT }
    requires start { reader.old.taken ≡ 0 }
    ensures run { IfSome (S.bytes_left reader.old.source) (λ input.
        IsRun (Serving served.desc (session served.desc base input)) (O.bytes_got sink.old)
        (O.bytes_got sink.new) (S.bytes_left reader.new.source) (O.room sink.old) result) }
    ensures causes { HasRunCauses (S.faults reader.old.source) (S.faults reader.new.source)
        (O.faults sink.old) (O.faults sink.new) result }
    ensures others { EndsSession result }
    ensures loan { S.loan reader.new.source ≡ S.loan reader.old.source }
{
    let mut journal = match Journal::new(alloc, served) {
        Ok(journal) => journal,
        Err(Memory) => return Status::Memory,
    };
    let status = serve_items(alloc, base, &mut journal, reader, sink);
    // The process ends with the run: to give each row back by itself would be a tenth of loading.
    mem::forget(journal);
    status
}

/// Serves the items over a journal that is empty.
fn serve_items<S: Source, O: Sink>(
    alloc: Global,
    base: u64,
    journal: &mut Journal,
    reader: &mut LineReader<S>,
    sink: &mut O,
) -> Status
    requires in_input { base ≤ LIMIT }
    requires empty { made_of journal.old ≡ nothing }
    requires kept { IsKept journal.old.core.desc journal.old }
    requires start { reader.old.taken ≡ 0 }
    ensures run { IfSome (S.bytes_left reader.old.source) (λ input.
        IsRun (Serving journal.old.core.desc (session journal.old.core.desc base input))
        (O.bytes_got sink.old) (O.bytes_got sink.new) (S.bytes_left reader.new.source)
        (O.room sink.old) result) }
    ensures causes { HasRunCauses (S.faults reader.old.source) (S.faults reader.new.source)
        (O.faults sink.old) (O.faults sink.new) result }
    ensures others { EndsSession result }
    ensures loan { S.loan reader.new.source ≡ S.loan reader.old.source }
{
    let mut body = Vec::new(alloc);
    let mut refused = false;
    let mut line = 1;
    'items: loop {
        let work = match next_work(alloc, journal.served(), base, reader, &mut body) {
            Ok(Some(work)) => work,
            Ok(None) => return end_of(refused),
            Err(fault) => return status_of(fault),
        };
        let is_refused = is_refused(&work);
        match serve_item(alloc, line, journal, work, sink) {
            Ok(()) => {}
            Err(status) => return status,
        }
        refused |= is_refused;
        line += 1;
    }
}

/// Does what an item asks for, and puts the reply into the sink. Where that fails the sink has got
/// a front of the reply, and if there was no memory nothing.
fn serve_item<O: Sink>(
    alloc: Global,
    line: u64,
    journal: &mut Journal,
    work: Work,
    sink: &mut O,
) -> Result<(), Status>
    requires kept { IsKept journal.old.core.desc journal.old }
    requires in_range { IsAnswerable journal.old.core.desc work }
    ensures replied { IsReplied (O.bytes_got sink.old) (O.bytes_got sink.new)
        (reply journal.old.core.desc line (made_of journal.old) work) result }
    ensures room { IsReplyRoom (O.room sink.old) (O.room sink.new)
        (reply journal.old.core.desc line (made_of journal.old) work) result }
    ensures ok { OnOk result
        (made_of journal.new ≡ after journal.old.core.desc (made_of journal.old) work) }
    ensures kept { OnOk result (IsKept journal.old.core.desc journal.new) }
    ensures err { IfErr result (IsItemCut journal.old.core.desc journal.old journal.new work) }
    ensures cause { IsReplyCause (O.faults sink.old) (O.faults sink.new) result }
{
    let text = match answer(alloc, line, journal, work) {
        Ok(text) => text,
        Err(Memory) => return Err(Status::Memory),
    };
    match put_all(sink, &text) {
        Ok(()) => Ok(()),
        Err(_) => Err(Status::WriteFault),
    }
}

/// Whether an item is refused.
fn is_refused(work: &Work) -> bool
    ensures exact { result ≡ is_refused work.now }
{
    match work {
        Work::Refused(_) => true,
        Work::Nothing | Work::Load(_) | Work::Drain => false,
        Work::Query(_) | Work::Marks(_) | Work::Aside(_) | Work::Reclaim => false,
    }
}

/// The status of a session that was read to its end.
fn end_of(refused: bool) -> Status
    ensures exact { result ≡ (if refused then Status.Refused else Status.Done) }
{
    if refused {
        Status::Refused
    } else {
        Status::Done
    }
}

/// The status of a script that was not read on.
pub fn status_of(fault: ScriptFault) -> Status
    ensures exact { result ≡ status_of_fault fault }
{
    match fault {
        ScriptFault::Input { why, place } => Status::Input { why, place },
        ScriptFault::ReadFault => Status::ReadFault,
        ScriptFault::Memory => Status::Memory,
    }
}
