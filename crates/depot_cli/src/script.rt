//! Reading a script: its lines and bodies, and what each asks for.

pub mod work;

ghost use Rattle.std.specs.Prelude.{◌≡◌, ◌+◌, ◌≤◌, ◌<◌, length, IfSome, IfOk, IfErr, OnOk, OnSome};
ghost use Rattle.std.specs.Prelude.{Ok, true};
ghost use Rattle.depot_io.specs.Lines.{LIMIT, line_take};
ghost use Rattle.depot_io.specs.Reading.{ReadsOn};
ghost use Rattle.desc_lines.specs.Words.{is_go, words};
ghost use Rattle.depot_script.specs.Commands.{body_size, line_command};
ghost use Rattle.depot_script.specs.Faults.{BODY_LIMIT};
ghost use Rattle.depot_script.specs.Values.{command_value, read_value};
ghost use Rattle.query_pin.specs.Requests.{request_fault};
ghost use Rattle.feed_csv.specs.Bodies.{delivery_of};
ghost use Rattle.depot_cli.specs.declared.script.work.Work.TheVariants as work;
ghost use Rattle.depot_cli.specs.Items.{asked, asking, is_end, loading, work_of};
ghost use Rattle.depot_cli.specs.Reading.{line_due, next_line, next_body};
ghost use Rattle.depot_cli.specs.Reading.{step_of, opening};
ghost use Rattle.depot_cli.specs.Runs.{EndsSession};
ghost use Rattle.depot_cli.specs.ScriptCalls.{status_of_fault, FitsCommand, FitsLine, FitsNumbers};
ghost use Rattle.depot_cli.specs.ScriptCalls.{IsAnswerable, IsNextBody, IsNextLine, IsOpening};
ghost use Rattle.depot_cli.specs.ScriptCalls.{IsScriptCause, IsStep};

use crate::run::status::InputEnd;
use crate::script::work::{Refusal, Work};
use depot_cell::Memory;
use depot_io::{Line, LineFault, LineReader, Source};
use depot_script::{BodySize, Command, CommandFault, body_size, read_command};
use desc_lines::{is_go, words_of};
use desc_types::AcceptedDesc;
use feed_csv::{DeliveryFault, read_delivery};
use query_pin::{Request, check_request};
use std::alloc::Global;
use table_desc::Draft;

/// Why a script was not read on.
#[derive(Clone, Copy, Debug, PartialEq, Eq, Drop)]
pub enum ScriptFault {
    /// The input ends badly; `place` is the offset of the first byte of what could not be read.
    Input { why: InputEnd, place: u64 },
    /// The source failed.
    ReadFault,
    Memory,
}

impl From<Memory> for ScriptFault {
    ghost use Rattle.depot_cli.specs.declared.script.ScriptFault.TheVariants as script_fault;

    ghost from_gives = { λ _ fault. fault ≡ script_fault.Memory };

    fn from(_memory: Memory) -> ScriptFault {
        ScriptFault::Memory
    }
}

/// Takes the next line, and says whether there is one. After `ReadFault` its LF was not taken.
/// `base` is the place at which the reader's input begins.
pub fn take_line<S: Source>(base: u64, reader: &mut LineReader<S>) -> Result<bool, ScriptFault>
    requires in_input { base ≤ LIMIT }
    requires not_long { reader.old.taken ≤ LIMIT }
    ensures answer { IfSome (S.bytes_left reader.old.source) (λ bytes.
        IsNextLine (next_line reader.old.taken bytes) (line_due bytes) (base + reader.old.taken)
        reader.new.line (S.bytes_left reader.new.source) result) }
    ensures taken { IfSome (S.bytes_left reader.old.source) (λ bytes.
        IfOk result (λ _. reader.new.taken ≡ reader.old.taken + line_take bytes)) }
    ensures more { IfOk result (λ there. there ≡ true → reader.old.taken < reader.new.taken) }
    ensures others { IfErr result (λ fault. EndsSession (status_of_fault fault)) }
    ensures cause { IsScriptCause (S.faults reader.old.source) (S.faults reader.new.source) result }
    ensures kept { ReadsOn S.bytes_left S.loan reader.old reader.new }
{
    let place = base + reader.taken();
    match reader.next_line() {
        Ok(Line::Text { .. }) => Ok(true),
        Ok(Line::End) => Ok(false),
        Err(LineFault::LongLine) => Err(ScriptFault::Input {
            why: InputEnd::LongLine,
            place,
        }),
        Err(LineFault::Long) => Err(ScriptFault::Input {
            why: InputEnd::Long,
            place,
        }),
        Err(LineFault::ReadFault) => Err(ScriptFault::ReadFault),
        Err(LineFault::Cut) | Err(LineFault::Memory) => unreachable!(),
    }
}

/// Takes the next body, of `size` bytes. After `ReadFault` its last byte was not taken.
fn take_body<S: Source>(
    base: u64,
    size: u64,
    reader: &mut LineReader<S>,
    body: &mut Vec<u8>,
) -> Result<(), ScriptFault>
    requires in_input { base ≤ LIMIT }
    requires not_long { reader.old.taken ≤ LIMIT }
    ensures answer { IfSome (S.bytes_left reader.old.source) (λ bytes.
        IsNextBody (next_body reader.old.taken size bytes) size (base + reader.old.taken) bytes
        body.new.items (S.bytes_left reader.new.source) result) }
    ensures taken { OnOk result (reader.new.taken ≡ reader.old.taken + size) }
    ensures len { OnOk result (length body.new.items ≡ size) }
    ensures others { IfErr result (λ fault. EndsSession (status_of_fault fault)) }
    ensures cause { IsScriptCause (S.faults reader.old.source) (S.faults reader.new.source) result }
    ensures kept { ReadsOn S.bytes_left S.loan reader.old reader.new }
{
    let place = base + reader.taken();
    match reader.take_exact(size, body) {
        Ok(()) => Ok(()),
        Err(LineFault::Cut) => Err(ScriptFault::Input {
            why: InputEnd::Cut,
            place,
        }),
        Err(LineFault::Long) => Err(ScriptFault::Input {
            why: InputEnd::Long,
            place,
        }),
        Err(LineFault::ReadFault) => Err(ScriptFault::ReadFault),
        Err(LineFault::Memory) => Err(ScriptFault::Memory),
        Err(LineFault::LongLine) => unreachable!(),
    }
}

/// The command of a line or its first fault, and the body after it.
fn read_line(
    alloc: Global,
    served: &AcceptedDesc,
    line: &[u8],
) -> Result<(Result<Command, CommandFault>, BodySize), Memory>
    ensures command { IfOk result (λ read.
        read_value read.0 ≡ line_command served.now.desc line.now) }
    ensures size { IfOk result (λ read. read.1 ≡ body_size line.now) }
    ensures fits { IfOk result (λ read. FitsLine served.now.desc (read_value read.0)) }
{
    let words = words_of(alloc, line)?;
    Ok((read_command(alloc, served, &words)?, body_size(&words)))
}

/// What a line asks for, with the body after it.
fn work_of(
    alloc: Global,
    served: &AcceptedDesc,
    command: Result<Command, CommandFault>,
    body: &[u8],
) -> Result<Work, Memory>
    requires few { length body.now ≤ BODY_LIMIT }
    requires fits { FitsLine served.now.desc (read_value command) }
    ensures exact { IfOk result (λ work.
        work ≡ work_of served.now.desc (read_value command) body.now) }
    ensures in_range { IfOk result (IsAnswerable served.now.desc) }
{
    match command {
        Ok(command) => asked(alloc, served, command, body),
        Err(fault) => Ok(Work::Refused(Refusal::Line(fault))),
    }
}

/// Whether a line ends the session.
fn is_end(command: &Result<Command, CommandFault>) -> bool
    ensures exact { result ≡ is_end (read_value command.now) }
{
    match command {
        Ok(Command::End) => true,
        Ok(Command::Nothing | Command::Deliver { .. } | Command::Drain | Command::Query(_)) =>
            false,
        Ok(Command::Marks(_) | Command::Aside { .. } | Command::Reclaim) | Err(_) => false,
    }
}

/// What a command asks for, with the body after its line.
fn asked(
    alloc: Global,
    served: &AcceptedDesc,
    command: Command,
    body: &[u8],
) -> Result<Work, Memory>
    requires few { length body.now ≤ BODY_LIMIT }
    requires fits { FitsCommand served.now.desc (command_value command) }
    ensures exact { IfOk result (λ work.
        work ≡ asked served.now.desc (command_value command) body.now) }
    ensures in_range { IfOk result (IsAnswerable served.now.desc) }
{
    match command {
        Command::Nothing | Command::End => Ok(Work::Nothing),
        Command::Deliver {
            feed,
            number,
            closes,
            ..
        } => loading(alloc, served, feed, number, closes, body),
        Command::Drain => Ok(Work::Drain),
        Command::Query(request) => Ok(asking(served, request)),
        Command::Marks(request) => Ok(asking_marks(served, request)),
        Command::Aside { feed } => Ok(Work::Aside(feed)),
        Command::Reclaim => Ok(Work::Reclaim),
    }
}

/// What the body of a delivery asks for.
fn loading(
    alloc: Global,
    served: &AcceptedDesc,
    feed: u16,
    number: u32,
    closes: u64,
    body: &[u8],
) -> Result<Work, Memory>
    requires few { length body.now ≤ BODY_LIMIT }
    requires fits { FitsNumbers served.now.desc feed number closes }
    ensures exact { IfOk result (λ work.
        work ≡ loading (delivery_of served.now.desc feed number closes body.now)) }
    ensures in_range { IfOk result (IsAnswerable served.now.desc) }
{
    match read_delivery(alloc, served, feed, number, closes, body) {
        Ok(delivery) => Ok(Work::Load(delivery)),
        Err(DeliveryFault::At(bad)) => Ok(Work::Refused(Refusal::Record(bad))),
        Err(DeliveryFault::Memory) => Err(Memory),
    }
}

/// What a query asks for.
fn asking(served: &AcceptedDesc, request: Request) -> Work
    ensures exact { result ≡ asking (work.Query request) (request_fault served.now.desc request) }
    ensures in_range { IsAnswerable served.now.desc result }
{
    match check_request(served, &request) {
        Ok(()) => Work::Query(request),
        Err(fault) => Work::Refused(Refusal::Request(fault)),
    }
}

/// What a line that asks for marks asks for.
fn asking_marks(served: &AcceptedDesc, request: Request) -> Work
    ensures exact { result ≡ asking (work.Marks request) (request_fault served.now.desc request) }
    ensures in_range { IsAnswerable served.now.desc result }
{
    match check_request(served, &request) {
        Ok(()) => Work::Marks(request),
        Err(fault) => Work::Refused(Refusal::Request(fault)),
    }
}

/// Takes what the next line asks for, with its body; nothing if the session ends, at the end
/// of the input or at the word `end`. `body` is room that is used again.
pub fn next_work<S: Source>(
    alloc: Global,
    served: &AcceptedDesc,
    base: u64,
    reader: &mut LineReader<S>,
    body: &mut Vec<u8>,
) -> Result<Option<Work>, ScriptFault>
    requires in_input { base ≤ LIMIT }
    requires not_long { reader.old.taken ≤ LIMIT }
    ensures answer { IfSome (S.bytes_left reader.old.source) (λ bytes.
        IsStep (step_of served.now.desc base reader.old.taken bytes) reader.new.taken
        (S.bytes_left reader.new.source) result) }
    ensures in_range { IfOk result (λ work. IfSome work (IsAnswerable served.now.desc)) }
    ensures more { IfOk result (λ work. OnSome work (reader.old.taken < reader.new.taken)) }
    ensures others { IfErr result (λ fault. EndsSession (status_of_fault fault)) }
    ensures cause { IsScriptCause (S.faults reader.old.source) (S.faults reader.new.source) result }
    ensures kept { ReadsOn S.bytes_left S.loan reader.old reader.new }
{
    if !take_line(base, reader)? {
        return Ok(None);
    }
    let (command, size) = read_line(alloc, served, reader.line())?;
    match size {
        BodySize::NoBody => {
            if is_end(&command) {
                Ok(None)
            } else {
                Ok(Some(work_of(alloc, served, command, &[])?))
            }
        }
        BodySize::TooBig => Err(ScriptFault::Input {
            why: InputEnd::Big,
            place: base + reader.taken(),
        }),
        BodySize::Body(size) => {
            take_body(base, size, reader, body)?;
            Ok(Some(work_of(alloc, served, command, body)?))
        }
    }
}

/// Whether a line ends a description: its only word is `go`.
fn is_go_line(alloc: Global, line: &[u8]) -> Result<bool, Memory>
    ensures exact { IfOk result (λ goes. goes ≡ is_go (words line.now)) }
{
    let words = words_of(alloc, line)?;
    Ok(is_go(&words))
}

/// Takes the lines of a description up to its `go` line, from the start of an input, and reads
/// them.
pub fn read_opening<S: Source>(
    alloc: Global,
    reader: &mut LineReader<S>,
) -> Result<Draft, ScriptFault>
    requires start { reader.old.taken ≡ 0 }
    ensures answer { IfSome (S.bytes_left reader.old.source) (λ bytes.
        IsOpening (opening bytes) reader.new.taken (S.bytes_left reader.new.source) result) }
    ensures cause { IsScriptCause (S.faults reader.old.source) (S.faults reader.new.source) result }
    ensures kept { ReadsOn S.bytes_left S.loan reader.old reader.new }
{
    let mut draft = Draft::new(alloc);
    'lines: loop {
        if !take_line(0, reader)? {
            return Err(ScriptFault::Input {
                why: InputEnd::NoGo,
                place: reader.taken(),
            });
        }
        if is_go_line(alloc, reader.line())? {
            return Ok(draft);
        }
        draft = draft.with_line(alloc, reader.line())?;
    }
}
