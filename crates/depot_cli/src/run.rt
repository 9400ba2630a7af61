//! The top call: all that the program does.

pub mod help;
pub mod laws;
pub mod session;
pub mod status;

ghost use Rattle.std.specs.Prelude.{◌≡◌, ◌↔◌, ◌≤◌, IfSome, IfOk, true, false, map, string_bytes};
ghost use Rattle.depot_io.specs.Lines.{LIMIT};
ghost use Rattle.depot_cli.specs.Reading.{Serving, opening, reading, session};
ghost use Rattle.depot_cli.specs.ScriptCalls.{IsOpened, IsScriptCause};
ghost use Rattle.depot_cli.specs.Runs.{EndsSession, HasRunCauses, IsRun, is_trial, is_unserved};

use crate::run::session::{serve, status_of};
use crate::run::status::Status;
use crate::script::{ScriptFault, read_opening};
use depot_io::{LineReader, Sink, Source};
use desc_types::AcceptedDesc;
use std::alloc::Global;
use table_desc::Draft;

/// Runs a command: `words` are those after the folder. The one command is `trial`. It reads a
/// description up to its `go` line and then session lines off the source, and puts the replies
/// into the sink. Other words are Usage, and nothing is read or written.
///
/// A run that ends early has put the whole replies to the items before the one at which it ended;
/// if the sink failed, a front of that one's reply too. After a fault of the source no other
/// item was taken to its last byte.
pub fn run<S: Source, O: Sink>(
    alloc: Global,
    words: &[String],
    source: &mut S,
    sink: &mut O,
) -> Status
    ensures usage { (result ≡ Status.Usage) ↔ (is_trial (map string_bytes words.now) ≡ false) }
    ensures unread { result ≡ Status.Usage → source.new ≡ source.old }
    ensures untouched { is_unserved result ≡ true → sink.new ≡ sink.old }
    ensures run { IfSome (S.bytes_left source.old) (λ input.
        IsRun (reading input) (O.bytes_got sink.old) (O.bytes_got sink.new)
        (S.bytes_left source.new) (O.room sink.old) result) }
    ensures causes { HasRunCauses (S.faults source.old) (S.faults source.new)
        (O.faults sink.old) (O.faults sink.new) result }
{
    if is_trial(words) {
        trial(alloc, source, sink)
    } else {
        Status::Usage
    }
}

/// Whether the words are the command `trial`.
fn is_trial(words: &[String]) -> bool
    ensures exact { result ≡ is_trial (map string_bytes words.now) }
{
    match words {
        [word] => word.as_bytes() == b"trial".as_slice(),
        _ => false,
    }
}

/// Runs a script over a journal of its own, that begins empty and ends with the run.
fn trial<S: Source, O: Sink>(alloc: Global, source: &mut S, sink: &mut O) -> Status
    ensures others { result ≡ Status.Usage → ⊥ }
    ensures untouched { is_unserved result ≡ true → sink.new ≡ sink.old }
    ensures run { IfSome (S.bytes_left source.old) (λ input.
        IsRun (reading input) (O.bytes_got sink.old) (O.bytes_got sink.new)
        (S.bytes_left source.new) (O.room sink.old) result) }
    ensures causes { HasRunCauses (S.faults source.old) (S.faults source.new)
        (O.faults sink.old) (O.faults sink.new) result }
{
    let (draft, base) = match open(alloc, source) {
        Ok(opened) => opened,
        Err(fault) => return status_of(fault),
    };
    match draft.into_read() {
        Ok(served) => serve_source(alloc, served, base, source, sink),
        Err(bad) => Status::BadDescription {
            line: bad.line,
            cause: bad.cause,
        },
    }
}

/// Takes a description off a source, up to its `go` line, and says how many bytes that took.
fn open<S: Source>(alloc: Global, source: &mut S) -> Result<(Draft, u64), ScriptFault>
    ensures answer { IfSome (S.bytes_left source.old) (λ input.
        IsOpened (opening input) (S.bytes_left source.new) result) }
    ensures within { IfOk result (λ opened. opened.1 ≤ LIMIT) }
    ensures cause { IsScriptCause (S.faults source.old) (S.faults source.new) result }
{
    let mut reader = match LineReader::new(alloc, &mut *source) {
        Ok(reader) => reader,
        Err(refusal) => {
            let (lent, _) = refusal;
            let _ = lent;
            return Err(ScriptFault::Memory);
        }
    };
    let opened = read_opening(alloc, &mut reader);
    let taken = reader.taken();
    let lent = reader.into_source();
    let _ = lent;
    match opened {
        Ok(draft) => Ok((draft, taken)),
        Err(fault) => Err(fault),
    }
}

/// Serves the session lines that a source has left. `base` is the place at which they begin.
fn serve_source<S: Source, O: Sink>(
    alloc: Global,
    served: AcceptedDesc,
    base: u64,
    source: &mut S,
    sink: &mut O,
) -> Status
    requires in_input { base ≤ LIMIT }
    ensures run { IfSome (S.bytes_left source.old) (λ input.
        IsRun (Serving served.desc (session served.desc base input)) (O.bytes_got sink.old)
        (O.bytes_got sink.new) (S.bytes_left source.new) (O.room sink.old) result) }
    ensures causes { HasRunCauses (S.faults source.old) (S.faults source.new)
        (O.faults sink.old) (O.faults sink.new) result }
    ensures others { EndsSession result }
{
    let mut reader = match LineReader::new(alloc, &mut *source) {
        Ok(reader) => reader,
        Err(refusal) => {
            let (lent, _) = refusal;
            let _ = lent;
            return Status::Memory;
        }
    };
    let status = serve(alloc, served, base, &mut reader, sink);
    let lent = reader.into_source();
    let _ = lent;
    status
}
