//! Tests of the top call, over sources and sinks in memory.

ghost use Rattle.std.specs.Prelude.{None};

use super::{NONE, TRIAL, expect_end, expect_run, run_words};
use crate::run::laws::{journals_are_serial, runs_are_complete, serial_is_legal};
use crate::run::status::{InputEnd, Status};
use depot_io::{Failed, NeverSource, Sink, Source};
use desc_causes::DescCause;
use std::alloc::Global;
use std::cell::Cell;
use std::test::Fail;

/// Inputs that end before a `go` line, and the places at which they do.
static NO_GO: [(&[u8], u64); 4] = [
    (b"", 0),
    (b"feed f\n", 7),
    (b"feed f\ngo\r", 10),
    (b"feed by\n", 8),
];

/// Inputs with a description that is not accepted, their first bad lines, and why these are bad.
static BAD: [(&[u8], u64, DescCause); 3] = [
    (b"feed by\ngo\nmarks\n", 1, DescCause::BadName),
    (
        b"# none\nfeed f\nfeed f\nfeed by\ngo\n",
        3,
        DescCause::DoubleName,
    ),
    (b"feed f\n\nfeed g \xff\ngo\n", 3, DescCause::BadLine),
];

fn no_go(place: u64) -> Status {
    Status::Input {
        why: InputEnd::NoGo,
        place,
    }
}

#[test]
fn an_input_may_have_no_go_line(rt: HostRuntime) -> Result<(), Fail> {
    for &(input, place) in &NO_GO {
        expect_run(rt.alloc(), TRIAL, input, NONE, no_go(place), b"")?;
    }
    Ok(())
}

#[test]
fn a_description_is_read_to_its_go_line(rt: HostRuntime) -> Result<(), Fail> {
    for &(input, line, cause) in &BAD {
        let bad = Status::BadDescription { line, cause };
        expect_run(rt.alloc(), TRIAL, input, NONE, bad, b"")?;
    }
    expect_run(rt.alloc(), TRIAL, b"\tgo \r\n", NONE, Status::Done, b"")
}

/// Words that are no command.
static OTHERS: [&[&str]; 4] = [&[], &["session"], &["trial", "x"], &["Trial"]];

#[test]
fn other_words_read_and_write_nothing(rt: HostRuntime) -> Result<(), Fail> {
    for words in &OTHERS {
        expect_run(rt.alloc(), words, b"go\n", 1, Status::Usage, b"")?;
    }
    Ok(())
}

/// A session with a line of each kind, and an empty text.
const SCRIPT: &[u8] = b"feed f\nraw r feed f width 10 time at cols at:int k:text\n\
view v width 10 filter r 0 0 where at >= 0 keep k\ngo\n\
deliver f 0 0 5\nr,3,\ndeliver f 0 0 0\nreclaim\ndrain\n\
query r 0 10\nquery v 0 10\nmarks r 0 10\naside f\n\nend\nx";

const REPLIES: &[u8] =
    b"loaded f 0 entry 1 kept 1 aside 0\nrepeat f 0\nreclaimed 0 at 1\ndrained at 2\n\
answer at 2 parts 1\npart r 0 version 1 upto 2 mark open rows 1\n3,\n\
answer at 2 parts 1\npart v 0 version 1 upto 1 mark open rows 1\n\"\"\n\
marks at 2 parts 1\npart r 0 mark open\nasides f at 2 rows 0\n";

/// The take after `end`: 207 bytes of lines and a body of some bytes stand before it.
const NEXT: u64 = 209;

/// With memory each kind of line is served, and nothing is taken after `end`.
#[test]
fn ample_memory_is_enough(rt: HostRuntime) -> Result<(), Fail> {
    expect_run(rt.alloc(), TRIAL, SCRIPT, NEXT, Status::Done, REPLIES)?;
    journals_are_serial();
    serial_is_legal();
    runs_are_complete();
    Ok(())
}

/// A source that counts the bytes that were taken of it.
#[derive(Drop)]
struct Counting<'a> {
    source: NeverSource,
    taken: &'a Cell<usize>,
}

impl Source for Counting<'_> {
    ghost bytes_left = { λ _. None };

    ghost faults = { λ _. 0 };

    ghost loan = { λ _. None };

    fn take(&mut self, into: &mut [u8]) -> Result<usize, Failed> {
        let count = self.source.take(into)?;
        self.taken.set(self.taken.get().saturating_add(count));
        Ok(count)
    }
}

/// A sink that remembers how many bytes the source had given at each put.
#[derive(Drop)]
struct Watching<'a> {
    taken: &'a Cell<usize>,
    at_puts: Vec<usize>,
}

impl Sink for Watching<'_> {
    ghost bytes_got = { λ _. None };

    ghost room = { λ _. None };

    ghost faults = { λ _. 0 };

    fn put(&mut self, bytes: &[u8]) -> Result<usize, Failed> {
        let _ = self.at_puts.push(self.taken.get());
        Ok(bytes.len())
    }
}

/// The session begins at 52. Its first line is a comment, and each other one has a reply.
const REPLIED: &[u8] = b"feed f\nraw r feed f width 10 time at cols at:int\ngo\n\
# x\ndeliver f 0 0 4\nr,3\ndrain\nquery r 0 10\nmarks\nend\nmarks\n";

/// How much was taken at each put, and then in all.
const TAKEN: &[usize] = &[76, 82, 95, 101, 105];

/// Runs the session, and says how much was taken at each put and then in all.
fn taken_at_puts(alloc: Global, taken: &Cell<usize>) -> Result<Vec<usize>, Fail> {
    let mut source = Counting {
        source: NeverSource::new(REPLIED.to_vec(alloc)?),
        taken,
    };
    let mut sink = Watching {
        taken,
        at_puts: Vec::new(alloc),
    };
    expect_end(
        run_words(alloc, TRIAL, &mut source, &mut sink)?,
        Status::Refused,
    )?;
    let mut counts = sink.at_puts;
    counts.push(taken.get())?;
    Ok(counts)
}

#[test]
fn each_reply_is_out_before_the_next_line_is_taken(rt: HostRuntime) -> Result<(), Fail> {
    let counts = taken_at_puts(rt.alloc(), &Cell::new(0))?;
    assert!(rt; counts.as_slice() == TAKEN);
    Ok(())
}
