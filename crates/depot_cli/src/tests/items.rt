//! Tests of items: queries of several items, and each kind of refusal.

ghost use Rattle.std.specs.Prelude.{None};

use super::{NONE, TRIAL, expect_bytes, expect_end, expect_run, run_words};
use crate::run::status::Status;
use depot_io::{Failed, NeverSource, Source, VecSink};
use std::alloc::Global;
use std::test::Fail;

/// A session that asks for several items at once: for a raw table, a view and a partition once
/// more, and for no tick and then for some.
const SCRIPT: &[u8] = b"feed f\nraw r feed f width 10 time at cols at:int k:text\n\
view v width 10 filter r 0 0 where at >= 0 keep k\ngo\n\
deliver f 0 0 20\nr,3,a\nr,12,b\nr,13,c\ndrain\n\
query r 5 15 ; v 0 20 ; r 12 13\nquery r 5 5 ; v 9 10\n";

const REPLIES: &[u8] = b"loaded f 0 entry 1 kept 3 aside 0\ndrained at 3\n\
answer at 3 parts 5\n\
part r 0 version 1 upto 3 mark open rows 1\n3,a\n\
part r 1 version 1 upto 3 mark open rows 2\n12,b\n13,c\n\
part v 0 version 1 upto 1 mark open rows 1\na\n\
part v 1 version 1 upto 2 mark open rows 2\nb\nc\n\
part r 1 version 1 upto 3 mark open rows 2\n12,b\n13,c\n\
answer at 3 parts 1\n\
part v 0 version 1 upto 1 mark open rows 1\na\n";

#[test]
fn a_partition_is_shown_for_each_item(rt: HostRuntime) -> Result<(), Fail> {
    expect_run(rt.alloc(), TRIAL, SCRIPT, NONE, Status::Done, REPLIES)
}

/// A source that gives one byte a take.
#[derive(Drop)]
struct Slow {
    source: NeverSource,
}

impl Source for Slow {
    ghost bytes_left = { λ _. None };

    ghost faults = { λ _. 0 };

    ghost loan = { λ _. None };

    fn take(&mut self, into: &mut [u8]) -> Result<usize, Failed> {
        match into {
            [first, ..] => self.source.take(std::slice::from_mut(first)),
            [] => Ok(0),
        }
    }
}

/// Expects that a script is replied to so if its source gives one byte a take.
pub fn expect_slowly(
    alloc: Global,
    script: &[u8],
    status: Status,
    output: &[u8],
) -> Result<(), Fail> {
    let mut source = Slow {
        source: NeverSource::new(script.to_vec(alloc)?),
    };
    let mut sink = VecSink::new(alloc, output.len(), Vec::new(alloc))?;
    let ended = run_words(alloc, TRIAL, &mut source, &mut sink)?;
    expect_bytes(sink.bytes(), output)?;
    expect_end(ended, status)
}

/// Two feeds, the second with a header, a raw table of each, and a view.
const DESCRIPTION: &[u8] = b"feed f\nfeed g header\n\
raw r feed f width 10 time at cols at:int k:text\n\
raw s feed g width 1 time at cols at:int\n\
view v width 10 filter r 0 0 where at >= 0 keep k\ngo\n";

/// First lines of a session, with their bodies, and why they are refused.
static REFUSED: [(&[u8], &str); 22] = [
    // what the line says
    (b"Drain\n", "bad_word"),
    (b"query r 0 10 open\n", "bad_word"),
    (b"query r 0\n", "bad_count"),
    (b"query r 0 10 ;\n", "bad_count"),
    (b"query r 0 x\n", "bad_number"),
    (b"deliver f 4294967296 0 6\nr,1,a\n", "bad_number"),
    (b"deliver h 0 0 6\nr,1,a\n", "no_feed"),
    (b"query r 0 10 ; t 0 10\n", "no_table"),
    // a record of the body
    (b"deliver f 0 0 12\nr,1,a\nv,1,a\n", "record 2 no_table"),
    (b"deliver f 0 0 4\ns,1\n", "record 1 no_table"),
    (b"deliver f 0 0 4\nr,1\n", "record 1 bad_count"),
    (b"deliver f 0 0 6\nr,1,\xff\n", "record 1 not_utf8"),
    (b"deliver f 0 0 6\nr,x,a\n", "record 1 bad_int"),
    (b"deliver f 0 0 7\nr,-1,a\n", "record 1 bad_time"),
    (b"deliver g 0 0 11\nat\ns,1\ns,x\n", "record 2 bad_int"),
    // what is asked for
    (b"query r 0 10 ; r 10 0\n", "bad_range"),
    (b"query s 0 65537\n", "too_wide"),
    (b"query s 0 32769 ; s 0 32769\n", "too_wide"),
    (b"marks r 10 0\n", "bad_range"),
    (b"marks s 0 65537\n", "too_wide"),
    // the line goes first, and then the body or the request
    (b"deliver h 0 1 6\nr,x,a\n", "no_feed"),
    (b"query s 0 65537 ; r 10 0\n", "bad_range"),
];

/// A session goes on after a refusal, and nothing was loaded.
const REST: &[u8] = b"drain\n";

/// The description, a line of a session with its body, and the rest.
fn script_of(alloc: Global, line: &[u8]) -> Result<Vec<u8>, Fail> {
    let mut script = DESCRIPTION.to_vec(alloc)?;
    script.extend_from_slice(line)?;
    script.extend_from_slice(REST)?;
    Ok(script)
}

#[test]
fn a_refusal_tells_its_cause(rt: HostRuntime) -> Result<(), Fail> {
    let alloc = rt.alloc();
    for &(line, cause) in &REFUSED {
        let script = script_of(alloc, line)?;
        let output = format!(in alloc; "refused 1 {cause}\ndrained at 0\n")?;
        let output = output.as_bytes();
        expect_run(alloc, TRIAL, &script, NONE, Status::Refused, output)?;
    }
    Ok(())
}

/// A number that was accepted is sent once more with a body that is bad.
const REPEATED: &[u8] = b"deliver f 0 0 6\nr,1,a\ndeliver f 0 0 6\nr,x,a\ndeliver f 0 0 0\n";

#[test]
fn a_body_is_looked_at_before_its_number(rt: HostRuntime) -> Result<(), Fail> {
    let script = script_of(rt.alloc(), REPEATED)?;
    let output = b"loaded f 0 entry 1 kept 1 aside 0\nrefused 2 record 1 bad_int\n\
repeat f 0\ndrained at 2\n";
    expect_run(rt.alloc(), TRIAL, &script, NONE, Status::Refused, output)
}
