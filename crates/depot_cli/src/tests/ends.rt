//! Tests of runs that end early: what they answer, and what they have put into the sink by then.

use super::{NONE, TRIAL, expect_run};
use crate::run::status::{InputEnd, Status};
use std::alloc::Global;
use std::test::Fail;

/// A script of 176 bytes: its `go` begins at 118, its session at 121, its body at 138, `drain` at
/// 155 and the query at 161.
const SCRIPT: &[u8] = b"feed f\nraw r feed f width 10 time at cols at:int k:text n:int\n\
view big width 10 filter r 0 0 where n >= 5 keep at k n\ngo\n\
deliver f 0 0 17\nr,3,a,5\nr,12,b,2\ndrain\nquery big 0 20\n";

const LOADED: &[u8] = b"loaded f 0 entry 1 kept 2 aside 0\n";

const LOADED_BAD_WORD: &[u8] = b"loaded f 0 entry 1 kept 2 aside 0\nrefused 2 bad_word\n";

const DRAINED: &[u8] = b"loaded f 0 entry 1 kept 2 aside 0\ndrained at 3\n";

const DRAINED_BAD_WORD: &[u8] =
    b"loaded f 0 entry 1 kept 2 aside 0\ndrained at 3\nrefused 3 bad_word\n";

const DRAINED_BAD_COUNT: &[u8] =
    b"loaded f 0 entry 1 kept 2 aside 0\ndrained at 3\nrefused 3 bad_count\n";

const FIRST: &[u8] = b"loaded f 0 entry 1 kept 2 aside 0\ndrained at 3\n\
answer at 3 parts 1\npart big 0 version 1 upto 1 mark open rows 1\n3,a,5\n";

const ALL: &[u8] = b"loaded f 0 entry 1 kept 2 aside 0\ndrained at 3\n\
answer at 3 parts 2\npart big 0 version 1 upto 1 mark open rows 1\n3,a,5\n\
part big 1 version 1 upto 2 mark open rows 0\n";

fn input(why: InputEnd, place: usize) -> Status {
    Status::Input {
        why,
        place: place as u64,
    }
}

/// How the script ends that is cut after so many bytes, and what it is replied.
fn cut_at(len: usize) -> (Status, &'static [u8]) {
    match len {
        // The `go` line is whole without its LF.
        0..=119 => (input(InputEnd::NoGo, len), b""),
        120..=121 => (Status::Done, b""),
        // A front of the `deliver` line has no command, fewer than five words, or a size and no LF.
        122..=127 => (Status::Refused, b"refused 1 bad_word\n"),
        128..=135 => (Status::Refused, b"refused 1 bad_count\n"),
        136..=137 => (input(InputEnd::Cut, len), b""),
        138..=154 => (input(InputEnd::Cut, 138), b""),
        155 => (Status::Done, LOADED),
        156..=159 => (Status::Refused, LOADED_BAD_WORD),
        160..=161 => (Status::Done, DRAINED),
        // A front of the query's line has no command, too few words, and then asks for the ticks 0
        // and 1.
        162..=165 => (Status::Refused, DRAINED_BAD_WORD),
        166..=173 => (Status::Refused, DRAINED_BAD_COUNT),
        174 => (Status::Done, FIRST),
        _ => (Status::Done, ALL),
    }
}

#[test]
fn an_input_may_end_early(rt: HostRuntime) -> Result<(), Fail> {
    for len in 0..SCRIPT.len() + 1 {
        let (status, output) = cut_at(len);
        expect_run(rt.alloc(), TRIAL, &SCRIPT[..len], NONE, status, output)?;
    }
    Ok(())
}

/// Lines that stand in place of the query: so many `x`, what follows them, and how the run ends.
static LAST_LINES: [(usize, &[u8], Status, &[u8]); 4] = [
    (4_096, b"\nend\nx", Status::Refused, DRAINED_BAD_WORD),
    (4_097, b"\nend\n", LONG_LINE, DRAINED),
    (0, b"deliver x y z 16777216\n", CUT, DRAINED),
    (0, b"deliver x y z 16777217\n", BIG, DRAINED),
];

const LONG_LINE: Status = Status::Input {
    why: InputEnd::LongLine,
    place: 161,
};

const CUT: Status = Status::Input {
    why: InputEnd::Cut,
    place: 184,
};

const BIG: Status = Status::Input {
    why: InputEnd::Big,
    place: 184,
};

/// The script, with so many `x` and then a tail in place of the query.
fn script_with(alloc: Global, count: usize, tail: &[u8]) -> Result<Vec<u8>, Fail> {
    let mut script = SCRIPT[..161].to_vec(alloc)?;
    script.extend_from_slice(&vec![in alloc; b'x'; count]?)?;
    script.extend_from_slice(tail)?;
    Ok(script)
}

#[test]
fn a_line_or_a_body_may_be_too_long(rt: HostRuntime) -> Result<(), Fail> {
    for &(count, tail, status, output) in &LAST_LINES {
        let script = script_with(rt.alloc(), count, tail)?;
        expect_run(rt.alloc(), TRIAL, &script, NONE, status, output)?;
    }
    Ok(())
}

/// How a run ends of which this take fails, and what is due by then. A take is a byte of a line, or
/// a body: 138 bytes of lines, a body, 21 bytes of lines, and the end of the input.
fn due_at(take: u64) -> (Status, &'static [u8]) {
    match take {
        0..=139 => (Status::ReadFault, b""),
        140..=145 => (Status::ReadFault, LOADED),
        146..=160 => (Status::ReadFault, DRAINED),
        161 => (Status::ReadFault, ALL),
        _ => (Status::Done, ALL),
    }
}

#[test]
fn each_take_may_fail(rt: HostRuntime) -> Result<(), Fail> {
    for take in 1..163 {
        let (status, output) = due_at(take);
        expect_run(rt.alloc(), TRIAL, SCRIPT, take, status, output)?;
    }
    Ok(())
}

/// What is put before each put.
static BEFORE_PUTS: [&[u8]; 3] = [b"", LOADED, DRAINED];

#[test]
fn each_put_may_fail(rt: HostRuntime) -> Result<(), Fail> {
    for output in &BEFORE_PUTS {
        expect_run(rt.alloc(), TRIAL, SCRIPT, NONE, Status::WriteFault, output)?;
    }
    Ok(())
}
