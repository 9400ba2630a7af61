//! Tests of what no clause says, and of what a run with ample memory does. The wanted values are
//! worked out by hand from the rules. A session that is served to its end is the stored run.
//!
//! The prover goes through each test too, which costs with the square of its length. So tables are
//! statics, and what is done for each row of one stands in a function of its own, which tells what
//! it saw if that is not what it was to see.

mod ends;
mod items;
mod marks;
mod runs;
mod slow;
mod texts;
mod views;

use crate::run::run;
use crate::run::status::Status;
use depot_io::{Sink, Source, VecSink, VecSource};
use std::alloc::Global;
use std::test::Fail;

/// Runs a command, and says how it ended.
fn run_words<S: Source, O: Sink>(
    alloc: Global,
    texts: &[&str],
    source: &mut S,
    sink: &mut O,
) -> Result<Status, Fail> {
    let mut words = Vec::new(alloc);
    for text in texts {
        words.push(String::from_str(alloc, text)?)?;
    }
    Ok(run(alloc, &words, source, sink))
}

/// The command that serves a session.
const TRIAL: &[&str] = &["trial"];

/// Runs a command over a script, of which the take with this number fails, the first one being 1.
fn run_script(
    alloc: Global,
    words: &[&str],
    script: &[u8],
    fails: u64,
    sink: &mut VecSink,
) -> Result<Status, Fail> {
    let fails = vec![in alloc; fails; 1]?;
    let mut source = VecSource::new(script.to_vec(alloc)?, fails);
    run_words(alloc, words, &mut source, sink)
}

/// In place of the number of the take that fails: none does.
const NONE: u64 = 0;

/// Expects that such a run ends so and has put just this. The sink has no room for more.
fn expect_run(
    alloc: Global,
    words: &[&str],
    script: &[u8],
    fails: u64,
    status: Status,
    output: &[u8],
) -> Result<(), Fail> {
    let mut sink = VecSink::new(alloc, output.len(), Vec::new(alloc))?;
    let ended = run_script(alloc, words, script, fails, &mut sink)?;
    expect_bytes(sink.bytes(), output)?;
    expect_end(ended, status)
}

fn expect_end(ended: Status, wanted: Status) -> Result<(), Fail> {
    if ended == wanted {
        Ok(())
    } else {
        Err(Fail::new(format_args!("{ended:?}, and not {wanted:?}")))
    }
}

fn expect_bytes(bytes: &[u8], wanted: &[u8]) -> Result<(), Fail> {
    if bytes == wanted {
        Ok(())
    } else {
        let (bytes, wanted) = (str::from_utf8(bytes), str::from_utf8(wanted));
        Err(Fail::new(format_args!("{bytes:?}, and not {wanted:?}")))
    }
}
