//! Tests of texts: of statuses, and those that the first word asks for.

use crate::run::help::{print, text_asked};
use crate::run::status::{InputEnd, Status};
use depot_io::VecSink;
use desc_causes::DescCause;
use std::alloc::Global;
use std::test::Fail;

/// Statuses, their codes and their lines.
static STATUSES: [(Status, u8, &str); 7] = [
    (Status::Done, 0, "done"),
    (Status::Refused, 1, "refused"),
    (Status::Usage, 2, "usage: depot_cli FOLDER trial"),
    (BAD, 3, "depot: description line 3: bad_width"),
    (Status::ReadFault, 5, "depot: reading failed"),
    (Status::WriteFault, 6, "depot: writing failed"),
    (Status::Memory, 9, "depot: no memory"),
];

const BAD: Status = Status::BadDescription {
    line: 3,
    cause: DescCause::BadWidth,
};

/// The ends of an input, and their lines if they come at 138.
static ENDS: [(InputEnd, &str); 5] = [
    (InputEnd::Cut, "depot: input: cut at 138"),
    (InputEnd::LongLine, "depot: input: long_line at 138"),
    (InputEnd::Big, "depot: input: big at 138"),
    (InputEnd::Long, "depot: input: long at 138"),
    (InputEnd::NoGo, "depot: input: no_go at 138"),
];

/// Expects that a status has this code and this line.
fn expect_status(alloc: Global, status: Status, code: u8, line: &str) -> Result<(), Fail> {
    let text = format!(in alloc; "{status}")?;
    if text.as_str() == line && status.code() == code && status.is_told() == (code >= 2) {
        Ok(())
    } else {
        Err(Fail::new(line))
    }
}

#[test]
fn each_status_has_its_code_and_line(rt: HostRuntime) -> Result<(), Fail> {
    for &(status, code, line) in &STATUSES {
        expect_status(rt.alloc(), status, code, line)?;
    }
    Ok(())
}

#[test]
fn each_end_of_an_input_has_its_line(rt: HostRuntime) -> Result<(), Fail> {
    for &(why, line) in &ENDS {
        expect_status(rt.alloc(), Status::Input { why, place: 138 }, 4, line)?;
    }
    Ok(())
}

/// Words that ask for a text, and how it begins.
static ASKED: [(&str, &str); 3] = [
    ("--help", "depot_cli: a stream warehouse"),
    ("-h", "depot_cli: a stream warehouse"),
    ("--version", "depot_cli 0."),
];

static NOT_ASKED: [&str; 5] = [".", "trial", "help", "--helpful", ""];

/// Expects that a word asks for a text that begins so, and has lines of at most 80 bytes.
fn expect_asked(alloc: Global, word: &str, begin: &str) -> Result<(), Fail> {
    let text = text_asked(word).unwrap_or(&[]);
    let mut sink = VecSink::new(alloc, text.len(), Vec::new(alloc))?;
    let status = print(&mut sink, text);
    if status == Status::Done && is_help(sink.bytes(), begin) {
        Ok(())
    } else {
        Err(Fail::new(begin))
    }
}

fn is_help(text: &[u8], begin: &str) -> bool {
    let mut lines = text.split(|byte| *byte == b'\n');
    text.starts_with(begin.as_bytes()) && lines.all(|line| line.len() <= 80)
}

#[test]
fn the_first_word_may_ask_for_a_text(rt: HostRuntime) -> Result<(), Fail> {
    for &(word, begin) in &ASKED {
        expect_asked(rt.alloc(), word, begin)?;
    }
    Ok(())
}

#[test]
fn other_first_words_ask_for_no_text(rt: HostRuntime) {
    for word in &NOT_ASKED {
        assert!(rt; text_asked(word).is_none());
    }
}
