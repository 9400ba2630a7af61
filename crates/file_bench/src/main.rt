//! A program for the bench: it writes rows as bytes and reads them back, or opens a catalogue.
//!
//! It prints nothing. What it costs is counted from outside, at two numbers of rounds.
#![tactic(auto)]

mod catalog;
mod fault;
mod rows;
mod task;

use crate::catalog::open_catalog;
use crate::fault::Fault;
use crate::rows::{code_and_drop_rows, code_rows};
use crate::task::{Task, read_task};
use std::env;
use std::io::ErrorKind;
use std::process::ExitCode;

/// Runs what the words ask for.
fn main(rt: HostRuntime) -> ExitCode {
    match run_words(&rt) {
        Ok(()) => ExitCode::from(0),
        Err(fault) => ExitCode::from(fault.code()),
    }
}

/// Runs what the words after the program's name ask for.
fn run_words(rt: &HostRuntime) -> Result<(), Fault> {
    let words = words_of(rt)?;
    match read_task(&words) {
        Some(Task::Rows { rounds }) => code_rows(rt.alloc(), rounds),
        Some(Task::DroppedRows { rounds }) => code_and_drop_rows(rt.alloc(), rounds),
        Some(Task::Open { records, openings }) => open_catalog(rt.alloc(), records, openings),
        None => Err(Fault::Words),
    }
}

/// The words after the program's name.
fn words_of(rt: &HostRuntime) -> Result<Vec<String>, Fault> {
    match env::args(rt) {
        Ok(args) => match args.skip(1).collect(rt.alloc()) {
            Ok(words) => Ok(words),
            Err(_) => Err(Fault::Memory),
        },
        Err(error) => match error.kind() {
            ErrorKind::OutOfMemory => Err(Fault::Memory),
            _ => Err(Fault::Words),
        },
    }
}
