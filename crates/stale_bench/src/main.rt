//! A program for the bench: it takes a book of stale partitions through rounds of a load and the
//! installs above it.
//!
//! It prints nothing. What it costs is counted from outside, at two lengths of the history.
#![tactic(auto)]

mod course;
mod fault;
mod parts;
mod rounds;

use crate::course::read_course;
use crate::fault::Fault;
use crate::rounds::run;
use std::env;
use std::io::ErrorKind;
use std::process::ExitCode;

/// Runs what the words ask for.
fn main(rt: HostRuntime) -> ExitCode {
    match run_words(&rt) {
        Ok(()) => ExitCode::from(0),
        Err(fault) => ExitCode::from(fault.code()),
    }
}

/// Runs what the words after the program's name ask for.
fn run_words(rt: &HostRuntime) -> Result<(), Fault> {
    let words = words_of(rt)?;
    match read_course(&words) {
        Some(course) => run(rt.alloc(), course),
        None => Err(Fault::Words),
    }
}

/// The words after the program's name.
fn words_of(rt: &HostRuntime) -> Result<Vec<String>, Fault> {
    match env::args(rt) {
        Ok(args) => match args.skip(1).collect(rt.alloc()) {
            Ok(words) => Ok(words),
            Err(_) => Err(Fault::Memory),
        },
        Err(error) => match error.kind() {
            ErrorKind::OutOfMemory => Err(Fault::Memory),
            _ => Err(Fault::Words),
        },
    }
}
