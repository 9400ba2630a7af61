//! The program: it reads a description and session lines, and writes the replies.
//!
//! All that it does is [`run`], over a source and a sink that are handed in. The texts are told in
//! `docs/FORMATS.md`, the rules in `docs/RULES.md`.
#![tactic(auto)]

mod reply;
mod run;
mod script;
#[cfg(test)]
mod tests;

use crate::run::help::{print, text_asked};
pub use crate::run::laws::{readings_are_accepted, runs_are_complete, serial_is_legal};
pub use crate::run::run;
pub use crate::run::status::{InputEnd, Status};
use depot_io::{StdSink, StdSource};
use std::env;
use std::io::ErrorKind;
use std::process::ExitCode;

/// Prints the text that the first word asks for, or runs the words after the folder, which is not
/// looked at yet.
fn main(rt: HostRuntime) -> ExitCode {
    let status = match words_of(&rt) {
        Ok(words) => answer(&rt, &words),
        Err(status) => status,
    };
    if status.is_told() {
        let _ = eprintln!(rt; "{status}");
    }
    ExitCode::from(status.code())
}

/// The words after the program's name. Words that are no text are no command.
fn words_of(rt: &HostRuntime) -> Result<Vec<String>, Status> {
    match env::args(rt) {
        Ok(args) => match args.skip(1).collect(rt.alloc()) {
            Ok(words) => Ok(words),
            Err(_) => Err(Status::Memory),
        },
        Err(error) => match error.kind() {
            ErrorKind::OutOfMemory => Err(Status::Memory),
            _ => Err(Status::Usage),
        },
    }
}

/// Answers words over standard input and output.
fn answer(rt: &HostRuntime, words: &[String]) -> Status {
    match words {
        [first, others @ ..] => match text_asked(first) {
            Some(text) => print(&mut StdSink::new(rt), text),
            None => run(
                rt.alloc(),
                others,
                &mut StdSource::new(rt),
                &mut StdSink::new(rt),
            ),
        },
        [] => Status::Usage,
    }
}
