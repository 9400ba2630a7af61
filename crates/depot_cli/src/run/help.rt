//! The texts that the program prints in place of a run.

ghost use Rattle.std.specs.Prelude.{◌≡◌, option_map};
ghost use Rattle.depot_cli.specs.Runs.{IsPrinted, IsWriteCause, text_asked};

use crate::run::status::Status;
use depot_io::{Sink, put_all};
use desc_lines::is_word;

const HELP: &[u8] = b"\
depot_cli: a stream warehouse with cascading views

usage: depot_cli FOLDER trial
       depot_cli --help | -h | --version

FOLDER is the place of a depot. `trial` does not look at it.

Commands:
  trial    read a description from standard input, up to the line `go`: a feed,
           its raw tables, and views over them; then read session lines, keep
           what they bring in memory, and reply on standard output

Session lines: deliver F NUMBER CLOSES BYTES, drain, query T FROM TO [LEVEL],
marks T FROM TO, aside F, reclaim, end.
docs/FORMATS.md tells the description, the session lines and the replies,
docs/RULES.md the rules behind them; examples/ has a script to begin with.

Exit codes:
  0  the input was read to its end
  1  the same, and at least one line was refused
  2  the words are no command
  3  a line of the description is not accepted
  4  the input is cut, has too long a line or too big a body, or has no `go`
  5  reading failed
  6  writing failed
  9  there was no memory
";

const VERSION: &[u8] = b"depot_cli 0.1.0\n";

/// The text that a word asks for in place of the folder: `--help`, `-h` or `--version`.
pub fn text_asked(word: &str) -> Option<&'static [u8]>
    ensures exact { option_map (λ text. text.now) result
        ≡ text_asked HELP.now VERSION.now word.now }
{
    if is_word(word.as_bytes(), b"--help") || is_word(word.as_bytes(), b"-h") {
        Some(HELP)
    } else if is_word(word.as_bytes(), b"--version") {
        Some(VERSION)
    } else {
        None
    }
}

/// Prints a text. If the sink fails it has got a front of it.
pub fn print<O: Sink>(sink: &mut O, text: &[u8]) -> Status
    ensures gained { IsPrinted (O.bytes_got sink.old) (O.bytes_got sink.new) text.now result }
    ensures cause { IsWriteCause (O.faults sink.old) (O.faults sink.new) result }
{
    match put_all(sink, text) {
        Ok(()) => Status::Done,
        Err(_) => Status::WriteFault,
    }
}
