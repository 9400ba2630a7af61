//! How a run ended.

ghost use Rattle.std.specs.Prelude.{◌≡◌, nat_le};
ghost use Rattle.depot_cli.specs.Runs.{code_of};

use desc_causes::DescCause;
use std::fmt;

/// Why the input could not be read to its end.
#[derive(Clone, Copy, Debug, PartialEq, Eq)]
pub enum InputEnd {
    /// A body was cut short by the end of the input.
    Cut,
    /// A line has more than 4,096 bytes before its LF.
    LongLine,
    /// A body of more than 16,777,216 bytes was announced.
    Big,
    /// A reader took 1,099,511,627,776 bytes.
    Long,
    /// The input ended before the line `go`.
    NoGo,
}

/// How a run ended. The exit codes stand in `docs/FORMATS.md`.
#[derive(Clone, Copy, Debug, PartialEq, Eq)]
pub enum Status {
    /// The input was read to its end or to `end`, and no line was refused.
    Done,
    /// The same, and at least one line was refused.
    Refused,
    /// The words of the command line are no command.
    Usage,
    /// The description is not accepted: `line` is its first bad line, from 1, and `cause` the first
    /// cause that makes it bad.
    BadDescription { line: u64, cause: DescCause },
    /// The input could not be read on; `place` is the offset of the first byte of what could not
    /// be read.
    Input { why: InputEnd, place: u64 },
    /// The source failed.
    ReadFault,
    /// The sink failed.
    WriteFault,
    /// There was no memory.
    Memory,
}

impl Status {
    /// Whether a line on standard error says how the run ended: the code is 2 or more.
    pub fn is_told(&self) -> bool
        ensures exact { result ≡ nat_le 2 (code_of self.now) }
    {
        self.code() >= 2
    }

    /// The exit code of the program.
    pub fn code(&self) -> u8
        ensures exact { result ≡ code_of self.now }
    {
        match self {
            Status::Done => 0,
            Status::Refused => 1,
            Status::Usage => 2,
            Status::BadDescription { .. } => 3,
            Status::Input { .. } => 4,
            Status::ReadFault => 5,
            Status::WriteFault => 6,
            Status::Memory => 9,
        }
    }
}

/// The line that is printed to standard error if the code is 2 or more.
impl fmt::Display for Status {
    fn fmt<W: fmt::Write>(&self, f: &mut fmt::Formatter<W>) -> fmt::Result {
        match self {
            Status::Done => write!(f, "done"),
            Status::Refused => write!(f, "refused"),
            Status::Usage => write!(f, "usage: depot_cli FOLDER trial"),
            Status::BadDescription { line, cause } => {
                write!(f, "depot: description line {line}: {}", cause.text())
            }
            Status::Input { why, place } => write!(f, "depot: input: {why} at {place}"),
            Status::ReadFault => write!(f, "depot: reading failed"),
            Status::WriteFault => write!(f, "depot: writing failed"),
            Status::Memory => write!(f, "depot: no memory"),
        }
    }
}

impl fmt::Display for InputEnd {
    fn fmt<W: fmt::Write>(&self, f: &mut fmt::Formatter<W>) -> fmt::Result {
        f.write_str(match self {
            InputEnd::Cut => "cut",
            InputEnd::LongLine => "long_line",
            InputEnd::Big => "big",
            InputEnd::Long => "long",
            InputEnd::NoGo => "no_go",
        })
    }
}
