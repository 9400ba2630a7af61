//! Lines and bodies, taken off a source one after the other.
//!
//! Lengths and counts are in bytes. A line ends with an LF, and one CR before it is dropped too;
//! the last one may end with the input instead, and is then taken as it stands. A body is as many
//! bytes as its reader asks for. A reader takes at most 1,099,511,627,776 bytes in all.
ghost use Rattle.std.specs.Prelude.{◌≡◌, ◌+◌, ◌^◌, ◌≤◌, ◌<◌, [], length, Ok, Err};
ghost use Rattle.std.specs.Prelude.{IfOk, OnErr, IfErr, IfSome, IfNone};
ghost use Rattle.std.specs.Prelude.{vec_capacity, option_to_list};
ghost use Rattle.std.specs.Io.BufRead.{strip_last};
ghost use Rattle.std.specs.Io.KnownBytes.{Consumes, Keeps, IsAtEnd};
ghost use Rattle.depot_io.specs.Causes.{HasCause};
ghost use Rattle.depot_io.specs.Lines.{IsLineOutcome, ReadsLine, IsBodyOutcome, ReadsBody};
ghost use Rattle.depot_io.specs.Lines.{HasReadCause, WalksLine, FillsPiece};
ghost use Rattle.depot_io.specs.Reading.{ReadsOn};

use crate::{Failed, Memory, Source};
use std::alloc::Global;
use std::marker::Model;

/// How many bytes a reader takes at most.
const MOST_TAKEN: u64 = 1_099_511_627_776;

/// The longest line and the byte after it.
const MOST_OF_LINE: usize = 4_097;

/// What stands next in the input.
#[derive(Clone, Copy, Debug, PartialEq, Eq)]
pub enum Line {
    /// A line, and how many bytes of it [`LineReader::line`] shows.
    Text { len: usize },
    /// There is nothing left.
    End,
}

/// Why a line or a body was not answered.
#[derive(Clone, Copy, Debug, PartialEq, Eq)]
pub enum LineFault {
    /// The source failed.
    ReadFault,
    /// More than 4,096 bytes stand before the LF or the end, a CR among them.
    LongLine,
    /// The reader has taken 1,099,511,627,776 bytes. This goes before every other answer.
    Long,
    /// The input ends inside the body.
    Cut,
    /// There was no memory for the body, and none of it was taken.
    Memory,
}

/// Why the bytes of a line end where they end.
#[derive(Clone, Copy)]
enum Stop {
    Newline,
    Dry,
    Full,
}

/// Takes lines and bodies off a source, and no byte past the one that it answers.
#[derive(Drop)]
pub struct LineReader<S> {
    source: S,
    line: Vec<u8>,
    taken: u64,
}

impl<S> Model for LineReader<S> {
    ghost use Rattle.std.specs.Prelude.{◌≤◌, vec_capacity};
    ghost use Rattle.depot_io.specs.Reading.{Reading};

    ghost Value = { Reading S };

    ghost view = { λ reader. record {
      source = reader.source;
      line = reader.line.items;
      taken = reader.taken;
    } };

    ghost invariant = { λ reader.
        (4097 ≤ vec_capacity reader.line) × (reader.taken ≤ 1099511627776) };
}

/// Takes one byte, or none at the end of input.
fn next_byte<S: Source>(source: &mut S) -> Result<Option<u8>, Failed>
    ensures left { IfOk result (λ byte.
        Consumes (S.bytes_left source.old) (S.bytes_left source.new) (option_to_list byte)) }
    ensures kept { OnErr result (Keeps (S.bytes_left source.old) (S.bytes_left source.new)) }
    ensures end { IfOk result (λ byte. IfNone byte (IsAtEnd (S.bytes_left source.new))) }
    ensures cause { HasCause (S.faults source.old) (S.faults source.new) result }
    ensures loan { S.loan source.new ≡ S.loan source.old }
{
    let mut piece = [0];
    if source.take(&mut piece)? == 0 {
        return Ok(None);
    }
    Ok(Some(piece[0]))
}

/// Takes bytes up to an LF, the end or the given number of them. The LF is counted and not kept.
fn take_line<S: Source>(
    source: &mut S,
    line: &mut Vec<u8>,
    taken: &mut u64,
    most: usize,
) -> Result<Stop, Failed>
    requires room { most ≤ vec_capacity line.old }
    requires fits { taken.old + most < 2 ^ 64 }
    ensures walk { WalksLine (S.bytes_left source.old) (S.bytes_left source.new)
        taken.old taken.new most line.new.items result }
    ensures capacity { vec_capacity line.new ≡ vec_capacity line.old }
    ensures cause { HasCause (S.faults source.old) (S.faults source.new) result }
    ensures loan { S.loan source.new ≡ S.loan source.old }
{
    line.clear();
    for _ in 0..most {
        let Some(byte) = next_byte(source)? else {
            return Ok(Stop::Dry);
        };
        *taken += 1;
        if byte == b'\n' {
            return Ok(Stop::Newline);
        }
        line.push_reserved(byte);
    }
    Ok(Stop::Full)
}

/// Drops one CR from the end.
fn strip_cr(line: &mut Vec<u8>)
    ensures stripped { line.new.items ≡ strip_last 13 line.old.items }
    ensures capacity { vec_capacity line.new ≡ vec_capacity line.old }
{
    if line.last() == Some(&b'\r') {
        let _ = line.pop();
    }
}

/// Takes bytes until the piece is full or the input ends, and answers how many.
fn fill_piece<S: Source>(
    source: &mut S,
    piece: &mut [u8],
    taken: &mut u64,
) -> (usize, Result<(), Failed>)
    requires fits { taken.old + length piece.old < 2 ^ 64 }
    ensures fill { FillsPiece (S.bytes_left source.old) (S.bytes_left source.new)
        taken.old taken.new piece.new result.0 result.1 }
    ensures cause { HasCause (S.faults source.old) (S.faults source.new) result.1 }
    ensures loan { S.loan source.new ≡ S.loan source.old }
{
    let mut filled = 0;
    while filled < piece.len() {
        match source.take(&mut piece[filled..]) {
            Ok(0) => return (filled, Ok(())),
            Ok(count) => {
                filled += count;
                *taken += count as u64;
            }
            Err(Failed) => return (filled, Err(Failed)),
        }
    }
    (filled, Ok(()))
}

impl<S: Source> LineReader<S> {
    /// Takes its buffer of 4,097 bytes at once; only bodies take memory later. A refusal gives the
    /// source back.
    pub fn new(alloc: Global, source: S) -> Result<LineReader<S>, (S, Memory)>
        ensures ok { IfOk result (λ reader.
            reader ≡ record { source = source; line = []; taken = 0 }) }
        ensures err { IfErr result (λ refusal. refusal.0 ≡ source) }
    {
        let Ok(line) = Vec::with_capacity(alloc, MOST_OF_LINE) else {
            return Err((source, Memory));
        };
        Ok(LineReader {
            source,
            line,
            taken: 0,
        })
    }

    /// Takes the next line, without its LF and one CR before it. It is shown by
    /// [`LineReader::line`] until the next call. No memory is taken.
    pub fn next_line(&mut self) -> Result<Line, LineFault>
        ensures exact { IfSome (S.bytes_left self.old.source) (λ bytes.
            ReadsLine bytes self.old.taken self.new.taken self.new.line result) }
        ensures answer { IsLineOutcome (S.bytes_left self.new.source)
            self.old.taken self.new.taken self.new.line result }
        ensures kept { ReadsOn S.bytes_left S.loan self.old self.new }
        ensures cause { HasReadCause (S.faults self.old.source) (S.faults self.new.source) result }
    {
        let most = (MOST_TAKEN - self.taken).min(MOST_OF_LINE as u64) as usize;
        let stop = take_line(&mut self.source, &mut self.line, &mut self.taken, most);
        let Ok(stop) = stop else {
            return Err(LineFault::ReadFault);
        };
        if self.taken == MOST_TAKEN {
            return Err(LineFault::Long);
        }
        match stop {
            Stop::Newline => strip_cr(&mut self.line),
            Stop::Dry => {
                if self.line.is_empty() {
                    return Ok(Line::End);
                }
            }
            Stop::Full => return Err(LineFault::LongLine),
        }
        Ok(Line::Text {
            len: self.line.len(),
        })
    }

    /// Replaces `into` by the next `n` bytes. After a fault it holds those of them that were taken;
    /// want of memory leaves it as it was.
    pub fn take_exact(&mut self, n: u64, into: &mut Vec<u8>) -> Result<(), LineFault>
        ensures exact { IfSome (S.bytes_left self.old.source) (λ bytes.
            ReadsBody bytes self.old.taken self.new.taken n into.new.items result) }
        ensures answer { IsBodyOutcome (S.bytes_left self.new.source)
            self.old.taken self.new.taken n into.new.items result }
        ensures err { result ≡ Err LineFault.Memory →
            (self.new ≡ self.old) × (into.new.items ≡ into.old.items) }
        ensures line { self.new.line ≡ self.old.line }
        ensures kept { ReadsOn S.bytes_left S.loan self.old self.new }
        ensures cause { HasReadCause (S.faults self.old.source) (S.faults self.new.source) result }
    {
        let most = n.min(MOST_TAKEN - self.taken) as usize;
        if into.resize(most, 0).is_err() {
            return Err(LineFault::Memory);
        }
        let (filled, outcome) = fill_piece(&mut self.source, into.as_mut_slice(), &mut self.taken);
        into.truncate(filled);
        if outcome.is_err() {
            return Err(LineFault::ReadFault);
        }
        if self.taken == MOST_TAKEN {
            return Err(LineFault::Long);
        }
        if (filled as u64) < n {
            return Err(LineFault::Cut);
        }
        Ok(())
    }

    /// The last line taken, without its LF and one CR before it.
    pub fn line(&self) -> &[u8]
        ensures exact { result.now ≡ self.now.line }
    {
        &self.line
    }

    /// How many bytes were taken off the source, of lines and bodies together.
    pub fn taken(&self) -> u64
        ensures exact { result ≡ self.now.taken }
    {
        self.taken
    }

    /// Gives the source back, as it stands after the last byte taken.
    pub fn into_source(self) -> S
        ensures exact { result ≡ self.source }
    {
        let LineReader {
            source,
            line: _,
            taken: _,
        } = self;
        source
    }
}
