//! Sources and sinks over std's readers and writers. What a reader has left is what the source
//! has left, and what a writer holds is what the sink has got, if they tell it. Each error raises
//! the count of faults, and nothing is tried again.
ghost use Rattle.std.specs.Prelude.{◌≡◌, ◌≤◌, length, OnOk, None};
ghost use Rattle.std.specs.Io.{ReadsAtMost};
ghost use Rattle.std.specs.Io.KnownBytes.{Keeps, IsAtEnd, ReadConsumes};
ghost use Rattle.depot_io.specs.Causes.{HasCause};
ghost use Rattle.depot_io.specs.Adapters.{ahead_left};

use crate::source::{copy_front, count_fault};
use crate::{Failed, Sink, Source};
use std::io::{Read, Write};

/// How many bytes are read ahead.
const AHEAD: usize = 8_192;

/// A source over a reader. It reads ahead in large pieces, so a take of one byte mostly costs no
/// call of the reader.
#[derive(Drop)]
pub struct ReadAhead<R> {
    reader: R,
    ahead: [u8; 8192],
    at: usize,
    end: usize,
    faults: u64,
    ghost from: { at ≤ end },
    ghost within: { end ≤ 8192 },
    ghost filled: { end ≤ length ahead },
}

impl<R: Read> ReadAhead<R> {
    pub fn over(reader: R) -> ReadAhead<R>
        ensures left { ⟦<ReadAhead<R> as Source>⟧.bytes_left result ≡ R.remaining reader }
        ensures faults { ⟦<ReadAhead<R> as Source>⟧.faults result ≡ 0 }
    {
        ReadAhead {
            reader,
            ahead: [0; AHEAD],
            at: 0,
            end: 0,
            faults: 0,
        }
    }

    /// Reads straight into a piece, past the bytes that stand ready, of which there are none.
    fn pass(&mut self, into: &mut [u8]) -> Result<usize, Failed>
        requires none { self.old.at ≡ self.old.end }
        ensures within { ReadsAtMost result into.new }
        ensures left { ReadConsumes
            (ahead_left self.old.ahead self.old.at self.old.end (R.remaining self.old.reader))
            (ahead_left self.new.ahead self.new.at self.new.end (R.remaining self.new.reader))
            result into.new }
        ensures cause { HasCause self.old.faults self.new.faults result }
    {
        match self.reader.read(into) {
            Ok(read) => Ok(read),
            Err(_) => Err(count_fault(&mut self.faults)),
        }
    }

    /// Reads ahead if nothing stands ready. At the end of input nothing does afterwards.
    fn make_ready(&mut self) -> Result<(), Failed>
        ensures kept { Keeps
            (ahead_left self.old.ahead self.old.at self.old.end (R.remaining self.old.reader))
            (ahead_left self.new.ahead self.new.at self.new.end (R.remaining self.new.reader)) }
        ensures end { OnOk result (self.new.at ≡ self.new.end →
            IsAtEnd (R.remaining self.new.reader)) }
        ensures cause { HasCause self.old.faults self.new.faults result }
    {
        if self.at < self.end {
            return Ok(());
        }
        match self.reader.read(&mut self.ahead) {
            Ok(count) => {
                self.at = 0;
                self.end = count;
                Ok(())
            }
            Err(_) => Err(count_fault(&mut self.faults)),
        }
    }
}

impl<R: Read> Source for ReadAhead<R> {
    ghost bytes_left = { λ source.
        ahead_left source.ahead source.at source.end (R.remaining source.reader) };

    ghost faults = { λ source. source.faults };

    ghost loan = { λ _. None };

    fn take(&mut self, into: &mut [u8]) -> Result<usize, Failed> {
        if self.at == self.end && into.len() >= AHEAD {
            return self.pass(into);
        }
        self.make_ready()?;
        let count = copy_front(&self.ahead[self.at..self.end], into);
        self.at += count;
        Ok(count)
    }
}

/// A sink over a writer. Each put is one write, and nothing is held back.
#[derive(Drop)]
pub struct PutTo<W> {
    writer: W,
    faults: u64,
}

impl<W: Write> PutTo<W> {
    pub fn over(writer: W) -> PutTo<W>
        ensures got { ⟦<PutTo<W> as Sink>⟧.bytes_got result ≡ W.contents writer }
        ensures faults { ⟦<PutTo<W> as Sink>⟧.faults result ≡ 0 }
    {
        PutTo { writer, faults: 0 }
    }
}

impl<W: Write> Sink for PutTo<W> {
    ghost bytes_got = { λ sink. W.contents sink.writer };

    ghost room = { λ _. None };

    ghost faults = { λ sink. sink.faults };

    fn put(&mut self, bytes: &[u8]) -> Result<usize, Failed> {
        if bytes.is_empty() {
            return Ok(0);
        }
        match self.writer.write(bytes) {
            // A write that takes nothing would never end.
            Ok(0) => Err(count_fault(&mut self.faults)),
            Ok(written) => Ok(written),
            Err(_) => Err(count_fault(&mut self.faults)),
        }
    }
}
