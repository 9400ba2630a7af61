//! Sources and a sink in memory, whose bytes are told.
ghost use Rattle.std.specs.Prelude.{◌≡◌, ◌<◌, [], length, Some, None, IfOk, min};
ghost use Rattle.std.specs.Io.{ReadsAtMost, WritesAtMost};
ghost use Rattle.std.specs.Io.KnownBytes.{ReadConsumes, WriteAppends};
ghost use Rattle.depot_io.specs.Causes.{HasCause};
ghost use Rattle.depot_io.specs.Puts.{TakesWithin};
ghost use Rattle.depot_io.specs.InMemory.{PutsListed, TakesListed, told_room};

use crate::source::{copy_front, count_fault};
use crate::{Failed, Sink, Source};
use std::alloc::{AllocError, Global};
use std::marker::Model;

/// There was no memory for the call.
#[derive(Clone, Copy, Debug, PartialEq, Eq)]
pub struct Memory;

impl From<AllocError> for Memory {
    fn from(_error: AllocError) -> Memory {
        Memory
    }
}

/// A source in memory that never fails.
#[derive(Drop)]
pub struct NeverSource {
    bytes: Vec<u8>,
    at: usize,
}

impl Model for NeverSource {
    ghost use Rattle.std.specs.Prelude.{◌≤◌, List, ℕ, drop, vec_len};

    ghost Value = { List ℕ };

    ghost view = { λ source. drop source.at source.bytes.items };

    ghost invariant = { λ source. source.at ≤ vec_len source.bytes };
}

impl NeverSource {
    pub fn new(bytes: Vec<u8>) -> NeverSource
        ensures exact { result ≡ bytes.items }
    {
        NeverSource { bytes, at: 0 }
    }
}

impl Source for NeverSource {
    ghost bytes_left = { λ source. Some source };

    ghost faults = { λ _. 0 };

    ghost loan = { λ _. None };

    fn take(&mut self, into: &mut [u8]) -> Result<usize, Failed>
        ensures within { ReadsAtMost result into.new }
        ensures left { ReadConsumes (Some self.old) (Some self.new) result into.new }
        ensures cause { HasCause 0 0 result }
        ensures exact { result ≡ Ok (min (length into.old) (length self.old)) }
    {
        let count = copy_front(&self.bytes[self.at..], into);
        self.at += count;
        Ok(count)
    }
}

/// A source in memory, of which the listed calls fail.
#[derive(Drop)]
pub struct VecSource {
    source: NeverSource,
    fails: Vec<u64>,
    calls: u64,
    faults: u64,
}

impl Model for VecSource {
    ghost use Rattle.depot_io.specs.InMemory.{SourceState};

    ghost Value = { SourceState };

    ghost view = { λ inside. record {
      left = inside.source;
      fails = inside.fails.items;
      calls = inside.calls;
      faults = inside.faults;
    } };
}

impl VecSource {
    /// Calls of `take` are numbered from 1.
    pub fn new(bytes: Vec<u8>, fails: Vec<u64>) -> VecSource
        ensures exact { result ≡ record {
          left = bytes.items;
          fails = fails.items;
          calls = 0;
          faults = 0;
        } }
    {
        VecSource {
            source: NeverSource::new(bytes),
            fails,
            calls: 0,
            faults: 0,
        }
    }
}

impl Source for VecSource {
    ghost bytes_left = { λ source. Some source.left };

    ghost faults = { λ source. source.faults };

    ghost loan = { λ _. None };

    fn take(&mut self, into: &mut [u8]) -> Result<usize, Failed>
        ensures within { ReadsAtMost result into.new }
        ensures left { ReadConsumes (Some self.old.left) (Some self.new.left) result into.new }
        ensures cause { HasCause self.old.faults self.new.faults result }
        ensures exact { TakesListed self.old self.new (length into.old) result }
    {
        self.calls = self.calls.saturating_add(1);
        if self.fails.contains(&self.calls) {
            return Err(count_fault(&mut self.faults));
        }
        self.source.take(into)
    }
}

/// A sink in memory with bounded room, of which the listed calls fail.
#[derive(Drop)]
pub struct VecSink {
    bytes: Vec<u8>,
    room: usize,
    fails: Vec<u64>,
    calls: u64,
    faults: u64,
}

impl Model for VecSink {
    ghost use Rattle.std.specs.Prelude.{◌≤◌, ◌+◌, vec_len, vec_capacity};
    ghost use Rattle.depot_io.specs.InMemory.{SinkState};

    ghost Value = { SinkState };

    ghost view = { λ inside. record {
      got = inside.bytes.items;
      room = inside.room;
      fails = inside.fails.items;
      calls = inside.calls;
      faults = inside.faults;
    } };

    ghost invariant = { λ inside. vec_len inside.bytes + inside.room ≤ vec_capacity inside.bytes };
}

impl VecSink {
    /// Has room for so many bytes in all. Calls of `put` are numbered from 1.
    pub fn new(alloc: Global, room: usize, fails: Vec<u64>) -> Result<VecSink, Memory>
        ensures exact { IfOk result (λ sink. sink ≡ record {
          got = [];
          room = room;
          fails = fails.items;
          calls = 0;
          faults = 0;
        }) }
    {
        Ok(VecSink {
            bytes: Vec::with_capacity(alloc, room)?,
            room,
            fails,
            calls: 0,
            faults: 0,
        })
    }

    /// The bytes that it got, the first one first.
    pub fn bytes(&self) -> &[u8]
        ensures exact { result.now ≡ self.now.got }
    {
        &self.bytes
    }
}

impl Sink for VecSink {
    ghost bytes_got = { λ sink. Some sink.got };

    ghost room = { λ sink. told_room sink.fails sink.room };

    ghost faults = { λ sink. sink.faults };

    fn put(&mut self, bytes: &[u8]) -> Result<usize, Failed>
        ensures within { WritesAtMost result bytes.now }
        ensures some { IfOk result (λ count. 0 < length bytes.now → 0 < count) }
        ensures gained { WriteAppends (Some self.old.got) (Some self.new.got) result bytes.now }
        ensures room { TakesWithin (told_room self.old.fails self.old.room)
            (told_room self.new.fails self.new.room) bytes.now result }
        ensures cause { HasCause self.old.faults self.new.faults result }
        ensures exact { PutsListed self.old self.new bytes.now result }
    {
        self.calls = self.calls.saturating_add(1);
        if self.fails.contains(&self.calls) || self.room < bytes.len() {
            return Err(count_fault(&mut self.faults));
        }
        // It stands within the capacity, so this takes no memory.
        let _ = self.bytes.extend_from_slice(bytes);
        self.room -= bytes.len();
        Ok(bytes.len())
    }
}
