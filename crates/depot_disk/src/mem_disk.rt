//! A disk in memory, which tells all of itself by a record of its steps.

mod after_stop;

ghost use Rattle.std.specs.Prelude.{◌≡◌, ◌<◌, [], ◌∷◌, ◌++◌, length, vec_len, vec_capacity};
ghost use Rattle.std.specs.Prelude.{option_map, Ok, None, IfOk, IsOk};
ghost use Rattle.depot_io.specs.Causes.{HasCause};
ghost use Rattle.depot_disk.specs.Image.{SameElsewhere, bytes_in};
ghost use Rattle.depot_disk.specs.Torn.{IsFirstFrom, IsPiece, Torn};
ghost use Rattle.depot_disk.specs.State.{Stepped, Within};
ghost use Rattle.depot_disk.specs.Life.{Removed, Synced, Wrote};
ghost use Rattle.depot_disk.specs.Record.{Counts, Does, DoesIfThere, LeftBy, MayDo};
ghost use Rattle.depot_disk.specs.Record.{held_by};
ghost use Rattle.depot_disk.specs.MemDisk.{step_of};

use crate::fault::count_fault;
use crate::files::{first_in, has_file, read_in, remove_in, size_in, write_in};
use crate::step::{Act, Step};
use crate::{Disk, DiskFailed};
use depot_cell::Memory;
use std::alloc::Global;
use std::collections::BTreeMap;
use std::marker::Model;

/// A disk in memory. It keeps a record of each write, sync and removal, so that the images of each
/// moment can be told. A fault of it is want of memory.
#[derive(Drop)]
pub struct MemDisk {
    files: BTreeMap<u64, Vec<u8>>,
    steps: Vec<Step>,
    faults: u64,
}

impl Model for MemDisk {
    ghost use Rattle.depot_disk.specs.MemDisk.{AreMadeBy, steps_of};
    ghost use Rattle.depot_disk.specs.Record.{MemState};

    ghost Value = { MemState };

    ghost view = { λ inside. record {
      steps = steps_of inside.steps.items;
      faults = inside.faults;
    } };

    ghost invariant = { λ inside. AreMadeBy inside.steps.items inside.files };
}

impl MemDisk {
    pub fn new(alloc: Global) -> MemDisk
        ensures exact { result ≡ record { steps = []; faults = 0 } }
    {
        MemDisk {
            files: BTreeMap::new(alloc),
            steps: Vec::new(alloc),
            faults: 0,
        }
    }

    /// Does a write, or finds no memory and changes nothing.
    fn may_write(&mut self, file: u64, at: u64, bytes: &[u8]) -> Result<(), Memory>
        ensures exact { MayDo file (Wrote at bytes.now) self.old self.new result }
    {
        let alloc = *self.steps.allocator();
        let bytes_kept = Vec::from_slice(alloc, bytes)?;
        self.steps.reserve(1)?;
        write_in(alloc, &mut self.files, file, at, bytes)?;
        push_reserved(&mut self.steps, write_step(file, at, bytes_kept));
        Ok(())
    }

    /// Does a sync, or finds no memory and changes nothing.
    fn may_sync(&mut self, file: u64) -> Result<(), Memory>
        ensures exact { MayDo file Synced self.old self.new result }
    {
        self.steps.reserve(1)?;
        push_reserved(
            &mut self.steps,
            Step {
                file,
                act: Act::Sync,
            },
        );
        Ok(())
    }

    /// Does a removal, or finds no memory and changes nothing.
    fn may_remove(&mut self, file: u64) -> Result<(), Memory>
        ensures exact { MayDo file Removed self.old self.new result }
    {
        self.steps.reserve(1)?;
        remove_in(&mut self.files, file);
        push_reserved(
            &mut self.steps,
            Step {
                file,
                act: Act::Remove,
            },
        );
        Ok(())
    }

    /// Does a write, or counts a fault.
    fn counted_write(&mut self, file: u64, at: u64, bytes: &[u8]) -> Result<(), DiskFailed>
        ensures exact { Does file (Wrote at bytes.now) self.old self.new result }
        ensures cause { HasCause self.old.faults self.new.faults result }
    {
        let done = self.may_write(file, at, bytes);
        self.count(done)
    }

    /// Does a sync if the file is there, or counts a fault.
    fn counted_sync(&mut self, file: u64) -> Result<(), DiskFailed>
        ensures exact { DoesIfThere (held_by self.old.steps file) file Synced
            self.old self.new result }
        ensures cause { HasCause self.old.faults self.new.faults result }
    {
        if !has_file(&self.files, file) {
            return Ok(());
        }
        let done = self.may_sync(file);
        self.count(done)
    }

    /// Does a removal if the file is there, or counts a fault.
    fn counted_remove(&mut self, file: u64) -> Result<(), DiskFailed>
        ensures exact { DoesIfThere (held_by self.old.steps file) file Removed
            self.old self.new result }
        ensures cause { HasCause self.old.faults self.new.faults result }
    {
        if !has_file(&self.files, file) {
            return Ok(());
        }
        let done = self.may_remove(file);
        self.count(done)
    }

    /// Counts a fault if there was no memory.
    fn count(&mut self, done: Result<(), Memory>) -> Result<(), DiskFailed>
        ensures exact { Counts self.old self.new done result }
        ensures cause { HasCause self.old.faults self.new.faults result }
    {
        match done {
            Ok(()) => Ok(()),
            Err(Memory) => Err(count_fault(&mut self.faults)),
        }
    }
}

/// A write as a step.
fn write_step(file: u64, at: u64, bytes: Vec<u8>) -> Step
    ensures exact { step_of result ≡ (file, Wrote at bytes.items) }
{
    Step {
        file,
        act: Act::Write { at, bytes },
    }
}

/// Puts a step at the end. It takes no memory.
fn push_reserved(steps: &mut Vec<Step>, step: Step)
    requires room { vec_len steps.old < vec_capacity steps.old }
    ensures exact { steps.new.items ≡ steps.old.items ++ step ∷ [] }
{
    match steps.push(step) {
        Ok(()) => {}
        Err(_) => unreachable!(),
    }
}

impl Disk for MemDisk {
    ghost use Rattle.depot_disk.specs.Record.{state_of};
    ghost use Rattle.depot_disk.specs.Laws.{IsDiskState-mem};

    ghost state = { state_of };

    ghost loan = { λ _. None };

    fn size(&mut self, file: u64) -> Result<Option<u64>, DiskFailed>
        ensures exact { result ≡ Ok (option_map length (held_by self.old.steps file)) }
        ensures kept { self.new ≡ self.old }
    {
        Ok(size_in(&self.files, file))
    }

    fn first_from(&mut self, file: u64) -> Result<Option<u64>, DiskFailed>
        ensures exact { IfOk result (λ first. IsFirstFrom (held_by self.old.steps) file first) }
        ensures ok { IsOk result }
        ensures kept { self.new ≡ self.old }
    {
        Ok(first_in(&self.files, file))
    }

    fn read(&mut self, file: u64, at: u64, into: &mut [u8]) -> Result<usize, DiskFailed>
        ensures exact { IfOk result (λ count.
            IsPiece (bytes_in (held_by self.old.steps) file) at count into.new) }
        ensures ok { IsOk result }
        ensures kept { self.new ≡ self.old }
    {
        Ok(read_in(&self.files, file, at, into))
    }

    fn write(&mut self, file: u64, at: u64, bytes: &[u8]) -> Result<(), DiskFailed>
        ensures exact { Does file (Wrote at bytes.now) self.old self.new result }
        ensures cause { HasCause self.old.faults self.new.faults result }
        ensures part { Torn file at (length bytes.now)
            (held_by self.old.steps) (held_by self.new.steps) }
        ensures left { Within (LeftBy self.new.steps)
            (Stepped (Torn file at (length bytes.now)) (LeftBy self.old.steps)) }
    {
        self.counted_write(file, at, bytes)
    }

    fn sync(&mut self, file: u64) -> Result<(), DiskFailed>
        ensures exact { DoesIfThere (held_by self.old.steps file) file Synced
            self.old self.new result }
        ensures cause { HasCause self.old.faults self.new.faults result }
        ensures left { Within (LeftBy self.new.steps) (LeftBy self.old.steps) }
    {
        self.counted_sync(file)
    }

    fn remove(&mut self, file: u64) -> Result<(), DiskFailed>
        ensures exact { DoesIfThere (held_by self.old.steps file) file Removed
            self.old self.new result }
        ensures cause { HasCause self.old.faults self.new.faults result }
        ensures left { Within (LeftBy self.new.steps)
            (Stepped (SameElsewhere file) (LeftBy self.old.steps)) }
    {
        self.counted_remove(file)
    }

    ghost one_piece = { IsDiskState-mem };
}
