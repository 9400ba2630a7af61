//! A disk of which listed calls fail.

ghost use Rattle.std.specs.Prelude.{◌≡◌, ◌<◌, [], ◌∷◌, IsErr};
ghost use Rattle.depot_io.specs.Causes.{HasCause, next_count};
ghost use Rattle.depot_disk.specs.Listed.{IsListedCall, place_of};

use crate::fault::count_fault;
use crate::{Disk, DiskFailed, Verb};

/// A disk that fails the listed calls, and passes each other one to the disk below it. The calls of
/// each verb are numbered from 1. A call that it fails does nothing.
#[derive(Drop)]
pub struct FailDisk<D> {
    disk: D,
    list: FailList,
}

/// Which calls fail, how many calls of each verb there were, and how many were failed.
#[derive(Drop)]
struct FailList {
    fails: Vec<(Verb, u64)>,
    calls: [u64; 6],
    faults: u64,
}

impl FailList {
    /// Counts a call, and lets it pass, or counts a fault.
    fn admit(&mut self, verb: Verb) -> Result<(), DiskFailed>
        ensures exact { IsListedCall verb self.old.fails.items self.old.calls self.new.calls result }
        ensures list { self.new.fails ≡ self.old.fails }
        ensures cause { HasCause self.old.faults self.new.faults result }
    {
        let place = place_of(verb);
        let call = self.calls[place].saturating_add(1);
        self.calls[place] = call;
        if self.fails.contains(&(verb, call)) {
            return Err(count_fault(&mut self.faults));
        }
        Ok(())
    }
}

/// Where the calls of a verb are counted.
fn place_of(verb: Verb) -> usize
    ensures exact { result ≡ place_of verb }
    ensures within { result < 6 }
{
    match verb {
        Verb::Size => 0,
        Verb::FirstFrom => 1,
        Verb::Read => 2,
        Verb::Write => 3,
        Verb::Sync => 4,
        Verb::Remove => 5,
    }
}

impl<D> FailDisk<D> {
    pub fn new(disk: D, fails: Vec<(Verb, u64)>) -> FailDisk<D>
        ensures exact { result ≡ record {
          disk = disk;
          list = record {
            fails = fails;
            calls = 0 ∷ 0 ∷ 0 ∷ 0 ∷ 0 ∷ 0 ∷ [];
            faults = 0;
          };
        } }
    {
        FailDisk {
            disk,
            list: FailList {
                fails,
                calls: [0; 6],
                faults: 0,
            },
        }
    }

    /// The disk below.
    pub fn inner(self) -> D
        ensures exact { result ≡ self.disk }
    {
        self.disk
    }
}

impl<D: Disk> Disk for FailDisk<D> {
    ghost use Rattle.depot_disk.specs.Listed.{counting};
    ghost use Rattle.depot_disk.specs.Laws.{IsDiskState-counting};

    ghost state = { λ failing. counting failing.list.faults (D.state failing.disk) };

    ghost loan = { λ failing. D.loan failing.disk };

    fn size(&mut self, file: u64) -> Result<Option<u64>, DiskFailed> {
        self.list.admit(Verb::Size)?;
        self.disk.size(file)
    }

    fn first_from(&mut self, file: u64) -> Result<Option<u64>, DiskFailed> {
        self.list.admit(Verb::FirstFrom)?;
        self.disk.first_from(file)
    }

    fn read(&mut self, file: u64, at: u64, into: &mut [u8]) -> Result<usize, DiskFailed> {
        self.list.admit(Verb::Read)?;
        self.disk.read(file, at, into)
    }

    fn write(&mut self, file: u64, at: u64, bytes: &[u8]) -> Result<(), DiskFailed> {
        self.list.admit(Verb::Write)?;
        self.disk.write(file, at, bytes)
    }

    fn sync(&mut self, file: u64) -> Result<(), DiskFailed> {
        self.list.admit(Verb::Sync)?;
        self.disk.sync(file)
    }

    fn remove(&mut self, file: u64) -> Result<(), DiskFailed> {
        self.list.admit(Verb::Remove)?;
        self.disk.remove(file)
    }

    ghost one_piece = { λ failing.
        IsDiskState-counting failing.list.faults (D.state failing.disk) (D.one_piece failing.disk) };
}
