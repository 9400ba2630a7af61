//! A disk that stops.

ghost use Rattle.std.specs.Prelude.{◌≡◌, ◌-◌, ◌↔◌, IsErr};
ghost use Rattle.depot_io.specs.Causes.{HasCause};

use crate::fault::count_fault;
use crate::{Disk, DiskFailed};

/// A disk that passes so many calls to the disk below it, and then fails each one. A call that it
/// fails does nothing.
#[derive(Drop)]
pub struct StopDisk<D> {
    disk: D,
    stop: Stop,
}

/// How many calls still pass, and how many were failed.
#[derive(Drop)]
struct Stop {
    pass: u64,
    faults: u64,
}

impl Stop {
    /// Lets a call pass, or counts a fault.
    fn admit(&mut self) -> Result<(), DiskFailed>
        ensures exact { IsErr result ↔ (self.old.pass ≡ 0) }
        ensures pass { self.new.pass ≡ self.old.pass - 1 }
        ensures cause { HasCause self.old.faults self.new.faults result }
    {
        if self.pass == 0 {
            return Err(count_fault(&mut self.faults));
        }
        self.pass -= 1;
        Ok(())
    }
}

impl<D> StopDisk<D> {
    pub fn new(disk: D, pass: u64) -> StopDisk<D>
        ensures exact { result ≡ record {
          disk = disk;
          stop = record { pass = pass; faults = 0 };
        } }
    {
        StopDisk {
            disk,
            stop: Stop { pass, faults: 0 },
        }
    }

    /// The disk below.
    pub fn inner(self) -> D
        ensures exact { result ≡ self.disk }
    {
        self.disk
    }
}

impl<D: Disk> Disk for StopDisk<D> {
    ghost use Rattle.depot_disk.specs.Listed.{counting};
    ghost use Rattle.depot_disk.specs.Laws.{IsDiskState-counting};

    ghost state = { λ stopping. counting stopping.stop.faults (D.state stopping.disk) };

    ghost loan = { λ stopping. D.loan stopping.disk };

    fn size(&mut self, file: u64) -> Result<Option<u64>, DiskFailed> {
        self.stop.admit()?;
        self.disk.size(file)
    }

    fn first_from(&mut self, file: u64) -> Result<Option<u64>, DiskFailed> {
        self.stop.admit()?;
        self.disk.first_from(file)
    }

    fn read(&mut self, file: u64, at: u64, into: &mut [u8]) -> Result<usize, DiskFailed> {
        self.stop.admit()?;
        self.disk.read(file, at, into)
    }

    fn write(&mut self, file: u64, at: u64, bytes: &[u8]) -> Result<(), DiskFailed> {
        self.stop.admit()?;
        self.disk.write(file, at, bytes)
    }

    fn sync(&mut self, file: u64) -> Result<(), DiskFailed> {
        self.stop.admit()?;
        self.disk.sync(file)
    }

    fn remove(&mut self, file: u64) -> Result<(), DiskFailed> {
        self.stop.admit()?;
        self.disk.remove(file)
    }

    ghost one_piece = { λ stopping.
        IsDiskState-counting stopping.stop.faults (D.state stopping.disk) (D.one_piece stopping.disk) };
}
