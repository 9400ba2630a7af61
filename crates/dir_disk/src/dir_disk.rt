//! The disk over a folder.

ghost use Rattle.std.specs.Prelude.{◌≡◌, ◌≤◌, None, Some, IfOk, IfSome};
ghost use Rattle.depot_io.specs.Causes.{HasCause};
ghost use Rattle.dir_disk.specs.Telling.{telling_faults};

use crate::folder::Folder;
use depot_disk::{Disk, DiskFailed};
use std::collections::BTreeSet;
use std::io;
use std::rt::Files;

/// A folder whose files are named by numbers in decimal, as `0` and `17`. Files with other names are
/// left alone. A folder that is absent has no files, and a write into it fails.
///
/// A call counts a fault for each error of the system, and if there is no memory. Only one process
/// may use a folder at a time.
#[derive(Drop)]
pub struct DirDisk<'a, R: Files + AllocGlobal> {
    folder: Folder<'a, R>,
    /// The numbers of the files that are there, from the first time that they were asked for.
    files: Option<BTreeSet<u64>>,
    faults: u64,
}

impl<'a, R: Files + AllocGlobal> DirDisk<'a, R> {
    /// Opens nothing yet.
    pub fn new(rt: &'a R, folder: String) -> DirDisk<'a, R>
        ensures faults { (⟦<DirDisk<'static, R> as Disk>⟧.state result).faults ≡ 0 }
    {
        DirDisk {
            folder: Folder::new(rt, folder),
            files: None,
            faults: 0,
        }
    }

    /// Counts an error as a fault.
    fn counted<T>(&mut self, answer: io::Result<T>) -> Result<T, DiskFailed>
        ensures ok { IfOk result (λ value. answer ≡ Ok value) }
        ensures cause { HasCause self.old.faults self.new.faults result }
    {
        match answer {
            Ok(value) => Ok(value),
            Err(_) => {
                self.faults = self.faults.saturating_add(1);
                Err(DiskFailed)
            }
        }
    }

    /// The least number from one on.
    fn find_from(&mut self, file: u64) -> io::Result<Option<u64>>
        ensures within { IfOk result (λ first. IfSome first (λ number. file ≤ number)) }
        ensures faults { self.new.faults ≡ self.old.faults }
    {
        if self.files.is_none() {
            self.files = Some(self.folder.list()?);
        }
        let files = self.files.as_ref();
        Ok(files.and_then(|files| files.range(file..).next().copied()))
    }

    /// Notes that a file is there.
    fn note(&mut self, file: u64)
        ensures faults { self.new.faults ≡ self.old.faults }
    {
        if let Some(files) = &mut self.files {
            // Without memory the files are listed anew when they are next asked for.
            if files.insert(file).is_err() {
                self.files = None;
            }
        }
    }

    /// Notes that a file is gone.
    fn forget(&mut self, file: u64)
        ensures faults { self.new.faults ≡ self.old.faults }
    {
        if let Some(files) = &mut self.files {
            files.remove(&file);
        }
    }
}

impl<R: Files + AllocGlobal> Disk for DirDisk<'_, R> {
    ghost use Rattle.dir_disk.specs.Telling.{IsDiskState-telling};

    ghost state = { λ disk. telling_faults disk.faults };

    ghost loan = { λ disk. None };

    fn size(&mut self, file: u64) -> Result<Option<u64>, DiskFailed> {
        let size = self.folder.size(file);
        self.counted(size)
    }

    fn first_from(&mut self, file: u64) -> Result<Option<u64>, DiskFailed> {
        let first = self.find_from(file);
        self.counted(first)
    }

    fn read(&mut self, file: u64, at: u64, into: &mut [u8]) -> Result<usize, DiskFailed> {
        let count = self.folder.read(file, at, into);
        self.counted(count)
    }

    fn write(&mut self, file: u64, at: u64, bytes: &[u8]) -> Result<(), DiskFailed> {
        let written = self.folder.write(file, at, bytes);
        match written {
            Ok(()) => self.note(file),
            // The file may have been made.
            Err(_) => self.files = None,
        }
        self.counted(written)
    }

    fn sync(&mut self, file: u64) -> Result<(), DiskFailed> {
        let synced = self.folder.sync(file);
        self.counted(synced)
    }

    fn remove(&mut self, file: u64) -> Result<(), DiskFailed> {
        let removed = self.folder.remove(file);
        match removed {
            Ok(()) => self.forget(file),
            Err(_) => self.files = None,
        }
        self.counted(removed)
    }

    ghost one_piece = { λ disk. IsDiskState-telling disk.faults };
}
