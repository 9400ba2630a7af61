//! The calls of the system on one folder.
//!
//! Each opens the file that it needs, so nothing stays open from one call to the next.

ghost use Rattle.std.specs.Io.{ReadsAtMost};

use std::alloc::AllocError;
use std::collections::BTreeSet;
use std::fs::{OpenFile, OpenOptions};
use std::io::{self, BufRead, BufReader, ErrorKind, Read, Seek, SeekFrom, Write};
use std::rt::Files;

/// A folder whose files are named by numbers in decimal.
#[derive(Drop)]
pub(crate) struct Folder<'a, R> {
    rt: &'a R,
    path: String,
    /// Whether a stop leaves all names that are there.
    are_names_synced: bool,
}

impl<'a, R: Files + AllocGlobal> Folder<'a, R> {
    /// Names that an earlier process made may not be synced.
    pub(crate) fn new(rt: &'a R, path: String) -> Folder<'a, R> {
        Folder {
            rt,
            path,
            are_names_synced: false,
        }
    }

    pub(crate) fn size(&self, file: u64) -> io::Result<Option<u64>> {
        let path = self.path_of(file)?;
        Ok(found(self.rt.metadata(path.as_str()))?.map(|file| file.len()))
    }

    /// The numbers of all files.
    pub(crate) fn list(&self) -> io::Result<BTreeSet<u64>> {
        let alloc = self.rt.alloc();
        let mut numbers = BTreeSet::new(alloc);
        let Some(names) = found(self.rt.open_dir(self.path_with_slash()?.as_str()))? else {
            return Ok(numbers);
        };
        for name in BufReader::new(alloc, names)?.split(alloc, 0) {
            if let Some(number) = number_of(name?.as_slice()) {
                numbers.insert(number)?;
            }
        }
        Ok(numbers)
    }

    pub(crate) fn read(&self, file: u64, at: u64, into: &mut [u8]) -> io::Result<usize>
        ensures within { ReadsAtMost result into.new }
    {
        let path = self.path_of(file)?;
        let Some(mut opened) = found(OpenOptions::new().read(true).open(self.rt, path.as_str()))?
        else {
            return Ok(0);
        };
        opened.seek(SeekFrom::Start(at))?;
        opened.read(into)
    }

    pub(crate) fn write(&mut self, file: u64, at: u64, bytes: &[u8]) -> io::Result<()> {
        let path = self.path_of(file)?;
        let mut opened = self.open_or_make(path.as_str())?;
        opened.seek(SeekFrom::Start(at))?;
        opened.write_all(bytes)
    }

    fn open_or_make(&mut self, path: &str) -> io::Result<R::File> {
        if let Some(opened) = found(OpenOptions::new().write(true).open(self.rt, path))? {
            return Ok(opened);
        }
        self.are_names_synced = false;
        OpenOptions::new()
            .write(true)
            .create(true)
            .open(self.rt, path)
    }

    /// Syncs the file, and the folder if the file's name may not be on the disk.
    pub(crate) fn sync(&mut self, file: u64) -> io::Result<()> {
        let path = self.path_of(file)?;
        let Some(opened) = found(OpenOptions::new().read(true).open(self.rt, path.as_str()))? else {
            return Ok(());
        };
        opened.sync_all()?;
        if !self.are_names_synced {
            self.sync_names()?;
        }
        Ok(())
    }

    fn sync_names(&mut self) -> io::Result<()> {
        let folder = OpenOptions::new()
            .read(true)
            .open(self.rt, self.path_with_slash()?.as_str())?;
        folder.sync_all()?;
        self.are_names_synced = true;
        Ok(())
    }

    pub(crate) fn remove(&self, file: u64) -> io::Result<()> {
        let path = self.path_of(file)?;
        found(self.rt.remove_file(path.as_str()))?;
        Ok(())
    }

    fn path_of(&self, file: u64) -> Result<String, AllocError> {
        let folder = self.path.as_str();
        Ok(format!(in self.rt.alloc(); "{folder}/{file}")?)
    }

    fn path_with_slash(&self) -> Result<String, AllocError> {
        let folder = self.path.as_str();
        Ok(format!(in self.rt.alloc(); "{folder}/")?)
    }
}

/// What was answered of a file, or None if it is absent.
fn found<T>(answer: io::Result<T>) -> io::Result<Option<T>> {
    match answer {
        Ok(value) => Ok(Some(value)),
        Err(error) if error.kind() == ErrorKind::NotFound => Ok(None),
        Err(error) => Err(error),
    }
}

/// The number that a name stands for, if it is that number in its shortest form.
fn number_of(name: &[u8]) -> Option<u64> {
    match name {
        [b'0'] => Some(0),
        [b'1'..=b'9', ..] => std::str::from_utf8(name).ok()?.parse().ok(),
        _ => None,
    }
}
