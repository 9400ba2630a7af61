//! A shelf that keeps all rows in memory.

ghost use Rattle.std.specs.Prelude.{◌≡◌, ◌<◌, [], ⊤};
ghost use Rattle.std.specs.Arc.{arc_value};
ghost use Rattle.version_store.specs.Shelves.{KeepsAlso, KeepsNothing, kept_in};

use crate::files::{put_file, remove_file};
use crate::{Content, FileFault, Shelf};
use depot_cell::{Memory, Rows, Ty};
use depot_disk::{Disk, DiskFailed};
use indexmap::IndexMap;
use std::alloc::Global;
use std::marker::Model;
use std::sync::Arc;

/// The rows of versions, all in memory. It reads no file, so it stands over every disk.
#[derive(Drop)]
pub struct MemShelf {
    rows: IndexMap<u64, Content>,
}

impl Model for MemShelf {
    ghost use Rattle.indexmap.specs.IndexMap.{spare};
    ghost use Rattle.version_store.specs.Shelves.{ShelfOf};

    ghost Value = { ShelfOf };

    ghost view = { λ shelf. record { entries = shelf.rows.entries; room = spare shelf.rows } };
}

impl MemShelf {
    /// A shelf that keeps nothing. It takes no memory yet.
    pub fn new(alloc: Global) -> MemShelf
        ensures exact { KeepsNothing (kept_in result) }
    {
        MemShelf {
            rows: IndexMap::new(alloc),
        }
    }

    /// Keeps the rows of one entry more, in room that there is.
    fn keep(&mut self, entry: u64, rows: Arc<Rows>)
        requires room { 0 < self.old.room }
        ensures kept { KeepsAlso (kept_in self.old) (kept_in self.new) entry (arc_value rows) }
    {
        match self.rows.insert(entry, Content::new(rows)) {
            Ok(_) => {}
            Err(_) => unreachable!(),
        }
    }
}

impl Shelf for MemShelf {
    ghost kept = { λ shelf. kept_in shelf };

    ghost has_room = { λ shelf. 0 < shelf.room };

    ghost stands = { λ _ _. ⊤ };

    fn reserve(&mut self) -> Result<(), Memory> {
        self.rows.reserve(1)?;
        Ok(())
    }

    fn put<D: Disk>(
        &mut self,
        disk: &mut D,
        entry: u64,
        rows: Arc<Rows>,
        bytes: &[u8],
    ) -> Result<(), DiskFailed> {
        put_file(disk, entry, bytes)?;
        self.keep(entry, rows);
        Ok(())
    }

    fn adopt(&mut self, entry: u64, rows: Arc<Rows>, _len: u64) {
        self.keep(entry, rows);
    }

    fn get<D: Disk>(
        &mut self,
        _alloc: Global,
        _disk: &mut D,
        _types: &[Ty],
        entry: u64,
    ) -> Result<Arc<Rows>, FileFault> {
        match self.rows.get(&entry) {
            Some(content) => Ok(content.share()?),
            None => unreachable!(),
        }
    }

    fn drop_one<D: Disk>(&mut self, disk: &mut D, entry: u64) -> Result<(), DiskFailed> {
        self.rows.swap_remove(&entry);
        remove_file(disk, entry)
    }

    ghost rests_on_kept = { λ shelf old new same stands. tt };

    ghost empty_stands = { λ shelf image nothing. tt };
}
