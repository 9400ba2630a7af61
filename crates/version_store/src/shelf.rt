//! The trait of what keeps the rows of versions.

ghost use Rattle.std.specs.Prelude.{◌≡◌, Ok, None, IfOk, IfSome, IsSomeAnd, OnErr, OnOk};
ghost use Rattle.std.specs.Arc.{arc_value};
ghost use Rattle.depot_disk.specs.Image.{Image};
ghost use Rattle.row_codec.specs.Laws.{AreRowsOf};
ghost use Rattle.row_codec.specs.Spelling.{rows_bytes};
ghost use Rattle.version_store.specs.Files.{PutsFile, RemovesFile};
ghost use Rattle.version_store.specs.Reading.{IsFileReading, front_of};
ghost use Rattle.version_store.specs.Shelves.{GivesKept, Kept, KeepsAlso, KeepsBut};
ghost use Rattle.version_store.specs.Shelves.{KeepsNothing, KeepsSame, SameAtKept, StillStands};

use crate::FileFault;
use depot_cell::{Memory, Rows, Ty};
use depot_disk::{Disk, DiskFailed};
use std::alloc::Global;
use std::sync::Arc;

/// What keeps the rows of the versions that a depot holds, by the number of the entry that made
/// each. The rows of an entry also lie in the file of that number, so a shelf may keep them there
/// alone: it then stands over a disk only if the file holds them.
pub trait Shelf {
    /// The rows that it keeps, by entry.
    ghost kept: { Self → Kept };

    /// There is room for the rows of one entry more.
    ghost has_room: { Self → Type 0 };

    /// The files of an image hold what the shelf does not keep in memory.
    ghost stands: { Self → Image → Type 0 };

    /// Takes room for the rows of one entry more. In any case the same is kept as before.
    fn reserve(&mut self) -> Result<(), Memory>
        ensures ok { OnOk result (has_room self.new) }
        ensures kept { KeepsSame (kept self.old) (kept self.new) }
        ensures stands { (image : Image) → stands self.old image → stands self.new image };

    /// Puts rows into the file of an entry, and keeps them. It makes one write and one sync, and
    /// takes no memory. After a refusal the same is kept as before.
    fn put<D: Disk>(
        &mut self,
        disk: &mut D,
        entry: u64,
        rows: Arc<Rows>,
        bytes: &[u8],
    ) -> Result<(), DiskFailed>
        requires room { has_room self.old }
        requires fresh { kept self.old entry ≡ None }
        requires spelled { bytes.now ≡ rows_bytes (arc_value rows) }
        ensures puts { PutsFile entry bytes.now (D.state disk.old) (D.state disk.new) result }
        ensures ok { OnOk result
            (KeepsAlso (kept self.old) (kept self.new) entry (arc_value rows)) }
        ensures err { OnErr result (KeepsSame (kept self.old) (kept self.new)) }
        ensures stands { StillStands (stands self.old) (stands self.new)
            (D.state disk.old).holds (D.state disk.new).holds }
        ensures loan { D.loan disk.new ≡ D.loan disk.old };

    /// Keeps the rows of an entry whose file is there already: its first `len` bytes are their
    /// spelling. It takes no memory and refuses nothing.
    fn adopt(&mut self, entry: u64, rows: Arc<Rows>, len: u64)
        requires room { has_room self.old }
        requires fresh { kept self.old entry ≡ None }
        ensures kept { KeepsAlso (kept self.old) (kept self.new) entry (arc_value rows) }
        ensures stands { (image : Image) → stands self.old image
            → front_of image entry len ≡ Ok (rows_bytes (arc_value rows)) → stands self.new image };

    /// The rows of an entry, which have these types. They are shared. What is kept stays, and so
    /// does the disk.
    ///
    /// `Damaged` never comes if the shelf stands over what the disk tells. `DiskFault` comes only
    /// if the disk counted a fault, and `Memory` may come.
    fn get<D: Disk>(
        &mut self,
        alloc: Global,
        disk: &mut D,
        types: &[Ty],
        entry: u64,
    ) -> Result<Arc<Rows>, FileFault>
        requires kept { IsSomeAnd (kept self.old entry) (AreRowsOf types.now) }
        ensures exact { IfSome (D.state disk.old).holds (λ image. stands self.old image
            → GivesKept (kept self.old entry) result) }
        // Of a disk that tells nothing, too.
        ensures typed { IfOk result (λ rows. AreRowsOf types.now (arc_value rows)) }
        ensures kept { KeepsSame (kept self.old) (kept self.new) }
        ensures stands { StillStands (stands self.old) (stands self.new)
            (D.state disk.old).holds (D.state disk.new).holds }
        ensures reading { IsFileReading (D.state disk.old) (D.state disk.new) result }
        ensures loan { D.loan disk.new ≡ D.loan disk.old };

    /// Takes away the file of an entry. The entry is kept no more then, also after a refusal. It
    /// takes no memory.
    fn drop_one<D: Disk>(&mut self, disk: &mut D, entry: u64) -> Result<(), DiskFailed>
        ensures removes { RemovesFile entry (D.state disk.old) (D.state disk.new) result }
        ensures kept { KeepsBut (kept self.old) (kept self.new) entry }
        ensures stands { StillStands (stands self.old) (stands self.new)
            (D.state disk.old).holds (D.state disk.new).holds }
        ensures loan { D.loan disk.new ≡ D.loan disk.old };

    /// Whether it stands over an image is a matter of the files of kept entries.
    ghost rests_on_kept: { (shelf : Self) (old new : Image) → SameAtKept (kept shelf) old new
        → stands shelf old → stands shelf new };

    /// A shelf that keeps nothing stands over every image.
    ghost empty_stands: { (shelf : Self) (image : Image) → KeepsNothing (kept shelf)
        → stands shelf image };
}
