//! The files of entries: how one is put on the disk, how its content is read back, and how it is
//! taken away.

ghost use Rattle.std.specs.Prelude.{◌≡◌, ◌≤◌, ℕ, Ok, IfOk, IfSome, IsSome, Vec, length};
ghost use Rattle.depot_disk.specs.Image.{bytes_in};
ghost use Rattle.row_codec.specs.Laws.{AreRowsOf};
ghost use Rattle.row_codec.specs.Spelling.{rows_bytes};
ghost use Rattle.version_store.specs.Files.{PutsFile, RemovesFile};
ghost use Rattle.version_store.specs.Reading.{Finds, IsFileReading, front_of, rows_in};

use crate::FileFault;
use depot_cell::{Memory, Rows, Ty};
use depot_disk::{Disk, DiskFailed, read_front, write_through};
use row_codec::{CodecFault, decode_rows};
use std::alloc::Global;

/// Writes the content of an entry into its file, and syncs it: two calls of the disk. What the file
/// held after these bytes stays, and is never read. It takes no memory.
pub fn put_file<D: Disk>(disk: &mut D, file: u64, bytes: &[u8]) -> Result<(), DiskFailed>
    ensures puts { PutsFile file bytes.now (D.state disk.old) (D.state disk.new) result }
    ensures loan { D.loan disk.new ≡ D.loan disk.old }
{
    write_through(disk, file, 0, bytes)
}

/// Takes the file of an entry away. Until the file is written and synced again, a stop may leave
/// it, with any bytes.
pub(crate) fn remove_file<D: Disk>(disk: &mut D, file: u64) -> Result<(), DiskFailed>
    ensures removes { RemovesFile file (D.state disk.old) (D.state disk.new) result }
    ensures loan { D.loan disk.new ≡ D.loan disk.old }
{
    disk.remove(file)
}

/// The content of an entry: the first `len` bytes of its file. It changes nothing, and takes memory
/// only for bytes that the file has.
///
/// `Damaged` comes exactly if the file is absent or shorter, with its size as the place.
pub fn read_content<D: Disk>(
    alloc: Global,
    disk: &mut D,
    file: u64,
    len: u64,
) -> Result<Vec<u8>, FileFault>
    ensures exact { IfSome (D.state disk.old).holds (λ image.
        Finds (λ (bytes : Vec ℕ Global). bytes.items) file (front_of image file len) result) }
    // Of a disk that tells nothing, too.
    ensures size { IfOk result (λ bytes. length bytes.items ≡ len) }
    ensures reading { IsFileReading (D.state disk.old) (D.state disk.new) result }
    ensures loan { D.loan disk.new ≡ D.loan disk.old }
{
    match disk.size(file)? {
        Some(size) if size >= len => read_first(alloc, disk, file, len),
        size => Err(FileFault::Damaged {
            file,
            place: size.unwrap_or(0),
        }),
    }
}

/// The first `len` bytes of a file that has as many.
fn read_first<D: Disk>(
    alloc: Global,
    disk: &mut D,
    file: u64,
    len: u64,
) -> Result<Vec<u8>, FileFault>
    requires there { IfSome (D.state disk.old).holds (λ image.
        IsSome (image file) × (len ≤ length (bytes_in image file))) }
    ensures exact { IfSome (D.state disk.old).holds (λ image.
        Finds (λ (bytes : Vec ℕ Global). bytes.items) file (front_of image file len) result) }
    ensures size { IfOk result (λ bytes. length bytes.items ≡ len) }
    ensures reading { IsFileReading (D.state disk.old) (D.state disk.new) result }
    ensures loan { D.loan disk.new ≡ D.loan disk.old }
{
    let mut bytes = zeros(alloc, len as usize)?;
    let count = read_front(disk, file, &mut bytes)?;
    if count < bytes.len() {
        return Err(FileFault::Damaged {
            file,
            place: count as u64,
        });
    }
    Ok(bytes)
}

/// So many bytes.
fn zeros(alloc: Global, count: usize) -> Result<Vec<u8>, Memory>
    ensures exact { IfOk result (λ bytes. length bytes.items ≡ count) }
{
    Ok(vec![in alloc; 0; count]?)
}

/// The rows of a version of a table with these types, from the first `len` bytes of the file of the
/// entry that made it. It changes nothing. The rows have these types, whatever the disk tells.
///
/// `Damaged` comes exactly if the file is absent or shorter, or these bytes are not the spelling of
/// such rows.
pub fn read_version<D: Disk>(
    alloc: Global,
    disk: &mut D,
    types: &[Ty],
    file: u64,
    len: u64,
) -> Result<Rows, FileFault>
    ensures exact { IfSome (D.state disk.old).holds (λ image.
        Finds (λ rows. rows) file (rows_in image types.now file len) result) }
    ensures spelled { IfOk result (λ rows. IfSome (D.state disk.old).holds (λ image.
        front_of image file len ≡ Ok (rows_bytes rows))) }
    ensures typed { IfOk result (AreRowsOf types.now) }
    ensures reading { IsFileReading (D.state disk.old) (D.state disk.new) result }
    ensures loan { D.loan disk.new ≡ D.loan disk.old }
{
    let bytes = read_content(alloc, disk, file, len)?;
    match decode_rows(alloc, types, &bytes) {
        Ok(rows) => Ok(rows),
        Err(CodecFault::At { place }) => Err(FileFault::Damaged { file, place }),
        Err(CodecFault::Memory) => Err(FileFault::Memory),
    }
}
