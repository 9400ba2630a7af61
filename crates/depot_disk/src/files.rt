//! The files of a disk in memory.

ghost use Rattle.std.specs.Prelude.{◌≡◌, length, option_map, is_some, OnOk, OnErr, None};
ghost use Rattle.depot_disk.specs.Image.{bytes_in, overwritten, without, written};
ghost use Rattle.depot_disk.specs.Torn.{IsFirstFrom, IsPiece};
ghost use Rattle.depot_disk.specs.MemDisk.{SameImage, image_of};

use depot_cell::Memory;
use std::alloc::Global;
use std::collections::BTreeMap;

/// How many bytes a file has, or None if it is absent.
pub(crate) fn size_in(files: &BTreeMap<u64, Vec<u8>>, file: u64) -> Option<u64>
    ensures exact { result ≡ option_map length (image_of files.now file) }
{
    match files.get(&file) {
        Some(content) => Some(content.as_slice().len() as u64),
        None => None,
    }
}

/// Whether a file is there.
pub(crate) fn has_file(files: &BTreeMap<u64, Vec<u8>>, file: u64) -> bool
    ensures exact { result ≡ is_some (image_of files.now file) }
{
    match files.get(&file) {
        Some(_) => true,
        None => false,
    }
}

/// The least number of a file from one on.
pub(crate) fn first_in(files: &BTreeMap<u64, Vec<u8>>, file: u64) -> Option<u64>
    ensures exact { IsFirstFrom (image_of files.now) file result }
{
    match files.range(file..).next() {
        Some((number, _)) => Some(*number),
        None => None,
    }
}

/// Puts bytes of a file, from a place on, into the front of a piece.
pub(crate) fn read_in(files: &BTreeMap<u64, Vec<u8>>, file: u64, at: u64, into: &mut [u8]) -> usize
    ensures exact { IsPiece (bytes_in (image_of files.now) file) at result into.new }
{
    match files.get(&file) {
        Some(content) => copy_from(content.as_slice(), at, into),
        None => 0,
    }
}

/// Copies bytes from a place on into the front of a piece, as many as there are and fit.
fn copy_from(content: &[u8], at: u64, into: &mut [u8]) -> usize
    ensures exact { IsPiece content.now at result into.new }
{
    let start = content.len().min(at as usize);
    let count = into.len().min(content.len() - start);
    into[..count].copy_from_slice(&content[start..start + count]);
    count
}

/// Writes over a file, which is made if it is absent.
pub(crate) fn write_in(
    alloc: Global,
    files: &mut BTreeMap<u64, Vec<u8>>,
    file: u64,
    at: u64,
    bytes: &[u8],
) -> Result<(), Memory>
    ensures ok { OnOk result
        (SameImage (written file at bytes.now (image_of files.old)) (image_of files.new)) }
    ensures err { OnErr result (SameImage (image_of files.old) (image_of files.new)) }
{
    match files.get_mut(&file) {
        Some(content) => overwrite(content, at, bytes),
        None => make_in(alloc, files, file, at, bytes),
    }
}

/// Makes a file of some bytes.
fn make_in(
    alloc: Global,
    files: &mut BTreeMap<u64, Vec<u8>>,
    file: u64,
    at: u64,
    bytes: &[u8],
) -> Result<(), Memory>
    requires absent { image_of files.old file ≡ None }
    ensures ok { OnOk result
        (SameImage (written file at bytes.now (image_of files.old)) (image_of files.new)) }
    ensures err { OnErr result (SameImage (image_of files.old) (image_of files.new)) }
{
    let mut content = Vec::new(alloc);
    overwrite(&mut content, at, bytes)?;
    match files.insert(file, content) {
        Ok(_) => Ok(()),
        Err(_) => Err(Memory),
    }
}

/// Puts bytes over others from a place on, and past their end.
pub(crate) fn overwrite(content: &mut Vec<u8>, at: u64, bytes: &[u8]) -> Result<(), Memory>
    ensures ok { OnOk result (content.new.items ≡ overwritten content.old.items at bytes.now) }
    ensures err { OnErr result (content.new.items ≡ content.old.items) }
{
    let start = content.len().min(at as usize);
    let over = bytes.len().min(content.len() - start);
    content.extend_from_slice(&bytes[over..])?;
    content[start..start + over].copy_from_slice(&bytes[..over]);
    Ok(())
}

/// Takes a file away.
pub(crate) fn remove_in(files: &mut BTreeMap<u64, Vec<u8>>, file: u64)
    ensures exact { SameImage (without file (image_of files.old)) (image_of files.new) }
{
    files.remove(&file);
}
