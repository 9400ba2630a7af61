//! Readers: which pin reads which version. They stand in order of the versions, so all who read one
//! stand together, and one search tells whether there are any.

ghost use Rattle.std.specs.Prelude.{◌≡◌, ◌&&◌, ◌||◌, false, not, OnOk, OnErr};
ghost use Rattle.query_pin.specs.declared.readers.Reader.{Reader as ReaderOf};
ghost use Rattle.query_pin.specs.Readers.{TellsIfRead, has_reader, is_reader_of, same_reader};

use crate::input::Input;
use depot_cell::Memory;
use std::collections::BTreeSet;

/// A version, and the id of a pin that has it. Readers go by their versions, then by id.
#[derive(Clone, Copy, Debug, PartialEq, Eq, PartialOrd, Ord)]
pub(crate) struct Reader {
    pub(crate) read: Input,
    pub(crate) id: u64,
}

/// Adds a pin as a reader of some versions. Without memory it may be a reader of some of them.
pub(crate) fn add_readers(
    readers: &mut BTreeSet<Reader>,
    id: u64,
    versions: &[Input],
) -> Result<(), Memory>
    ensures ok { OnOk result ((reader : ReaderOf) → has_reader readers.new.keys reader
        ≡ (has_reader readers.old.keys reader || is_reader_of id versions.now reader)) }
    ensures others { (reader : ReaderOf) → is_reader_of id versions.now reader ≡ false
        → has_reader readers.new.keys reader ≡ has_reader readers.old.keys reader }
{
    for &read in versions {
        add_reader(readers, Reader { read, id })?;
    }
    Ok(())
}

/// Adds a reader, if it is not there. Without memory nothing changes.
fn add_reader(readers: &mut BTreeSet<Reader>, reader: Reader) -> Result<(), Memory>
    ensures ok { OnOk result ((other : ReaderOf) → has_reader readers.new.keys other
        ≡ (has_reader readers.old.keys other || same_reader reader other)) }
    ensures err { OnErr result (readers.new.keys ≡ readers.old.keys) }
{
    match readers.insert(reader) {
        Ok(_) => Ok(()),
        Err(_) => Err(Memory),
    }
}

/// Removes a pin as a reader of some versions. Those that it does not read make no difference.
pub(crate) fn remove_readers(readers: &mut BTreeSet<Reader>, id: u64, versions: &[Input])
    ensures exact { (reader : ReaderOf) → has_reader readers.new.keys reader
        ≡ (has_reader readers.old.keys reader && not (is_reader_of id versions.now reader)) }
{
    for &read in versions {
        remove_reader(readers, Reader { read, id });
    }
}

/// Removes a reader, if it is there.
fn remove_reader(readers: &mut BTreeSet<Reader>, reader: Reader)
    ensures exact { (other : ReaderOf) → has_reader readers.new.keys other
        ≡ (has_reader readers.old.keys other && not (same_reader reader other)) }
{
    readers.remove(&reader);
}

/// Whether some pin reads a version. The first reader from there on tells.
pub(crate) fn is_read_by(readers: &BTreeSet<Reader>, read: Input) -> bool
    ensures exact { TellsIfRead readers.now.keys read result }
{
    let least = Reader { read, id: 0 };
    match readers.range(least..).next() {
        Some(reader) => reader.read == read,
        None => false,
    }
}
