//! The law of the catalogue's bytes.

ghost use Rattle.catalog_journal.specs.Laws.{CatalogsHaveOneReading};

/// A law: bytes are a catalogue of one list of bodies at most, and it is what they are read as; all
/// others are damaged at one place, and it is the place that is read.
pub fn catalogs_have_one_reading()
    ensures law { CatalogsHaveOneReading }
{}
