//! Laws of how an image that holds a depot goes on holding one.

ghost use Rattle.depot_recovery.specs.Growth.{BodiesGrow, ClaimsTellRows, DepotsComeWhole};
ghost use Rattle.depot_recovery.specs.Growth.{DepotsGrow, EmptyDepotsAreSound};
ghost use Rattle.depot_recovery.specs.Growth.{OnlyBodiesCount, OnlyNeededFilesCount};
ghost use Rattle.depot_recovery.specs.Growth.{SomeFilesDoNotCount};

/// A law: an image holds its depot still if a file changes that is not needed.
pub fn only_needed_files_count()
    ensures law { OnlyNeededFilesCount }
{}

/// A law: no file of an entry to come is needed, nor of an install that a later one has replaced.
pub fn some_files_do_not_count()
    ensures law { SomeFilesDoNotCount }
{}

/// A law: an image holds its depot still if its catalogue is another one of the same bodies.
pub fn only_bodies_count()
    ensures law { OnlyBodiesCount }
{}

/// A law: an image that gains an entry holds the depot with it.
pub fn depots_grow()
    ensures law { DepotsGrow }
{}

/// A law: the catalogue of a depot with one entry more has one body more.
pub fn bodies_grow()
    ensures law { BodiesGrow }
{}

/// A law: the mark file and a catalogue of a description alone are a depot without entries.
pub fn empty_depots_are_sound()
    ensures law { EmptyDepotsAreSound }
{}

/// A law: while a depot is made, a stop leaves none or the empty one.
pub fn depots_come_whole()
    ensures law { DepotsComeWhole }
{}

/// A law: an install adds the rows of its claim.
pub fn claims_tell_rows()
    ensures law { ClaimsTellRows }
{}
