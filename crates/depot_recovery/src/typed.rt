//! The law of the types of what is kept.

ghost use Rattle.depot_recovery.specs.Typed.{HasTypedContents};

/// A law: the rows of each version of a partition have the types of its table's columns.
pub fn contents_have_types()
    ensures law { HasTypedContents }
{}
