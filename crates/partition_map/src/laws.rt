//! Laws of the definitions. Each is the contract of a function that does nothing.

ghost use Rattle.partition_map.specs.Partitions.{HasMutualParts};

/// A law: a partition of a view reads one of the source exactly if that one has it as a dependent.
pub fn dependents_mirror_sources()
    ensures law { HasMutualParts }
{}
