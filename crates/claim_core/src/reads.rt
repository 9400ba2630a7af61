//! Lists of versions.

ghost use Rattle.std.specs.Prelude.{◌≡◌, [], IfOk, map};
ghost use Rattle.claim_core.specs.Cores.{version_shown};

use depot_cell::Memory;
use query_pin::Input;
use std::alloc::Global;
use view_meaning::PinItem;

/// The versions that are read to compute a partition, without empty ones: those of the left source
/// first, `left` of them.
#[derive(Debug, Drop)]
pub(crate) struct Reads {
    pub(crate) inputs: Vec<Input>,
    pub(crate) left: u64,
}

impl Reads {
    /// Nothing is read.
    pub(crate) fn none(alloc: Global) -> Reads
        ensures inputs { result.inputs.items ≡ [] }
        ensures left { result.left ≡ 0 }
    {
        Reads {
            inputs: Vec::new(alloc),
            left: 0,
        }
    }
}

/// A copy of some versions.
pub(crate) fn copied(alloc: Global, inputs: &[Input]) -> Result<Vec<Input>, Memory>
    ensures exact { IfOk result (λ copies. copies.items ≡ inputs.now) }
{
    let mut copies = Vec::new(alloc);
    for &input in inputs {
        copies.push(input)?;
    }
    Ok(copies)
}

/// The versions that an answer tells of.
pub(crate) fn versions_shown(alloc: Global, items: &[PinItem]) -> Result<Vec<Input>, Memory>
    ensures exact { IfOk result (λ versions. versions.items ≡ map version_shown items.now) }
{
    let mut versions = Vec::new(alloc);
    for item in items {
        versions.push(Input {
            key: item.key,
            version: item.version,
        })?;
    }
    Ok(versions)
}
