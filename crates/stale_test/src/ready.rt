//! What a walk upwards from some partitions finds, before an entry that changes them is noted.

ghost use Rattle.std.specs.Prelude.{◌≡◌, [], All, IfOk, true};
ghost use Rattle.view_meaning.specs.Partitions.{is_among, is_part};
ghost use Rattle.view_meaning.specs.Reached.{reached};
ghost use Rattle.stale_test.specs.Readers.{AreReaders};

use crate::reached::reached_keys;
use crate::readers::reader_keys;
use depot_cell::Memory;
use desc_types::{AcceptedDesc, Key};
use std::alloc::Global;

/// The partitions of views that read one of some keys, and those that rest on one of them.
#[derive(Debug, Drop)]
pub(crate) struct Ready {
    pub(crate) readers: Vec<Key>,
    pub(crate) above: Vec<Key>,
}

impl Ready {
    /// No partition.
    pub(crate) fn new(alloc: Global) -> Ready
        ensures readers { result.readers.items ≡ [] }
        ensures above { result.above.items ≡ [] }
    {
        Ready {
            readers: Vec::new(alloc),
            above: Vec::new(alloc),
        }
    }

    /// What a walk upwards from some keys finds.
    pub(crate) fn walk(alloc: Global, served: &AcceptedDesc, keys: &[Key]) -> Result<Ready, Memory>
        requires parts { All (λ key. is_part served.now.desc key ≡ true) keys.now }
        ensures readers { IfOk result (λ ready.
            AreReaders served.now.desc keys.now ready.readers.items) }
        ensures above { IfOk result (λ ready.
            ready.above.items ≡ reached served.now.desc (is_among keys.now)) }
    {
        Ok(Ready {
            readers: reader_keys(alloc, &served.desc, keys)?,
            above: reached_keys(alloc, &served.desc, keys)?,
        })
    }

    /// What memory is taken from.
    pub(crate) fn allocator(&self) -> Global {
        *self.above.allocator()
    }
}
