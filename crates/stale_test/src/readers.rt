//! The partitions of views that read one of some partitions: the next level above them.

ghost use Rattle.std.specs.Prelude.{◌≡◌, ◌≤◌, All, IfOk, length, true};
ghost use Rattle.desc_types.specs.Sources.{HasEarlierSources, HasFittingSources};
ghost use Rattle.view_meaning.specs.Partitions.{is_among, is_part};
ghost use Rattle.stale_test.specs.Readers.{AreReaders};

use crate::reached::{gained_parts, nth_table, push_above, push_keys, sort_parts};
use depot_cell::Memory;
use desc_types::{Desc, Key};
use std::alloc::Global;

/// The partitions of views that read one of the keys, by table, then by number, each once. The work
/// is by these, and by how many tables there are.
pub(crate) fn reader_keys(alloc: Global, desc: &Desc, keys: &[Key]) -> Result<Vec<Key>, Memory>
    requires few { length desc.now.tables ≤ 65_536 }
    requires earlier { HasEarlierSources desc.now }
    requires fits { HasFittingSources desc.now }
    requires parts { All (λ key. is_part desc.now key ≡ true) keys.now }
    ensures exact { IfOk result (λ readers. AreReaders desc.now keys.now readers.items) }
{
    let lists = gained_parts(alloc, desc, keys)?;
    let mut readers = Vec::new(alloc);
    for number in 0..desc.tables.len() {
        let mut parts = Vec::new(alloc);
        push_above(desc, nth_table(desc, number), &lists, &mut parts)?;
        sort_parts(&mut parts);
        push_keys(number as u16, &parts, &mut readers)?;
    }
    Ok(readers)
}
