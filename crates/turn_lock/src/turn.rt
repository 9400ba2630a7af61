//! The value behind a turn.

ghost use Rattle.std.specs.Prelude.{◌≡◌};

use crate::grows::Grows;
use crate::steps::{Law, ViewOf};
use atomic_table::Table;
use std::alloc::Global;
use std::snapshot::Snapshot;

/// A value, and the one turn on it.
pub struct Turn<V: Grows> {
    pub(crate) table: Table<Option<V>, ViewOf<V>, Snapshot<V>, Law<V>, Global>,
    ghost sized: { (table.shared.table_id.words ≡ 1) × (table.shared.table_id.slots ≡ 1) },
}
