//! How a disk counts its faults.

ghost use Rattle.std.specs.Prelude.{◌≡◌};
ghost use Rattle.depot_io.specs.Causes.{Rose, next_count};

use crate::DiskFailed;

/// Counts a fault, and answers it.
pub(crate) fn count_fault(faults: &mut u64) -> DiskFailed
    ensures exact { faults.new ≡ next_count faults.old }
    ensures rose { Rose faults.old faults.new }
{
    *faults = faults.saturating_add(1);
    DiskFailed
}
