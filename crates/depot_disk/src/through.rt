//! A write that stays.

ghost use Rattle.std.specs.Prelude.{◌≡◌, ◌≤◌, length, option_map, Some, IfSome, OnOk};
ghost use Rattle.depot_io.specs.Causes.{HasCause};
ghost use Rattle.depot_disk.specs.Image.{Image, bytes_in, overwritten, written};
ghost use Rattle.depot_disk.specs.Torn.{Torn};
ghost use Rattle.depot_disk.specs.State.{Becomes, LeavesOnly, Stepped};

use crate::{Disk, DiskFailed};

/// Writes, and then syncs the file. After an Ok a stop leaves what was written.
pub fn write_through<D: Disk>(
    disk: &mut D,
    file: u64,
    at: u64,
    bytes: &[u8],
) -> Result<(), DiskFailed>
    requires no_gap { IfSome (D.state disk.old).holds (λ image.
        at ≤ length (bytes_in image file)) }
    ensures ok { OnOk result ((D.state disk.new).holds
        ≡ option_map (written file at bytes.now) (D.state disk.old).holds) }
    ensures part { Becomes (Torn file at (length bytes.now))
        (D.state disk.old).holds (D.state disk.new).holds }
    ensures durable { OnOk result (IfSome (D.state disk.old).holds (λ image.
        (left : Image) → (D.state disk.new).may_leave left
        → left file ≡ Some (overwritten (bytes_in image file) at bytes.now))) }
    // At each moment the write is torn at most.
    ensures any_moment { LeavesOnly (D.state disk.old) (D.state disk.new)
        (Stepped (Torn file at (length bytes.now)) (D.state disk.old).may_leave) }
    ensures cause { HasCause (D.state disk.old).faults (D.state disk.new).faults result }
    ensures loan { D.loan disk.new ≡ D.loan disk.old }
{
    disk.write(file, at, bytes)?;
    disk.sync(file)
}
