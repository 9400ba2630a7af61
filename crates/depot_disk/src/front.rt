//! A file is read from its first byte on.

ghost use Rattle.std.specs.Prelude.{◌≡◌, ◌≤◌, length, IfOk, IfSome};
ghost use Rattle.depot_disk.specs.Image.{bytes_in};
ghost use Rattle.depot_disk.specs.Front.{IsFront};
ghost use Rattle.depot_disk.specs.State.{IsReading};

use crate::{Disk, DiskFailed};

/// Fills a piece with the bytes of a file from its first one on, and answers how many there were:
/// fewer than the piece has room for only if the file ends.
pub fn read_front<D: Disk>(disk: &mut D, file: u64, into: &mut [u8]) -> Result<usize, DiskFailed>
    ensures exact { IfOk result (λ count. IfSome (D.state disk.old).holds (λ image.
        IsFront (bytes_in image file) count into.new)) }
    // Of a disk that tells nothing, too.
    ensures within { IfOk result (λ count. count ≤ length into.new) }
    ensures size { length into.new ≡ length into.old }
    ensures reading { IsReading (D.state disk.old) (D.state disk.new) result }
    ensures loan { D.loan disk.new ≡ D.loan disk.old }
{
    let mut done = 0;
    loop {
        let count = disk.read(file, done as u64, &mut into[done..])?;
        if count == 0 {
            return Ok(done);
        }
        done += count;
    }
}
