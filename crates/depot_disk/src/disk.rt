//! The trait of what files are kept on.

ghost use Rattle.std.specs.Prelude.{◌≡◌, ◌≤◌, ℕ, length, option_map, None, Some, IfOk, OnOk, IfSome};
ghost use Rattle.std.specs.declared.option.Option.{Option};
ghost use Rattle.std.specs.Borrow.{GName};
ghost use Rattle.depot_disk.specs.Image.{SameElsewhere, bytes_in, without, written};
ghost use Rattle.depot_disk.specs.Torn.{IsFirstFrom, IsPiece, MayLose, Torn};
ghost use Rattle.depot_disk.specs.State.{Becomes, DiskState, Fixed, IsCall, IsDiskState};
ghost use Rattle.depot_disk.specs.State.{IsReading, Stepped, Unchanged, Within};

/// A call of the disk failed. What it may have done is told with the call.
#[derive(Clone, Copy, Debug, PartialEq, Eq)]
pub struct DiskFailed;

/// Files that are named by numbers.
///
/// Until a file is synced, a stop may leave any bytes in what was written of it. A call fails only
/// if the disk counted a fault.
pub trait Disk {
    /// What the disk tells of itself to proofs.
    ghost state: { Self → DiskState };

    /// The name of the reference, if the disk is a lent one. It ties what was done to it to what
    /// the lender gets back.
    ghost loan: { Self → Option GName };

    /// How many bytes a file has, or None if it is absent.
    fn size(&mut self, file: u64) -> Result<Option<u64>, DiskFailed>
        ensures exact { IfOk result (λ size. IfSome (state self.old).holds (λ image.
            size ≡ option_map length (image file))) }
        ensures reading { IsReading (state self.old) (state self.new) result }
        ensures loan { loan self.new ≡ loan self.old };

    /// The least number of a present file from one on.
    fn first_from(&mut self, file: u64) -> Result<Option<u64>, DiskFailed>
        ensures exact { IfOk result (λ first. IfSome (state self.old).holds (λ image.
            IsFirstFrom image file first)) }
        // Of a disk that tells nothing, too.
        ensures within { IfOk result (λ first. IfSome first (λ number. file ≤ number)) }
        ensures reading { IsReading (state self.old) (state self.new) result }
        ensures loan { loan self.new ≡ loan self.old };

    /// Puts bytes of a file, from a place on, into the front of a piece, and answers how many.
    fn read(&mut self, file: u64, at: u64, into: &mut [u8]) -> Result<usize, DiskFailed>
        ensures exact { IfOk result (λ count. IfSome (state self.old).holds (λ image.
            IsPiece (bytes_in image file) at count into.new)) }
        ensures within { IfOk result (λ count. count ≤ length into.new) }
        ensures reading { IsReading (state self.old) (state self.new) result }
        ensures loan { loan self.new ≡ loan self.old };

    /// Writes over what is there, and past the end. It makes the file if that is absent.
    fn write(&mut self, file: u64, at: u64, bytes: &[u8]) -> Result<(), DiskFailed>
        requires no_gap { IfSome (state self.old).holds (λ image.
            at ≤ length (bytes_in image file)) }
        ensures ok { OnOk result ((state self.new).holds
            ≡ option_map (written file at bytes.now) (state self.old).holds) }
        ensures part { Becomes (Torn file at (length bytes.now))
            (state self.old).holds (state self.new).holds }
        ensures left { Within (state self.new).may_leave
            (Stepped (Torn file at (length bytes.now)) (state self.old).may_leave) }
        ensures call { IsCall (state self.old) (state self.new) result }
        ensures loan { loan self.new ≡ loan self.old };

    /// After it a stop leaves the file as it is held.
    fn sync(&mut self, file: u64) -> Result<(), DiskFailed>
        ensures ok { OnOk result (IfSome (state self.old).holds (λ image.
            Fixed file image (state self.new).may_leave)) }
        ensures held { (state self.new).holds ≡ (state self.old).holds }
        ensures left { Within (state self.new).may_leave (state self.old).may_leave }
        ensures absent { IfSome (state self.old).holds (λ image.
            image file ≡ None → Unchanged (state self.old) (state self.new)) }
        ensures call { IsCall (state self.old) (state self.new) result }
        ensures loan { loan self.new ≡ loan self.old };

    /// Takes a file away. A stop may leave it, with any bytes, until it is written and synced again.
    fn remove(&mut self, file: u64) -> Result<(), DiskFailed>
        ensures ok { OnOk result ((state self.new).holds
            ≡ option_map (without file) (state self.old).holds) }
        ensures part { Becomes (MayLose file) (state self.old).holds (state self.new).holds }
        ensures left { Within (state self.new).may_leave
            (Stepped (SameElsewhere file) (state self.old).may_leave) }
        ensures absent { IfSome (state self.old).holds (λ image.
            image file ≡ None → Unchanged (state self.old) (state self.new)) }
        ensures call { IsCall (state self.old) (state self.new) result }
        ensures loan { loan self.new ≡ loan self.old };

    /// What it tells is of one piece.
    ghost one_piece: { (disk : Self) → IsDiskState (state disk) };
}

impl<D: Disk> Disk for &mut D {
    ghost state = { λ disk. D.state disk.now };

    ghost loan = { λ disk. Some disk.ghost_name };

    fn size(&mut self, file: u64) -> Result<Option<u64>, DiskFailed> {
        Disk::size(&mut **self, file)
    }

    fn first_from(&mut self, file: u64) -> Result<Option<u64>, DiskFailed> {
        Disk::first_from(&mut **self, file)
    }

    fn read(&mut self, file: u64, at: u64, into: &mut [u8]) -> Result<usize, DiskFailed> {
        Disk::read(&mut **self, file, at, into)
    }

    fn write(&mut self, file: u64, at: u64, bytes: &[u8]) -> Result<(), DiskFailed> {
        Disk::write(&mut **self, file, at, bytes)
    }

    fn sync(&mut self, file: u64) -> Result<(), DiskFailed> {
        Disk::sync(&mut **self, file)
    }

    fn remove(&mut self, file: u64) -> Result<(), DiskFailed> {
        Disk::remove(&mut **self, file)
    }

    ghost one_piece = { λ disk. D.one_piece disk.now };
}
