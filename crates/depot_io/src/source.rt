//! The trait of what bytes are taken from.
ghost use Rattle.std.specs.Prelude.{◌≡◌, ℕ, List, length, min, take, Some};
ghost use Rattle.std.specs.declared.option.Option.{Option};
ghost use Rattle.std.specs.Borrow.{GName};
ghost use Rattle.std.specs.Io.{ReadsAtMost};
ghost use Rattle.std.specs.Io.KnownBytes.{ReadConsumes};
ghost use Rattle.depot_io.specs.Causes.{HasCause, Rose, next_count};

/// A call of the outside failed, and did nothing.
#[derive(Clone, Copy, Debug, PartialEq, Eq)]
pub struct Failed;

/// What bytes are taken from, in order.
pub trait Source {
    /// The bytes that are still to come, if the source tells them.
    ghost bytes_left: { Self → Option (List ℕ) };

    /// How often a call has failed.
    ghost faults: { Self → ℕ };

    /// The name of the reference, if the source is a lent one. It ties what a reader took to
    /// what the lender gets back.
    ghost loan: { Self → Option GName };

    /// Takes up to as many bytes as the piece has room for, into its front. For a piece with
    /// room, 0 is the end of input.
    fn take(&mut self, into: &mut [u8]) -> Result<usize, Failed>
        ensures within { ReadsAtMost result into.new }
        ensures left { ReadConsumes (bytes_left self.old) (bytes_left self.new) result into.new }
        ensures cause { HasCause (faults self.old) (faults self.new) result }
        ensures loan { loan self.new ≡ loan self.old };
}

impl<S: Source> Source for &mut S {
    ghost bytes_left = { λ source. S.bytes_left source.now };

    ghost faults = { λ source. S.faults source.now };

    ghost loan = { λ source. Some source.ghost_name };

    fn take(&mut self, into: &mut [u8]) -> Result<usize, Failed> {
        Source::take(&mut **self, into)
    }
}

/// Counts a fault, and answers it.
pub(crate) fn count_fault(faults: &mut u64) -> Failed
    ensures exact { faults.new ≡ next_count faults.old }
    ensures rose { Rose faults.old faults.new }
{
    *faults = faults.saturating_add(1);
    Failed
}

/// Copies as many bytes as the piece has room for, into its front, and answers how many.
pub(crate) fn copy_front(from: &[u8], into: &mut [u8]) -> usize
    ensures exact { result ≡ min (length into.old) (length from.now) }
    ensures copied { take result into.new ≡ take result from.now }
{
    let count = into.len().min(from.len());
    into[..count].copy_from_slice(&from[..count]);
    count
}
