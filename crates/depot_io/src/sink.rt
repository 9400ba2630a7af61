//! The trait of what bytes are put into, and a call that puts all of them.
ghost use Rattle.std.specs.Prelude.{ℕ, List, ◌<◌, length, IfOk, OnOk, OnErr};
ghost use Rattle.std.specs.declared.option.Option.{Option};
ghost use Rattle.std.specs.Io.{WritesAtMost};
ghost use Rattle.std.specs.Io.KnownBytes.{WriteAppends, Appends};
ghost use Rattle.depot_io.specs.Causes.{HasCause};
ghost use Rattle.depot_io.specs.Puts.{GainsPrefix, PutsWithin, TakesWithin};

use crate::Failed;

/// A sink failed before it had all of the bytes.
#[derive(Clone, Copy, Debug, PartialEq, Eq)]
pub struct WriteFault;

/// What bytes are put into, in order.
pub trait Sink {
    /// The bytes that it has got, if the sink tells them.
    ghost bytes_got: { Self → Option (List ℕ) };

    /// How many more bytes it is sure to take, if the sink tells that.
    ghost room: { Self → Option ℕ };

    /// How often a call has failed.
    ghost faults: { Self → ℕ };

    /// Puts as many of the bytes as it takes at once, from their front, and at least one if
    /// there is one. It takes all of them if they fit the room that it tells.
    fn put(&mut self, bytes: &[u8]) -> Result<usize, Failed>
        ensures within { WritesAtMost result bytes.now }
        ensures some { IfOk result (λ count. 0 < length bytes.now → 0 < count) }
        ensures gained { WriteAppends (bytes_got self.old) (bytes_got self.new) result bytes.now }
        ensures room { TakesWithin (room self.old) (room self.new) bytes.now result }
        ensures cause { HasCause (faults self.old) (faults self.new) result };
}

impl<K: Sink> Sink for &mut K {
    ghost bytes_got = { λ sink. K.bytes_got sink.now };

    ghost room = { λ sink. K.room sink.now };

    ghost faults = { λ sink. K.faults sink.now };

    fn put(&mut self, bytes: &[u8]) -> Result<usize, Failed> {
        Sink::put(&mut **self, bytes)
    }
}

/// Puts all of the bytes. After a fault the sink has got some of them, from their front.
pub fn put_all<O: Sink>(sink: &mut O, bytes: &[u8]) -> Result<(), WriteFault>
    ensures ok { OnOk result (Appends (O.bytes_got sink.old) (O.bytes_got sink.new) bytes.now) }
    ensures err { OnErr result
        (GainsPrefix (O.bytes_got sink.old) (O.bytes_got sink.new) bytes.now) }
    ensures room { PutsWithin (O.room sink.old) (O.room sink.new) bytes.now result }
    ensures cause { HasCause (O.faults sink.old) (O.faults sink.new) result }
{
    let mut at = 0;
    while at < bytes.len() {
        match sink.put(&bytes[at..]) {
            Ok(count) => at += count,
            Err(Failed) => return Err(WriteFault),
        }
    }
    Ok(())
}
