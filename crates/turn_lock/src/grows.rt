//! What a value behind a turn has to tell.

ghost use Rattle.std.specs.Prelude.{◌≡◌, ◌≤◌, length};
ghost use Rattle.turn_lock.specs.Turns.{Meaning};

/// A value whose log only grows, and which has a part for each pass.
pub trait Grows {
    type Start;

    type Entry;

    type Part;

    /// What its values tell.
    ghost meaning: { Meaning Self Self.Start Self.Entry Self.Part };

    /// The length of the log.
    fn length(&self) -> u64
        ensures exact { result ≡ length (meaning.log self.now) }
        ensures within { result ≤ 4294967295 };
}
