//! What a thread holds between two turns, and in one.

ghost use Rattle.std.specs.Prelude.{None, [], ◌∷◌, ◌≡◌, ◌≤◌, ◌+◌, length};
ghost use Rattle.turn_lock.specs.Passes.{told_by};
ghost use Rattle.turn_lock.specs.Steps.{IsHolding, IsResting};

use crate::grows::Grows;
use crate::steps::Place;
use std::marker::PhantomData;

/// The right to take turns. If one is dropped, its parent has one left to join, and so the turn is
/// never closed.
#[derive(Drop)]
pub struct Pass<V: Grows> {
    pub(crate) seat: Place<V>,
    pub(crate) number: u32,
    pub(crate) room: u32,
    pub(crate) seen: u64,
    ghost rests: { IsResting seat.me },
    ghost number_is: { number ≡ (told_by seat).number },
    ghost room_is: { room ≡ (told_by seat).room },
    ghost seen_is: { seen ≡ length (told_by seat).seen.log },
    ghost within: { number + room ≤ 4294967294 },
}

/// The value, while its holder has the turn. It has no `Drop`, so it ends in `Turn::leave`.
pub struct Held<'a, V: Grows> {
    pub value: V,
    pub(crate) seat: Place<V>,
    pub(crate) number: u32,
    pub(crate) room: u32,
    pub(crate) turn: PhantomData<&'a u8>,
    ghost holds: { IsHolding seat.me },
    ghost number_is: { number ≡ (told_by seat).number },
    ghost room_is: { room ≡ (told_by seat).room },
    ghost within: { number + room ≤ 4294967294 },
}

impl<V: Grows> Pass<V> {
    pub fn number(&self) -> u32
        ensures exact { result ≡ (told_by self.now.seat).number }
    {
        self.number
    }

    /// The length of the log that it has seen.
    pub fn seen(&self) -> u64
        ensures exact { result ≡ length (told_by self.now.seat).seen.log }
    {
        self.seen
    }
}
