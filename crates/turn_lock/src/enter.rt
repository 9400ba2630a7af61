//! How the turn is taken.

ghost use Rattle.std.specs.Prelude.{Some, ◌≡◌};
ghost use Rattle.turn_lock.specs.Passes.{Tells, found_by, told_by};
ghost use Rattle.turn_lock.specs.Steps.{Attempts, IsResting};

use crate::grows::Grows;
use crate::pass::{Held, Pass};
use crate::steps::{Place, Try};
use crate::turn::Turn;
use std::marker::PhantomData;
use std::sync::Wait;
use std::thread::yield_now;

impl<V: Grows> Turn<V> {
    /// Tries once to take the turn, and the value with it.
    fn attempt(&self, seat: &mut Place<V>) -> Option<V>
        requires turn { seat.old.table_id ≡ self.now.table.shared.table_id }
        requires rests { IsResting seat.old.me }
        ensures turn { seat.new.table_id ≡ seat.old.table_id }
        ensures exact { Attempts V.meaning seat.old.me result seat.new.me }
    {
        let shared = &self.table.shared;
        let found = shared.peek(0);
        if found % 2 != 0 {
            return None;
        }
        if shared.compare_exchange::<Try<V>>(seat, 0, found, found + 1) != found {
            return None;
        }
        shared.exchange(seat, 0, None)
    }

    /// Takes the turn, and may wait for it without end.
    pub fn enter<R: Wait>(&self, rt: &R, pass: Pass<V>) -> Held<'_, V>
        requires turn { pass.seat.table_id ≡ self.now.table.shared.table_id }
        ensures turn { result.seat.table_id ≡ pass.seat.table_id }
        ensures found { found_by result.seat ≡ Some result.value }
        ensures told { told_by result.seat ≡ told_by pass.seat }
        ensures tells { Tells V.meaning (told_by pass.seat) result.value }
    {
        let Pass {
            mut seat,
            number,
            room,
            seen: _,
        } = pass;
        for _ in rt.forever() {
            if let Some(value) = self.attempt(&mut seat) {
                return Held {
                    value,
                    seat,
                    number,
                    room,
                    turn: PhantomData,
                };
            }
            yield_now();
        }
        unreachable!()
    }
}
