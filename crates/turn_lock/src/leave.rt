//! How the turn is freed.

ghost use Rattle.std.specs.Prelude.{◌≡◌};
ghost use Rattle.turn_lock.specs.Passes.{MayLeave, after_turn, told_by};

use crate::grows::Grows;
use crate::pass::{Held, Pass};
use crate::steps::Free;
use crate::turn::Turn;

impl<V: Grows> Turn<V> {
    /// Puts the value home, frees the turn, and gives the pass back. It does not wait.
    pub fn leave(&self, held: Held<'_, V>) -> Pass<V>
        requires turn { held.seat.table_id ≡ self.now.table.shared.table_id }
        requires may { MayLeave V.meaning held.seat held.value }
        ensures turn { result.seat.table_id ≡ held.entry.seat.table_id }
        ensures told { told_by result.seat
            ≡ after_turn V.meaning (told_by held.entry.seat) held.entry.value }
    {
        let Held {
            value,
            mut seat,
            number,
            room,
            turn: _,
        } = held;
        let shared = &self.table.shared;
        let length = value.length();
        match shared.exchange(&mut seat, 0, Some(value)) {
            None => {}
            Some(_) => unreachable!(),
        }
        shared.store::<Free<V>>(&mut seat, 0, 2 * length);
        Pass {
            seat,
            number,
            room,
            seen: length,
        }
    }
}
