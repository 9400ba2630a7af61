//! How passes are split and joined. Neither takes the turn, and neither waits.

ghost use Rattle.std.specs.Prelude.{Some, ◌<◌, ◌≡◌, true};
ghost use Rattle.turn_lock.specs.Passes.{after_join, after_split, split_off, told_by};

use crate::grows::Grows;
use crate::pass::Pass;
use crate::steps::{Ask, Cut, Unite};
use crate::turn::Turn;

impl<V: Grows> Turn<V> {
    /// Splits off a pass that has room for so many numbers. It gets the upper end of the numbers
    /// that the pass may give.
    pub fn split(&self, pass: &mut Pass<V>, room: u32) -> Pass<V>
        requires turn { pass.old.seat.table_id ≡ self.now.table.shared.table_id }
        requires room { room < (told_by pass.old.seat).room }
        ensures turn { (pass.new.seat.table_id ≡ pass.old.seat.table_id)
            × (result.seat.table_id ≡ pass.old.seat.table_id) }
        ensures told { told_by pass.new.seat ≡ after_split (told_by pass.old.seat) room }
        ensures other { told_by result.seat
            ≡ split_off V.meaning.unused (told_by pass.old.seat) room }
    {
        let shared = &self.table.shared;
        // The exchange of a number for itself changes nothing. It says which room the split gives.
        let asked = room as u64;
        shared.compare_exchange::<Ask<V>>(&mut pass.seat, 0, asked, asked);
        let seat = shared.split_seat::<Cut<V>>(&mut pass.seat);
        let number = pass.number + (pass.room - room);
        pass.room = pass.room - room - 1;
        Pass {
            seat,
            number,
            room,
            seen: pass.seen,
        }
    }

    /// Joins a pass to the one that it was split off from.
    pub fn join(&self, pass: &mut Pass<V>, other: Pass<V>)
        requires turn { (pass.old.seat.table_id ≡ self.now.table.shared.table_id)
            × (other.seat.table_id ≡ self.now.table.shared.table_id) }
        requires parent { (told_by other.seat).parent ≡ Some (told_by pass.old.seat).number }
        requires none_left { (told_by other.seat).to_join ≡ 0 }
        requires empty { V.meaning.is_empty (told_by other.seat).own.part ≡ true }
        ensures turn { pass.new.seat.table_id ≡ pass.old.seat.table_id }
        ensures told { told_by pass.new.seat
            ≡ after_join (told_by pass.old.seat) (told_by other.seat) }
    {
        let Pass {
            seat,
            number: _,
            room: _,
            seen,
        } = other;
        self.table
            .shared
            .join_seat::<Unite<V>>(&mut pass.seat, seat);
        pass.seen = pass.seen.max(seen);
    }
}
