//! How the value comes back.

ghost use Rattle.std.specs.Prelude.{◌≡◌};
ghost use Rattle.turn_lock.specs.Passes.{TellsAll, told_by};

use crate::grows::Grows;
use crate::pass::Pass;
use crate::turn::Turn;

impl<V: Grows> Turn<V> {
    /// Gives the value back. The pass is the first one, and every other is joined.
    pub fn close(self, pass: Pass<V>) -> V
        requires turn { pass.seat.table_id ≡ self.table.shared.table_id }
        requires first { (told_by pass.seat).number ≡ 0 }
        requires none_left { (told_by pass.seat).to_join ≡ 0 }
        ensures tells { TellsAll V.meaning (told_by pass.seat) result }
    {
        let Turn { table } = self;
        let Pass {
            seat,
            number: _,
            room: _,
            seen: _,
        } = pass;
        let mut closed = table.close_with(seat);
        let slot = closed.take(0);
        closed.free();
        match slot {
            Some(value) => value,
            None => unreachable!(),
        }
    }
}
