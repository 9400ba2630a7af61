//! How a value is put behind a turn.

ghost use Rattle.std.specs.Prelude.{Some, [], ◌∷◌, ◌≡◌, IfErr, IfOk};
ghost use Rattle.turn_lock.specs.Passes.{first_known, told_by};
ghost use Rattle.turn_lock.specs.Turns.{IsFresh};

use crate::grows::Grows;
use crate::pass::Pass;
use crate::turn::Turn;
use atomic_table::{Refused, Table};
use std::alloc::{AllocError, Global};
use std::snapshot::Snapshot;

// How many numbers the first pass can give.
const ROOM: u32 = 4_294_967_294;

// The value that a refusal gives back.
fn only<V>(mut slots: Vec<Option<V>>) -> V
    requires one { (value : V) × (slots.items ≡ Some value ∷ []) }
    ensures exact { slots.items ≡ Some result ∷ [] }
{
    let slot = slots.pop();
    slots.destroy_empty();
    match slot {
        Some(Some(value)) => value,
        Some(None) => unreachable!(),
        None => unreachable!(),
    }
}

impl<V: Grows> Turn<V> {
    /// Puts a value behind a turn, and gives the first pass, of number 0. What the value has already
    /// is under that number.
    pub fn new(alloc: Global, value: V) -> Result<(Turn<V>, Pass<V>), (V, AllocError)>
        requires fresh { IsFresh V.meaning value }
        ensures turn { IfOk result (λ made. made.1.seat.table_id ≡ made.0.table.shared.table_id) }
        ensures told { IfOk result (λ made. told_by made.1.seat ≡ first_known V.meaning value) }
        ensures err { IfErr result (λ refused. refused.0 ≡ value) }
    {
        let length = value.length();
        let key = Snapshot::of(&value);
        let mut slots = match Vec::with_capacity(alloc, 1) {
            Ok(slots) => slots,
            Err(AllocError) => return Err((value, AllocError)),
        };
        slots.push_reserved(Some(value));
        match Table::new(alloc, &[2 * length], slots, &key) {
            Ok((table, seat)) => {
                let pass = Pass {
                    seat,
                    number: 0,
                    room: ROOM,
                    seen: length,
                };
                Ok((Turn { table }, pass))
            }
            Err(Refused { slots }) => Err((only(slots), AllocError)),
        }
    }
}
