//! Callers that take turns on numbers.

ghost use Rattle.std.specs.Prelude.{[], ◌∷◌, ◌≡◌, ◌≤◌, IfOk, if◌then◌else◌, length, take};
ghost use Rattle.turn_lock.specs.Passes.{told_by};
ghost use Rattle.turn_tests.specs.Passes.{IsFirst, TakesTurns};

use crate::numbers::Numbers;
use std::alloc::{AllocError, Global};
use std::sync::Wait;
use turn_lock::{Pass, Turn};

/// Puts a log without numbers behind a turn, and gives the first pass.
pub fn open(alloc: Global, first: u32) -> Result<(Turn<Numbers>, Pass<Numbers>), AllocError>
    ensures turn { IfOk result (λ made. made.1.seat.table_id ≡ made.0.table.shared.table_id) }
    ensures first { IfOk result (λ made. IsFirst (told_by made.1.seat)) }
{
    match Turn::new(alloc, Numbers::new(alloc, first)) {
        Ok(made) => Ok(made),
        Err((_, refused)) => Err(refused),
    }
}

/// Adds a number in one turn. False if it was not added.
pub fn add_one<R: Wait>(
    rt: &R,
    turn: &Turn<Numbers>,
    pass: Pass<Numbers>,
    number: u32,
) -> (Pass<Numbers>, bool)
    requires turn { pass.seat.table_id ≡ turn.now.table.shared.table_id }
    ensures turn { result.0.seat.table_id ≡ pass.seat.table_id }
    ensures told { TakesTurns (if result.1 then number ∷ [] else []) 0
        (told_by pass.seat) (told_by result.0.seat) }
{
    let by = pass.number();
    let mut held = turn.enter(rt, pass);
    let added = held.value.add(by, number);
    (turn.leave(held), added)
}

/// Adds numbers, each in a turn of its own, up to the first that is not added. It answers how many
/// were.
pub fn add_all<R: Wait>(
    rt: &R,
    turn: &Turn<Numbers>,
    mut pass: Pass<Numbers>,
    numbers: &[u32],
) -> (Pass<Numbers>, usize)
    requires turn { pass.seat.table_id ≡ turn.now.table.shared.table_id }
    ensures turn { result.0.seat.table_id ≡ pass.seat.table_id }
    ensures within { result.1 ≤ length numbers.now }
    ensures told { TakesTurns (take result.1 numbers.now) 0
        (told_by pass.seat) (told_by result.0.seat) }
{
    let mut count = 0;
    for &number in numbers {
        let (after, added) = add_one(rt, turn, pass, number);
        pass = after;
        if !added {
            return (pass, count);
        }
        count += 1;
    }
    (pass, count)
}

/// Lets one turn fail. False if it did not.
pub fn fail_one<R: Wait>(
    rt: &R,
    turn: &Turn<Numbers>,
    pass: Pass<Numbers>,
    failure: (u32, u32),
) -> (Pass<Numbers>, bool)
    requires turn { pass.seat.table_id ≡ turn.now.table.shared.table_id }
    ensures turn { result.0.seat.table_id ≡ pass.seat.table_id }
    ensures told { TakesTurns [] (if result.1 then 1 else 0)
        (told_by pass.seat) (told_by result.0.seat) }
{
    let by = pass.number();
    let mut held = turn.enter(rt, pass);
    let failed = held.value.fail(by, failure);
    (turn.leave(held), failed)
}

/// Finishes the numbers in one turn, unless another pass has done so.
pub fn finish_one<R: Wait>(rt: &R, turn: &Turn<Numbers>, pass: Pass<Numbers>) -> Pass<Numbers>
    requires turn { pass.seat.table_id ≡ turn.now.table.shared.table_id }
    ensures turn { result.seat.table_id ≡ pass.seat.table_id }
    ensures told { TakesTurns [] 0 (told_by pass.seat) (told_by result.seat) }
{
    let by = pass.number();
    let mut held = turn.enter(rt, pass);
    held.value.finish(by);
    turn.leave(held)
}
