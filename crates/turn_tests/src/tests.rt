//! The callers in threads. Each test joins its threads, and sees the same under every schedule.

ghost use Rattle.std.specs.Prelude.{◌≡◌};
ghost use Rattle.turn_lock.specs.Passes.{SamePass, told_by};
ghost use Rattle.turn_tests.specs.Passes.{IsFirst};

use crate::callers::{add_one, fail_one, finish_one, open};
use crate::numbers::Numbers;
use crate::threads::{many_callers, two_callers};
use std::sync::{Barrier, Wait};
use std::test::Fail;
use std::thread::{Threads, join, yield_now};
use turn_lock::{Pass, Turn};

/// Whether the numbers under a pass are these, in their order.
fn stand_under(value: &Numbers, by: u32, numbers: &[u32]) -> bool {
    let mut rest = numbers.iter();
    for &(pass, number) in &value.log {
        if pass == by && rest.next() != Some(&number) {
            return false;
        }
    }
    rest.next().is_none()
}

#[test]
fn two_callers_keep_their_orders(rt: HostRuntime) -> Result<(), Fail> {
    let alloc = rt.alloc();
    let first: Vec<u32> = (0..100).collect(alloc)?;
    let second: Vec<u32> = (1_000..1_100).rev().collect(alloc)?;
    let (turn, pass) = open(alloc, 7)?;
    let value = two_callers(&rt, turn, pass, &first, &second);
    assert!(rt; value.log.len() == 200);
    assert!(rt; stand_under(&value, 0, &first));
    assert!(rt; stand_under(&value, 4_294_967_294, &second));
    Ok(())
}

#[test]
fn eight_callers_keep_their_orders(rt: HostRuntime) -> Result<(), Fail> {
    let alloc = rt.alloc();
    let numbers: Vec<u32> = (0..20).collect(alloc)?;
    let (turn, pass) = open(alloc, 7)?;
    let value = many_callers(&rt, turn, pass, 7, &numbers);
    assert!(rt; value.log.len() == 160);
    assert!(rt; stand_under(&value, 0, &numbers));
    for by in 4_294_967_288..=4_294_967_294 {
        assert!(rt; stand_under(&value, by, &numbers), "under {by}");
    }
    Ok(())
}

/// Adds 1 in a first turn, in which the other thread begins to wait for its own, and 2 in a second.
fn add_twice<R: Wait>(
    rt: &R,
    turn: &Turn<Numbers>,
    pass: Pass<Numbers>,
    begun: &Barrier,
) -> Pass<Numbers>
    requires turn { pass.seat.table_id ≡ turn.now.table.shared.table_id }
    ensures turn { result.seat.table_id ≡ pass.seat.table_id }
    ensures same { SamePass (told_by pass.seat) (told_by result.seat) }
{
    let by = pass.number();
    let mut held = turn.enter(rt, pass);
    begun.wait(rt);
    for _ in 0..1_000 {
        yield_now();
    }
    held.value.add(by, 1);
    let (pass, _added) = add_one(rt, turn, turn.leave(held), 2);
    pass
}

/// Adds 3 once the other thread has the turn.
fn add_beside<R: Wait>(
    rt: &R,
    turn: &Turn<Numbers>,
    pass: Pass<Numbers>,
    begun: &Barrier,
) -> Pass<Numbers>
    requires turn { pass.seat.table_id ≡ turn.now.table.shared.table_id }
    ensures turn { result.seat.table_id ≡ pass.seat.table_id }
    ensures same { SamePass (told_by pass.seat) (told_by result.seat) }
{
    begun.wait(rt);
    let (pass, _added) = add_one(rt, turn, pass, 3);
    pass
}

/// The two of them in two threads.
fn enter_both<R: Threads + Wait + Sync>(
    rt: &R,
    turn: &Turn<Numbers>,
    pass: Pass<Numbers>,
    other: Pass<Numbers>,
    begun: &Barrier,
) -> (Pass<Numbers>, Pass<Numbers>)
    requires turns { (pass.seat.table_id ≡ turn.now.table.shared.table_id)
        × (other.seat.table_id ≡ turn.now.table.shared.table_id) }
    ensures turns { (result.0.seat.table_id ≡ pass.seat.table_id)
        × (result.1.seat.table_id ≡ other.seat.table_id) }
    ensures same { SamePass (told_by pass.seat) (told_by result.0.seat)
        × SamePass (told_by other.seat) (told_by result.1.seat) }
{
    join(
        rt,
        || -> Pass<Numbers>
            requires { pass.seat.table_id ≡ turn.now.table.shared.table_id }
            ensures { (result.seat.table_id ≡ pass.seat.table_id)
                × SamePass (told_by pass.seat) (told_by result.seat) }
        { add_twice(rt, turn, pass, begun) },
        || -> Pass<Numbers>
            requires { other.seat.table_id ≡ turn.now.table.shared.table_id }
            ensures { (result.seat.table_id ≡ other.seat.table_id)
                × SamePass (told_by other.seat) (told_by result.seat) }
        { add_beside(rt, turn, other, begun) },
    )
}

fn enter_twice<R: Threads + Wait + Sync>(
    rt: &R,
    turn: Turn<Numbers>,
    mut pass: Pass<Numbers>,
) -> Numbers
    requires turn { pass.seat.table_id ≡ turn.table.shared.table_id }
    requires first { IsFirst (told_by pass.seat) }
{
    let begun = Barrier::new(2);
    let other = turn.split(&mut pass, 0);
    let (mut pass, other) = enter_both(rt, &turn, pass, other, &begun);
    turn.join(&mut pass, other);
    turn.close(pass)
}

#[test]
fn a_pass_enters_twice_while_another_waits(rt: HostRuntime) -> Result<(), Fail> {
    let (turn, pass) = open(rt.alloc(), 7)?;
    let value = enter_twice(&rt, turn, pass);
    assert!(rt; value.log.len() == 3);
    assert!(rt; value.log.first() == Some(&(0, 1)));
    assert!(rt; stand_under(&value, 0, &[1, 2]));
    assert!(rt; stand_under(&value, 4_294_967_294, &[3]));
    Ok(())
}

/// A turn that fails, and one that finishes.
fn fail_and_finish<R: Wait>(
    rt: &R,
    turn: &Turn<Numbers>,
    pass: Pass<Numbers>,
    failure: (u32, u32),
) -> Pass<Numbers>
    requires turn { pass.seat.table_id ≡ turn.now.table.shared.table_id }
    ensures turn { result.seat.table_id ≡ pass.seat.table_id }
    ensures same { SamePass (told_by pass.seat) (told_by result.seat) }
{
    let (pass, _failed) = fail_one(rt, turn, pass, failure);
    finish_one(rt, turn, pass)
}

/// Three turns of two passes that fail, and three that finish.
fn fail_thrice<R: Wait>(rt: &R, turn: Turn<Numbers>, mut pass: Pass<Numbers>) -> Numbers
    requires turn { pass.seat.table_id ≡ turn.table.shared.table_id }
    requires first { IsFirst (told_by pass.seat) }
{
    let other = turn.split(&mut pass, 0);
    let other = fail_and_finish(rt, &turn, other, (1, 7));
    let mut pass = fail_and_finish(rt, &turn, pass, (2, 9));
    let other = fail_and_finish(rt, &turn, other, (3, 8));
    turn.join(&mut pass, other);
    turn.close(pass)
}

#[test]
fn what_turns_told_is_there_at_the_end(rt: HostRuntime) -> Result<(), Fail> {
    let (turn, pass) = open(rt.alloc(), 7)?;
    let value = fail_thrice(&rt, turn, pass);
    assert!(rt; value.first == 7);
    assert!(rt; value.log.is_empty());
    assert!(rt; value.level == 3);
    assert!(rt; value.closer == Some(4_294_967_294));
    assert!(rt; value.failure == Some((1, 7)));
    assert!(rt; value.failed.as_slice() == [4_294_967_294, 0, 4_294_967_294].as_slice());
    Ok(())
}
