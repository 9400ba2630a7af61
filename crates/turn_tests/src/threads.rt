//! Callers in threads, each with a pass of its own.

ghost use Rattle.std.specs.Prelude.{◌≡◌, ◌≤◌};
ghost use Rattle.std.specs.Thread.{IsSync};
ghost use Rattle.turn_lock.specs.Passes.{told_by};
ghost use Rattle.turn_tests.specs.Passes.{
  AddsSome,
  EachAdded,
  HasBoth,
  HasEach,
  IsFirst,
  IsUnspent,
};

use crate::callers::add_all;
use crate::numbers::Numbers;
use std::sync::Wait;
use std::thread::{Threads, join};
use turn_lock::{Pass, Turn};

/// Two callers on two passes add their numbers, each in a thread of its own. The passes have the
/// numbers 0 and 4,294,967,294.
pub fn two_callers<R: Threads + Wait + Sync>(
    rt: &R,
    turn: Turn<Numbers>,
    mut pass: Pass<Numbers>,
    first: &[u32],
    second: &[u32],
) -> Numbers
    requires turn { pass.seat.table_id ≡ turn.table.shared.table_id }
    requires first { IsFirst (told_by pass.seat) }
    ensures both { HasBoth 4294967294 first.now second.now result.log.items }
{
    let other = turn.split(&mut pass, 0);
    let (mut pass, other) = add_in_two(rt, &turn, pass, first, other, second);
    turn.join(&mut pass, other);
    turn.close(pass)
}

/// A caller on a pass, and so many others on passes that are split off from it and from one another,
/// add the same numbers, each in a thread of its own. The passes of the others have the highest
/// numbers, up to 4,294,967,294. Passes are joined in the reverse of the order in which they were
/// split off.
pub fn many_callers<R: Threads + Wait + Sync>(
    rt: &R,
    turn: Turn<Numbers>,
    pass: Pass<Numbers>,
    others: u32,
    numbers: &[u32],
) -> Numbers
    requires turn { pass.seat.table_id ≡ turn.table.shared.table_id }
    requires first { IsFirst (told_by pass.seat) }
    requires others { others ≤ 4294967294 }
    ensures each { HasEach numbers.now result.log.items }
{
    let pass = add_in_threads(rt, &turn, pass, others, numbers);
    turn.close(pass)
}

/// Adds on two passes, each in a thread of its own.
fn add_in_two<R: Threads + Wait + Sync>(
    rt: &R,
    turn: &Turn<Numbers>,
    one: Pass<Numbers>,
    first: &[u32],
    other: Pass<Numbers>,
    second: &[u32],
) -> (Pass<Numbers>, Pass<Numbers>)
    requires turns { (one.seat.table_id ≡ turn.now.table.shared.table_id)
        × (other.seat.table_id ≡ turn.now.table.shared.table_id) }
    ensures turns { (result.0.seat.table_id ≡ one.seat.table_id)
        × (result.1.seat.table_id ≡ other.seat.table_id) }
    ensures one { AddsSome first.now (told_by one.seat) (told_by result.0.seat) }
    ensures other { AddsSome second.now (told_by other.seat) (told_by result.1.seat) }
{
    join(
        rt,
        || -> Pass<Numbers>
            requires { one.seat.table_id ≡ turn.now.table.shared.table_id }
            ensures { (result.seat.table_id ≡ one.seat.table_id)
                × AddsSome first.entry.now (told_by one.seat) (told_by result.seat) }
        { add_some(rt, turn, one, first) },
        || -> Pass<Numbers>
            requires { other.seat.table_id ≡ turn.now.table.shared.table_id }
            ensures { (result.seat.table_id ≡ other.seat.table_id)
                × AddsSome second.entry.now (told_by other.seat) (told_by result.seat) }
        { add_some(rt, turn, other, second) },
    )
}

/// Adds numbers on a pass, and gives the pass alone.
fn add_some<R: Wait>(
    rt: &R,
    turn: &Turn<Numbers>,
    pass: Pass<Numbers>,
    numbers: &[u32],
) -> Pass<Numbers>
    requires turn { pass.seat.table_id ≡ turn.now.table.shared.table_id }
    ensures turn { result.seat.table_id ≡ pass.seat.table_id }
    ensures told { AddsSome numbers.now (told_by pass.seat) (told_by result.seat) }
{
    let (pass, _count) = add_all(rt, turn, pass, numbers);
    pass
}

/// Adds on a pass and on so many others, which are split off and joined again, each in a thread of
/// its own. Half of the others are split off from the pass, and half from its first child.
#[cycle(branches)]
fn add_in_threads<R: Threads + Wait + Sync>(
    rt: &R,
    turn: &Turn<Numbers>,
    mut pass: Pass<Numbers>,
    others: u32,
    numbers: &[u32],
) -> Pass<Numbers>
    requires turn { pass.seat.table_id ≡ turn.now.table.shared.table_id }
    requires room { others ≤ (told_by pass.seat).room }
    requires unspent { IsUnspent (told_by pass.seat) }
    ensures turn { result.seat.table_id ≡ pass.seat.table_id }
    ensures added { EachAdded numbers.now (told_by pass.seat) (told_by result.seat) }
{
    if others == 0 {
        return add_some(rt, turn, pass, numbers);
    }
    let below = (others - 1) / 2;
    let beside = others - 1 - below;
    let child = turn.split(&mut pass, below);
    let (mut pass, child) = join(
        rt,
        || -> Pass<Numbers>
            requires { IsSync R.row × (pass.seat.table_id ≡ turn.now.table.shared.table_id)
                × (beside ≤ (told_by pass.seat).room) × IsUnspent (told_by pass.seat) }
            ensures { (result.seat.table_id ≡ pass.seat.table_id)
                × EachAdded numbers.entry.now (told_by pass.seat) (told_by result.seat) }
        { add_in_threads(rt, turn, pass, beside, numbers) },
        || -> Pass<Numbers>
            requires { IsSync R.row × (child.seat.table_id ≡ turn.now.table.shared.table_id)
                × (below ≤ (told_by child.seat).room) × IsUnspent (told_by child.seat) }
            ensures { (result.seat.table_id ≡ child.seat.table_id)
                × EachAdded numbers.entry.now (told_by child.seat) (told_by result.seat) }
        { add_in_threads(rt, turn, child, below, numbers) },
    );
    turn.join(&mut pass, child);
    pass
}
