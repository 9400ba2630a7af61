//! Every order of two claims, three loads, a pin and a reclaim, each beside a plain play.
//!
//! The moves stand in five lanes: each claim and its install, the loads, the pin and its end, and the
//! reclaim. In an order each lane makes its moves one by one, and others come between them.

ghost use Rattle.std.specs.Prelude.{◌≡◌, ◌+◌, ◌<◌, IfSome};

use crate::plain::{Plain, R0, R1, R2, R3, ROLL0, ROLL2, TOT0, TOT1};
use crate::playing::Played;
use crate::step::{Ask, Step, Told, expect_told};
use desc_types::Key;
use query_pin::Input;
use std::alloc::Global;
use std::test::Fail;
use view_meaning::Mark;

/// What happens at a turn.
#[derive(Clone, Copy)]
enum Move {
    /// The first claim is made, or the second.
    Claim(usize),
    /// The first claim is installed, or the second, unless it was refused.
    Install(usize),
    Take(Step),
}

const LOAD0: Move = Move::Take(Step::Load(0, 0, "r,12,a,3\n"));

const LOAD1: Move = Move::Take(Step::Load(1, 0, "r,3,a,4\nr,25,b,1\n"));

const LOAD2: Move = Move::Take(Step::Load(2, 0, "r,31,b,1\n"));

/// What the loads touch.
static TOUCHED: [&[Key]; 3] = [&[R1], &[R0, R2], &[R3]];

/// The moves of each lane.
type Lanes = [&'static [Move]; 5];

static FORTH: Lanes = [
    &[Move::Claim(0), Move::Install(0)],
    &[Move::Claim(1), Move::Install(1)],
    &[LOAD0, LOAD1, LOAD2],
    &[Move::Take(Step::Pin(Mark::Open)), Move::Take(Step::Unpin)],
    &[Move::Take(Step::Reclaim)],
];

/// The same with the loads the other way round.
static BACK: Lanes = [
    &[Move::Claim(0), Move::Install(0)],
    &[Move::Claim(1), Move::Install(1)],
    &[LOAD2, LOAD1, LOAD0],
    &[Move::Take(Step::Pin(Mark::Open)), Move::Take(Step::Unpin)],
    &[Move::Take(Step::Reclaim)],
];

/// How many turns there are.
const TURNS: usize = 10;

/// What is asked after a turn.
static ASKS: [Ask; 18] = [
    Ask::Len,
    Ask::Deliveries,
    Ask::Next,
    Ask::Dead,
    Ask::Version(R0),
    Ask::Version(R1),
    Ask::Version(R2),
    Ask::Version(R3),
    Ask::Version(TOT0),
    Ask::Version(TOT1),
    Ask::Settled(TOT0),
    Ask::Settled(TOT1),
    Ask::Settled(ROLL0),
    Ask::Settled(ROLL2),
    Ask::Entry(Input {
        key: TOT0,
        version: 1,
    }),
    Ask::Entry(Input {
        key: TOT0,
        version: 2,
    }),
    Ask::Entry(Input {
        key: TOT1,
        version: 1,
    }),
    Ask::Entry(Input {
        key: TOT1,
        version: 2,
    }),
];

/// An order, as far as it is made: its moves, how many there are, and how many each lane has made.
#[derive(Clone, Copy)]
struct Order {
    moves: [Move; 10],
    made: usize,
    taken: [usize; 5],
}

/// No move yet.
const NONE: Order = Order {
    moves: [Move::Claim(0); 10],
    made: 0,
    taken: [0; 5],
};

/// A core and a plain play side by side, and the ids of the two claims.
#[derive(Drop)]
struct Both {
    core: Played,
    plain: Plain,
    ids: [Option<u64>; 2],
}

impl Order {
    /// The order with the next move of a lane, if there is one. The claims are alike, so the second
    /// is made after the first.
    fn with_move(self, lanes: &Lanes, lane: usize) -> Option<Order>
        ensures within { IfSome result (λ next. self.made < 10) }
        ensures made { IfSome result (λ next. next.made ≡ self.made + 1) }
    {
        if self.made >= TURNS || (lane == 1 && self.taken[0] == 0) {
            return None;
        }
        let taken = self.taken.get(lane).copied()?;
        let more = lanes.get(lane)?.get(taken).copied()?;
        let mut next = self;
        next.moves[self.made] = more;
        next.made = self.made + 1;
        next.taken[lane] = taken.saturating_add(1);
        Some(next)
    }
}

impl Both {
    /// Nothing played.
    fn new(alloc: Global) -> Result<Both, Fail> {
        Ok(Both {
            core: Played::new(alloc)?,
            plain: Plain::new(alloc, &TOUCHED),
            ids: [None; 2],
        })
    }

    /// Makes a move.
    fn make(self, alloc: Global, next: Move) -> Result<Both, Fail> {
        match next {
            Move::Claim(number) => self.claim(alloc, number),
            Move::Install(number) => self.install(alloc, number),
            Move::Take(step) => {
                let (both, _) = self.take(alloc, step)?;
                Ok(both)
            }
        }
    }

    /// Makes one of the claims: of the first ready partition of the first view, or of its first one
    /// if none is ready.
    fn claim(self, alloc: Global, number: usize) -> Result<Both, Fail> {
        let key = match self.plain.next_ready() {
            Some(key) if key.table == TOT0.table => key,
            _ => TOT0,
        };
        let (mut both, told) = self.take(alloc, Step::Claim(key))?;
        if let Told::Claimed(id, _, _, _, _) = told {
            if let Some(place) = both.ids.get_mut(number) {
                *place = Some(id);
            }
        }
        Ok(both)
    }

    /// Installs one of the claims, unless it was refused.
    fn install(self, alloc: Global, number: usize) -> Result<Both, Fail> {
        match self.ids.get(number) {
            Some(Some(id)) => {
                let step = Step::Install(*id);
                let (both, _) = self.take(alloc, step)?;
                Ok(both)
            }
            _ => Ok(self),
        }
    }

    /// Takes a step, to which both have to give one answer.
    fn take(self, alloc: Global, step: Step) -> Result<(Both, Told), Fail> {
        let Both {
            core,
            mut plain,
            ids,
        } = self;
        let want = plain.take(alloc, step)?;
        let (core, told) = core.take(alloc, step)?;
        expect_told(0, told, want)?;
        Ok((Both { core, plain, ids }, told))
    }

    /// Expects that both tell the same.
    fn compare(&self, alloc: Global) -> Result<(), Fail> {
        for (index, &ask) in ASKS.iter().enumerate() {
            expect_told(index, self.core.told(alloc, ask)?, self.plain.told(ask))?;
        }
        Ok(())
    }
}

/// Plays an order, and compares what is told after each turn from one on.
fn play(alloc: Global, moves: &[Move], from: usize) -> Result<(), Fail> {
    let mut both = Both::new(alloc)?;
    for (turn, &next) in moves.iter().enumerate() {
        both = both.make(alloc, next)?;
        if turn >= from {
            both.compare(alloc)?;
        }
    }
    Ok(())
}

/// Plays each order that begins like this one, and tells how many there are. An order is compared
/// from the turn on at which it leaves the order that was played before it.
fn play_all(alloc: Global, lanes: &Lanes, order: Order, from: usize) -> Result<u64, Fail> {
    if order.made >= TURNS {
        play(alloc, &order.moves, from)?;
        return Ok(1);
    }
    let mut from = from;
    let mut count: u64 = 0;
    for lane in 0..lanes.len() {
        if let Some(next) = order.with_move(lanes, lane) {
            count = count.saturating_add(play_all(alloc, lanes, next, from)?);
            from = order.made;
        }
    }
    Ok(count)
}

#[test]
fn every_order_is_told_as_the_rules_say(rt: HostRuntime) -> Result<(), Fail> {
    for lanes in [&FORTH, &BACK] {
        if play_all(rt.alloc(), lanes, NONE, 0)? != 37_800 {
            return Err(Fail::new("another number of orders"));
        }
    }
    Ok(())
}
