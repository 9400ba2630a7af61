//! Histories, each with what the core has to answer to its steps.

use crate::plain::{R0, R1, ROLL0, ROLL1, TOT0, TOT1};
use crate::playing::{expect, expect_restart};
use crate::step::{Ask, Step, Told};
use desc_types::Key;
use query_pin::{Dead, Input};
use std::test::Fail;
use view_meaning::{Aside, Mark, MarkItem, PinItem};

/// The first version of each raw partition that gets a row, and two of the first view.
const R0_1: Input = Input {
    key: R0,
    version: 1,
};

const R1_1: Input = Input {
    key: R1,
    version: 1,
};

const TOT0_1: Input = Input {
    key: TOT0,
    version: 1,
};

const TOT0_2: Input = Input {
    key: TOT0,
    version: 2,
};

/// The first version of the first view, as it is told when it is dead.
const DEAD: Dead = Dead {
    key: TOT0,
    version: 1,
    entry: 2,
};

/// The first two partitions of the first view, as a query is shown them.
const OPEN0: PinItem = PinItem {
    key: TOT0,
    version: 1,
    upto: 1,
    mark: Mark::Open,
};

const CLOSED0: PinItem = PinItem {
    key: TOT0,
    version: 1,
    upto: 1,
    mark: Mark::Closed,
};

const COMPLETE0: PinItem = PinItem {
    key: TOT0,
    version: 1,
    upto: 1,
    mark: Mark::Complete,
};

const OPEN1: PinItem = PinItem {
    key: TOT1,
    version: 0,
    upto: 0,
    mark: Mark::Open,
};

/// Their marks.
const MARK_CLOSED0: MarkItem = MarkItem {
    key: TOT0,
    mark: Mark::Closed,
};

const MARK_COMPLETE0: MarkItem = MarkItem {
    key: TOT0,
    mark: Mark::Complete,
};

const MARK_OPEN1: MarkItem = MarkItem {
    key: TOT1,
    mark: Mark::Open,
};

/// The second row of delivery 2, as it is set aside.
const LATE_ROW: Aside = Aside {
    number: 2,
    row: 2,
    table: 0,
    part: 0,
};

/// A load overtakes a claim: its partition is installed as of the claim, and is stale again.
static OVERTAKEN: [(Step, Told); 14] = [
    (Step::Ask(Ask::Settled(TOT0)), Told::Settled(true, true)),
    (Step::Load(1, 0, "r,12,a,3\n"), Told::Loaded(1, 1, 0)),
    (Step::Ask(Ask::Next), Told::Next(Some(TOT0))),
    (Step::Claim(TOT0), Told::Claimed(0, 1, Some(R1_1), None, 1)),
    (Step::Ask(Ask::Next), Told::Next(None)),
    (Step::Load(2, 0, "r,3,a,4\n"), Told::Loaded(2, 1, 0)),
    (Step::Install(0), Told::Installed(3)),
    (Step::Ask(Ask::Len), Told::Count(3)),
    (Step::Ask(Ask::Deliveries), Told::Count(2)),
    (Step::Ask(Ask::Version(TOT0)), Told::Version(1, 1)),
    (Step::Ask(Ask::Settled(TOT0)), Told::Settled(false, false)),
    (Step::Ask(Ask::Settled(TOT1)), Told::Settled(true, false)),
    (Step::Ask(Ask::Next), Told::Next(Some(TOT0))),
    (
        Step::Claim(TOT0),
        Told::Claimed(0, 3, Some(R0_1), Some(R1_1), 2),
    ),
];

/// What is not ready: a partition with an unsettled source, one that nothing touched, a raw one, one
/// after the end of time, one of no table, and one that is claimed.
static NOT_READY: [(Step, Told); 8] = [
    (Step::Load(1, 0, "r,12,a,3\n"), Told::Loaded(1, 1, 0)),
    (Step::Claim(ROLL0), Told::NotReady),
    (Step::Claim(TOT1), Told::NotReady),
    (Step::Claim(R1), Told::NotReady),
    (
        Step::Claim(Key {
            table: 1,
            part: u64::MAX,
        }),
        Told::NotReady,
    ),
    (Step::Claim(Key { table: 9, part: 0 }), Told::NotReady),
    (Step::Claim(TOT0), Told::Claimed(0, 1, Some(R1_1), None, 1)),
    (Step::Claim(TOT0), Told::NotReady),
];

/// The partition of an abandoned claim is ready again. Its id is the least free one again, and comes
/// with a new place, while a pin has the next id.
static ABANDONED: [(Step, Told); 8] = [
    (Step::Load(1, 0, "r,12,a,3\n"), Told::Loaded(1, 1, 0)),
    (Step::Claim(TOT0), Told::Claimed(0, 1, Some(R1_1), None, 1)),
    (Step::Pin(Mark::Closed), Told::Pinned(1, 1, None, None)),
    (Step::Abandon(0), Told::Done),
    (Step::Ask(Ask::Next), Told::Next(Some(TOT0))),
    (Step::Load(2, 0, "r,3,a,4\n"), Told::Loaded(2, 1, 0)),
    (
        Step::Claim(TOT0),
        Told::Claimed(0, 2, Some(R0_1), Some(R1_1), 2),
    ),
    (Step::Pin(Mark::Closed), Told::Pinned(2, 2, None, None)),
];

/// What a pin shows stays held over an install, until the pin ends.
static PINNED: [(Step, Told); 15] = [
    (Step::Load(1, 0, "r,12,a,3\n"), Told::Loaded(1, 1, 0)),
    (Step::Claim(TOT0), Told::Claimed(0, 1, Some(R1_1), None, 1)),
    (Step::Install(0), Told::Installed(2)),
    (
        Step::Pin(Mark::Open),
        Told::Pinned(0, 2, Some(OPEN0), Some(OPEN1)),
    ),
    (Step::Load(2, 0, "r,3,a,4\n"), Told::Loaded(3, 1, 0)),
    (
        Step::Claim(TOT0),
        Told::Claimed(1, 3, Some(R0_1), Some(R1_1), 2),
    ),
    (Step::Install(1), Told::Installed(4)),
    (Step::Ask(Ask::Entry(TOT0_1)), Told::Entry(Some(2))),
    (Step::Ask(Ask::Dead), Told::Dead(None)),
    (Step::Unpin, Told::Done),
    (Step::Ask(Ask::Dead), Told::Dead(Some(DEAD))),
    (Step::Reclaim, Told::Dead(Some(DEAD))),
    (Step::Ask(Ask::Dead), Told::Dead(None)),
    (Step::Ask(Ask::Entry(TOT0_1)), Told::Entry(None)),
    (Step::Ask(Ask::Entry(TOT0_2)), Told::Entry(Some(4))),
];

/// What a claim reads stays held until it is installed.
static READ_TO_INSTALL: [(Step, Told); 11] = [
    (Step::Load(1, 0, "r,12,a,3\n"), Told::Loaded(1, 1, 0)),
    (Step::Claim(TOT0), Told::Claimed(0, 1, Some(R1_1), None, 1)),
    (Step::Install(0), Told::Installed(2)),
    (
        Step::Claim(ROLL0),
        Told::Claimed(0, 2, Some(TOT0_1), None, 1),
    ),
    (Step::Load(2, 0, "r,3,a,4\n"), Told::Loaded(3, 1, 0)),
    (
        Step::Claim(TOT0),
        Told::Claimed(1, 3, Some(R0_1), Some(R1_1), 2),
    ),
    (Step::Install(1), Told::Installed(4)),
    (Step::Ask(Ask::Dead), Told::Dead(None)),
    (Step::Install(0), Told::Installed(5)),
    (Step::Ask(Ask::Version(ROLL0)), Told::Version(1, 2)),
    (Step::Ask(Ask::Dead), Told::Dead(Some(DEAD))),
];

/// The same until it is abandoned.
static READ_TO_ABANDON: [(Step, Told); 10] = [
    (Step::Load(1, 0, "r,12,a,3\n"), Told::Loaded(1, 1, 0)),
    (Step::Claim(TOT0), Told::Claimed(0, 1, Some(R1_1), None, 1)),
    (Step::Install(0), Told::Installed(2)),
    (
        Step::Claim(ROLL0),
        Told::Claimed(0, 2, Some(TOT0_1), None, 1),
    ),
    (Step::Load(2, 0, "r,3,a,4\n"), Told::Loaded(3, 1, 0)),
    (
        Step::Claim(TOT0),
        Told::Claimed(1, 3, Some(R0_1), Some(R1_1), 2),
    ),
    (Step::Install(1), Told::Installed(4)),
    (Step::Ask(Ask::Dead), Told::Dead(None)),
    (Step::Abandon(0), Told::Done),
    (Step::Ask(Ask::Dead), Told::Dead(Some(DEAD))),
];

/// Before a restart, and after it: the same versions and places, only the latest version is held,
/// and nothing is claimed.
static STOPPED: [(Step, Told); 8] = [
    (Step::Load(1, 0, "r,12,a,3\n"), Told::Loaded(1, 1, 0)),
    (Step::Claim(TOT0), Told::Claimed(0, 1, Some(R1_1), None, 1)),
    (Step::Install(0), Told::Installed(2)),
    (Step::Load(2, 0, "r,3,a,4\n"), Told::Loaded(3, 1, 0)),
    (
        Step::Claim(TOT0),
        Told::Claimed(0, 3, Some(R0_1), Some(R1_1), 2),
    ),
    (Step::Install(0), Told::Installed(4)),
    (
        Step::Claim(ROLL0),
        Told::Claimed(0, 4, Some(TOT0_2), None, 1),
    ),
    (Step::Ask(Ask::Next), Told::Next(Some(ROLL1))),
];

static RESTARTED: [(Ask, Told); 6] = [
    (Ask::Version(TOT0), Told::Version(2, 3)),
    (Ask::Version(R1), Told::Version(1, 4)),
    (Ask::Entry(TOT0_1), Told::Entry(None)),
    (Ask::Entry(TOT0_2), Told::Entry(Some(4))),
    (Ask::Dead, Told::Dead(None)),
    (Ask::Next, Told::Next(Some(ROLL0))),
];

/// A number that came before is refused with the place of its entry.
static REPEATED: [(Step, Told); 7] = [
    (Step::Load(1, 0, "r,12,a,3\n"), Told::Loaded(1, 1, 0)),
    (Step::Claim(TOT0), Told::Claimed(0, 1, Some(R1_1), None, 1)),
    (Step::Install(0), Told::Installed(2)),
    (Step::Load(7, 0, "r,3,a,4\n"), Told::Loaded(3, 1, 0)),
    (Step::Load(7, 0, "r,5,a,1\n"), Told::Repeat(3)),
    (Step::Load(1, 0, "r,5,a,1\n"), Told::Repeat(1)),
    (Step::Ask(Ask::Deliveries), Told::Count(2)),
];

/// A row that comes after its partition was closed is set aside.
static LATE: [(Step, Told); 4] = [
    (Step::Load(1, 20, "r,12,a,3\n"), Told::Loaded(1, 1, 0)),
    (Step::Ask(Ask::Aside), Told::Aside(0, None)),
    (
        Step::Load(2, 0, "r,25,b,2\nr,5,a,1\n"),
        Told::Loaded(2, 1, 1),
    ),
    (Step::Ask(Ask::Aside), Told::Aside(1, Some(LATE_ROW))),
];

/// A level leaves partitions out whose mark is below it: the one that is not settled or not closed.
/// The mark of the other one rises as the delivery that is missing comes.
static LEVELS: [(Step, Told); 17] = [
    (Step::Load(1, 20, "r,12,a,3\n"), Told::Loaded(1, 1, 0)),
    (Step::Ask(Ask::Mark(R1)), Told::Mark(Mark::Closed)),
    (Step::Ask(Ask::Mark(TOT0)), Told::Mark(Mark::Open)),
    (Step::Pin(Mark::Closed), Told::Pinned(0, 1, None, None)),
    (Step::Unpin, Told::Done),
    (Step::Claim(TOT0), Told::Claimed(0, 1, Some(R1_1), None, 1)),
    (Step::Install(0), Told::Installed(2)),
    (Step::Ask(Ask::Mark(TOT0)), Told::Mark(Mark::Closed)),
    (
        Step::Ask(Ask::Marks),
        Told::Marks(Some(MARK_CLOSED0), Some(MARK_OPEN1)),
    ),
    (
        Step::Pin(Mark::Closed),
        Told::Pinned(0, 2, Some(CLOSED0), None),
    ),
    (Step::Unpin, Told::Done),
    (Step::Pin(Mark::Complete), Told::Pinned(0, 2, None, None)),
    (Step::Unpin, Told::Done),
    (Step::Load(0, 0, "r,25,b,1\n"), Told::Loaded(3, 1, 0)),
    (Step::Ask(Ask::Mark(TOT0)), Told::Mark(Mark::Complete)),
    (
        Step::Ask(Ask::Marks),
        Told::Marks(Some(MARK_COMPLETE0), Some(MARK_OPEN1)),
    ),
    (
        Step::Pin(Mark::Complete),
        Told::Pinned(0, 3, Some(COMPLETE0), None),
    ),
];

#[test]
fn a_claim_that_loads_overtake_is_installed_as_of_its_place(rt: HostRuntime) -> Result<(), Fail> {
    expect(rt.alloc(), &OVERTAKEN)
}

#[test]
fn what_is_not_ready_is_not_claimed(rt: HostRuntime) -> Result<(), Fail> {
    expect(rt.alloc(), &NOT_READY)
}

#[test]
fn an_abandoned_partition_is_ready_again(rt: HostRuntime) -> Result<(), Fail> {
    expect(rt.alloc(), &ABANDONED)
}

#[test]
fn what_a_pin_shows_stays_held(rt: HostRuntime) -> Result<(), Fail> {
    expect(rt.alloc(), &PINNED)
}

#[test]
fn what_a_claim_reads_stays_held(rt: HostRuntime) -> Result<(), Fail> {
    expect(rt.alloc(), &READ_TO_INSTALL)?;
    expect(rt.alloc(), &READ_TO_ABANDON)
}

#[test]
fn a_core_made_anew_has_the_latest_versions(rt: HostRuntime) -> Result<(), Fail> {
    expect_restart(rt.alloc(), &STOPPED, &RESTARTED)
}

#[test]
fn a_repeat_is_refused_and_a_late_row_set_aside(rt: HostRuntime) -> Result<(), Fail> {
    expect(rt.alloc(), &REPEATED)?;
    expect(rt.alloc(), &LATE)
}

#[test]
fn a_level_leaves_open_partitions_out(rt: HostRuntime) -> Result<(), Fail> {
    expect(rt.alloc(), &LEVELS)
}
