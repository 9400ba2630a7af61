//! Numbers that callers add, with a level, a closer, a first failure and failed turns.

ghost use Rattle.std.specs.Prelude.{[], ◌∷◌, ◌≡◌, ◌≤◌, Some, if◌then◌else◌, vec_len};
ghost use Rattle.std.specs.Option.{option_or};
ghost use Rattle.turn_lock.specs.Turns.{IsFresh};

use std::alloc::Global;
use turn_lock::Grows;

/// How many numbers there is room for.
pub const ROOM: usize = 4_294_967_295;

/// A log of numbers, each under the pass that added it.
#[derive(Drop)]
pub struct Numbers {
    pub log: Vec<(u32, u32)>,
    pub first: u32,
    /// How many turns failed.
    pub level: u64,
    /// The pass that first finished the numbers.
    pub closer: Option<u32>,
    pub failure: Option<(u32, u32)>,
    /// The pass of each turn that failed.
    pub failed: Vec<u32>,
    ghost within: { vec_len log ≤ 4294967295 },
}

impl Grows for Numbers {
    ghost use Rattle.turn_tests.specs.Numbers.{numbers};

    type Start = u32;

    type Entry = u32;

    type Part = u64;

    ghost meaning = { numbers };

    fn length(&self) -> u64 {
        self.log.len() as u64
    }
}

impl Numbers {
    ghost use Rattle.turn_tests.specs.Numbers.{Adds, numbers};

    /// No numbers, with a start.
    pub fn new(alloc: Global, first: u32) -> Numbers
        ensures fresh { IsFresh numbers result }
        ensures none { result.log.items ≡ [] }
    {
        Numbers {
            log: Vec::new(alloc),
            first,
            level: 0,
            closer: None,
            failure: None,
            failed: Vec::new(alloc),
        }
    }

    /// Adds a number in a turn of a pass. False if there is no room or no memory, and then nothing
    /// is added.
    pub fn add(&mut self, by: u32, number: u32) -> bool
        ensures adds { Adds by (if result then number ∷ [] else []) 0 self.old self.new }
    {
        if self.log.len() >= ROOM {
            return false;
        }
        self.log.push((by, number)).is_ok()
    }

    /// Lets a turn of a pass fail. False if there is no memory or the level is the highest, and then
    /// nothing fails.
    pub fn fail(&mut self, by: u32, failure: (u32, u32)) -> bool
        ensures adds { Adds by [] (if result then 1 else 0) self.old self.new }
        ensures failure { self.new.failure
            ≡ (if result then option_or self.old.failure (Some failure) else self.old.failure) }
    {
        let Some(level) = self.level.checked_add(1) else {
            return false;
        };
        if self.failed.push(by).is_err() {
            return false;
        }
        self.level = level;
        self.failure = self.failure.or(Some(failure));
        true
    }

    /// Finishes the numbers in a turn of a pass, unless another pass has done so.
    pub fn finish(&mut self, by: u32)
        ensures adds { Adds by [] 0 self.old self.new }
        ensures closer { self.new.closer ≡ option_or self.old.closer (Some by) }
    {
        self.closer = self.closer.or(Some(by));
    }
}
