//! The search for dead versions. It goes over replaced versions only, since the newest of a
//! partition is never dead, and asks the pins of each. Reclaim calls it again and again, so it
//! takes no memory and makes no list.

ghost use Rattle.std.specs.Prelude.{MatchOption};
ghost use Rattle.query_pin.specs.declared.input.Input.{Input as InputOf};
ghost use Rattle.depot_reclaim.specs.Dead.{IsDead, IsFromKey, IsLeastDead};

use desc_types::Key;
use query_pin::{Dead, Input, KeptList, PinBook};

/// The first dead version from a partition on, if there is one. What a claim reads must be among
/// the pins. It takes no memory, and costs a search for each replaced version that a pin keeps.
pub fn next_dead(kept: &KeptList, pins: &PinBook, from: Key) -> Option<Dead>
    ensures exact { MatchOption result
        ((read : InputOf) → IsFromKey from read → IsDead kept.now pins.now read → ⊥)
        (IsLeastDead kept.now pins.now from) }
{
    let mut next = Input {
        key: from,
        version: 0,
    };
    while let Some(dead) = kept.next_replaced(next) {
        if !pins.is_pinned(dead.key, dead.version) {
            return Some(dead);
        }
        next = Input {
            key: dead.key,
            version: dead.version + 1,
        };
    }
    None
}
