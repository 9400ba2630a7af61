//! The core: what it keeps, and how its parts hang together.

ghost use Rattle.std.specs.Prelude.{◌≡◌, ◌<◌, ◌^◌, [], IfErr, IfOk, length};
ghost use Rattle.claim_core.specs.Cores.{IsFound};

mod claiming;
mod installing;
mod loading;
mod marking;
mod pinning;
mod reading;
mod restarting;
mod telling;

use crate::step::Step;
use depot_cell::Memory;
use depot_marks::MarkBook;
use desc_types::AcceptedDesc;
use machine_meaning::Claim;
use query_pin::{KeptList, PinBook};
use raw_load::RawBook;
use stale_test::StaleBook;
use std::alloc::Global;
use std::marker::Model;

/// The machine in memory. The deliveries stand in the book of raw rows, and the order of loads and
/// installs apart. What a claim reads is a pin under the claim's id.
#[derive(Debug, Drop)]
pub struct Core {
    served: AcceptedDesc,
    raw: RawBook,
    marks: MarkBook,
    stale: StaleBook,
    pins: PinBook,
    kept: KeptList,
    claims: Vec<Claim>,
    order: Vec<Step>,
}

impl Model for Core {
    ghost use Rattle.std.specs.Prelude.{vec_capacity, vec_len, ◌-◌};
    ghost use Rattle.claim_core.specs.Cores.{CoreOf, IsSound, core_of};

    ghost Value = { CoreOf };

    ghost view = { λ core. core_of core.served.desc core.raw core.marks core.stale core.pins.pins
        core.kept core.claims.items core.order.items (vec_capacity core.order - vec_len core.order) };

    ghost invariant = { λ core. IsSound (core_of core.served.desc core.raw core.marks core.stale
        core.pins.pins core.kept core.claims.items core.order.items
        (vec_capacity core.order - vec_len core.order)) core.order.items };
}

impl Core {
    /// The core of a description, after no entries. Without memory the description comes back.
    pub fn new(alloc: Global, served: AcceptedDesc) -> Result<Core, (AcceptedDesc, Memory)>
        ensures ok { IfOk result (IsFound served.desc []) }
        ensures back { IfErr result (λ refused. refused.0 ≡ served) }
    {
        let raw = match RawBook::new(alloc, &served) {
            Ok(raw) => raw,
            Err(_) => return Err((served, Memory)),
        };
        let marks = match MarkBook::new(alloc, &served) {
            Ok(marks) => marks,
            Err(_) => return Err((served, Memory)),
        };
        Ok(Core {
            served,
            raw,
            marks,
            stale: StaleBook::new(alloc),
            pins: PinBook::new(alloc),
            kept: KeptList::new(alloc),
            claims: Vec::new(alloc),
            order: Vec::new(alloc),
        })
    }

    /// How many entries the journal has: the place of the last one.
    pub fn len(&self) -> u64
        ensures exact { result ≡ length self.now.state.journal }
        ensures few { result < 2 ^ 63 }
    {
        self.order.len() as u64
    }
}
