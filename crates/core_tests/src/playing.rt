//! Playing a history: each step is taken by the core, which answers it.

ghost use Rattle.std.specs.Prelude.{◌≡◌};
ghost use Rattle.query_pin.specs.Pins.{versions_at};

use crate::asking::{FIRST, asked, told};
use crate::served::{LINES, copied, delivered, served};
use crate::step::{Ask, Step, Told, expect_told};
use claim_core::{ClaimFault, Core, Ticket};
use desc_types::Key;
use query_pin::Pinned;
use raw_load::LoadFault;
use std::alloc::Global;
use std::marker::Model;
use std::test::Fail;
use view_meaning::{Entry, Mark};

/// Who claims and pins.
const WHO: u64 = 7;

/// The core, and beside it what a restart needs, its entries and the lines of its description, and
/// the last pin, unless that has ended.
#[derive(Drop)]
pub struct Played {
    core: Core,
    lines: &'static [u8],
    entries: Vec<Entry>,
    pin: Option<u64>,
}

impl Model for Played {
    ghost use Rattle.claim_core.specs.Cores.{CoreOf};
    ghost use Rattle.core_tests.specs.Played.{IsPlayed};

    ghost Value = { CoreOf };

    ghost view = { λ played. played.core };

    ghost invariant = { λ played. IsPlayed played.core played.lines.now played.entries.items
        played.pin };
}

/// Expects that the core answers to each step of a history what stands beside it.
pub fn expect(alloc: Global, history: &[(Step, Told)]) -> Result<(), Fail> {
    play(alloc, history)?;
    Ok(())
}

/// Expects the same, and that the core that is made anew of the entries tells what stands beside
/// what it is asked then.
pub fn expect_restart(
    alloc: Global,
    history: &[(Step, Told)],
    later: &[(Ask, Told)],
) -> Result<(), Fail> {
    let core = play(alloc, history)?.restart(alloc)?;
    for (step, &(ask, want)) in later.iter().enumerate() {
        expect_told(step, told(alloc, &core, ask)?, want)?;
    }
    Ok(())
}

/// Plays a history in which the core answers to each step what stands beside it.
fn play(alloc: Global, history: &[(Step, Told)]) -> Result<Played, Fail> {
    let mut played = Played::new(alloc)?;
    for (index, &(step, want)) in history.iter().enumerate() {
        let (next, told) = played.take(alloc, step)?;
        expect_told(index, told, want)?;
        played = next;
    }
    Ok(played)
}

impl Played {
    /// Nothing played.
    pub fn new(alloc: Global) -> Result<Played, Fail> {
        Played::over(alloc, LINES.as_bytes())
    }

    /// Nothing played, over the description that some lines declare.
    fn over(alloc: Global, lines: &'static [u8]) -> Result<Played, Fail> {
        match Core::new(alloc, served(alloc, lines)?) {
            Ok(core) => Ok(Played {
                core,
                lines,
                entries: Vec::new(alloc),
                pin: None,
            }),
            Err(_) => Err(Fail::new("no memory")),
        }
    }

    /// What the core tells.
    pub fn told(&self, alloc: Global, ask: Ask) -> Result<Told, Fail> {
        told(alloc, &self.core, ask)
    }

    /// Takes a step, and tells the answer.
    pub fn take(self, alloc: Global, step: Step) -> Result<(Played, Told), Fail> {
        match step {
            Step::Load(number, closes, body) => self.load(alloc, number, closes, body.as_bytes()),
            Step::Claim(key) => self.claim(alloc, key),
            Step::Install(id) => self.install(id),
            Step::Abandon(id) => self.abandon(id),
            Step::Pin(level) => self.pin(alloc, level),
            Step::Unpin => self.unpin(),
            Step::Reclaim => Ok(self.reclaim()),
            Step::Ask(ask) => {
                let told = self.told(alloc, ask)?;
                Ok((self, told))
            }
        }
    }

    /// Loads a delivery.
    fn load(
        mut self,
        alloc: Global,
        number: u32,
        closes: u64,
        body: &[u8],
    ) -> Result<(Played, Told), Fail> {
        let delivery = delivered(alloc, self.core.served(), number, closes, body)?;
        let same = copied(alloc, &delivery)?;
        match self.core.ready_load(delivery) {
            Ok(prepared) => {
                let loaded = self.core.step_load(prepared);
                self.entries.push(Entry::Load(same))?;
                let told = Told::Loaded(loaded.entry, loaded.kept, loaded.aside);
                Ok((self, told))
            }
            Err(LoadFault::Repeat { place }) => Ok((self, Told::Repeat(place))),
            Err(LoadFault::Memory) => Err(Fail::new("no memory")),
        }
    }

    /// Claims a partition.
    fn claim(mut self, alloc: Global, key: Key) -> Result<(Played, Told), Fail> {
        match self.core.step_claim(alloc, WHO, key) {
            Ok(ticket) => {
                if !keeps_inputs(&self.core, &ticket) {
                    return Err(Fail::new("the claim keeps something else"));
                }
                Ok((self, claimed(&ticket)))
            }
            Err(ClaimFault::NotReady) => Ok((self, Told::NotReady)),
            Err(ClaimFault::Memory) => Err(Fail::new("no memory")),
        }
    }

    /// Installs the partition of a claim.
    fn install(mut self, id: u64) -> Result<(Played, Told), Fail> {
        let Some(claim) = self.core.claimed(id) else {
            return Err(Fail::new("no claim"));
        };
        self.core.ready_install(id)?;
        let entry = self.core.step_install(id);
        self.entries.push(Entry::Install {
            key: claim.key,
            at: claim.at,
        })?;
        Ok((self, Told::Installed(entry)))
    }

    /// Abandons a claim.
    fn abandon(mut self, id: u64) -> Result<(Played, Told), Fail> {
        let Some(_claim) = self.core.claimed(id) else {
            return Err(Fail::new("no claim"));
        };
        self.core.step_abandon(id);
        Ok((self, Told::Done))
    }

    /// Pins what a query of the first two partitions of the first view shows.
    fn pin(mut self, alloc: Global, level: Mark) -> Result<(Played, Told), Fail> {
        let request = asked(alloc, self.core.served(), level)?;
        let pinned = self.core.step_pin(alloc, WHO, &request)?;
        self.pin = Some(pinned.id);
        Ok((self, shown(&pinned)))
    }

    /// Ends the last pin.
    fn unpin(mut self) -> Result<(Played, Told), Fail> {
        let Some(id) = self.pin else {
            return Err(Fail::new("no pin"));
        };
        self.core.step_unpin(id);
        self.pin = None;
        Ok((self, Told::Done))
    }

    /// Drops the first dead version.
    fn reclaim(mut self) -> (Played, Told) {
        let dead = self.core.next_dead(FIRST);
        if let Some(dead) = dead {
            self.core.step_reclaim(dead);
        }
        (self, Told::Dead(dead))
    }

    /// The core that is made anew of the entries.
    fn restart(self, alloc: Global) -> Result<Core, Fail> {
        let Played { lines, entries, .. } = self;
        Ok(Core::restart(alloc, served(alloc, lines)?, entries)?)
    }
}

/// Whether the pin of a claim keeps what its ticket tells.
fn keeps_inputs(core: &Core, ticket: &Ticket) -> bool
    requires kept { versions_at core.now.state.pins ticket.now.id ≡ ticket.now.inputs }
{
    for (index, input) in ticket.inputs.iter().enumerate() {
        if core.item(ticket.id, index as u64) != *input {
            return false;
        }
    }
    true
}

/// A claim, as it is told.
fn claimed(ticket: &Ticket) -> Told {
    let first = ticket.inputs.get(0).copied();
    let second = ticket.inputs.get(1).copied();
    Told::Claimed(ticket.id, ticket.at, first, second, ticket.left)
}

/// A pin, as it is told.
fn shown(pinned: &Pinned) -> Told {
    let first = pinned.items.get(0).copied();
    let second = pinned.items.get(1).copied();
    Told::Pinned(pinned.id, pinned.place, first, second)
}
