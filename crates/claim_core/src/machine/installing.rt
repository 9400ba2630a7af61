//! Installs: a partition that was claimed gets its next version.

ghost use Rattle.std.specs.Prelude.{◌≡◌, IsSome, OnOk, Some, length};
ghost use Rattle.machine_meaning.specs.declared.claim.Claim.{Claim as ClaimOf};
ghost use Rattle.machine_meaning.specs.Events.{Installs, claim_at};
ghost use Rattle.claim_core.specs.Cores.{HasInstallRoom, SameCore, Steps};

use crate::claims::{end_claim, find_claim};
use crate::machine::Core;
use crate::step::Step;
use depot_cell::Memory;
use machine_meaning::Claim;
use query_pin::Dead;

impl Core {
    /// The claim of an id.
    fn claim(&self, id: u64) -> Claim
        requires claim { IsSome (claim_at id self.now.state.claims) }
        ensures exact { claim_at id self.now.state.claims ≡ Some result }
    {
        match find_claim(&self.claims, id) {
            Some(claim) => claim,
            None => unreachable!(),
        }
    }

    /// Takes all room that the install of a claim's partition needs. All is as before, also without
    /// memory.
    pub fn ready_install(&mut self, id: u64) -> Result<(), Memory>
        requires claim { IsSome (claim_at id self.old.state.claims) }
        ensures ok { OnOk result (HasInstallRoom id self.new) }
        ensures kept { SameCore self.old self.new }
    {
        let key = self.claim(id).key;
        self.order.reserve(1)?;
        self.stale.reserve_install(&self.served, key)?;
        self.kept.reserve(key)
    }

    /// Installs the partition of a claim, for which room was made, and ends the claim: the journal
    /// gains an install with the place of the claim, whose number is told, and the new version is
    /// held. It takes no memory.
    pub fn step_install(&mut self, id: u64) -> u64
        requires claim { IsSome (claim_at id self.old.state.claims) }
        requires room { HasInstallRoom id self.old }
        ensures step { (claim : ClaimOf) → claim_at id self.old.state.claims ≡ Some claim
            → Steps self.old (Installs claim.who id) self.new }
        ensures entry { result ≡ length self.new.state.journal }
    {
        let claim = self.claim(id);
        let (key, at) = (claim.key, claim.at);
        let entry = self.len() + 1;
        self.stale.note_install(&self.served, key, at);
        let version = self.stale.version(key);
        self.kept.add(Dead {
            key,
            version,
            entry,
        });
        self.pins.unpin(id);
        end_claim(&mut self.claims, id);
        match self.order.push(Step::Install { key, at }) {
            Ok(()) => {}
            Err(_) => unreachable!(),
        }
        entry
    }
}
