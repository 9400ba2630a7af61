//! Claims: which partition is ready, who computes it, and from which versions.

ghost use Rattle.std.specs.Prelude.{◌≡◌, IfOk, IsSome, OnErr, Some};
ghost use Rattle.machine_meaning.specs.declared.claim.Claim.{Claim as ClaimOf};
ghost use Rattle.machine_meaning.specs.Events.{Abandons, Claims, IsClaimOf, claim_at, claim_of};
ghost use Rattle.desc_types.specs.Sources.{HasEarlierSources};
ghost use Rattle.view_meaning.specs.Drains.{unsettled};
ghost use Rattle.claim_core.specs.Cores.{IsClaimCause, IsFirstFrom, IsNextReady, IsTicketOf};
ghost use Rattle.claim_core.specs.Cores.{SameCore, Steps, TellsReady};

use crate::claims::{end_claim, is_claimed};
use crate::machine::Core;
use crate::reads::copied;
use crate::ticket::{ClaimFault, Ticket};
use desc_types::Key;
use machine_meaning::Claim;
use std::alloc::Global;

impl Core {
    /// The first partition from one on that is ready to be claimed: it is stale, its sources are
    /// settled, and nobody claimed it. It takes no memory, and goes over the unsettled partitions up
    /// to that one.
    pub fn next_ready(&self, from: Key) -> Option<Key>
        ensures exact { IsNextReady self.now.desc self.now.state from result }
    {
        let mut from = from;
        while let Some(key) = self.next_unsettled(from) {
            if self.is_ready(key) {
                return Some(key);
            }
            from = Key {
                table: key.table,
                part: key.part + 1,
            };
        }
        None
    }

    /// The first unsettled partition from one on.
    fn next_unsettled(&self, from: Key) -> Option<Key>
        ensures exact { IsFirstFrom from (unsettled self.now.desc self.now.state.journal) result }
        ensures earlier { HasEarlierSources self.now.desc }
    {
        self.stale.next_unsettled(from)
    }

    /// Whether a partition is ready to be claimed: it is stale, its sources are settled, and nobody
    /// claimed it. Any key may be asked for. It takes no memory.
    pub fn is_ready(&self, key: Key) -> bool
        ensures exact { TellsReady self.now.desc self.now.state key result }
    {
        self.is_part(key)
            && self.stale.is_stale(key)
            && self.has_settled_sources(key)
            && !is_claimed(&self.claims, key)
    }

    /// Claims a partition: it is to be computed from the versions that its sources have now. One that
    /// is not ready is refused; any key may be asked for. After a refusal all is as before.
    pub fn step_claim(&mut self, alloc: Global, who: u64, key: Key) -> Result<Ticket, ClaimFault>
        ensures ok { IfOk result (λ ticket. Steps self.old (Claims who key) self.new) }
        ensures ticket { IfOk result (IsTicketOf self.old.desc self.old.state key) }
        ensures own { IfOk result (λ ticket. IsClaimOf self.new.state who ticket.id
            (claim_of self.old.state who ticket.id key)) }
        ensures cause { IsClaimCause self.old.desc self.old.state key result }
        ensures err { OnErr result (SameCore self.old self.new) }
    {
        if !self.is_ready(key) {
            return Err(ClaimFault::NotReady);
        }
        let reads = self.reads(alloc, key)?;
        let kept = copied(alloc, &reads.inputs)?;
        let at = self.len();
        if self.claims.reserve(1).is_err() {
            return Err(ClaimFault::Memory);
        }
        let id = self.pins.free_id();
        self.pins.pin(who, id, kept)?;
        match self.claims.push(Claim { who, id, key, at }) {
            Ok(()) => {}
            Err(_) => unreachable!(),
        }
        Ok(Ticket {
            id,
            key,
            at,
            inputs: reads.inputs,
            left: reads.left,
        })
    }

    /// Ends a claim. What it reads is pinned no more. It takes no memory.
    pub fn step_abandon(&mut self, id: u64)
        requires claim { IsSome (claim_at id self.old.state.claims) }
        ensures step { (claim : ClaimOf) → claim_at id self.old.state.claims ≡ Some claim
            → Steps self.old (Abandons claim.who id) self.new }
    {
        self.pins.unpin(id);
        end_claim(&mut self.claims, id);
    }
}
