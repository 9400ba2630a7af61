//! Which installs of a catalogue were rightly claimed.
//!
//! An install is legal only if its partition could be claimed at the place of its claim, which lies
//! before the install. So all claims are listed first, in order of their places, and each is looked
//! at when the journal has come that far.

ghost use Rattle.std.specs.Prelude.{◌≡◌, ◌≤◌, [], Contains, IfOk, List, OnOk, drop, filter_map};
ghost use Rattle.std.specs.Prelude.{length, option_and_then, slice_get, take};
ghost use Rattle.claim_core.specs.Cores.{IsFound};
ghost use Rattle.desc_types.specs.Descriptions.{DescOf};
ghost use Rattle.view_meaning.specs.declared.journal.Entry.{Entry};
ghost use Rattle.depot_recovery.specs.Claims.{may_claim};
ghost use Rattle.depot_recovery.specs.Noted.{AreNoted, AreOfBodies, AreUpToDate, claim_in};

use catalog_journal::Bodies;
use claim_core::Core;
use depot_cell::Memory;
use desc_types::Key;
use row_codec::{Body, decode_body};
use std::alloc::Global;
use std::marker::Model;

/// The claim of an install: the place of the journal at which it was made, and the partition. Claims
/// are ordered by place, then by partition.
#[derive(Clone, Copy, PartialEq, Eq, PartialOrd, Ord)]
pub(crate) struct Claimed {
    pub(crate) at: u64,
    pub(crate) key: Key,
}

/// The claims of all installs in order, and of those at places that were reached, whether the
/// partition could be claimed there.
#[derive(Drop)]
pub(crate) struct Claims {
    claims: Vec<Claimed>,
    ready: Vec<bool>,
}

impl Model for Claims {
    ghost use Rattle.depot_recovery.specs.Noted.{ClaimsOf};

    ghost Value = { ClaimsOf };

    ghost view = { λ inside. record { claims = inside.claims.items; ready = inside.ready.items } };
}

impl Claims {
    /// The claims of the installs among the bodies of a catalogue. Record 0 is none, and bodies that
    /// cannot be read tell none.
    pub(crate) fn of_bodies(alloc: Global, bodies: &Bodies) -> Result<Claims, Memory>
        ensures exact { IfOk result (λ claims. AreOfBodies bodies.now claims.claims) }
        ensures noted { IfOk result (λ claims. (desc : DescOf) → AreNoted desc [] claims) }
    {
        let mut claims = claims_in(alloc, bodies)?;
        claims.sort_unstable();
        Ok(Claims {
            claims,
            ready: Vec::new(alloc),
        })
    }

    /// Looks at the claims at the place that the journal has reached. After an `Err` the journal
    /// cannot be read on.
    pub(crate) fn note(&mut self, core: &Core) -> Result<(), Memory>
        requires found { IsFound core.now.desc core.now.state.journal core.now }
        requires noted { AreNoted core.now.desc core.now.state.journal self.old }
        ensures ok { OnOk result (AreUpToDate core.now.desc core.now.state.journal self.new) }
        ensures kept { self.new.claims ≡ self.old.claims }
    {
        note_reached(&self.claims, &mut self.ready, core)
    }

    /// Whether a partition could be claimed at a place that the journal has reached. It is told of
    /// the claims that are listed.
    pub(crate) fn was_ready(&self, key: Key, at: u64) -> bool
        ensures exact { (desc : DescOf) (journal : List Entry) → AreUpToDate desc journal self.now
            → at ≤ length journal → Contains self.now.claims (record { at = at; key = key })
            → result ≡ may_claim desc (take at journal) key }
    {
        match self.claims.binary_search(&Claimed { at, key }) {
            Ok(index) => self.ready.get(index).copied().unwrap_or(false),
            Err(_) => false,
        }
    }
}

/// The claims of the installs among the bodies of a catalogue, in the order of the bodies.
fn claims_in(alloc: Global, bodies: &Bodies) -> Result<Vec<Claimed>, Memory>
    ensures exact { IfOk result (λ claims. claims.items
        ≡ filter_map claim_in (drop 1 bodies.now)) }
{
    let mut claims = Vec::new(alloc);
    for number in 1..bodies.len() {
        if let Some(claim) = claim_of(bodies, number) {
            claims.push(claim)?;
        }
    }
    Ok(claims)
}

/// The claim of the install that the body with this number tells, if it tells one.
fn claim_of(bodies: &Bodies, number: usize) -> Option<Claimed>
    ensures exact { result ≡ option_and_then claim_in (slice_get bodies.now number) }
{
    claim_in(bodies.get(number)?)
}

/// The claim of the install that a body tells, if it tells one.
fn claim_in(body: &[u8]) -> Option<Claimed>
    ensures exact { result ≡ claim_in body.now }
{
    match decode_body(body) {
        Ok(Body::Install { key, at, .. }) => Some(Claimed { at, key }),
        Ok(Body::Load { .. }) | Err(_) => None,
    }
}

/// Looks at the claims from those on that were looked at, as far as the journal has come.
fn note_reached(claims: &[Claimed], ready: &mut Vec<bool>, core: &Core) -> Result<(), Memory>
    requires found { IsFound core.now.desc core.now.state.journal core.now }
    requires noted { AreNoted core.now.desc core.now.state.journal
        (record { claims = claims.now; ready = ready.old.items }) }
    ensures ok { OnOk result (AreUpToDate core.now.desc core.now.state.journal
        (record { claims = claims.now; ready = ready.new.items })) }
{
    while let Some(claim) = claims.get(ready.len()) {
        if core.len() < claim.at {
            return Ok(());
        }
        ready.push(core.is_ready(claim.key))?;
    }
    Ok(())
}
