//! The journal of a catalogue is played into the machine, record by record.

ghost use Rattle.std.specs.Prelude.{◌≡◌, ◌+◌, ◌<◌, ◌^◌, ℕ, Contains, IfOk, IfSome, Ok, OnOk, length};
ghost use Rattle.catalog_journal.specs.Answers.{IsLogReading};
ghost use Rattle.catalog_journal.specs.Catalog.{open_records};
ghost use Rattle.claim_core.specs.Cores.{IsFound};
ghost use Rattle.desc_types.specs.declared.table.Key.{Key as KeyOf};
ghost use Rattle.row_codec.specs.Bodies.{read_body};
ghost use Rattle.row_codec.specs.declared.body.Body.TheVariants as body;
ghost use Rattle.depot_recovery.specs.Claims.{may_follow};
ghost use Rattle.depot_recovery.specs.Noted.{AreNoted, AreOfBodies, AreUpToDate};
ghost use Rattle.depot_recovery.specs.Found.{journal_in};
ghost use Rattle.depot_recovery.specs.Recovered.{Answers};
ghost use Rattle.depot_recovery.specs.Replaying.{BeginsAs, IsListed, IsReplayOf, ReadsMore};
ghost use Rattle.depot_recovery.specs.Replaying.{ReadsNext, depot_by};

use crate::OpenFault;
use crate::claims::Claims;
use crate::fault::damaged;
use crate::latest::last_install;
use crate::record::{read_entry, read_first};
use catalog_journal::Bodies;
use claim_core::Core;
use depot_disk::Disk;
use row_codec::decode_body;
use std::alloc::Global;
use std::marker::Model;
use view_meaning::Entry;

/// The machine after the journal that the bodies of a catalogue tell.
pub(crate) fn read_journal<D: Disk>(
    alloc: Global,
    disk: &mut D,
    bodies: &Bodies,
) -> Result<Core, OpenFault>
    requires short { length (open_records bodies.now) < 2 ^ 64 }
    ensures exact { IfSome (D.state disk.old).holds (λ image.
        Answers (depot_by bodies.now) (journal_in image bodies.now) result) }
    ensures ok { IfOk result (IsReplayOf bodies.now) }
    ensures reading { IsLogReading (D.state disk.old) (D.state disk.new) result }
    ensures loan { D.loan disk.new ≡ D.loan disk.old }
{
    let mut replay = match bodies.get(0) {
        Some(first) => Replay::new(alloc, first, bodies)?,
        None => return Err(damaged(0)),
    };
    for number in 1..bodies.len() {
        match bodies.get(number) {
            Some(bytes) => replay.read_next(alloc, disk, bytes)?,
            None => unreachable!(),
        }
    }
    Ok(replay.core)
}

/// A journal that is being read.
#[derive(Drop)]
struct Replay {
    core: Core,
    claims: Claims,
    /// The place of the gate of the next record.
    gate: u64,
}

impl Model for Replay {
    ghost use Rattle.depot_recovery.specs.Replaying.{ReplayOf};

    ghost Value = { ReplayOf };

    ghost view = { λ replay. record {
      core = replay.core;
      claims = replay.claims;
      gate = replay.gate;
    } };
}

impl Replay {
    /// The empty journal of the description in record 0, before the other records.
    fn new(alloc: Global, first: &[u8], bodies: &Bodies) -> Result<Replay, OpenFault>
        requires short { 5 + length first.now < 2 ^ 64 }
        ensures exact { BeginsAs first.now result }
        ensures listed { IfOk result (λ replay. AreOfBodies bodies.now replay.claims.claims) }
    {
        let served = match read_first(alloc, first)? {
            Some(served) => served,
            None => return Err(damaged(0)),
        };
        let core = match Core::new(alloc, served) {
            Ok(core) => core,
            Err((_, refused)) => return Err(refused.into()),
        };
        Ok(Replay {
            core,
            claims: Claims::of_bodies(alloc, bodies)?,
            gate: 5 + first.len() as u64,
        })
    }

    /// Reads the next record, whose body this is, and its entry into the machine. After an `Err` the
    /// journal cannot be read on.
    fn read_next<D: Disk>(
        &mut self,
        alloc: Global,
        disk: &mut D,
        bytes: &[u8],
    ) -> Result<(), OpenFault>
        requires found { IsFound self.old.core.desc self.old.core.state.journal self.old.core }
        requires noted { AreNoted self.old.core.desc self.old.core.state.journal self.old.claims }
        requires listed { (key : KeyOf) (at len : ℕ)
            → read_body bytes.now ≡ Ok (body.Install key at len)
            → Contains self.old.claims.claims (record { at = at; key = key }) }
        requires short { self.old.gate + (5 + length bytes.now) < 2 ^ 64 }
        ensures exact { IfSome (D.state disk.old).holds (λ image.
            ReadsNext image bytes.now self.old self.new result) }
        ensures ok { OnOk result (ReadsMore bytes.now self.old self.new) }
        ensures reading { IsLogReading (D.state disk.old) (D.state disk.new) result }
        ensures loan { D.loan disk.new ≡ D.loan disk.old }
    {
        self.claims.note(&self.core)?;
        let body = match decode_body(bytes) {
            Ok(body) => body,
            Err(_) => return Err(damaged(self.gate)),
        };
        let entry = read_entry(alloc, disk, &self.core, self.gate, body)?;
        if !self.may_follow(&entry) {
            return Err(damaged(self.gate));
        }
        self.core.restore(entry)?;
        self.gate += 5 + bytes.len() as u64;
        Ok(())
    }

    /// Whether an entry may follow the journal so far.
    fn may_follow(&self, entry: &Entry) -> bool
        requires found { IsFound self.now.core.desc self.now.core.state.journal self.now.core }
        requires noted { AreUpToDate self.now.core.desc self.now.core.state.journal self.now.claims }
        requires listed { IsListed self.now.claims.claims entry.now }
        ensures exact { result
            ≡ may_follow self.now.core.desc self.now.core.state.journal entry.now }
    {
        match entry {
            Entry::Load(delivery) => self
                .core
                .raw()
                .place_of(delivery.feed, delivery.number)
                .is_none(),
            Entry::Install { key, at } => {
                *at <= self.core.len()
                    && self.claims.was_ready(*key, *at)
                    && last_install(&self.core, *key) <= *at
            }
        }
    }
}
