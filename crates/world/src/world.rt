//! All experiments, by name.

ghost use Rattle.std.specs.Prelude.{◌≡◌, ◌≢◌, ℕ, None, Some, [], IfOk, IfSome, IfNone, length};
ghost use Rattle.shard.specs.Mails.{MailBook};
ghost use Rattle.shard.specs.Stand.{Final};
ghost use Rattle.world.specs.Tenants.{Over, Tenant, shown};

use crate::deque::Deque;
use crate::home::{Desk, Home, Place};
use emu_model::{Record, Timed};
use shard::{Dossier, ListMail, Shard};
use std::alloc::{AllocError, Global};
use std::marker::Model;
use timer_wheel::Agenda;

/// Shards, a deque for each, and experiments by name, from 0 on. Contracts see the state of each
/// name, the resident of each slot, and the names in each deque.
#[derive(Drop)]
pub struct World<A: Agenda> {
    pub(crate) alloc: Global,
    pub(crate) desks: Vec<Desk>,
    pub(crate) shards: Vec<Shard<A, ListMail>>,
    pub(crate) deques: Vec<Deque>,
}

impl<A: Agenda> Model for World<A> {
    ghost use Rattle.world.specs.Places.{Places};

    ghost Value = { Places };

    ghost use Rattle.world.specs.Kept.{IsWorld};

    ghost view = { λ w. record {
      desks = w.desks.items;
      shards = w.shards.items;
      deques = w.deques.items;
    } };

    ghost invariant = { λ w. IsWorld
        (record { desks = w.desks.items; shards = w.shards.items; deques = w.deques.items }) };
}

impl<A: Agenda> World<A> {
    ghost use Rattle.world.specs.Places.{Places, tenant_at, stand_at, deque_at, AreAtOnePlace};
    ghost use Rattle.world.specs.Kept.{IsAlone, IsAloneState, IsPosted, AreLetters};
    ghost use Rattle.world.specs.Runs.{place_at, life_at, records_at, consumed_at, stand_records, stand_commands};

    /// Creates shards without residents, each with an empty deque, and no names.
    pub fn new(alloc: Global, shards: usize) -> Result<Self, AllocError>
        ensures names { IfOk result (λ w. w.desks ≡ []) }
        ensures shards { IfOk result (λ w. length w.shards ≡ shards) }
        ensures vacant { IfOk result (λ w. (i slot : ℕ) → stand_at w.shards i slot ≡ None) }
        ensures empty { IfOk result (λ w. (i : ℕ) → deque_at w.deques i ≡ []) }
    {
        let mut all = Vec::new(alloc);
        let mut deques = Vec::new(alloc);
        for _ in 0..shards {
            all.push(Shard::new(alloc)?)?;
            deques.push(Deque::new(alloc))?;
        }
        Ok(World {
            alloc,
            desks: Vec::new(alloc),
            shards: all,
            deques,
        })
    }

    /// Reveals the invariant of every world. **Whatever steps were made, each name's records and
    /// counters are those of running it alone**, on the commands that it received, for as many
    /// events as it made; a name that hasn't ended shows the whole state. The posted commands are
    /// those received and those that wait; the letters are the first records; and each name is at
    /// one place.
    pub fn reveal_invariant(&self)
        ensures headline { (n : ℕ) (t : Tenant) → tenant_at self.now n ≡ Some t →
            IsAlone (shown t.life) }
        ensures whole { (n : ℕ) (t : Tenant) → tenant_at self.now n ≡ Some t → IsAloneState t.life }
        ensures posted { (n : ℕ) (t : Tenant) → tenant_at self.now n ≡ Some t →
            IsPosted (shown t.life) }
        ensures letters { (n : ℕ) (t : Tenant) → tenant_at self.now n ≡ Some t →
            AreLetters (shown t.life) }
        ensures one_place { AreAtOnePlace self.now }
    {
        let _ = &self.alloc;
    }

    /// Returns the place of a name, or None if the name was never registered.
    pub fn place(&self, name: u32) -> Option<Place>
        ensures { result ≡ place_at self.now name }
    {
        let at = name as usize;
        if at >= self.desks.len() {
            return None;
        }
        Some(self.desks[at].home.place())
    }

    /// Returns the records of a name, or an empty list if the name was never registered.
    pub fn records(&self, name: u32) -> &[Record]
        ensures { result.now ≡ records_at self.now name }
    {
        let at = name as usize;
        if at >= self.desks.len() {
            return &[];
        }
        match &self.desks[at].home {
            Home::Handed(parcel) => return parcel.records(),
            Home::Seated { shard, slot } => return self.records_in(*shard, *slot),
            Home::Queued { shard: _, parcel } => return parcel.records(),
            Home::Left(dossier) => return dossier.records(),
        }
    }

    /// Returns the commands that a name received, or an empty list if the name was never
    /// registered.
    pub fn consumed(&self, name: u32) -> &[Timed]
        ensures { result.now ≡ consumed_at self.now name }
    {
        let at = name as usize;
        if at >= self.desks.len() {
            return &[];
        }
        match &self.desks[at].home {
            Home::Handed(parcel) => return parcel.consumed(),
            Home::Seated { shard, slot } => return self.consumed_in(*shard, *slot),
            Home::Queued { shard: _, parcel } => return parcel.consumed(),
            Home::Left(dossier) => return dossier.consumed(),
        }
    }

    /// Returns the dossier of a name that has ended, or None for any other name.
    pub fn dossier_of(&self, name: u32) -> Option<&Dossier<ListMail>>
        ensures some { IfSome result (λ d. life_at self.now name ≡ Some (Over d.now)) }
        ensures none { IfNone result
            ((d : Final MailBook) → life_at self.now name ≢ Some (Over d)) }
    {
        let at = name as usize;
        if at >= self.desks.len() {
            return None;
        }
        let Home::Left(dossier) = &self.desks[at].home else {
            return None;
        };
        Some(dossier)
    }

    // Returns the records of a slot's resident, or an empty list if the slot is vacant.
    fn records_in(&self, shard: usize, slot: usize) -> &[Record]
        ensures { result.now ≡ stand_records (stand_at self.now.shards shard slot) }
    {
        if shard >= self.shards.len() {
            return &[];
        }
        match self.shards[shard].records(slot) {
            Ok(records) => return records,
            Err(_) => return &[],
        }
    }

    // Returns the commands that a slot's resident received, or an empty list if the slot is vacant.
    fn consumed_in(&self, shard: usize, slot: usize) -> &[Timed]
        ensures { result.now ≡ stand_commands (stand_at self.now.shards shard slot) }
    {
        if shard >= self.shards.len() {
            return &[];
        }
        match self.shards[shard].consumed(slot) {
            Ok(commands) => return commands,
            Err(_) => return &[],
        }
    }
}
