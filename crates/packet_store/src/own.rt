//! A shelf with one owner.
ghost use Rattle.std.specs.Prelude.{◌≡◌, ◌+◌, ◌-◌, ◌≤◌, ◌⊎◌, ◌↔◌, OnOk, IsOk, IsTrue};
ghost use Rattle.packet_store.specs.Pocket.{empty_pocket};
ghost use Rattle.packet_store.specs.Own.{own_pocket, pocket_of_own, own_room, vacancies};

use crate::{Key, Owner, PutError, Shelf};
use emu_model::{Packet, PacketBudget};
use std::alloc::{AllocError, Global};
use std::marker::Model;

/// The packets of owner 0, within its budget. Every other owner's budget is 0.
#[derive(Drop)]
pub struct OwnShelf {
    places: Vec<Option<Packet>>,
    // The vacant places; the one that was freed last is at the end. There is room for all of them.
    free: Vec<usize>,
    budget: usize,
}

impl Model for OwnShelf {
    ghost use Rattle.std.specs.Prelude.{◌+◌, ◌-◌, ◌≤◌, count_by, is_some, vec_len, vec_capacity};
    ghost use Rattle.packet_store.specs.Own.{Own, AreFree};

    ghost Value = { Own };

    ghost view = { λ s. record {
      slots = s.places.items;
      budget = s.budget;
      spare = vec_capacity s.places - vec_len s.places + vec_len s.free;
    } };

    ghost invariant = { λ s. AreFree s.places.items s.free.items
        × (count_by is_some s.places.items ≤ s.budget)
        × (vec_capacity s.places ≤ vec_capacity s.free) };
}

impl OwnShelf {
    /// Creates an empty shelf, which does not allocate before the first `put`.
    pub fn new(alloc: Global, budget: PacketBudget) -> Self
        ensures own { own_pocket result ≡ empty_pocket budget }
    {
        OwnShelf {
            places: Vec::new(alloc),
            free: Vec::new(alloc),
            budget: budget.get() as usize,
        }
    }

    // Creates a shelf that can hold no packets.
    pub(crate) fn none(alloc: Global) -> Self
        ensures own { own_pocket result ≡ empty_pocket 0 }
    {
        OwnShelf {
            places: Vec::new(alloc),
            free: Vec::new(alloc),
            budget: 0,
        }
    }

    /// Reserves room for `additional` more packets, or for as many as the budget allows.
    pub fn reserve(&mut self, additional: usize) -> Result<(), AllocError>
        ensures ok { OnOk result
            (additional ≤ own_room self.new 0
            ⊎ ((own_pocket self.old).budget - (own_pocket self.old).count ≤ own_room self.new 0)) }
        ensures pockets { own_pocket self.new ≡ own_pocket self.old }
        ensures room { own_room self.old 0 ≤ own_room self.new 0 }
        ensures succeeds { additional ≤ own_room self.old 0 → IsOk result }
    {
        let left = self.budget.saturating_sub(self.packet_count());
        let wanted = additional.min(left).saturating_sub(self.free.len());
        self.grow(wanted)
    }

    /// Reserves room for as many packets as the budget still allows.
    pub fn reserve_all(&mut self) -> Result<(), AllocError>
        ensures ok { OnOk result
            ((own_pocket self.old).budget - (own_pocket self.old).count ≤ own_room self.new 0) }
        ensures pockets { own_pocket self.new ≡ own_pocket self.old }
        ensures room { own_room self.old 0 ≤ own_room self.new 0 }
    {
        self.reserve(self.budget)
    }

    // Returns the number of packets on the shelf.
    #[inline(always)]
    fn packet_count(&self) -> usize
        ensures count { result ≡ (own_pocket self.now).count }
        ensures within { result ≤ (own_pocket self.now).budget }
    {
        self.places.len() - self.free.len()
    }

    // Reserves room for `additional` more places, and for all places in the list of vacant ones.
    #[inline(never)]
    fn grow(&mut self, additional: usize) -> Result<(), AllocError>
        ensures same { self.new ≡ record self.old { spare = self.new.spare } }
        ensures grows { self.old.spare ≤ self.new.spare }
        ensures ready { OnOk result (additional + vacancies self.old.slots ≤ self.new.spare) }
        ensures succeeds { additional + vacancies self.old.slots ≤ self.old.spare → IsOk result }
    {
        if additional <= self.places.capacity() - self.places.len() {
            return Ok(());
        }
        // If the number of places overflows, they don't fit into memory.
        let Some(least) = self.places.len().checked_add(additional) else {
            return Err(AllocError);
        };
        // The list of vacant places grows first, so that it always has room for each place.
        let places = least.max(self.places.capacity().saturating_mul(2));
        self.free.reserve_exact(places - self.free.len())?;
        self.places.reserve_exact(places - self.places.len())
    }

    // Returns true if the owner holds its whole budget.
    fn is_full(&self, owner: Owner) -> bool
        ensures { IsTrue result ↔
            ((pocket_of_own self.now owner).budget ≤ (pocket_of_own self.now owner).count) }
    {
        owner != 0 || self.budget <= self.packet_count()
    }
}

impl Shelf for OwnShelf {
    ghost pocket = { pocket_of_own };

    ghost room = { own_room };

    #[inline(always)]
    fn put_ready(&mut self, owner: Owner) -> Result<(), AllocError> {
        if !self.free.is_empty() || self.places.len() < self.places.capacity() {
            return Ok(());
        }
        if self.is_full(owner) {
            return Ok(());
        }
        self.grow(1)
    }

    #[inline(always)]
    fn put(&mut self, owner: Owner, packet: Packet) -> Result<Key, PutError> {
        if self.is_full(owner) {
            return Err(PutError::OverBudget);
        }
        if let Some(place) = self.free.pop() {
            self.places[place] = Some(packet);
            return Ok(Key { place });
        }
        if self.places.len() == self.places.capacity() && self.grow(1).is_err() {
            return Err(PutError::NoMemory);
        }
        let place = self.places.len();
        self.places.push_reserved(Some(packet));
        Ok(Key { place })
    }

    #[inline(always)]
    fn look(&self, owner: Owner, key: Key) -> Option<Packet> {
        if owner != 0 {
            return None;
        }
        match self.places.get(key.place) {
            Some(packet) => *packet,
            None => None,
        }
    }

    #[inline(always)]
    fn take(&mut self, owner: Owner, key: Key) -> Option<Packet> {
        let packet = self.look(owner, key)?;
        self.places[key.place] = None;
        self.free.push_reserved(key.place);
        Some(packet)
    }

    #[inline(always)]
    fn count(&self, owner: Owner) -> usize {
        if owner == 0 { self.packet_count() } else { 0 }
    }
}
