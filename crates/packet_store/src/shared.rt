//! One slab for the packets of many owners, each on a shelf of its own.
ghost use Rattle.std.specs.Prelude.{◌≡◌, ◌≢◌, ℕ, ◌+◌, ◌-◌, ◌<◌, IfOk, IfErr, IfSome, IfNone, OnErr, OnSome};
ghost use Rattle.packet_store.specs.Pocket.{empty_pocket};
ghost use Rattle.packet_store.specs.Books.{Books, IsAdmitted, pocket_of};
ghost use Rattle.packet_store.specs.Own.{own_pocket};

use crate::{Key, OwnShelf, Owner, PutError, ReservedShelf, Shelf};
use emu_model::{Packet, PacketBudget};
use slab::Slab;
use std::alloc::{AllocError, Global};
use std::marker::Model;
use std::mem;

/// The packets of many owners. Each owner has a shelf with a place for every packet of its budget,
/// which no other owner can use.
#[derive(Drop)]
pub struct Store {
    alloc: Global,
    shelves: Slab<OwnShelf>,
}

impl Model for Store {
    ghost use Rattle.packet_store.specs.Books.{Books, IsSound};

    ghost Value = { Books };

    ghost view = { λ s. record { shelves = s.shelves.slots } };

    ghost invariant = { λ s. IsSound s.shelves.slots };
}

impl Store {
    /// Creates a store without owners, which does not allocate before the first `admit`.
    #[tactic(auto, unfolding(crate::specs::Books::pocket_of))]
    pub fn new(alloc: Global) -> Self
        ensures none { (o : ℕ) → pocket_of result o ≡ empty_pocket 0 }
    {
        Store {
            alloc,
            shelves: Slab::new(alloc),
        }
    }

    /// Adds an owner, with a place for each packet of its budget. The number of an owner that was
    /// dismissed is used again.
    #[tactic(auto, unfolding(crate::specs::Books::pocket_of))]
    pub fn admit(&mut self, budget: PacketBudget) -> Result<Owner, AllocError>
        ensures stranger { IfOk result (λ owner. pocket_of self.old owner ≡ empty_pocket 0) }
        ensures empty { IfOk result (λ owner. pocket_of self.new owner ≡ empty_pocket budget) }
        ensures others { IfOk result
            (λ owner. (o : ℕ) → o ≢ owner → pocket_of self.new o ≡ pocket_of self.old o) }
        ensures err { OnErr result (self.new ≡ self.old) }
    {
        let Ok(owner) = self.settle(OwnShelf::new(self.alloc, budget)) else {
            return Err(AllocError);
        };
        Ok(owner)
    }

    /// Adds an owner with a shelf and its packets, which keep their keys. Returns the shelf with
    /// its packets if memory runs out.
    #[tactic(auto, unfolding(crate::specs::Books::pocket_of))]
    pub fn settle(&mut self, mut shelf: OwnShelf) -> Result<Owner, OwnShelf>
        ensures stranger { IfOk result (λ owner. pocket_of self.old owner ≡ empty_pocket 0) }
        ensures ok { IfOk result (λ owner. pocket_of self.new owner ≡ own_pocket shelf) }
        ensures others { IfOk result
            (λ owner. (o : ℕ) → o ≢ owner → pocket_of self.new o ≡ pocket_of self.old o) }
        ensures err { OnErr result (self.new ≡ self.old) }
        ensures back { IfErr result (λ back. own_pocket back ≡ own_pocket shelf) }
    {
        if shelf.reserve_all().is_err() {
            return Err(shelf);
        }
        match self.shelves.insert(shelf) {
            Ok(owner) => Ok(owner),
            Err(refused) => Err(refused.value),
        }
    }

    /// Removes an owner and returns its shelf, on which each packet keeps its key. The owner's
    /// budget is then 0, and its place in the slab is free. Returns `None` if the owner was not
    /// admitted.
    #[tactic(auto, unfolding(crate::specs::Books::pocket_of))]
    pub fn lift(&mut self, owner: Owner) -> Option<OwnShelf>
        ensures some { IfSome result (λ shelf. own_pocket shelf ≡ pocket_of self.old owner) }
        ensures none { IfNone result (pocket_of self.old owner ≡ empty_pocket 0) }
        ensures gone { pocket_of self.new owner ≡ empty_pocket 0 }
        ensures freed { ¬ IsAdmitted owner self.new }
        ensures others { (o : ℕ) → o ≢ owner → pocket_of self.new o ≡ pocket_of self.old o }
    {
        self.shelves.try_remove(owner)
    }

    /// Removes an owner and its packets: the owner's budget is then 0, and its place in the slab is
    /// free.
    #[tactic(auto, unfolding(crate::specs::Books::pocket_of))]
    pub fn dismiss(&mut self, owner: Owner)
        ensures gone { pocket_of self.new owner ≡ empty_pocket 0 }
        ensures freed { ¬ IsAdmitted owner self.new }
        ensures others { (o : ℕ) → o ≢ owner → pocket_of self.new o ≡ pocket_of self.old o }
    {
        let _gone = self.lift(owner);
    }

    /// Lends the shelf of an owner, whose budget is 0 until `give_back`, or returns `None` if the
    /// owner was not admitted.
    #[tactic(auto, unfolding(crate::specs::Books::pocket_of))]
    #[inline(always)]
    pub fn lend(&mut self, owner: Owner) -> Option<ReservedShelf>
        ensures some { IfSome result (λ shelf. own_pocket shelf ≡ pocket_of self.old owner) }
        ensures none { IfNone result (pocket_of self.old owner ≡ empty_pocket 0) }
        ensures lent { OnSome result (IsAdmitted owner self.new) }
        ensures gone { pocket_of self.new owner ≡ empty_pocket 0 }
        ensures others { (o : ℕ) → o ≢ owner → pocket_of self.new o ≡ pocket_of self.old o }
    {
        let none = OwnShelf::none(self.alloc);
        let shelf = self.shelves.get_mut(owner)?;
        Some(ReservedShelf::of(mem::replace(shelf, none)))
    }

    /// Puts back a shelf that was lent, with its current packets.
    #[tactic(auto, unfolding(crate::specs::Books::pocket_of))]
    #[inline(always)]
    pub fn give_back(&mut self, owner: Owner, shelf: ReservedShelf)
        requires { IsAdmitted owner self.old }
        ensures back { pocket_of self.new owner ≡ own_pocket shelf }
        ensures others { (o : ℕ) → o ≢ owner → pocket_of self.new o ≡ pocket_of self.old o }
    {
        let Some(place) = self.shelves.get_mut(owner) else {
            unreachable!();
        };
        *place = shelf.into_own();
    }
}

impl Shelf for Store {
    ghost pocket = { pocket_of };

    ghost room = { λ s o. (pocket_of s o).budget - (pocket_of s o).count };

    fn put_ready(&mut self, _owner: Owner) -> Result<(), AllocError> {
        Ok(())
    }

    #[tactic(auto, unfolding(crate::specs::Books::pocket_of))]
    #[inline(always)]
    fn put(&mut self, owner: Owner, packet: Packet) -> Result<Key, PutError> {
        let Some(shelf) = self.shelves.get_mut(owner) else {
            return Err(PutError::OverBudget);
        };
        shelf.put(0, packet)
    }

    #[tactic(auto, unfolding(crate::specs::Books::pocket_of))]
    #[inline(always)]
    fn look(&self, owner: Owner, key: Key) -> Option<Packet> {
        let shelf = self.shelves.get(owner)?;
        shelf.look(0, key)
    }

    #[tactic(auto, unfolding(crate::specs::Books::pocket_of))]
    #[inline(always)]
    fn take(&mut self, owner: Owner, key: Key) -> Option<Packet> {
        let shelf = self.shelves.get_mut(owner)?;
        shelf.take(0, key)
    }

    #[tactic(auto, unfolding(crate::specs::Books::pocket_of))]
    #[inline(always)]
    fn count(&self, owner: Owner) -> usize {
        match self.shelves.get(owner) {
            Some(shelf) => shelf.count(0),
            None => 0,
        }
    }
}
