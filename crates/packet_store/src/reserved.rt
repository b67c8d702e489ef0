//! A shelf with one owner that has a place for every packet of its budget.
ghost use Rattle.std.specs.Prelude.{◌≡◌, ◌+◌, ◌-◌, ◌<◌};
ghost use Rattle.packet_store.specs.Own.{pocket_of_own};
ghost use Rattle.packet_store.specs.Books.{HasAll};

use crate::{Key, OwnShelf, Owner, PutError, Shelf};
use emu_model::Packet;
use std::alloc::AllocError;
use std::marker::Model;

/// A shelf of owner 0 on which a `put` within the budget does not allocate.
#[derive(Drop)]
pub struct ReservedShelf {
    shelf: OwnShelf,
}

impl Model for ReservedShelf {
    ghost use Rattle.packet_store.specs.Own.{Own};
    ghost use Rattle.packet_store.specs.Books.{HasAll};

    ghost Value = { Own };

    ghost view = { λ s. s.shelf };

    ghost invariant = { λ s. HasAll s.shelf };
}

impl ReservedShelf {
    // Converts a shelf that has a place for every packet of its budget.
    pub(crate) fn of(shelf: OwnShelf) -> Self
        requires { HasAll shelf }
        ensures { result ≡ shelf }
    {
        ReservedShelf { shelf }
    }

    // Converts the shelf into one that may have fewer places.
    pub(crate) fn into_own(self) -> OwnShelf
        ensures own { result ≡ self }
        ensures all { HasAll result }
    {
        let ReservedShelf { shelf } = self;
        shelf
    }
}

impl Shelf for ReservedShelf {
    ghost pocket = { pocket_of_own };

    ghost room = { λ s o. (pocket_of_own s o).budget - (pocket_of_own s o).count };

    #[inline(always)]
    fn put_ready(&mut self, _owner: Owner) -> Result<(), AllocError> {
        Ok(())
    }

    #[inline(always)]
    fn put(&mut self, owner: Owner, packet: Packet) -> Result<Key, PutError> {
        if owner != 0 {
            return Err(PutError::OverBudget);
        }
        self.shelf.put(0, packet)
    }

    #[inline(always)]
    fn look(&self, owner: Owner, key: Key) -> Option<Packet> {
        self.shelf.look(owner, key)
    }

    #[inline(always)]
    fn take(&mut self, owner: Owner, key: Key) -> Option<Packet> {
        if owner != 0 {
            return None;
        }
        self.shelf.take(0, key)
    }

    #[inline(always)]
    fn count(&self, owner: Owner) -> usize {
        self.shelf.count(owner)
    }
}
