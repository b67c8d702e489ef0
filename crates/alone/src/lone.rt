//! The shelf of an experiment that runs by itself.

ghost use Rattle.std.specs.Prelude.{◌≡◌};
ghost use Rattle.packet_store.specs.Own.{own_pocket, own_room, pocket_of_own};
ghost use Rattle.packet_store.specs.Pocket.{empty_pocket};

use emu_model::{Packet, PacketBudget};
use packet_store::{Key, OwnShelf, Owner, PutError, Shelf};
use std::alloc::{AllocError, Global};
use std::marker::Model;

/// An `OwnShelf` with a type of its own. The steps over it are therefore compiled for the loop of
/// `alone` only. They are called from one place, so the compiler inlines them, which saves a tenth
/// of each step.
#[derive(Drop)]
pub(crate) struct LoneShelf {
    shelf: OwnShelf,
}

impl Model for LoneShelf {
    ghost use Rattle.packet_store.specs.Own.{Own};

    ghost Value = { Own };

    ghost view = { λ s. s.shelf };
}

impl LoneShelf {
    /// Creates an empty shelf. Does not allocate before the first `put`.
    pub(crate) fn new(alloc: Global, budget: PacketBudget) -> Self
        ensures own { own_pocket result ≡ empty_pocket budget }
    {
        LoneShelf {
            shelf: OwnShelf::new(alloc, budget),
        }
    }
}

impl Shelf for LoneShelf {
    ghost pocket = { pocket_of_own };

    ghost room = { own_room };

    #[inline(always)]
    fn put_ready(&mut self, owner: Owner) -> Result<(), AllocError> {
        self.shelf.put_ready(owner)
    }

    #[inline(always)]
    fn put(&mut self, owner: Owner, packet: Packet) -> Result<Key, PutError> {
        self.shelf.put(owner, packet)
    }

    #[inline(always)]
    fn look(&self, owner: Owner, key: Key) -> Option<Packet> {
        self.shelf.look(owner, key)
    }

    #[inline(always)]
    fn take(&mut self, owner: Owner, key: Key) -> Option<Packet> {
        self.shelf.take(owner, key)
    }

    #[inline(always)]
    fn count(&self, owner: Owner) -> usize {
        self.shelf.count(owner)
    }
}
