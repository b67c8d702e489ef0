//! Shelves of packets: a finite map from keys to packets for each owner, within the owner's budget.
//! Our choice.
#![tactic(auto)]

mod own;
mod reserved;
mod shared;

ghost use Rattle.std.specs.Prelude.{◌≡◌, ◌≢◌, ℕ, ◌+◌, ◌<◌, ◌≤◌, ◌↔◌, Option, Some, None, IsOk, IfOk, OnOk, OnErr, OnSome, IfNone};
ghost use Rattle.packet_store.specs.Pocket.{Pocket, with_packet, without};

use emu_model::Packet;
pub use own::OwnShelf;
pub use reserved::ReservedShelf;
pub use shared::Store;
use std::alloc::AllocError;
use std::marker::Model;

/// The place of a packet on a shelf. Contracts see it as a number.
#[derive(Clone, Copy, PartialEq)]
pub struct Key {
    place: usize,
}

impl Model for Key {
    ghost Value = { ℕ };

    ghost view = { λ k. k.place };

    ghost inverse = { λ n. record { place = n } };
}

/// The owner of a packet: 0 on an `OwnShelf` and on a `ReservedShelf`, the result of `Store::admit`
/// on a `Store`.
pub type Owner = usize;

/// The reason why a packet was not stored.
#[derive(Clone, Copy, Debug, PartialEq)]
pub enum PutError {
    /// The owner holds its whole budget, which is 0 for an owner that was not admitted.
    OverBudget = 50,
    NoMemory = 99,
}

/// A finite map from keys to packets for each owner.
pub trait Shelf {
    /// The packets and the budget of an owner.
    ghost pocket: { Self → ℕ → Pocket };

    /// The number of further `put`s of the owner that need no allocation.
    ghost room: { Self → ℕ → ℕ };

    /// Reserves memory for the owner's next `put`. Nothing else changes.
    fn put_ready(&mut self, owner: Owner) -> Result<(), AllocError>
        ensures ready { OnOk result
            ((pocket self.old owner).count < (pocket self.old owner).budget →
            0 < room self.new owner) }
        ensures pockets { (o : ℕ) → pocket self.new o ≡ pocket self.old o }
        ensures room { (o : ℕ) → room self.old o ≤ room self.new o }
        ensures succeeds { 0 < room self.old owner → IsOk result }
        ensures full { (pocket self.old owner).budget ≤ (pocket self.old owner).count →
            IsOk result };

    /// Stores a packet, and returns its key, at which the owner had no packet.
    fn put(&mut self, owner: Owner, packet: Packet) -> Result<Key, PutError>
        ensures vacant { IfOk result (λ key. (pocket self.old owner).find key ≡ None) }
        ensures ok { IfOk result
            (λ key. pocket self.new owner ≡ with_packet (pocket self.old owner) key packet) }
        ensures others { (o : ℕ) → o ≢ owner → pocket self.new o ≡ pocket self.old o }
        ensures over { (result ≡ Err PutError.OverBudget)
            ↔ ((pocket self.old owner).budget ≤ (pocket self.old owner).count) }
        ensures err { OnErr result (pocket self.new owner ≡ pocket self.old owner) }
        ensures succeeds { 0 < room self.old owner →
            (pocket self.old owner).count < (pocket self.old owner).budget → IsOk result }
        ensures room { OnOk result (room self.old owner ≤ room self.new owner + 1) }
        ensures room_err { OnErr result (room self.old owner ≤ room self.new owner) }
        ensures room_others { (o : ℕ) → o ≢ owner → room self.old o ≤ room self.new o };

    /// Returns the owner's packet at a key.
    fn look(&self, owner: Owner, key: Key) -> Option<Packet>
        ensures { result ≡ (pocket self.now owner).find key };

    /// Removes the owner's packet at a key, and returns it.
    fn take(&mut self, owner: Owner, key: Key) -> Option<Packet>
        ensures value { result ≡ (pocket self.old owner).find key }
        ensures some { OnSome result (pocket self.new owner ≡ without (pocket self.old owner) key) }
        ensures none { IfNone result (pocket self.new owner ≡ pocket self.old owner) }
        ensures others { (o : ℕ) → o ≢ owner → pocket self.new o ≡ pocket self.old o }
        ensures room { (o : ℕ) → room self.old o ≤ room self.new o }
        ensures freed { OnSome result (0 < room self.new owner) }
        ensures grows { OnSome result (room self.old owner < room self.new owner) }
        ensures below { OnSome result
            ((pocket self.new owner).count < (pocket self.new owner).budget) };

    /// Returns the number of the owner's packets, which never exceeds its budget.
    fn count(&self, owner: Owner) -> usize
        ensures value { result ≡ (pocket self.now owner).count }
        ensures within { result ≤ (pocket self.now owner).budget };
}
