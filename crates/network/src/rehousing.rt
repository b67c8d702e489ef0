//! The move of all packets from one shelf to another.

ghost use Rattle.std.specs.Prelude.{◌≡◌, ◌≤◌, length};
ghost use Rattle.packet_store.specs.Pocket.{empty_pocket, OthersStay};
ghost use Rattle.network.specs.Kept.{net_of, net_keys, IsHoused};

use crate::Network;
use packet_store::{Owner, Shelf};
use pipe_core::{laws, rehouse_line};

impl Network {
    /// Moves all packets from one shelf to another, where the other owner must have none and there
    /// must be room for them, and stores the new keys. Nothing else changes. Does not allocate.
    #[tactic(auto, using(crate::proofs::RouteFacts::known_grown))]
    pub fn rehouse<S: Shelf, T: Shelf>(
        &mut self,
        from: &mut S,
        owner: Owner,
        to: &mut T,
        other: Owner,
    )
        requires housed { IsHoused (S.pocket from.old owner) self.old }
        requires empty { T.pocket to.old other ≡ empty_pocket (T.pocket to.old other).budget }
        requires budget { length (net_keys self.old) ≤ (T.pocket to.old other).budget }
        requires room { length (net_keys self.old) ≤ T.room to.old other }
        ensures shown { net_of (T.pocket to.new other) self.new
            ≡ net_of (S.pocket from.old owner) self.old }
        ensures housed { IsHoused (T.pocket to.new other) self.new }
        ensures rest { self.new
            ≡ record self.old { table = self.new.table; direct = self.new.direct } }
        ensures seed { self.new.table.seed ≡ self.old.table.seed }
        ensures count { (T.pocket to.new other).count ≡ (S.pocket from.old owner).count }
        ensures budget { (T.pocket to.new other).budget ≡ (T.pocket to.old other).budget }
        ensures gone { S.pocket from.new owner ≡ empty_pocket (S.pocket from.old owner).budget }
        ensures others_from { OthersStay owner (S.pocket from.old) (S.pocket from.new) }
        ensures others_to { OthersStay other (T.pocket to.old) (T.pocket to.new) }
    {
        laws::keys_say_all();
        rehouse_line(&mut self.direct, from, owner, to, other);
        self.table.rehouse(from, owner, to, other);
    }
}
