//! The move of an experiment's packets from one shelf to another.

ghost use Rattle.std.specs.Prelude.{◌≡◌, ◌≤◌, length};
ghost use Rattle.packet_store.specs.Pocket.{empty_pocket, OthersStay};
ghost use Rattle.network.specs.Kept.{net_keys};
ghost use Rattle.experiment.specs.Kept.{view, IsAlone, IsHousedIn};

use crate::Experiment;
use packet_store::{Owner, Shelf};

impl Experiment {
    /// Moves all packets from one shelf to another, where the other owner must have none and a
    /// budget at least as large as the experiment's, and there must be room for them. The
    /// experiment's state is unchanged. Does not allocate.
    pub fn rehouse<S: Shelf, T: Shelf>(
        &mut self,
        from: &mut S,
        owner: Owner,
        to: &mut T,
        other: Owner,
    )
        requires housed { IsHousedIn (S.pocket from.old owner) self.old }
        requires empty { T.pocket to.old other ≡ empty_pocket (T.pocket to.old other).budget }
        requires room { length (net_keys self.old.net) ≤ T.room to.old other }
        requires budget { length (net_keys self.old.net) ≤ (T.pocket to.old other).budget }
        requires fits { self.old.spec.budget.packets ≤ (T.pocket to.old other).budget }
        ensures view { view (T.pocket to.new other) self.new
            ≡ view (S.pocket from.old owner) self.old }
        ensures housed { IsHousedIn (T.pocket to.new other) self.new }
        ensures alone { IsAlone (S.pocket from.old owner) self.old →
            IsAlone (T.pocket to.new other) self.new }
        ensures rest { self.new ≡ record self.old { net = self.new.net } }
        ensures records { self.new.net.log.records ≡ self.old.net.log.records }
        ensures count { (T.pocket to.new other).count ≡ (S.pocket from.old owner).count }
        ensures budget { (T.pocket to.new other).budget ≡ (T.pocket to.old other).budget }
        ensures gone { S.pocket from.new owner ≡ empty_pocket (S.pocket from.old owner).budget }
        ensures others_from { OthersStay owner (S.pocket from.old) (S.pocket from.new) }
        ensures others_to { OthersStay other (T.pocket to.old) (T.pocket to.new) }
    {
        self.net.rehouse(from, owner, to, other);
    }
}
