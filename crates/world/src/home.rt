//! The home of an experiment, and the state of its posts.

use emu_model::{LATEST_MOMENT, Timed};
use shard::{Dossier, ListMail, Parcel};

/// The place of an experiment: in the caller's hands, in a slot of a shard, in the deque of a
/// shard, or ended.
#[derive(Clone, Copy, Debug, PartialEq, Eq)]
pub enum Place {
    HandedOut,
    Resident { shard: usize, slot: usize },
    InDeque { shard: usize },
    Ended,
}

/// An experiment at its place, or the slot in which it is.
#[derive(Drop)]
pub(crate) enum Home {
    Handed(Parcel<ListMail>),
    Seated {
        shard: usize,
        slot: usize,
    },
    Queued {
        shard: usize,
        parcel: Parcel<ListMail>,
    },
    Left(Dossier<ListMail>),
}

/// The state of a name in the world: its home, whether an `end` was posted, and the time of the
/// last post (ns), or 0 before the first.
#[derive(Drop)]
pub(crate) struct Desk {
    pub(crate) home: Home,
    pub(crate) closed: bool,
    pub(crate) last: u64,
}

impl Home {
    ghost use Rattle.std.specs.Prelude.{◌≡◌};
    ghost use Rattle.world.specs.Tenants.{place_of};

    /// Returns the place.
    pub(crate) fn place(&self) -> Place
        ensures { result ≡ place_of self.now }
    {
        match self {
            Home::Handed(_) => Place::HandedOut,
            Home::Seated { shard, slot } => Place::Resident {
                shard: *shard,
                slot: *slot,
            },
            Home::Queued { shard, parcel: _ } => Place::InDeque { shard: *shard },
            Home::Left(_) => Place::Ended,
        }
    }
}

impl Desk {
    ghost use Rattle.std.specs.Prelude.{IsTrue, IsFalse};
    ghost use Rattle.world.specs.Tenants.{IsPostable, IsRefused};

    /// Returns true if a command may be posted: no `end` was posted, and its time is neither too
    /// late nor before the last one.
    pub(crate) fn allows(&self, timed: &Timed) -> bool
        ensures yes { IsTrue result → IsPostable self.now.closed self.now.last timed.now }
        ensures no { IsFalse result → IsRefused self.now.closed self.now.last timed.now }
    {
        let _last = self.last;
        !self.closed && timed.moment <= LATEST_MOMENT && self.last <= timed.moment
    }
}
