//! Moves between places.

ghost use Rattle.world.specs.Steps.{Houses};

use crate::home::{Desk, Home};
use crate::steps::Did;
use crate::world::World;
use shard::{ListMail, PackError, Parcel, Shard, TakeInError};
use std::mem;
use timer_wheel::Agenda;

// The home of a parcel that was to be taken in, and whether it was.
#[derive(Drop)]
struct Housed {
    home: Home,
    did: Did,
}

// Takes a parcel in at a shard, or returns `Still` if the shard is crowded.
fn house<A: Agenda>(shard: &mut Shard<A, ListMail>, i: usize, parcel: Parcel<ListMail>) -> Housed
    ensures { Houses parcel i result.did result.home shard.old shard.new }
{
    match shard.take_in(parcel) {
        Ok(slot) => {
            return Housed {
                home: Home::Seated { shard: i, slot },
                did: Did::Done,
            };
        }
        Err(TakeInError::Crowded(parcel)) => {
            return Housed {
                home: Home::Handed(parcel),
                did: Did::Still,
            };
        }
        Err(TakeInError::NoMemory(parcel)) => {
            return Housed {
                home: Home::Handed(parcel),
                did: Did::NoMemory,
            };
        }
    }
}

impl Desk {
    ghost use Rattle.std.specs.Prelude.{◌≡◌, ◌≢◌, ℕ, IfSome, IfNone};
    ghost use Rattle.shard.specs.Mails.{MailBook};
    ghost use Rattle.shard.specs.Stand.{Stand};
    ghost use Rattle.world.specs.declared.home.Home.TheVariants.{Handed, Queued, Seated};

    // Returns the parcel of a name that is handed out, whose home is then the first slot of a
    // shard.
    fn hand_over(&mut self, shard: usize) -> Option<Parcel<ListMail>>
        ensures some { IfSome result
            (λ p. (self.old.home ≡ Handed p)
            × (self.new ≡ record self.old { home = Seated shard 0 })) }
        ensures none { IfNone result
            ((self.new ≡ self.old) × ((p : Stand MailBook) → self.old.home ≢ Handed p)) }
    {
        let Home::Handed(_) = &self.home else {
            return None;
        };
        match mem::replace(&mut self.home, Home::Seated { shard, slot: 0 }) {
            Home::Handed(parcel) => Some(parcel),
            _ => unreachable!(),
        }
    }

    // Returns the parcel of a name that waits in a deque, whose home is then the first slot of a
    // shard.
    fn leave_queue(&mut self, shard: usize) -> Option<Parcel<ListMail>>
        ensures some { IfSome result
            (λ p. (i : ℕ) × (self.old.home ≡ Queued i p)
            × (self.new ≡ record self.old { home = Seated shard 0 })) }
        ensures none { IfNone result
            ((self.new ≡ self.old) × ((i : ℕ) (p : Stand MailBook) → self.old.home ≢ Queued i p)) }
    {
        let Home::Queued { .. } = &self.home else {
            return None;
        };
        match mem::replace(&mut self.home, Home::Seated { shard, slot: 0 }) {
            Home::Queued { shard: _, parcel } => Some(parcel),
            _ => unreachable!(),
        }
    }

    // Sets the home.
    pub(crate) fn go(&mut self, home: Home)
        ensures { self.new ≡ record self.old { home = home } }
    {
        // A call, because an assignment drops the old value at each place where it occurs, and a
        // parcel has many parts.
        drop(mem::replace(&mut self.home, home));
    }
}

impl<A: Agenda> World<A> {
    ghost use Rattle.world.specs.Steps.{IsAdmission, IsBringing, IsOffer};

    // Admits a name that is handed out to a shard.
    pub(crate) fn admit(&mut self, name: u32, i: usize) -> Did
        ensures { IsAdmission name i result self.old self.new }
    {
        let at = name as usize;
        if i >= self.shards.len() {
            return Did::Still;
        }
        if at >= self.desks.len() {
            return Did::Still;
        }
        let desk = &mut self.desks[at];
        let Some(parcel) = desk.hand_over(i) else {
            return Did::Still;
        };
        let housed = house(&mut self.shards[i], i, parcel);
        desk.go(housed.home);
        housed.did
    }

    // Takes the front of a deque in at a shard, or hands it out if the shard refuses it.
    pub(crate) fn bring(&mut self, i: usize, from: usize) -> Did
        ensures { IsBringing i from result self.old self.new }
    {
        if i >= self.shards.len() {
            return Did::Still;
        }
        if from >= self.deques.len() {
            return Did::Still;
        }
        let Some(name) = self.deques[from].pop() else {
            return Did::Still;
        };
        let desk = &mut self.desks[name as usize];
        let Some(parcel) = desk.leave_queue(i) else {
            unreachable!();
        };
        let housed = house(&mut self.shards[i], i, parcel);
        desk.go(housed.home);
        housed.did.bring_outcome()
    }

    // Moves a resident to the back of its shard's deque, or hands it out if memory runs out.
    pub(crate) fn offer(&mut self, i: usize, slot: usize) -> Did
        ensures { IsOffer i slot result self.old self.new }
    {
        if i >= self.shards.len() {
            return Did::Still;
        }
        let parcel = match self.shards[i].pack(slot) {
            Ok(parcel) => parcel,
            Err(PackError::Vacant) => return Did::Still,
            Err(PackError::NoMemory) => return Did::NoMemory,
        };
        let name = parcel.name();
        let desk = &mut self.desks[name as usize];
        let Ok(()) = self.deques[i].push(name) else {
            desk.go(Home::Handed(parcel));
            return Did::NoMemory;
        };
        desk.go(Home::Queued { shard: i, parcel });
        Did::Done
    }
}
