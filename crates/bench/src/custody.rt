//! The rule of a bench's deque.

use crate::hand::Hand;
use crate::mail::RingMail;
use crossbeam_deque::protocol::{Lesson, Outcome, Protocol};
use crossbeam_deque::{Pass, Stealer, Worker};
use shard::Parcel;
use std::alloc::Global;

/// The rule that nothing in a deque is lost or duplicated.
pub struct Custody;

impl Protocol<Parcel<RingMail>, Hand> for Custody {
    ghost use Rattle.std.specs.Prelude.{[]};
    ghost use Rattle.bench.specs.Custody.{hand, Balanced};

    ghost holds = { Balanced };

    ghost first = { hand [] [] };

    ghost guest = { hand [] [] };
}

/// A push adds the stamp to the pushed ones.
pub struct Pushed;

impl Outcome<Parcel<RingMail>, Hand> for Pushed {
    ghost use Rattle.std.specs.Prelude.{◌≡◌, ◌++◌};
    ghost use Rattle.bench.specs.Custody.{hand, stamps};

    ghost then = { λ v xs w. w ≡ hand (v.pushed ++ stamps xs) v.taken };
}

/// A take adds the stamp to the taken ones.
pub struct Taken;

impl Outcome<Parcel<RingMail>, Hand> for Taken {
    ghost use Rattle.std.specs.Prelude.{◌≡◌, ◌++◌};
    ghost use Rattle.bench.specs.Custody.{hand, stamps};

    ghost then = { λ v xs w. w ≡ hand v.pushed (v.taken ++ stamps xs) };
}

/// A take by the owner, which has taken no more than it has pushed.
pub struct Retaken;

impl Outcome<Parcel<RingMail>, Hand> for Retaken {
    ghost use Rattle.std.specs.Prelude.{◌≡◌, ◌++◌};
    ghost use Rattle.bench.specs.Custody.{hand, stamps, TookLess};

    ghost then = { λ v xs w. (w ≡ hand v.pushed (v.taken ++ stamps xs)) × TookLess w };
}

/// The number of parcels on the deque, about which nothing is stated.
pub struct Seen;

impl Lesson<Parcel<RingMail>, Hand> for Seen {
    ghost fact = { λ _ _. Unit {0} };
}

pub type Owner = Worker<Parcel<RingMail>, Global, Hand, Custody>;

pub type Thief = Stealer<Parcel<RingMail>, Global, Hand, Custody>;

pub type ThiefPass = Pass<Parcel<RingMail>, Hand>;
