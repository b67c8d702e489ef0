//! A bench's deque: the owner's end and the thief's.

ghost use Rattle.std.specs.Prelude.{◌≡◌};
ghost use Rattle.crossbeam_deque.specs.Handles.{IsPassOf, stealer_deque, worker_deque, worker_flavor, worker_port, worker_view};
ghost use Rattle.bench.specs.Custody.{TookLess};

use crate::custody::{Custody, Owner, Pushed, Retaken, Seen, Taken, Thief, ThiefPass};
use crate::mail::RingMail;
use crossbeam_deque::{Steal, Worker};
use shard::Parcel;
use std::alloc::{AllocError, Global};

/// The number of parcels for which a new deque has room.
const FIRST_ROOM: usize = 4;

/// The owner's end.
#[derive(Drop)]
pub(crate) struct Deque {
    owner: Owner,
    pub ghost fifo: { worker_flavor owner ≡ 0 },
    pub ghost seat: { worker_port owner ≡ 0 },
    pub ghost less: { TookLess (worker_view owner) },
}

/// The thief's end of a bench's deque, which may move to another thread.
#[derive(Drop)]
pub struct Peer {
    thief: Thief,
    pass: ThiefPass,
    pub ghost same: { IsPassOf (stealer_deque thief) pass },
}

impl Deque {
    ghost use Rattle.std.specs.Prelude.{◌≡◌, [], ◌∷◌, ◌++◌, IfOk, MatchOption, MatchResult, OnSome, length, ◌≤◌};
    ghost use Rattle.bench.specs.Custody.{hand, stamp, TookLess};
    ghost use Rattle.bench.specs.Ends.{deque_view, peer_view};

    pub(crate) fn new(alloc: Global) -> Result<Deque, AllocError>
        ensures { IfOk result (λ d. deque_view d ≡ hand [] []) }
    {
        let owner = Owner::fifo_as(alloc, FIRST_ROOM)?;
        Ok(Deque { owner })
    }

    // Creates the thief's end.
    pub(crate) fn peer(&self) -> Result<Peer, AllocError>
        ensures view { IfOk result (λ p. peer_view p ≡ hand [] []) }
        ensures same { IfOk result (λ p. stealer_deque p.thief ≡ worker_deque self.now.owner) }
    {
        let thief = self.owner.stealer()?;
        let pass = thief.pass();
        Ok(Peer { thief, pass })
    }

    // Pushes a parcel at the back, or returns it.
    pub(crate) fn push(&mut self, parcel: Parcel<RingMail>) -> Result<(), Parcel<RingMail>>
        ensures { MatchResult result
            (λ _. deque_view self.new
            ≡ hand ((deque_view self.old).pushed ++ stamp parcel ∷ []) (deque_view self.old).taken)
            (λ p. (p ≡ parcel) × (deque_view self.new ≡ deque_view self.old)) }
    {
        match self.owner.push_as::<Pushed>(parcel) {
            Ok(()) => return Ok(()),
            Err(parcel) => return Err(parcel),
        }
    }

    // Returns the number of parcels on the deque, some of which may be taken meanwhile.
    pub(crate) fn waiting(&mut self) -> usize
        ensures { deque_view self.new ≡ deque_view self.old }
    {
        self.owner.len_as::<Seen>()
    }

    // Takes the parcel at the front.
    #[tactic(auto, using(crate::proofs::Custodies::fewer))]
    pub(crate) fn pop(&mut self) -> Option<Parcel<RingMail>>
        ensures few { OnSome result
            (length (deque_view self.new).taken ≤ length (deque_view self.new).pushed) }
        ensures taken { MatchOption result (deque_view self.new ≡ deque_view self.old)
            (λ p. (deque_view self.new
            ≡ hand (deque_view self.old).pushed ((deque_view self.old).taken ++ stamp p ∷ []))
            × TookLess (deque_view self.new)) }
    {
        self.owner.pop_as::<Retaken>()
    }
}

impl Peer {
    ghost use Rattle.std.specs.Prelude.{◌≡◌, [], ◌∷◌, ◌++◌};
    ghost use Rattle.crossbeam_deque.specs.Steals.{MatchSteal};
    ghost use Rattle.bench.specs.Custody.{hand, stamp};
    ghost use Rattle.bench.specs.Ends.{peer_view};

    // Takes the parcel at the front.
    pub(crate) fn steal(&mut self) -> Steal<Parcel<RingMail>>
        ensures { MatchSteal result (peer_view self.new ≡ peer_view self.old)
            (peer_view self.new ≡ peer_view self.old)
            (λ p. peer_view self.new
            ≡ hand (peer_view self.old).pushed ((peer_view self.old).taken ++ stamp p ∷ [])) }
    {
        self.thief.steal_as::<Taken>(&mut self.pass)
    }
}
