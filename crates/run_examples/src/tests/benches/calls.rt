//! The calls of registries, tenants and benches. The examples assume nothing about their results.

use bench::{
    AdoptError, Bench, Closing, OfferError, OpenError, Outcome, Peer, Refused, RefusedPost,
    Registry, RetakeError, RingMail, Strange, Tenant,
};
use emu_model::{Counters, Ending, Record, Spec, Timed};
use report::Source;
use shard::{Dossier, Parcel, Polled, TakeInError, Turned};
use std::alloc::{AllocError, Global};

/// The result of a call that moves an experiment, with the parcel that the call returned: it
/// succeeded, there was no experiment, another thread was faster, an allocation failed and no
/// parcel was returned, or the parcel was not taken in because an allocation failed, or because the
/// shard was full, or the deque refused it.
#[derive(Drop)]
pub enum Answer<P> {
    Done,
    Nobody,
    Retry,
    NoMemory,
    Refused(P),
    Crowded(P),
    DequeFull(P),
}

/// A result without the parcel.
#[derive(Clone, Copy, PartialEq)]
pub enum Move {
    Done,
    Nobody,
    Retry,
    Failed,
}

/// The result of a turn.
#[derive(Drop)]
pub enum Event<D> {
    Ran(u32),
    Ended(D),
    Idle,
}

/// The result of a turn, without the dossier of the experiment that ended.
#[derive(Clone, Copy, PartialEq)]
pub enum Advance {
    Ran(u32),
    Ended(u32),
    Idle,
}

/// The visible properties of a parcel.
#[derive(Clone, Copy)]
pub struct Shape {
    pub name: u32,
    pub spec: Spec,
    pub events: u64,
    pub consumed: usize,
}

/// The visible properties of an outcome, except its records.
#[derive(Clone, Copy)]
pub struct Final {
    pub name: u32,
    pub spec: Spec,
    pub commands: usize,
    pub events: u64,
    pub ending: Ending,
    pub counters: Counters,
}

/// The calls, and the types of their arguments and results. An example is generic over any kit, and
/// runs with `Real`, so its proof doesn't have to take a bench apart wherever one is dropped.
pub trait Kit {
    type Tenant: Drop;

    type Parcel: Drop;

    type Dossier: Drop;

    type Outcome: Drop;

    type Bench: Drop;

    type Peer: Drop;

    fn open(
        registry: &mut Registry,
        alloc: Global,
        spec: Spec,
    ) -> Result<(Self::Tenant, Self::Parcel), OpenError>;

    fn post(tenant: &mut Self::Tenant, timed: Timed) -> Result<(), RefusedPost>;

    fn read(tenant: &mut Self::Tenant) -> Result<Option<Record>, AllocError>;

    fn name(tenant: &Self::Tenant) -> u32;

    fn posted_len(tenant: &Self::Tenant) -> usize;

    fn letters(tenant: &Self::Tenant) -> &[Record];

    /// Returns the outcome, or both arguments.
    fn settle(
        tenant: Self::Tenant,
        dossier: Self::Dossier,
    ) -> Result<Self::Outcome, (Self::Tenant, Self::Dossier)>;

    fn shape(parcel: &Self::Parcel) -> Shape;

    fn ended_name(dossier: &Self::Dossier) -> u32;

    fn ended_record(dossier: &Self::Dossier, place: usize) -> Option<Record>;

    fn last(outcome: &Self::Outcome) -> Final;

    fn record(outcome: &Self::Outcome, place: usize) -> Option<Record>;

    /// Returns the number of records in an outcome.
    fn given_records(outcome: Self::Outcome) -> usize;

    /// Creates a bench, and the thief's end of its deque.
    fn with_peer(alloc: Global) -> Result<(Self::Bench, Self::Peer), AllocError>;

    /// Creates a bench, and the thief's end of its deque, like `with_peer`. The peer may be
    /// requested again from the same bench.
    fn with_peer_again(alloc: Global) -> Result<(Self::Bench, Self::Peer), AllocError>;

    fn slot_of(bench: &Self::Bench, name: u32) -> Option<usize>;

    fn poll(bench: &mut Self::Bench, slot: usize) -> Polled;

    fn turn(bench: &mut Self::Bench) -> Event<Self::Dossier>;

    fn admit(bench: &mut Self::Bench, parcel: Self::Parcel) -> Answer<Self::Parcel>;

    fn offer(bench: &mut Self::Bench, slot: usize) -> Answer<Self::Parcel>;

    fn retake(bench: &mut Self::Bench) -> Answer<Self::Parcel>;

    fn adopt(bench: &mut Self::Bench, peer: &mut Self::Peer) -> Answer<Self::Parcel>;

    fn close(bench: Self::Bench) -> Closing;
}

/// The calls of the crate bench.
#[derive(Clone, Copy)]
pub struct Real;

// Returns the answer for a parcel that was handed out and not taken in.
fn of_refused(refused: Refused) -> Answer<Parcel<RingMail>> {
    match refused {
        TakeInError::NoMemory(parcel) => return Answer::Refused(parcel),
        TakeInError::Crowded(parcel) => return Answer::Crowded(parcel),
    }
}

impl Kit for Real {
    type Tenant = Tenant;

    type Parcel = Parcel<RingMail>;

    type Dossier = Dossier<RingMail>;

    type Outcome = Outcome;

    type Bench = Bench;

    type Peer = Peer;

    fn open(
        registry: &mut Registry,
        alloc: Global,
        spec: Spec,
    ) -> Result<(Tenant, Parcel<RingMail>), OpenError> {
        registry.open(alloc, spec)
    }

    fn post(tenant: &mut Tenant, timed: Timed) -> Result<(), RefusedPost> {
        tenant.post(timed)
    }

    fn read(tenant: &mut Tenant) -> Result<Option<Record>, AllocError> {
        tenant.read()
    }

    fn name(tenant: &Tenant) -> u32 {
        tenant.name()
    }

    fn posted_len(tenant: &Tenant) -> usize {
        tenant.posted_len()
    }

    fn letters(tenant: &Tenant) -> &[Record] {
        tenant.letters()
    }

    fn settle(
        tenant: Tenant,
        dossier: Dossier<RingMail>,
    ) -> Result<Outcome, (Tenant, Dossier<RingMail>)> {
        match tenant.settle(dossier) {
            Ok(outcome) => return Ok(outcome),
            Err(Strange { tenant, dossier }) => return Err((tenant, dossier)),
        }
    }

    fn shape(parcel: &Parcel<RingMail>) -> Shape {
        Shape {
            name: parcel.name(),
            spec: parcel.spec(),
            events: parcel.events(),
            consumed: parcel.consumed().len(),
        }
    }

    fn ended_name(dossier: &Dossier<RingMail>) -> u32 {
        dossier.name()
    }

    fn ended_record(dossier: &Dossier<RingMail>, place: usize) -> Option<Record> {
        dossier.record(place)
    }

    fn last(outcome: &Outcome) -> Final {
        Final {
            name: outcome.name(),
            spec: outcome.spec(),
            commands: outcome.commands().len(),
            events: outcome.events(),
            ending: outcome.ending(),
            counters: outcome.counters(),
        }
    }

    fn record(outcome: &Outcome, place: usize) -> Option<Record> {
        outcome.record(place)
    }

    fn given_records(outcome: Outcome) -> usize {
        let (kept, rest) = outcome.into_records();
        kept.len().saturating_add(rest.len())
    }

    fn with_peer(alloc: Global) -> Result<(Bench, Peer), AllocError> {
        let mut bench = Bench::new(alloc)?;
        let Ok(peer) = bench.peer() else {
            drop(bench);
            return Err(AllocError);
        };
        Ok((bench, peer))
    }

    fn with_peer_again(alloc: Global) -> Result<(Bench, Peer), AllocError> {
        let mut bench = Bench::new(alloc)?;
        if let Ok(peer) = bench.peer() {
            return Ok((bench, peer));
        }
        let Ok(peer) = bench.peer() else {
            drop(bench);
            return Err(AllocError);
        };
        Ok((bench, peer))
    }

    fn slot_of(bench: &Bench, name: u32) -> Option<usize> {
        bench.slot_of(name)
    }

    fn poll(bench: &mut Bench, slot: usize) -> Polled {
        bench.poll(slot)
    }

    fn turn(bench: &mut Bench) -> Event<Dossier<RingMail>> {
        match bench.turn() {
            Turned::Ran(name) => return Event::Ran(name),
            Turned::Ended(dossier) => return Event::Ended(dossier),
            Turned::Idle => return Event::Idle,
        }
    }

    fn admit(bench: &mut Bench, parcel: Parcel<RingMail>) -> Answer<Parcel<RingMail>> {
        match bench.admit(parcel) {
            Ok(()) => return Answer::Done,
            Err(refused) => return of_refused(refused),
        }
    }

    fn offer(bench: &mut Bench, slot: usize) -> Answer<Parcel<RingMail>> {
        match bench.offer(slot) {
            Ok(()) => return Answer::Done,
            Err(OfferError::Vacant) => return Answer::Nobody,
            Err(OfferError::NoMemory) => return Answer::NoMemory,
            Err(OfferError::DequeFull(parcel)) => return Answer::DequeFull(parcel),
        }
    }

    fn retake(bench: &mut Bench) -> Answer<Parcel<RingMail>> {
        match bench.retake() {
            Ok(()) => return Answer::Done,
            Err(RetakeError::Empty) => return Answer::Nobody,
            Err(RetakeError::NoMemory) => return Answer::NoMemory,
            Err(RetakeError::Refused(refused)) => return of_refused(refused),
        }
    }

    fn adopt(bench: &mut Bench, peer: &mut Peer) -> Answer<Parcel<RingMail>> {
        match bench.adopt(peer) {
            Ok(()) => return Answer::Done,
            Err(AdoptError::Empty) => return Answer::Nobody,
            Err(AdoptError::Retry) => return Answer::Retry,
            Err(AdoptError::NoMemory) => return Answer::NoMemory,
            Err(AdoptError::Refused(refused)) => return of_refused(refused),
        }
    }

    fn close(bench: Bench) -> Closing {
        bench.close()
    }
}

/// Returns an answer without the parcel.
pub fn move_of<P>(answer: &Answer<P>) -> Move {
    match answer {
        Answer::Done => return Move::Done,
        Answer::Nobody => return Move::Nobody,
        Answer::Retry => return Move::Retry,
        _ => return Move::Failed,
    }
}

/// Returns true if a parcel was taken in.
pub fn admit<K: Kit>(bench: &mut K::Bench, parcel: K::Parcel) -> bool {
    move_of(&K::admit(bench, parcel)) == Move::Done
}

pub fn offer<K: Kit>(bench: &mut K::Bench, slot: usize) -> Move {
    move_of(&K::offer(bench, slot))
}

pub fn retake<K: Kit>(bench: &mut K::Bench) -> Move {
    move_of(&K::retake(bench))
}

pub fn adopt<K: Kit>(bench: &mut K::Bench, peer: &mut K::Peer) -> Move {
    move_of(&K::adopt(bench, peer))
}

pub fn turn<K: Kit>(bench: &mut K::Bench) -> Advance {
    match K::turn(bench) {
        Event::Ran(name) => return Advance::Ran(name),
        Event::Ended(dossier) => return Advance::Ended(K::ended_name(&dossier)),
        Event::Idle => return Advance::Idle,
    }
}

/// Returns the dossier of the experiment that ended in a turn, if one did.
pub fn last_turn<K: Kit>(bench: &mut K::Bench) -> Option<K::Dossier> {
    match K::turn(bench) {
        Event::Ended(dossier) => return Some(dossier),
        _ => return None,
    }
}
