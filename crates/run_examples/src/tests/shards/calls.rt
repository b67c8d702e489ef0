//! The calls of a shard. The examples assume nothing about their results. A value that holds an
//! experiment is dropped by a call (`drop`, `ok`, `unwrap_err`), because each of its parts is
//! proved wherever it is dropped in place.

use emu_model::{Record, Spec, Timed};
use shard::{ListMail, PackError, Parcel, Polled, PostError, Shard, TakeInError, Turned, Vacant};
use timer_wheel::{Agenda, Wheel};

/// The shards of the examples, over an agenda.
pub type Host<A> = Shard<A, ListMail>;

/// The shards of the examples, over a wheel.
pub type Desk = Host<Wheel>;

/// The result for a parcel that was to be taken in.
pub type Arrival = Result<usize, TakeInError<ListMail>>;

/// The latest time (ns) of a command.
const LATEST: u64 = 1_000_000_000_000_000;

pub fn arrive<A: Agenda>(shard: &mut Host<A>, parcel: Parcel<ListMail>) -> Arrival {
    shard.take_in(parcel)
}

/// Takes a parcel in, and returns its slot.
pub fn take_in<A: Agenda>(shard: &mut Host<A>, parcel: Parcel<ListMail>) -> Option<usize> {
    shard.take_in(parcel).ok()
}

/// Takes in a parcel that came back.
pub fn take_in_again<A: Agenda>(shard: &mut Host<A>, answer: Arrival) -> Option<usize> {
    if answer.is_ok() {
        return answer.ok();
    }
    match answer.unwrap_err() {
        TakeInError::Crowded(back) => take_in(shard, back),
        TakeInError::NoMemory(back) => take_in(shard, back),
    }
}

/// Returns true if the shard was crowded.
pub fn is_crowded(answer: &Arrival) -> bool {
    matches!(answer, Err(TakeInError::Crowded(_)))
}

/// The visible properties of an experiment: its name and specification, and the numbers of its
/// records, commands and events.
#[derive(Clone, Copy, PartialEq)]
pub struct Sight {
    name: u32,
    spec: Spec,
    records: usize,
    commands: usize,
    events: u64,
}

pub fn seen_in(parcel: &Parcel<ListMail>) -> Sight {
    Sight {
        name: parcel.name(),
        spec: parcel.spec(),
        records: parcel.records().len(),
        commands: parcel.consumed().len(),
        events: parcel.events(),
    }
}

/// Returns the visible properties of a parcel that came back.
pub fn seen_back(answer: &Arrival) -> Option<Sight> {
    match answer {
        Ok(_) => None,
        Err(TakeInError::Crowded(back)) => Some(seen_in(back)),
        Err(TakeInError::NoMemory(back)) => Some(seen_in(back)),
    }
}

/// Returns the numbers of records and commands of the resident in a slot, or `None` if the slot is
/// vacant.
pub fn counts_of<A: Agenda>(shard: &Host<A>, slot: usize) -> Option<(usize, usize)> {
    let records = shard.records(slot).ok()?.len();
    let commands = shard.consumed(slot).ok()?.len();
    Some((records, commands))
}

pub fn pack<A: Agenda>(shard: &mut Host<A>, slot: usize) -> Result<Parcel<ListMail>, PackError> {
    shard.pack(slot)
}

/// Returns true if a slot is vacant according to `pack`. A resident that is there is packed and
/// dropped.
pub fn packs_nobody<A: Agenda>(shard: &mut Host<A>, slot: usize) -> bool {
    let packed = shard.pack(slot);
    let is_vacant = matches!(&packed, Err(PackError::Vacant));
    drop(packed);
    is_vacant
}

pub fn advance<A: Agenda>(shard: &mut Host<A>) -> Turned<ListMail> {
    shard.turn()
}

pub fn poll<A: Agenda>(shard: &mut Host<A>, slot: usize) -> Polled {
    shard.poll(slot)
}

/// Puts a command into a resident's mail. Returns `None` if the time is too late for any command.
pub fn put<A: Agenda>(
    shard: &mut Host<A>,
    slot: usize,
    timed: Timed,
) -> Option<Result<(), PostError>> {
    if timed.moment > LATEST {
        return None;
    }
    Some(shard.put(slot, timed))
}

pub fn read<A: Agenda>(shard: &mut Host<A>, slot: usize) -> Result<Option<Record>, Vacant> {
    shard.read(slot)
}

pub fn slot_of<A: Agenda>(shard: &Host<A>, name: u32) -> Option<usize> {
    shard.slot_of(name)
}

pub fn rebase<A: Agenda>(shard: &mut Host<A>) {
    shard.rebase();
}
