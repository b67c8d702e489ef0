//! Runs in which any one allocation may fail. A failed call returns its argument unchanged and is
//! repeated, nothing is lost, and every experiment that continues has its report.

use super::calls::{
    Answer, Kit, Move, Real, Shape, admit, adopt, last_turn, move_of, offer, retake,
};
use super::guests::{Guest, Settled, invite, settle, take_guest, text_of};
use crate::tests::wants::assert_same;
use crate::texts;
use bench::{PostError, Registry, audit};
use emu_model::{Ending, Record, Timed};
use shard::Polled;
use std::alloc::AllocError;
use std::mem;
use std::process::Abort;

const GUESTS: u32 = 6;

/// The maximum number of rounds, which is more than the test needs.
const MAX_ROUNDS: u32 = 1000;

// Checks that a parcel is unchanged.
fn has_shape(rt: &impl Abort, now: &Shape, shape: &Shape) {
    assert_same(rt, now.name, shape.name);
    assert_holds!(rt; now.spec == shape.spec);
    assert_same(rt, now.events, shape.events);
    assert_same(rt, now.consumed, shape.consumed);
}

// Returns the parcel that came back because an allocation failed, if there is one.
fn back<P: Drop>(rt: &impl Abort, answer: Answer<P>) -> Option<P> {
    match answer {
        Answer::Refused(parcel) => return Some(parcel),
        Answer::Crowded(_) => panic!(rt; "crowded"),
        _ => return None,
    }
}

// Admits a parcel. If it comes back, it must be unchanged, and is admitted then.
fn admits<K: Kit>(rt: &impl Abort, bench: &mut K::Bench, parcel: K::Parcel) {
    let shape = K::shape(&parcel);
    let answer = K::admit(bench, parcel);
    if move_of(&answer) == Move::Done {
        return;
    }
    let parcel = back(rt, answer).expect(rt, "a parcel");
    has_shape(rt, &K::shape(&parcel), &shape);
    assert_holds!(rt; admit::<K>(bench, parcel));
}

fn bench_and_peer<K: Kit>(rt: &(impl Abort + AllocGlobal)) -> (K::Bench, K::Peer) {
    if let Ok(both) = K::with_peer_again(rt.alloc()) {
        return both;
    }
    K::with_peer_again(rt.alloc()).expect(rt, "memory")
}

fn guest_of<K: Kit>(
    rt: &(impl Abort + AllocGlobal),
    registry: &mut Registry,
    text: &str,
    report: &'static str,
) -> (Guest<K::Tenant>, K::Parcel) {
    if let Ok(both) = invite::<K>(rt, registry, text, report) {
        return both;
    }
    invite::<K>(rt, registry, text, report).expect(rt, "memory")
}

// Returns the command that was not posted, and the reason.
fn refusal<K: Kit>(tenant: &mut K::Tenant, timed: Timed) -> Option<(PostError, Timed)> {
    match K::post(tenant, timed) {
        Ok(()) => return None,
        Err(refused) => return Some((refused.cause, refused.command)),
    }
}

// Posts a command. If it comes back, it must be unchanged, and is posted then.
fn posts<K: Kit>(rt: &impl Abort, tenant: &mut K::Tenant, timed: Timed) {
    let count = K::posted_len(tenant);
    let Some((cause, command)) = refusal::<K>(tenant, timed) else {
        return;
    };
    assert_holds!(rt; cause == PostError::NoMemory);
    assert_holds!(rt; command == timed);
    assert_same(rt, K::posted_len(tenant), count);
    assert_holds!(rt; K::post(tenant, timed).is_ok());
}

fn posts_all<K: Kit>(rt: &impl Abort, guest: &mut Guest<K::Tenant>) {
    let Guest { tenant, plan, .. } = guest;
    for command in plan.commands.as_slice() {
        posts::<K>(rt, tenant, *command);
    }
}

// Reads the next letter, if there is one. No letter is lost if an allocation fails.
fn reads<K: Kit>(rt: &impl Abort, tenant: &mut K::Tenant) -> Option<Record> {
    let count = K::letters(tenant).len();
    if let Ok(letter) = K::read(tenant) {
        return letter;
    }
    assert_same(rt, K::letters(tenant).len(), count);
    K::read(tenant).expect(rt, "memory")
}

// Reads all letters that are there.
fn reads_all<K: Kit>(rt: &impl Abort, tenant: &mut K::Tenant) {
    for _ in 0..64 {
        if reads::<K>(rt, tenant).is_none() {
            return;
        }
    }
}

// Polls a slot. A resident that was parked resumes, and a command for which there was no memory is
// taken.
fn polls<K: Kit>(rt: &impl Abort, bench: &mut K::Bench, slot: usize) {
    if let Polled::NoMemory(name) = K::poll(bench, slot) {
        let again = K::poll(bench, slot);
        assert_holds!(rt; again == Polled::Resumed(name) || again == Polled::Took(name));
    }
}

// Returns the parcel that the deque refused.
fn of_offer<P: Drop>(answer: Answer<P>) -> Option<P> {
    let Answer::DequeFull(parcel) = answer else {
        return None;
    };
    Some(parcel)
}

// Offers a resident again. It either kept its place, and is offered then, or was handed out, and is
// admitted then.
fn offers_again<K: Kit>(
    rt: &impl Abort,
    bench: &mut K::Bench,
    name: u32,
    slot: usize,
    answer: Answer<K::Parcel>,
) {
    if let Some(parcel) = of_offer(answer) {
        assert_same(rt, K::shape(&parcel).name, name);
        admits::<K>(rt, bench, parcel);
        return;
    }
    assert_same(rt, K::slot_of(bench, name), Some(slot));
    assert_holds!(rt; offer::<K>(bench, slot) == Move::Done);
}

fn offers<K: Kit>(rt: &impl Abort, bench: &mut K::Bench, name: u32) {
    let Some(slot) = K::slot_of(bench, name) else {
        return;
    };
    let answer = K::offer(bench, slot);
    if move_of(&answer) == Move::Done {
        return;
    }
    offers_again::<K>(rt, bench, name, slot, answer);
}

fn retakes<K: Kit>(rt: &impl Abort, bench: &mut K::Bench) {
    let answer = K::retake(bench);
    if move_of(&answer) == Move::Done {
        return;
    }
    if let Some(parcel) = back(rt, answer) {
        assert_holds!(rt; admit::<K>(bench, parcel));
        return;
    }
    assert_holds!(rt; retake::<K>(bench) != Move::Failed);
}

fn adopts<K: Kit>(rt: &impl Abort, bench: &mut K::Bench, peer: &mut K::Peer) {
    let answer = K::adopt(bench, peer);
    if move_of(&answer) == Move::Done {
        return;
    }
    if let Some(parcel) = back(rt, answer) {
        assert_holds!(rt; admit::<K>(bench, parcel));
        return;
    }
    assert_holds!(rt; adopt::<K>(bench, peer) != Move::Failed);
}

// Returns true if all lines of a text except the last are the first lines of another text.
fn begins_like(text: &[u8], whole: &[u8]) -> bool {
    let mut end = 0;
    for (at, byte) in text.iter().enumerate() {
        if *byte == b'\n' && at.saturating_add(1) < text.len() {
            end = at;
        }
    }
    if end > text.len() || end > whole.len() {
        return false;
    }
    text[..end] == whole[..end]
}

fn settled_text<K: Kit>(rt: &(impl Abort + AllocGlobal), settled: &Settled<K::Outcome>) -> Vec<u8> {
    if let Ok(written) = text_of::<K>(rt.alloc(), settled) {
        return written;
    }
    text_of::<K>(rt.alloc(), settled).expect(rt, "memory")
}

// Checks the guest's report. If the experiment was halted, checks that its lines begin the report.
fn has_report<K: Kit>(
    rt: &(impl Abort + AllocGlobal),
    guest: Guest<K::Tenant>,
    dossier: K::Dossier,
) {
    let settled = settle::<K>(rt, guest, dossier);
    let written = settled_text::<K>(rt, &settled);
    if matches!(K::last(&settled.outcome).ending, Ending::Halted) {
        assert_holds!(rt; begins_like(written.as_slice(), settled.wanted_report()));
        return;
    }
    assert_holds!(rt; written.as_slice() == settled.wanted_report());
}

// Processes a turn, and settles with the guest whose experiment ended in it.
fn turns<K: Kit>(
    rt: &(impl Abort + AllocGlobal),
    bench: &mut K::Bench,
    guests: &mut [Option<Guest<K::Tenant>>],
) {
    if let Some(dossier) = last_turn::<K>(bench) {
        let guest = take_guest(rt, guests, K::ended_name(&dossier));
        has_report::<K>(rt, guest, dossier);
    }
}

// Returns the texts of the examples in turn.
fn example(name: u32) -> (&'static str, &'static str) {
    match name % 3 {
        0 => return (texts::ONE_PACKET, texts::ONE_PACKET_REPORT),
        1 => return (texts::ONE_SLOT, texts::ONE_SLOT_REPORT),
        _ => return (texts::NEW_RATE, texts::NEW_RATE_REPORT),
    }
}

// Creates a guest whose experiment is on a bench, and whose commands are posted.
fn seat_guest<K: Kit>(
    rt: &(impl Abort + AllocGlobal),
    registry: &mut Registry,
    bench: &mut K::Bench,
    name: u32,
) -> Guest<K::Tenant> {
    let (text, report) = example(name);
    let (mut guest, parcel) = guest_of::<K>(rt, registry, text, report);
    assert_same(rt, K::shape(&parcel).name, name);
    admits::<K>(rt, bench, parcel);
    posts_all::<K>(rt, &mut guest);
    guest
}

fn seat_all<K: Kit>(
    rt: &(impl Abort + AllocGlobal),
    registry: &mut Registry,
    bench: &mut K::Bench,
) -> Result<Vec<Option<Guest<K::Tenant>>>, AllocError> {
    let mut guests = Vec::new(rt.alloc());
    if guests.reserve(GUESTS as usize).is_err() {
        guests.reserve(GUESTS as usize)?;
    }
    for name in 0..GUESTS {
        guests.push(Some(seat_guest::<K>(rt, registry, bench, name)))?;
    }
    Ok(guests)
}

// Polls each resident of a bench, and lets some of them process an event.
fn serve<K: Kit>(
    rt: &(impl Abort + AllocGlobal),
    bench: &mut K::Bench,
    guests: &mut [Option<Guest<K::Tenant>>],
) {
    for slot in 0..GUESTS as usize {
        polls::<K>(rt, bench, slot);
    }
    for _ in 0..GUESTS {
        turns::<K>(rt, bench, guests);
    }
}

// Reads the letters of all guests that are still there.
fn read_letters<K: Kit>(rt: &impl Abort, guests: &mut [Option<Guest<K::Tenant>>]) {
    for guest in guests.iter_mut() {
        if let Some(guest) = guest {
            reads_all::<K>(rt, &mut guest.tenant);
        }
    }
}

// Offers all residents of the first bench. One is retaken, and the second bench adopts the others.
fn hand_on<K: Kit>(rt: &impl Abort, from: &mut K::Bench, to: &mut K::Bench, peer: &mut K::Peer) {
    for name in 0..GUESTS {
        offers::<K>(rt, from, name);
    }
    retakes::<K>(rt, from);
    for _ in 0..GUESTS {
        adopts::<K>(rt, to, peer);
    }
}

fn all_left<T: Drop>(guests: &[Option<Guest<T>>]) -> bool {
    guests.iter().all(|guest| guest.is_none())
}

fn refused_of<K: Kit>(rt: &(impl Abort + AllocGlobal)) {
    let mut registry = Registry::new();
    let (mut here, mut mine) = bench_and_peer::<K>(rt);
    let (mut there, mut theirs) = bench_and_peer::<K>(rt);
    let mut guests = seat_all::<K>(rt, &mut registry, &mut here).expect(rt, "memory");
    for _ in 0..MAX_ROUNDS {
        serve::<K>(rt, &mut here, guests.as_mut_slice());
        serve::<K>(rt, &mut there, guests.as_mut_slice());
        read_letters::<K>(rt, guests.as_mut_slice());
        if all_left(guests.as_slice()) {
            break;
        }
        hand_on::<K>(rt, &mut here, &mut there, &mut mine);
        mem::swap(&mut here, &mut there);
        mem::swap(&mut mine, &mut theirs);
    }
    assert_holds!(rt; all_left(guests.as_slice()));
    assert_holds!(rt; audit(&[K::close(here), K::close(there)]).is_ok());
}

// Passes with ample memory, and if any one of its allocations fails.
#[test]
fn memory_refusal(rt: HostRuntime) {
    refused_of::<Real>(&rt);
}
