//! Two threads that pass 64 experiments to each other while both process turns.

use super::calls::{Kit, Move, Real, admit, adopt, last_turn, offer, retake};
use super::guests::{Guest, invite, post_all, settle, take_guest, text_of};
use crate::tests::wants::assert_same;
use crate::texts;
use bench::{Closing, Registry, audit};
use std::process::Abort;
use std::sync::atomic::{AtomicU64, Ordering};
use std::thread;

const GUESTS: usize = 64;

/// The minimum number of exchanges by both threads.
const EXCHANGES: u64 = 100_000;

/// The number of exchanges per event of a thread.
const PACE: u64 = 40;

/// The maximum number of rounds, which is more than the threads need.
const MAX_ROUNDS: u64 = 1_000_000_000;

/// The bench of a thread, the thief's end of the other thread's deque, and the counts of what it
/// has done.
#[derive(Drop)]
struct Desk<B, P, D> {
    bench: B,
    peer: P,
    dossiers: Vec<D>,
    events: u64,
    exchanges: u64,
}

/// The results of a thread.
#[derive(Drop)]
struct Left<D> {
    closing: Closing,
    dossiers: Vec<D>,
    exchanges: u64,
}

// Returns true if an experiment was taken from the other bench's deque, or otherwise from the
// thread's own.
fn takes<K: Kit>(rt: &impl Abort, bench: &mut K::Bench, peer: &mut K::Peer) -> bool {
    let adopted = adopt::<K>(bench, peer);
    assert_holds!(rt; adopted != Move::Failed);
    if adopted == Move::Done {
        return true;
    }
    let retaken = retake::<K>(bench);
    assert_holds!(rt; retaken != Move::Failed);
    retaken == Move::Done
}

// Polls all residents.
fn poll_all<K: Kit>(bench: &mut K::Bench) {
    for slot in 0..GUESTS {
        K::poll(bench, slot);
    }
}

// Offers the resident of a slot, if there is one, and takes an experiment.
fn exchange<K: Kit>(rt: &impl Abort, desk: &mut Desk<K::Bench, K::Peer, K::Dossier>, slot: usize) {
    let offered = offer::<K>(&mut desk.bench, slot);
    assert_holds!(rt; offered != Move::Failed);
    if takes::<K>(rt, &mut desk.bench, &mut desk.peer) {
        desk.exchanges = desk.exchanges.saturating_add(1);
    }
}

// Processes an event, if one is due, and counts the experiments that ended.
fn event<K: Kit>(
    rt: &impl Abort,
    desk: &mut Desk<K::Bench, K::Peer, K::Dossier>,
    ended: &AtomicU64,
) {
    if desk.events > desk.exchanges / PACE {
        return;
    }
    desk.events = desk.events.saturating_add(1);
    poll_all::<K>(&mut desk.bench);
    let Some(dossier) = last_turn::<K>(&mut desk.bench) else {
        return;
    };
    assert_holds!(rt; desk.dossiers.push(dossier).is_ok());
    ended.fetch_add(1, Ordering::SeqCst);
}

fn leave<K: Kit>(desk: Desk<K::Bench, K::Peer, K::Dossier>) -> Left<K::Dossier> {
    Left {
        closing: K::close(desk.bench),
        dossiers: desk.dossiers,
        exchanges: desk.exchanges,
    }
}

// Continues until all experiments have ended, in either thread.
fn work<K: Kit>(
    rt: &(impl Abort + AllocGlobal),
    bench: K::Bench,
    peer: K::Peer,
    ended: &AtomicU64,
) -> Left<K::Dossier> {
    let mut desk = Desk {
        bench,
        peer,
        dossiers: Vec::new(rt.alloc()),
        events: 0,
        exchanges: 0,
    };
    for round in 0..MAX_ROUNDS {
        if ended.load(Ordering::SeqCst) >= GUESTS as u64 {
            break;
        }
        event::<K>(rt, &mut desk, ended);
        exchange::<K>(rt, &mut desk, (round % GUESTS as u64) as usize);
    }
    leave::<K>(desk)
}

// Returns the texts of the examples in turn.
fn example(k: usize) -> (&'static str, &'static str) {
    match k % 4 {
        0 => return (texts::ONE_SLOT, texts::ONE_SLOT_REPORT),
        1 => return (texts::FAST_RETRANSMIT, texts::FAST_RETRANSMIT_REPORT),
        2 => return (texts::NEW_RATE, texts::NEW_RATE_REPORT),
        _ => return (texts::CODEL_ONE_DROP, texts::CODEL_ONE_DROP_REPORT),
    }
}

// Creates a guest whose commands are posted, and whose experiment is on a bench.
fn seat_guest<K: Kit>(
    rt: &(impl Abort + AllocGlobal),
    registry: &mut Registry,
    bench: &mut K::Bench,
    k: usize,
) -> Guest<K::Tenant> {
    let (text, report) = example(k);
    let (mut guest, parcel) = invite::<K>(rt, registry, text, report).expect(rt, "a guest");
    post_all::<K>(rt, &mut guest);
    assert_holds!(rt; admit::<K>(bench, parcel));
    guest
}

// Creates 64 guests, alternately on the two benches.
fn seat_all<K: Kit>(
    rt: &(impl Abort + AllocGlobal),
    here: &mut K::Bench,
    there: &mut K::Bench,
) -> Vec<Option<Guest<K::Tenant>>> {
    let mut registry = Registry::new();
    let mut guests = Vec::new(rt.alloc());
    for k in 0..GUESTS / 2 {
        let guest = seat_guest::<K>(rt, &mut registry, here, k);
        assert_holds!(rt; guests.push(Some(guest)).is_ok());
        let guest = seat_guest::<K>(rt, &mut registry, there, k);
        assert_holds!(rt; guests.push(Some(guest)).is_ok());
    }
    guests
}

// Checks the report of a dossier's guest.
fn has_report<K: Kit>(
    rt: &(impl Abort + AllocGlobal),
    guests: &mut [Option<Guest<K::Tenant>>],
    dossier: K::Dossier,
) {
    let guest = take_guest(rt, guests, K::ended_name(&dossier));
    let settled = settle::<K>(rt, guest, dossier);
    let written = text_of::<K>(rt.alloc(), &settled).expect(rt, "memory");
    assert_holds!(rt; written.as_slice() == settled.wanted_report());
}

// Checks the report of each dossier's guest, and returns the number of dossiers.
fn settle_all<K: Kit>(
    rt: &(impl Abort + AllocGlobal),
    guests: &mut [Option<Guest<K::Tenant>>],
    dossiers: Vec<K::Dossier>,
) -> usize {
    let count = dossiers.len();
    for dossier in dossiers {
        has_report::<K>(rt, guests, dossier);
    }
    count
}

// Checks that there were many exchanges, that nothing was lost, and all reports.
fn judge<K: Kit>(
    rt: &(impl Abort + AllocGlobal),
    guests: &mut [Option<Guest<K::Tenant>>],
    here: Left<K::Dossier>,
    there: Left<K::Dossier>,
) {
    let exchanges = here.exchanges.saturating_add(there.exchanges);
    assert!(rt; exchanges >= EXCHANGES, "{exchanges} exchanges");
    assert_holds!(rt; audit(&[here.closing, there.closing]).is_ok());
    let count = settle_all::<K>(rt, guests, here.dossiers);
    let also_count = settle_all::<K>(rt, guests, there.dossiers);
    assert_same(rt, count.saturating_add(also_count), GUESTS);
}

#[test]
fn two_threads_exchange(rt: HostRuntime) {
    let (mut here, mine) = Real::with_peer(rt.alloc()).expect(&rt, "a bench");
    let (mut there, theirs) = Real::with_peer(rt.alloc()).expect(&rt, "a bench");
    let mut guests = seat_all::<Real>(&rt, &mut here, &mut there);
    let ended = AtomicU64::new(0);
    let (left, also_left) = thread::join(
        &rt,
        || work::<Real>(&rt, here, theirs, &ended),
        || work::<Real>(&rt, there, mine, &ended),
    );
    judge::<Real>(&rt, guests.as_mut_slice(), left, also_left);
}
