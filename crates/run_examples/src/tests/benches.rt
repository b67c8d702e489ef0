//! Tenants and benches, with numbers chosen by hand and the texts and reports of examples/.

mod calls;
mod guests;
mod refusals;
mod threads;

use crate::tests::wants::assert_same;
use crate::texts;
use bench::{Closing, Lost, OpenError, PostError, Registry, audit};
use calls::{Advance, Kit, Move, Real, admit, adopt, last_turn, offer, retake, turn};
use emu_model::{Budget, Command, Ending, PacketBudget, Spec, StepBudget, Timed};
use guests::{Guest, invite, post_all, settle, text_of};
use shard::{PackError, Polled};
use std::process::Abort;
use std::slice;

/// The latest time (ns) of a command.
const LATEST: u64 = 1_000_000_000_000_000;

// Returns the specification of the tenants that post little more than their end.
fn small_spec(rt: &impl Abort) -> Spec {
    let packets = PacketBudget::new(4).expect(rt, "in range");
    let steps = StepBudget::new(100).expect(rt, "in range");
    Spec {
        seed: 0,
        budget: Budget { packets, steps },
        traced: false,
    }
}

fn open_tenant<K: Kit>(
    rt: &(impl Abort + AllocGlobal),
    registry: &mut Registry,
) -> (K::Tenant, K::Parcel) {
    K::open(registry, rt.alloc(), small_spec(rt)).expect(rt, "a tenant")
}

// Creates a tenant whose experiment is on a bench.
fn host_tenant<K: Kit>(
    rt: &(impl Abort + AllocGlobal),
    registry: &mut Registry,
    bench: &mut K::Bench,
) -> K::Tenant {
    let (tenant, parcel) = open_tenant::<K>(rt, registry);
    assert_holds!(rt; admit::<K>(bench, parcel));
    tenant
}

// Returns why a command was not posted. It must come back unchanged.
fn refusal<K: Kit>(rt: &impl Abort, tenant: &mut K::Tenant, timed: Timed) -> Option<PostError> {
    match K::post(tenant, timed) {
        Ok(()) => return None,
        Err(refused) => {
            assert_holds!(rt; refused.command == timed);
            return Some(refused.cause);
        }
    }
}

// Posts a listing at a time, and checks its refusal, or that there is none.
fn shows<K: Kit>(rt: &impl Abort, tenant: &mut K::Tenant, moment: u64, wanted: Option<PostError>) {
    let timed = Timed {
        moment,
        command: Command::Show,
    };
    let is_answered = refusal::<K>(rt, tenant, timed) == wanted;
    assert_same(rt, (moment, is_answered), (moment, true));
}

// Posts an end at a time, and checks its refusal, or that there is none.
fn ends<K: Kit>(rt: &impl Abort, tenant: &mut K::Tenant, moment: u64, wanted: Option<PostError>) {
    let timed = Timed {
        moment,
        command: Command::End,
    };
    let is_answered = refusal::<K>(rt, tenant, timed) == wanted;
    assert_same(rt, (moment, is_answered), (moment, true));
}

fn posting_refusals_of<K: Kit>(rt: &(impl Abort + AllocGlobal)) {
    let mut registry = Registry::new();
    let (mut tenant, _parcel) = open_tenant::<K>(rt, &mut registry);
    shows::<K>(rt, &mut tenant, 6, None);
    shows::<K>(rt, &mut tenant, 5, Some(PostError::Early));
    shows::<K>(rt, &mut tenant, LATEST, None);
    shows::<K>(rt, &mut tenant, LATEST + 1, Some(PostError::TooLate));
    for _ in 2..64 {
        shows::<K>(rt, &mut tenant, LATEST, None);
    }
    ends::<K>(rt, &mut tenant, LATEST, Some(PostError::MailFull));
    shows::<K>(rt, &mut tenant, 5, Some(PostError::Early));
    assert_same(rt, K::posted_len(&tenant), 64);
}

#[test]
fn posting_refusals(rt: HostRuntime) {
    posting_refusals_of::<Real>(&rt);
}

fn nothing_is_posted_behind_an_end_of<K: Kit>(rt: &(impl Abort + AllocGlobal)) {
    let mut registry = Registry::new();
    let (mut tenant, _parcel) = open_tenant::<K>(rt, &mut registry);
    ends::<K>(rt, &mut tenant, 6, None);
    shows::<K>(rt, &mut tenant, LATEST + 1, Some(PostError::Closed));
    ends::<K>(rt, &mut tenant, 6, Some(PostError::Closed));
    assert_same(rt, K::posted_len(&tenant), 1);
}

#[test]
fn nothing_is_posted_behind_an_end(rt: HostRuntime) {
    nothing_is_posted_behind_an_end_of::<Real>(&rt);
}

// Returns why no tenant was opened.
fn open_error<K: Kit>(
    rt: &(impl Abort + AllocGlobal),
    registry: &mut Registry,
) -> Option<OpenError> {
    K::open(registry, rt.alloc(), small_spec(rt)).err()
}

fn the_last_name_of<K: Kit>(rt: &(impl Abort + AllocGlobal)) {
    let mut registry = Registry::starting(999_999);
    let (tenant, parcel) = open_tenant::<K>(rt, &mut registry);
    assert_same(rt, K::name(&tenant), 999_999);
    assert_same(rt, K::shape(&parcel).name, 999_999);
    assert_same(
        rt,
        open_error::<K>(rt, &mut registry),
        Some(OpenError::NamesOut),
    );
    assert_same(
        rt,
        open_error::<K>(rt, &mut registry),
        Some(OpenError::NamesOut),
    );
}

#[test]
fn the_last_name(rt: HostRuntime) {
    the_last_name_of::<Real>(&rt);
}

// Runs a resident whose only command is its end.
fn end_resident<K: Kit>(
    rt: &impl Abort,
    bench: &mut K::Bench,
    slot: usize,
    name: u32,
) -> K::Dossier {
    assert_same(rt, K::poll(bench, slot), Polled::Took(name));
    let dossier = last_turn::<K>(bench).expect(rt, "an end");
    assert_same(rt, K::ended_name(&dossier), name);
    dossier
}

// Checks that both arguments come back unchanged.
fn isolation<K: Kit>(
    rt: &impl Abort,
    tenant: K::Tenant,
    dossier: K::Dossier,
) -> (K::Tenant, K::Dossier) {
    K::settle(tenant, dossier).err().expect(rt, "its own")
}

// Checks that the dossier is the tenant's, and has one command, its end.
fn settles<K: Kit>(rt: &impl Abort, tenant: K::Tenant, dossier: K::Dossier) {
    let name = K::name(&tenant);
    let outcome = K::settle(tenant, dossier).ok().expect(rt, "strange");
    let last = K::last(&outcome);
    assert_same(rt, last.name, name);
    assert_holds!(rt; last.spec == small_spec(rt));
    assert_holds!(rt; last.commands == 1);
    assert_same(rt, last.events, 1);
    assert_holds!(rt; matches!(last.ending, Ending::Ended));
    assert_holds!(rt; K::given_records(outcome) == 1);
}

fn strange_dossier_of<K: Kit>(rt: &(impl Abort + AllocGlobal)) {
    let mut registry = Registry::new();
    let (mut bench, _peer) = K::with_peer(rt.alloc()).expect(rt, "a bench");
    let mut zero = host_tenant::<K>(rt, &mut registry, &mut bench);
    let mut one = host_tenant::<K>(rt, &mut registry, &mut bench);
    ends::<K>(rt, &mut zero, 7, None);
    ends::<K>(rt, &mut one, 7, None);
    let of_zero = end_resident::<K>(rt, &mut bench, 0, 0);
    let of_one = end_resident::<K>(rt, &mut bench, 1, 1);
    let (zero, of_one) = isolation::<K>(rt, zero, of_one);
    assert_same(rt, K::name(&zero), 0);
    assert_same(rt, K::posted_len(&zero), 1);
    assert_same(rt, K::ended_name(&of_one), 1);
    assert_holds!(rt; has_records::<K>(&of_one, 1));
    settles::<K>(rt, one, of_one);
    settles::<K>(rt, zero, of_zero);
}

#[test]
fn strange_dossier(rt: HostRuntime) {
    strange_dossier_of::<Real>(&rt);
}

// Offers the resident with a name.
fn offers<K: Kit>(rt: &impl Abort, bench: &mut K::Bench, name: u32) {
    let slot = K::slot_of(bench, name).expect(rt, "a resident");
    assert_holds!(rt; offer::<K>(bench, slot) == Move::Done);
    assert_holds!(rt; K::slot_of(bench, name).is_none());
    assert_holds!(rt; offer::<K>(bench, slot) == Move::Nobody);
}

fn retakes<K: Kit>(rt: &impl Abort, bench: &mut K::Bench, name: u32) {
    assert_holds!(rt; retake::<K>(bench) == Move::Done);
    assert_holds!(rt; K::slot_of(bench, name).is_some());
    assert_holds!(rt; retake::<K>(bench) == Move::Nobody);
}

fn adopts<K: Kit>(rt: &impl Abort, bench: &mut K::Bench, peer: &mut K::Peer, name: u32) {
    assert_holds!(rt; adopt::<K>(bench, peer) == Move::Done);
    assert_same(rt, K::slot_of(bench, name), Some(0));
    assert_holds!(rt; adopt::<K>(bench, peer) == Move::Nobody);
}

// Closes two benches. Bench 0 admits 0, 1 and 2: 0 ends, 1 moves to the other bench, 2 is offered,
// retaken and offered again.
fn two_closings<K: Kit>(rt: &(impl Abort + AllocGlobal)) -> (Closing, Closing) {
    let mut registry = Registry::new();
    let (mut here, mut peer) = K::with_peer(rt.alloc()).expect(rt, "a bench");
    let (mut there, _peer) = K::with_peer(rt.alloc()).expect(rt, "a bench");
    let mut zero = host_tenant::<K>(rt, &mut registry, &mut here);
    host_tenant::<K>(rt, &mut registry, &mut here);
    host_tenant::<K>(rt, &mut registry, &mut here);
    ends::<K>(rt, &mut zero, 7, None);
    end_resident::<K>(rt, &mut here, 0, 0);
    offers::<K>(rt, &mut here, 1);
    adopts::<K>(rt, &mut there, &mut peer, 1);
    offers::<K>(rt, &mut here, 2);
    retakes::<K>(rt, &mut here, 2);
    offers::<K>(rt, &mut here, 2);
    (K::close(here), K::close(there))
}

#[test]
fn custody(rt: HostRuntime) {
    let (here, there) = two_closings::<Real>(&rt);
    assert_holds!(&rt; audit(&[]).is_ok());
    assert_same(&rt, audit(slice::from_ref(&here)), Err(Lost(1)));
    assert_holds!(&rt; audit(&[here, there]).is_ok());
}

fn nobody_is_at_a_new_bench_of<K: Kit>(rt: &(impl Abort + AllocGlobal)) {
    let (mut bench, _peer) = K::with_peer(rt.alloc()).expect(rt, "a bench");
    assert_holds!(rt; K::slot_of(&bench, 0).is_none());
    assert_same(rt, K::poll(&mut bench, 0), Polled::Vacant);
    assert_holds!(rt; turn::<K>(&mut bench) == Advance::Idle);
    assert_holds!(rt; offer::<K>(&mut bench, 256) == Move::Nobody);
}

#[test]
fn nobody_is_at_a_new_bench(rt: HostRuntime) {
    nobody_is_at_a_new_bench_of::<Real>(&rt);
}

// Polls the only resident, checks the result, and processes an event after which the resident
// continues.
fn runs<K: Kit>(rt: &impl Abort, bench: &mut K::Bench, polled: Polled) {
    assert_same(rt, K::poll(bench, 0), polled);
    assert_holds!(rt; turn::<K>(bench) == Advance::Ran(0));
}

// Returns true if there was a letter.
fn reads<K: Kit>(rt: &impl Abort, guest: &mut Guest<K::Tenant>) -> bool {
    let letter = K::read(&mut guest.tenant).expect(rt, "memory");
    letter.is_some()
}

// Returns true if a dossier has exactly this number of records, which must be at least one.
fn has_records<K: Kit>(dossier: &K::Dossier, count: usize) -> bool {
    K::ended_record(dossier, count.saturating_sub(1)).is_some()
        && K::ended_record(dossier, count).is_none()
}

// Checks that the dossier has six records, of which the first five were read.
fn has_read_five<K: Kit>(rt: &impl Abort, guest: &Guest<K::Tenant>, dossier: &K::Dossier) {
    let read = K::letters(&guest.tenant);
    assert_same(rt, read.len(), 5);
    assert_holds!(rt; has_records::<K>(dossier, 6));
    for place in 0..read.len() {
        assert_holds!(rt; K::ended_record(dossier, place) == Some(read[place]));
    }
}

fn letters_of<K: Kit>(rt: &(impl Abort + AllocGlobal)) {
    let mut registry = Registry::new();
    let (mut bench, _peer) = K::with_peer(rt.alloc()).expect(rt, "a bench");
    let (text, report) = (texts::ONE_PACKET, texts::ONE_PACKET_REPORT);
    let (mut guest, parcel) = invite::<K>(rt, &mut registry, text, report).expect(rt, "a guest");
    assert_holds!(rt; admit::<K>(&mut bench, parcel));
    post_all::<K>(rt, &mut guest);

    // Three commands, and the two events before the fourth command, which is the end.
    for _ in 0..4 {
        runs::<K>(rt, &mut bench, Polled::Took(0));
    }
    runs::<K>(rt, &mut bench, Polled::Held(0));
    for _ in 0..5 {
        assert_holds!(rt; reads::<K>(rt, &mut guest));
    }
    assert_holds!(rt; !reads::<K>(rt, &mut guest));
    let dossier = last_turn::<K>(&mut bench).expect(rt, "an end");
    has_read_five::<K>(rt, &guest, &dossier);
    let settled = settle::<K>(rt, guest, dossier);
    let written = text_of::<K>(rt.alloc(), &settled).expect(rt, "memory");
    assert_holds!(rt; written.as_slice() == settled.wanted_report());
}

#[test]
fn letters(rt: HostRuntime) {
    letters_of::<Real>(&rt);
}

// The 82 records of its report: for the first three commands, two for each of 38 packets, two
// drops, and one for the end.
const CODEL_RECORDS: usize = 82;

// Polls and turns the only resident until it has ended.
fn last_of<K: Kit>(rt: &impl Abort, bench: &mut K::Bench) -> K::Dossier {
    for _ in 0..1000 {
        K::poll(bench, 0);
        if let Some(dossier) = last_turn::<K>(bench) {
            return dossier;
        }
    }
    panic!(rt; "not ended");
}

// Checks records that were never published: the ring has 64 slots, so this is true of 18 records.
fn unread_of<K: Kit>(rt: &(impl Abort + AllocGlobal)) {
    let mut registry = Registry::new();
    let (mut bench, _peer) = K::with_peer(rt.alloc()).expect(rt, "a bench");
    let (text, report) = (texts::CODEL_TWO_DROPS, texts::CODEL_TWO_DROPS_REPORT);
    let (mut guest, parcel) = invite::<K>(rt, &mut registry, text, report).expect(rt, "a guest");
    assert_holds!(rt; admit::<K>(&mut bench, parcel));
    post_all::<K>(rt, &mut guest);
    let dossier = last_of::<K>(rt, &mut bench);
    assert_holds!(rt; has_records::<K>(&dossier, CODEL_RECORDS));
    assert_holds!(rt; K::letters(&guest.tenant).is_empty());
    let settled = settle::<K>(rt, guest, dossier);
    assert_holds!(rt; K::record(&settled.outcome, CODEL_RECORDS - 1).is_some());
    assert_holds!(rt; K::record(&settled.outcome, CODEL_RECORDS).is_none());
    let written = text_of::<K>(rt.alloc(), &settled).expect(rt, "memory");
    assert_holds!(rt; written.as_slice() == settled.wanted_report());
}

#[test]
fn unread_letters(rt: HostRuntime) {
    unread_of::<Real>(&rt);
}

#[test]
fn refusals_have_their_numbers(rt: HostRuntime) {
    assert_same(&rt, PackError::Vacant as u8, 31);
    assert_same(&rt, PackError::NoMemory as u8, 99);
    assert_same(&rt, PostError::Early as u8, 40);
    assert_same(&rt, PostError::MailFull as u8, 41);
    assert_same(&rt, PostError::TooLate as u8, 42);
    assert_same(&rt, PostError::Closed as u8, 45);
    assert_same(&rt, PostError::NoMemory as u8, 99);
    assert_same(&rt, OpenError::NamesOut as u8, 46);
    assert_same(&rt, OpenError::NoMemory as u8, 99);
}
