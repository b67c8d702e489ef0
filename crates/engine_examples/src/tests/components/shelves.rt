//! Budgets, keys and refusals, with numbers chosen by hand.

use crate::tests::wants::assert_same;
use emu_model::{Load, Packet, PacketBudget, Place, Protocol, RuleNumber, Size};
use packet_store::*;
use std::process::Abort;

fn packet(number: u64) -> Packet {
    let Some(size) = Size::new(1000) else {
        unreachable!()
    };
    let Some(rule) = RuleNumber::new(0) else {
        unreachable!()
    };
    Packet {
        proto: Protocol::Udp,
        src: 0x0a00_0001,
        sport: 1000,
        dst: 0x0a00_0002,
        dport: 2000,
        size,
        number,
        load: Load::Plain,
        place: Place {
            number: rule,
            order: 0,
        },
    }
}

fn put<S: Shelf>(shelf: &mut S, owner: Owner, number: u64) -> Result<Key, PutError> {
    shelf.put(owner, packet(number))
}

// Returns the number of the owner's packet at a key.
fn look<S: Shelf>(shelf: &S, owner: Owner, key: Key) -> Option<u64> {
    match shelf.look(owner, key) {
        Some(packet) => Some(packet.number),
        None => None,
    }
}

fn take<S: Shelf>(shelf: &mut S, owner: Owner, key: Key) -> Option<u64> {
    match shelf.take(owner, key) {
        Some(packet) => Some(packet.number),
        None => None,
    }
}

// Returns how many packets an owner can put before it is over its budget.
fn flood<S: Shelf>(shelf: &mut S, owner: Owner) -> Option<u64> {
    for number in 0..100_000 {
        if shelf.put_ready(owner).is_err() {
            return None;
        }
        match put(shelf, owner, number) {
            Ok(_) => {}
            Err(PutError::OverBudget) => return Some(number),
            Err(PutError::NoMemory) => return None,
        }
    }
    None
}

fn budget(rt: &impl Abort, packets: u16) -> PacketBudget {
    PacketBudget::new(packets).expect(rt, "a budget")
}

fn puts<S: Shelf>(rt: &impl Abort, shelf: &mut S, owner: Owner, number: u64) -> Key {
    put(shelf, owner, number).ok().expect(rt, "a key")
}

fn is_over_budget<S: Shelf>(shelf: &mut S, owner: Owner) -> bool {
    matches!(put(shelf, owner, 99), Err(PutError::OverBudget))
}

// Checks that a free place is used again.
fn keeps_its_budget<S: Shelf>(rt: &impl Abort, shelf: &mut S) {
    let first = puts(rt, shelf, 0, 10);
    let second = puts(rt, shelf, 0, 11);
    assert_holds!(rt; is_over_budget(shelf, 0));
    assert_same(rt, look(shelf, 0, second), Some(11));
    assert_same(rt, (shelf.count(0), shelf.count(1)), (2, 0));
    assert_holds!(rt; take(shelf, 0, first) == Some(10));
    assert_same(rt, (shelf.count(0), shelf.count(1)), (1, 0));
    assert_holds!(rt; take(shelf, 0, first) == None);
    assert_holds!(rt; puts(rt, shelf, 0, 13) == first);
    assert_holds!(rt; is_over_budget(shelf, 1));
}

#[test]
fn own_shelf_keeps_its_budget(rt: HostRuntime) {
    let mut shelf = OwnShelf::new(rt.alloc(), budget(&rt, 2));
    assert_holds!(&rt; shelf.reserve(1000).is_ok());
    keeps_its_budget(&rt, &mut shelf);
}

// Admits a new owner, and retries once if an allocation fails.
fn new_owner(rt: &impl Abort, store: &mut Store, packets: u16) -> Owner {
    match store.admit(budget(rt, packets)) {
        Ok(owner) => owner,
        Err(_) => store.admit(budget(rt, packets)).expect(rt, "memory"),
    }
}

fn floods(rt: &impl Abort, store: &mut Store) {
    let quiet = new_owner(rt, store, 2);
    let loud = new_owner(rt, store, 65535);
    assert_holds!(rt; flood(store, loud) == Some(65535));
    let kept = puts(rt, store, quiet, 20);
    assert_holds!(rt; look(store, loud, kept) != Some(20));
    assert_same(rt, flood(store, quiet), Some(1));
    assert_holds!(rt; (store.count(quiet), store.count(loud)) == (2, 65535));

    // The packets of a dismissed owner are gone, and its number is used again.
    store.dismiss(loud);
    assert_holds!(rt; flood(store, loud) == Some(0));
    assert_same(rt, look(store, quiet, kept), Some(20));
    assert_holds!(rt; new_owner(rt, store, 3) == loud);
    assert_holds!(rt; flood(store, loud) == Some(3));
}

#[test]
fn a_flood_takes_no_place_of_another(rt: HostRuntime) {
    let mut store = Store::new(rt.alloc());
    floods(&rt, &mut store);
}

fn grows(rt: &impl Abort, store: &mut Store) {
    let first = new_owner(rt, store, 3);
    let kept = puts(rt, store, first, 40);
    let second = new_owner(rt, store, 3);
    assert_same(rt, look(store, first, kept), Some(40));
    assert_same(rt, flood(store, second), Some(3));
}

// Checks that a failed call changes nothing, and succeeds when it is repeated. Passes with ample
// memory, and if any one of its allocations fails.
#[test]
fn a_refused_growth_changes_nothing(rt: HostRuntime) {
    let mut store = Store::new(rt.alloc());
    grows(&rt, &mut store);
}

fn puts_in_the_end<S: Shelf>(rt: &impl Abort, shelf: &mut S) {
    let first = match put(shelf, 0, 50) {
        Ok(key) => key,
        Err(_) => puts(rt, shelf, 0, 50),
    };
    assert_holds!(rt; shelf.put_ready(0).is_ok() || shelf.put_ready(0).is_ok());
    assert_holds!(rt; look(shelf, 0, first) == Some(50));
    assert_same(rt, flood(shelf, 0), Some(2));
}

#[test]
fn a_refused_put_changes_nothing(rt: HostRuntime) {
    let mut shelf = OwnShelf::new(rt.alloc(), budget(&rt, 3));
    puts_in_the_end(&rt, &mut shelf);
}
