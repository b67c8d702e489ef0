//! Three guests that move between two shards, while one allocation may fail.

use super::calls::{
    Desk, advance, arrive, counts_of, is_crowded, pack, poll, rebase, seen_back, seen_in, slot_of,
    take_in_again,
};
use super::desk::{
    Guest, MAX_TURNS, Move, has_lines, has_report, invite_all, parcel, post, read_all,
};
use crate::tests::wants::{assert_same, assert_with_message};
use crate::texts;
use emu_model::Ending;
use shard::{Dossier, ListMail, PackError, Parcel, Polled, Turned};
use std::alloc::AllocError;
use std::mem;
use std::process::Abort;
use std::test::Fail;

/// The number of failed allocations, and the number of guests that have ended.
#[derive(Clone, Copy)]
struct Road {
    refused: u64,
    ended: u64,
}

impl Road {
    // Counts a failed allocation.
    fn refuses(&mut self) {
        self.refused = self.refused.saturating_add(1);
    }
}

// Takes a parcel in. If it comes back because an allocation failed, it must be unchanged, and is
// taken in again.
fn takes_in(rt: &impl Abort, shard: &mut Desk, parcel: Parcel<ListMail>, road: &mut Road) {
    let before = seen_in(&parcel);
    let name = parcel.name();
    let answer = arrive(shard, parcel);
    assert_with_message(rt, !is_crowded(&answer), "crowded");
    if answer.is_err() {
        road.refuses();
        assert_with_message(rt, seen_back(&answer) == Some(before), "another parcel");
        assert_holds!(rt; slot_of(shard, name).is_none());
    }
    assert_with_message(rt, take_in_again(shard, answer).is_some(), "refused again");
}

// Packs the first guest. If an allocation fails, it must be unchanged, and is packed again.
fn packs(
    rt: &impl Abort,
    shard: &mut Desk,
    slot: usize,
    road: &mut Road,
) -> Option<Parcel<ListMail>> {
    let before = counts_of(shard, slot);
    let packed = pack(shard, slot);
    if packed.is_ok() {
        return packed.ok();
    }
    road.refuses();
    assert_same(rt, packed.unwrap_err(), PackError::NoMemory);
    assert_same(rt, slot_of(shard, 0), Some(slot));
    assert_same(rt, counts_of(shard, slot), before);
    pack(shard, slot).ok()
}

// Moves the first guest from one shard to the other.
fn moves(rt: &impl Abort, here: &mut Desk, there: &mut Desk, road: &mut Road) {
    let Some(slot) = slot_of(here, 0) else {
        assert_with_message(rt, false, "nobody to be moved");
        return;
    };
    let Some(parcel) = packs(rt, here, slot, road) else {
        assert_with_message(rt, false, "refused again");
        return;
    };
    takes_in(rt, there, parcel, road);
}

// Posts the commands of each guest that is there, polls it and reads its letters. A guest that was
// parked after a failed allocation has entries again, and a guest whose allocation fails now is
// unchanged.
fn attends(rt: &impl Abort, shard: &mut Desk, guests: &mut [Guest], road: &mut Road) {
    for guest in guests.iter_mut() {
        let Some(slot) = slot_of(shard, guest.name()) else {
            continue;
        };
        post(shard, slot, guest);
        let before = counts_of(shard, slot);
        match poll(shard, slot) {
            Polled::Resumed(_) => road.refuses(),
            Polled::NoMemory(_) => {
                road.refuses();
                assert_holds!(rt; counts_of(shard, slot) == before);
                assert_with_message(
                    rt,
                    !matches!(poll(shard, slot), Polled::NoMemory(_)),
                    "refused again",
                );
            }
            _ => {}
        }
        read_all(shard, slot);
    }
}

// Checks the report of the guest that ended. A guest that was halted by a failed allocation has the
// first lines of its report.
fn ends(
    rt: &(impl Abort + AllocGlobal),
    guests: &[Guest],
    left: &Dossier<ListMail>,
    road: &mut Road,
) -> Result<(), AllocError> {
    road.ended = road.ended.saturating_add(1);
    if matches!(left.ending(), Ending::Halted) {
        road.refuses();
        return has_lines(rt, guests, left);
    }
    has_report(rt, guests, left)
}

// Processes a turn, and returns its kind.
fn turns(
    rt: &(impl Abort + AllocGlobal),
    shard: &mut Desk,
    guests: &[Guest],
    road: &mut Road,
) -> Result<Move, AllocError> {
    let turned = advance(shard);
    let seen = seen_of(rt, guests, &turned, road);
    drop(turned);
    seen
}

// Returns the kind of a turn, and checks the report of the guest that ended.
fn seen_of(
    rt: &(impl Abort + AllocGlobal),
    guests: &[Guest],
    turned: &Turned<ListMail>,
    road: &mut Road,
) -> Result<Move, AllocError> {
    match turned {
        Turned::Ran(name) => Ok(Move::Ran(*name)),
        Turned::Idle => Ok(Move::Idle),
        Turned::Ended(left) => {
            ends(rt, guests, left, road)?;
            Ok(Move::Ended(left.name(), left.events()))
        }
    }
}

// Opens three guests: the first and one more on one shard, the last on the other.
fn opens(
    rt: &(impl Abort + AllocGlobal),
    here: &mut Desk,
    there: &mut Desk,
    guests: &[Guest],
    road: &mut Road,
) -> Result<(), AllocError> {
    for (place, guest) in guests.iter().enumerate() {
        let parcel = parcel(rt.alloc(), guest)?;
        if place < 2 {
            takes_in(rt, here, parcel, road);
        } else {
            takes_in(rt, there, parcel, road);
        }
    }
    Ok(())
}

// Moves the first of three guests to the other shard after each of its events. Returns the number
// of failed allocations: a parcel came back, or a resident kept its place, was parked or was
// halted.
fn go(
    rt: &(impl Abort + AllocGlobal),
    here: &mut Desk,
    there: &mut Desk,
    guests: &mut [Guest],
) -> Result<u64, AllocError> {
    let mut road = Road {
        refused: 0,
        ended: 0,
    };
    opens(rt, here, there, guests, &mut road)?;
    for turn in 0..MAX_TURNS {
        if road.ended == 3 {
            return Ok(road.refused);
        }
        attends(rt, here, guests, &mut road);
        if turn % 8 == 7 {
            rebase(here);
        }
        match turns(rt, here, guests, &mut road)? {
            Move::Ran(0) => {
                moves(rt, here, there, &mut road);
                mem::swap(here, there);
            }
            Move::Ran(_) | Move::Ended(..) => {}
            Move::Idle => mem::swap(here, there),
        }
    }
    assert_with_message(rt, false, "not ended");
    Ok(road.refused)
}

// Runs three guests on two shards, of which the second shard's clock is far ahead.
fn three_to_their_ends(rt: &(impl Abort + AllocGlobal)) -> Result<u64, AllocError> {
    let cards = [
        (texts::FAST_RETRANSMIT, texts::FAST_RETRANSMIT_REPORT),
        (texts::ONE_SLOT, texts::ONE_SLOT_REPORT),
        (texts::PACKET_BUDGET, texts::PACKET_BUDGET_REPORT),
    ];
    let mut guests = invite_all(rt, 0, &cards)?;
    let mut here = Desk::new(rt.alloc())?;
    let Ok(mut there) = Desk::with_clock(rt.alloc(), (1 << 62) - 1000) else {
        drop(here);
        return Err(AllocError);
    };
    let met = go(rt, &mut here, &mut there, guests.as_mut_slice());
    drop(here);
    drop(there);
    met
}

// Checks that at most one allocation fails. If one failed, even in the test itself, everything is
// repeated, and nothing fails then.
#[test]
fn memory_refusal(rt: HostRuntime) -> Result<(), Fail> {
    let met = match three_to_their_ends(&rt) {
        Ok(met) => met,
        Err(AllocError) => 1,
    };
    assert!(rt; met <= 1, "refused {met} times");
    if met > 0 {
        assert_same(&rt, three_to_their_ends(&rt)?, 0);
    }
    Ok(())
}
