//! Worked examples on shards. Their texts and reports are those of examples/.

ghost use Rattle.std.specs.Prelude.{◌^◌, ◌≤◌};

mod agendas;
mod calls;
mod crowd;
mod desk;
mod refusals;
mod turns;

use crate::tests::wants::{assert_same, assert_with_message};
use crate::texts;
use agendas::{Anew, GivesUp};
use calls::{
    Desk, Host, advance, arrive, counts_of, is_crowded, pack, packs_nobody, poll, put, seen_back,
    seen_in, slot_of, take_in,
};
use desk::{
    Guest, MAX_TURNS, Move, attend, host, invite, invite_all, parcel, post, settle, settle_all,
    turn,
};
use emu_model::Command;
use shard::{ListMail, MAX_RESIDENTS, Polled, Shard, Turned};
use std::alloc::{AllocError, Global};
use std::mem;
use std::process::Abort;
use std::test::Fail;
use timer_wheel::{Agenda, Wheel};

// Checks polls, turns and posts of an empty shard, and then with one guest.
fn answers(
    rt: &(impl Abort + AllocGlobal),
    shard: &mut Desk,
    guests: &[Guest],
) -> Result<(), AllocError> {
    let Some(guest) = guests.first() else {
        assert_with_message(rt, false, "no guest");
        return Ok(());
    };
    let Some(config) = guest.commands().first() else {
        assert_with_message(rt, false, "no command");
        return Ok(());
    };
    assert_same(rt, config.moment, 0);
    assert_holds!(rt; matches!(config.command, Command::Config { .. }));

    assert_same(rt, poll(shard, 0), Polled::Vacant);
    assert_same(rt, turn(rt, shard, guests)?, Move::Idle);
    assert_holds!(rt; packs_nobody(shard, 0));

    assert_same(rt, settle(rt.alloc(), shard, guest)?, 0);
    assert_same(rt, poll(shard, 0), Polled::Empty(0));
    assert_holds!(rt; matches!(put(shard, 0, *config), Some(Ok(()))));
    assert_same(rt, poll(shard, 0), Polled::Took(0));
    assert_same(rt, poll(shard, 0), Polled::Held(0));
    assert_same(rt, turn(rt, shard, guests)?, Move::Ran(0));
    assert_same(rt, turn(rt, shard, guests)?, Move::Idle);
    Ok(())
}

#[test]
fn shard_answers(rt: HostRuntime) -> Result<(), Fail> {
    let guests = invite_all(&rt, 0, &[(texts::ONE_SLOT, texts::ONE_SLOT_REPORT)])?;
    let mut shard = Desk::new(rt.alloc())?;
    let answered = answers(&rt, &mut shard, guests.as_slice());
    drop(shard);
    answered?;
    Ok(())
}

// Takes all guests in, and runs them to their ends.
fn hosts(
    rt: &(impl Abort + AllocGlobal),
    shard: &mut Desk,
    guests: &mut [Guest],
    reads: bool,
) -> Result<(), AllocError> {
    settle_all(rt.alloc(), shard, guests)?;
    host(rt, shard, guests, reads)
}

// Runs guests on one shard, and reads their letters if `reads` is true.
fn are_hosted(
    rt: &(impl Abort + AllocGlobal),
    cards: &[(&'static str, &'static str)],
    reads: bool,
) -> Result<(), AllocError> {
    let mut guests = invite_all(rt, 0, cards)?;
    let mut shard = Desk::new(rt.alloc())?;
    let hosted = hosts(rt, &mut shard, guests.as_mut_slice(), reads);
    drop(shard);
    hosted
}

// Runs four guests on one shard.
fn hosts_four(rt: &(impl Abort + AllocGlobal), reads: bool) -> Result<(), AllocError> {
    let cards = [
        (texts::ONE_SLOT, texts::ONE_SLOT_REPORT),
        (texts::FAST_RETRANSMIT, texts::FAST_RETRANSMIT_REPORT),
        (texts::NEW_RATE, texts::NEW_RATE_REPORT),
        (texts::CODEL_ONE_DROP, texts::CODEL_ONE_DROP_REPORT),
    ];
    are_hosted(rt, &cards, reads)
}

#[test]
fn side_by_side(rt: HostRuntime) -> Result<(), Fail> {
    hosts_four(&rt, true)?;
    hosts_four(&rt, false)?;
    Ok(())
}

// Packs a resident, and takes it in on the other shard.
fn hand_over<A: Agenda, B: Agenda>(
    here: &mut Host<A>,
    there: &mut Host<B>,
    slot: usize,
) -> Option<usize> {
    let parcel = pack(here, slot).ok()?;
    take_in(there, parcel)
}

// Moves the resident with a name to the other shard.
fn moves<A: Agenda, B: Agenda>(
    rt: &(impl Abort + AllocGlobal),
    here: &mut Host<A>,
    there: &mut Host<B>,
    name: u32,
) -> Result<(), AllocError> {
    let Some(slot) = slot_of(here, name) else {
        assert_with_message(rt, false, "nobody to be moved");
        return Ok(());
    };
    let found = hand_over(here, there, slot).ok_or(AllocError)?;
    assert_same(rt, slot_of(here, name), None);
    assert_same(rt, slot_of(there, name), Some(found));
    Ok(())
}

// Takes in the first guest and one more on one shard, and the others on another.
fn settle_on_two<A: Agenda>(
    alloc: Global,
    here: &mut Host<A>,
    there: &mut Host<A>,
    guests: &[Guest],
) -> Result<(), AllocError> {
    for (place, guest) in guests.iter().enumerate() {
        if place < 2 {
            settle(alloc, here, guest)?;
        } else {
            settle(alloc, there, guest)?;
        }
    }
    Ok(())
}

/// A clock (ns) shortly before 2^62, at which a shard's time restarts.
const FAR: u64 = (1 << 62) - 1000;

/// The number of moves of the first guest, and the number of refused entries.
#[derive(Clone, Copy, Debug, PartialEq)]
struct Way {
    moved: u64,
    refused: u64,
}

// Moves the first of three guests to the other of two shards after each of its events.
fn goes<A: Agenda>(
    rt: &(impl Abort + AllocGlobal),
    here: &mut Host<A>,
    there: &mut Host<A>,
    guests: &mut [Guest],
) -> Result<Way, AllocError> {
    settle_on_two(rt.alloc(), here, there, guests)?;
    let mut moved = 0u64;
    let mut refused = 0u64;
    let mut ended = 0u64;
    for _ in 0..MAX_TURNS {
        if ended == 3 {
            return Ok(Way { moved, refused });
        }
        refused = refused.saturating_add(attend(rt, here, guests, false));
        match turn(rt, here, guests)? {
            Move::Ran(0) => {
                moves(rt, here, there, 0)?;
                moved = moved.saturating_add(1);
                mem::swap(here, there);
            }
            Move::Ran(_) => {}
            Move::Ended(name, events) => {
                // It was moved after each event except the last.
                assert_holds!(rt; name != 0 || events == moved.saturating_add(1));
                ended = ended.saturating_add(1);
            }
            Move::Idle => mem::swap(here, there),
        }
    }
    assert_with_message(rt, false, "not ended");
    Ok(Way { moved, refused })
}

// Runs three guests on two shards, of which the second shard's clock is far ahead, and the first
// shard's clock is `clock`.
fn travels<A: Agenda>(
    rt: &(impl Abort + AllocGlobal),
    clock: u64,
    guests: &mut [Guest],
) -> Result<Way, AllocError>
    requires { clock ≤ 2 ^ 62 }
{
    let mut here: Host<A> = Shard::with_clock(rt.alloc(), clock)?;
    let Ok(mut there) = Shard::with_clock(rt.alloc(), FAR) else {
        drop(here);
        return Err(AllocError);
    };
    let way = goes(rt, &mut here, &mut there, guests);
    drop(here);
    drop(there);
    way
}

// Creates a guest that moves, and two neighbours that flood their budgets.
fn beside_floods(
    rt: &(impl Abort + AllocGlobal),
    text: &'static str,
    report: &'static str,
) -> Result<Vec<Guest>, AllocError> {
    let flood = (texts::FLOOD, texts::FLOOD_REPORT);
    invite_all(rt, 0, &[(text, report), flood, flood])
}

// Moves a guest with such neighbours.
fn is_packed_every_event(
    rt: &(impl Abort + AllocGlobal),
    text: &'static str,
    report: &'static str,
) -> Result<(), AllocError> {
    let mut guests = beside_floods(rt, text, report)?;
    let way = travels::<Wheel>(rt, 0, guests.as_mut_slice())?;
    assert_holds!(rt; way.moved > 10);
    assert_same(rt, way.refused, 0);
    Ok(())
}

#[test]
fn packed_every_event(rt: HostRuntime) -> Result<(), Fail> {
    is_packed_every_event(&rt, texts::FAST_RETRANSMIT, texts::FAST_RETRANSMIT_REPORT)?;
    is_packed_every_event(
        &rt,
        texts::TWO_PIPES_IN_TURN,
        texts::TWO_PIPES_IN_TURN_REPORT,
    )?;
    Ok(())
}

// Moves a guest with such neighbours between two shards whose clocks are both far ahead.
fn begins_anew<A: Agenda>(rt: &(impl Abort + AllocGlobal)) -> Result<Way, AllocError> {
    let (text, report) = (texts::FAST_RETRANSMIT, texts::FAST_RETRANSMIT_REPORT);
    let mut guests = beside_floods(rt, text, report)?;
    travels::<A>(rt, FAR, guests.as_mut_slice())
}

// Checks that each shard's time restarts once: its clock passes 2^62, and not again, since none of
// the guests runs for longer than 0.1 s. An agenda that refuses the first entry after a restart
// refuses an allocation equally often.
#[test]
fn rebase(rt: HostRuntime) -> Result<(), Fail> {
    let plain = begins_anew::<Wheel>(&rt)?;
    let counted = begins_anew::<Anew<Wheel>>(&rt)?;
    assert_holds!(&rt; plain.moved > 10);
    assert_same(&rt, plain.refused, 0);
    assert_same(&rt, counted.moved, plain.moved);
    assert_same(&rt, counted.refused, 2);
    Ok(())
}

// Runs a guest on a shard whose agenda gets no memory, for as long as another one needs to end, and
// then on that other shard.
fn waits<A: Agenda>(
    rt: &(impl Abort + AllocGlobal),
    here: &mut Host<A>,
    there: &mut Desk,
) -> Result<(), AllocError> {
    let cards = [(texts::NEW_RATE, texts::NEW_RATE_REPORT)];
    let mut guests = invite_all(rt, 0, &cards)?;
    settle_all(rt.alloc(), here, guests.as_slice())?;
    for guest in guests.iter_mut() {
        post(here, 0, guest);
    }
    assert_same(rt, poll(here, 0), Polled::Took(0));
    for _ in 0..100 {
        assert_same(rt, poll(here, 0), Polled::NoMemory(0));
        assert_same(rt, turn(rt, here, guests.as_slice())?, Move::Idle);
        assert_same(rt, counts_of(here, 0), Some((0, 1)));
    }
    moves(rt, here, there, 0)?;
    host(rt, there, guests.as_mut_slice(), true)
}

// Checks that a guest processes no event and loses nothing on an agenda whose every allocation
// fails.
#[test]
fn always_gives_up(rt: HostRuntime) -> Result<(), Fail> {
    let mut here: Host<GivesUp> = Shard::new(rt.alloc())?;
    let Ok(mut there) = Desk::new(rt.alloc()) else {
        drop(here);
        return Err(Fail::from("memory"));
    };
    let done = waits(&rt, &mut here, &mut there);
    drop(here);
    drop(there);
    done?;
    Ok(())
}

// Returns true if a guest's parcel comes back unchanged because the shard is crowded.
fn crowds_out(alloc: Global, shard: &mut Desk, guest: &Guest) -> Result<bool, AllocError> {
    let parcel = parcel(alloc, guest)?;
    let before = seen_in(&parcel);
    let answer = arrive(shard, parcel);
    let is_back = is_crowded(&answer) && seen_back(&answer) == Some(before);
    drop(answer);
    Ok(is_back)
}

// Takes a new guest in.
fn seats(
    rt: &(impl Abort + AllocGlobal),
    shard: &mut Desk,
    name: u32,
) -> Result<usize, AllocError> {
    let guest = invite(rt, name, texts::NEW_RATE, texts::NEW_RATE_REPORT)?;
    settle(rt.alloc(), shard, &guest)
}

// Fills a shard, and offers it one more guest.
fn crowds(rt: &(impl Abort + AllocGlobal), shard: &mut Desk) -> Result<(), AllocError> {
    for slot in 0..MAX_RESIDENTS {
        let name = u32::try_from(slot).unwrap_or(0);
        assert_same(rt, seats(rt, shard, name)?, slot);
    }
    let last = invite(rt, 777, texts::NEW_RATE, texts::NEW_RATE_REPORT)?;
    assert_holds!(rt; crowds_out(rt.alloc(), shard, &last)?);
    assert_same(rt, slot_of(shard, 777), None);
    Ok(())
}

#[test]
fn crowded_shard(rt: HostRuntime) -> Result<(), Fail> {
    let mut shard = Desk::new(rt.alloc())?;
    let done = crowds(&rt, &mut shard);
    drop(shard);
    done?;
    Ok(())
}

#[test]
fn unread_letters(rt: HostRuntime) -> Result<(), Fail> {
    // Its report has 82 lines of records.
    let cards = [(texts::CODEL_TWO_DROPS, texts::CODEL_TWO_DROPS_REPORT)];
    are_hosted(&rt, &cards, false)?;
    Ok(())
}

// Packets that are delivered one after the other: far more records than the mail has places for
// letters.
const LONG: &str = "experiment long seed 0 budget 9\n\
@0 add 100 allow udp from any to any\n\
@0 train 1 udp 10.0.0.1 1 10.0.0.2 2 100 count 20000 gap 10\n\
@1000000 end\n\
";

// Returns the numbers of records and of delivered packets of an experiment that has ended.
fn left_by(turned: &Turned<ListMail>) -> Option<(usize, u64)> {
    match turned {
        Turned::Ended(left) => Some((left.records().len(), left.counters().delivered)),
        Turned::Ran(_) | Turned::Idle => None,
    }
}

// Runs a guest to its end, without reading its letters.
fn ends_unread(rt: &(impl Abort + AllocGlobal), shard: &mut Desk) -> Result<(), AllocError> {
    let mut guests = invite_all(rt, 0, &[(LONG, "")])?;
    settle_all(rt.alloc(), shard, guests.as_slice())?;
    for _ in 0..MAX_TURNS {
        attend(rt, shard, guests.as_mut_slice(), false);
        let turned = advance(shard);
        let left = left_by(&turned);
        drop(turned);
        if left.is_some() {
            // The lines of three commands, and one for each packet.
            assert_same(rt, left, Some((20_003, 20_000)));
            return Ok(());
        }
    }
    assert_with_message(rt, false, "not ended");
    Ok(())
}

#[test]
fn long_and_unread(rt: HostRuntime) -> Result<(), Fail> {
    let mut shard = Desk::new(rt.alloc())?;
    let done = ends_unread(&rt, &mut shard);
    drop(shard);
    done?;
    Ok(())
}

// The number of records of a neighbour that holds 65535 packets: those of its three commands, and
// one for each packet.
const HELD: usize = 65_538;

// Returns the number of records of the resident in a slot.
fn record_count(shard: &Desk, slot: usize) -> usize {
    counts_of(shard, slot).map_or(0, |(records, _)| records)
}

// Lets resident 1 of a shard, in slot 0, hold 65535 packets.
fn flood_shard(
    rt: &(impl Abort + AllocGlobal),
    shard: &mut Desk,
    neighbour: &mut [Guest],
) -> Result<(), AllocError> {
    settle_all(rt.alloc(), shard, neighbour)?;
    for _ in 0..MAX_TURNS {
        if record_count(shard, 0) == HELD {
            return Ok(());
        }
        attend(rt, shard, neighbour, false);
        assert_same(rt, turn(rt, shard, neighbour)?, Move::Ran(1));
    }
    assert_with_message(rt, false, "not flooded");
    Ok(())
}

// Runs a guest next to a neighbour that holds 65535 packets.
fn is_beside(rt: &(impl Abort + AllocGlobal), shard: &mut Desk) -> Result<(), AllocError> {
    let mut neighbour = invite_all(rt, 1, &[(texts::NEIGHBOUR, "")])?;
    flood_shard(rt, shard, neighbour.as_mut_slice())?;
    let cards = [(texts::PACKET_BUDGET, texts::PACKET_BUDGET_REPORT)];
    let mut guests = invite_all(rt, 0, &cards)?;
    hosts(rt, shard, guests.as_mut_slice(), false)?;
    assert_same(rt, record_count(shard, 0), HELD);
    Ok(())
}

#[test]
fn beside_a_flood(rt: HostRuntime) -> Result<(), Fail> {
    let mut shard = Desk::new(rt.alloc())?;
    let done = is_beside(&rt, &mut shard);
    drop(shard);
    done?;
    Ok(())
}
