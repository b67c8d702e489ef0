//! Four guests that move, while one allocation may fail.

use super::calls::{Sight, Stage, counted_run};
use super::desk::{Guest, MAX_ROUNDS, invite_all, name_of, next_post, reports_of_ended};
use crate::tests::wants::assert_same;
use crate::texts;
use std::alloc::AllocError;
use std::process::Abort;
use std::test::Fail;
use timer_wheel::Wheel;
use world::{Place, Step, World};

/// The number of guests.
const GUESTS: u32 = 4;

/// The maximum number of posts, which is more than the commands of any guest.
const MAX_POSTS: u32 = 64;

// Creates four guests.
fn four_guests(rt: &(impl Abort + AllocGlobal)) -> Result<Vec<Guest>, AllocError> {
    let cards = [
        (texts::ONE_PACKET, texts::ONE_PACKET_REPORT),
        (texts::LISTINGS, texts::LISTINGS_REPORT),
        (texts::RENO_FOUR_SEGMENTS, texts::RENO_FOUR_SEGMENTS_REPORT),
        (texts::STEP_BUDGET, texts::STEP_BUDGET_REPORT),
    ];
    invite_all(rt, &cards)
}

// Returns the visible properties of each guest.
fn sights<W: Stage>(world: &W) -> [Sight; 4] {
    [
        world.sight(0),
        world.sight(1),
        world.sight(2),
        world.sight(3),
    ]
}

// Returns true if a step in which an allocation failed may have left a name in this state: its
// records and commands are unchanged, and it is where it was, or its parcel was handed out, or it
// was halted.
fn is_spared<W: Stage>(world: &W, name: u32, before: &Sight) -> bool {
    let now = world.sight(name);
    if now.records != before.records || now.commands != before.commands {
        return false;
    }
    match now.place {
        Some(Place::HandedOut) => before.place.is_some() && before.place != Some(Place::Ended),
        Some(Place::Ended) if now.place != before.place => world.is_halted(name),
        _ => now.place == before.place,
    }
}

// Performs a step, and repeats it if an allocation fails, after which everything except the place
// of one name must be unchanged. Returns the number of failed allocations.
fn insists<W: Stage>(rt: &impl Abort, world: &mut W, one: &Step) -> u64 {
    let before = sights(world);
    let met = counted_run(world, one);
    if met == 0 {
        return 0;
    }
    let mut moved = 0u32;
    for (index, was) in before.iter().enumerate() {
        let name = name_of(index);
        assert!(rt; is_spared(world, name, was), "not spared: {name}");
        if world.place_of(name) != was.place {
            moved = moved.saturating_add(1);
        }
    }
    assert!(rt; moved <= 1, "moved: {moved}");
    assert_same(rt, counted_run(world, one), 0);
    met
}

// Registers and admits all guests, and posts their commands.
fn settle<W: Stage>(rt: &impl Abort, world: &mut W, guests: &mut [Guest]) -> u64 {
    let mut met = 0u64;
    for guest in &*guests {
        met = met.saturating_add(insists(rt, world, &Step::Registered(guest.spec())));
    }
    for name in 0..GUESTS {
        met = met.saturating_add(insists(rt, world, &Step::Admit { name, shard: 0 }));
        for _ in 0..MAX_POSTS {
            let Some(post) = next_post(guests, name) else {
                break;
            };
            assert_same(rt, counted_run(world, &post), 0);
        }
    }
    met
}

// Performs one round of a shard: it polls all residents, turns, and moves a resident from the other
// shard to this one through a deque. An experiment that is handed out is admitted again.
fn round<W: Stage>(rt: &impl Abort, world: &mut W, shard: usize) -> u64 {
    let mut met = 0u64;
    for slot in 0..4 {
        met = met.saturating_add(insists(rt, world, &Step::Poll { shard, slot }));
    }
    let from = usize::from(shard == 0);
    let moves = [
        Step::Turn { shard },
        Step::Rebase { shard },
        Step::Offer { shard, slot: 0 },
        Step::Adopt { shard, from },
    ];
    for one in &moves {
        met = met.saturating_add(insists(rt, world, one));
    }
    for name in 0..GUESTS {
        if world.place_of(name) == Some(Place::HandedOut) {
            met = met.saturating_add(insists(rt, world, &Step::Admit { name, shard }));
        }
    }
    met
}

// Returns true if all guests have ended.
fn have_ended<W: Stage>(world: &W) -> bool {
    for name in 0..GUESTS {
        if world.place_of(name) != Some(Place::Ended) {
            return false;
        }
    }
    true
}

// Performs all rounds.
fn rounds<W: Stage>(rt: &impl Abort, world: &mut W) -> u64 {
    let mut met = 0u64;
    for turn in 0..MAX_ROUNDS {
        if have_ended(world) {
            return met;
        }
        met = met.saturating_add(round(rt, world, (turn % 2) as usize));
    }
    met
}

// Checks that all guests have ended, and that one was halted only if an allocation failed.
fn have_reports<W: Stage>(
    rt: &(impl Abort + AllocGlobal),
    world: &W,
    guests: &[Guest],
    met: u64,
) -> Result<u64, AllocError> {
    let reports = reports_of_ended(rt, world, guests)?;
    assert_same(rt, reports.whole.saturating_add(reports.cut), 4);
    assert!(rt; reports.cut as u64 <= met, "cut: {}", reports.cut);
    Ok(met)
}

// Runs four guests to their ends, on two shards between which they move. Returns the number of
// steps in which an allocation failed.
fn four_to_their_ends<W: Stage>(rt: &(impl Abort + AllocGlobal)) -> Result<u64, AllocError> {
    let mut guests = four_guests(rt)?;
    let mut world = W::build(rt.alloc(), 2)?;
    let met = settle(rt, &mut world, guests.as_mut_slice());
    let met = met.saturating_add(rounds(rt, &mut world));
    have_reports(rt, &world, guests.as_slice(), met)
}

// Checks that at most one allocation fails. If one failed, even in the test itself, everything is
// repeated, and nothing fails then.
#[test]
fn memory_refusal(rt: HostRuntime) -> Result<(), Fail> {
    let met = match four_to_their_ends::<World<Wheel>>(&rt) {
        Ok(met) => met,
        Err(AllocError) => 1,
    };
    assert!(rt; met <= 1, "refused {met} times");
    if met > 0 {
        assert_same(&rt, four_to_their_ends::<World<Wheel>>(&rt)?, 0);
    }
    Ok(())
}
