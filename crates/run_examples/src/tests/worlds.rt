//! Worked examples on worlds. Their texts and reports are those of examples/: each experiment's
//! report when it runs alone.

mod calls;
mod desk;
mod refusals;

use crate::tests::wants::assert_same;
use crate::texts;
use calls::{Stage, counts_of, run, step};
use desk::{
    Guest, MAX_ROUNDS, finish, invite, invite_all, next_post, post_all, register, reports_of_ended,
};
use emu_model::Spec;
use rand_chacha::ChaCha20Rng;
use rand_core::SeedableRng;
use rand_core::utils::NextWord;
use std::alloc::AllocError;
use std::process::Abort;
use std::test::Fail;
use timer_wheel::{ListAgenda, Wheel};
use world::{Place, Step, World};

/// The number of random lists of steps, and the length of each.
const LISTS: u8 = 200;

const STEPS: usize = 2000;

/// The numbers of shards and guests.
const SHARDS: u32 = 3;

const GUESTS: u32 = 6;

// Returns a random number below a maximum, which isn't 0.
fn below(words: &mut ChaCha20Rng, most: u32) -> u32 {
    words.next_word() % most.max(1)
}

// Returns a random step. Most are posts, polls and turns.
fn draw_step(words: &mut ChaCha20Rng, guests: &mut [Guest]) -> Step {
    let name = below(words, GUESTS);
    let shard = below(words, SHARDS) as usize;
    let from = below(words, SHARDS) as usize;
    let slot = below(words, GUESTS) as usize;
    match below(words, 20) {
        0 => return Step::Offer { shard, slot },
        1 => return Step::Retake { shard },
        2 => return Step::Adopt { shard, from },
        3 => return Step::Rebase { shard },
        4 => return Step::Admit { name, shard },
        5 => return Step::ReadLetter { name },
        6 | 7 => {
            if let Some(post) = next_post(guests, name) {
                return post;
            }
            return Step::Turn { shard };
        }
        8..=13 => return Step::Poll { shard, slot },
        _ => return Step::Turn { shard },
    }
}

// Creates six guests.
fn six_guests(rt: &(impl Abort + AllocGlobal)) -> Result<Vec<Guest>, AllocError> {
    let cards = [
        (texts::ONE_SLOT, texts::ONE_SLOT_REPORT),
        (texts::FAST_RETRANSMIT, texts::FAST_RETRANSMIT_REPORT),
        (texts::NEW_RATE, texts::NEW_RATE_REPORT),
        (texts::CODEL_ONE_DROP, texts::CODEL_ONE_DROP_REPORT),
        (texts::TWO_PIPES_IN_TURN, texts::TWO_PIPES_IN_TURN_REPORT),
        (texts::PACKET_BUDGET, texts::PACKET_BUDGET_REPORT),
    ];
    invite_all(rt, &cards)
}

// Performs a list of steps in a new world, one by one, and then runs the world to its end. Returns
// the number of guests that had ended before.
fn lives_in<W: Stage>(
    rt: &(impl Abort + AllocGlobal),
    world: &mut W,
    words: &mut ChaCha20Rng,
    guests: &mut [Guest],
) -> Result<usize, AllocError> {
    for guest in guests.iter_mut() {
        guest.again();
    }
    register(world, guests)?;
    for _ in 0..STEPS {
        let one = [draw_step(words, guests)];
        run(world, &one)?;
    }
    let early = reports_of_ended(rt, world, guests)?.whole;
    finish(rt, world, guests)?;
    assert_same(rt, reports_of_ended(rt, world, guests)?.whole, guests.len());
    Ok(early)
}

// Performs the list with a seed and a number, in a world of its own.
fn lives<W: Stage>(
    rt: &(impl Abort + AllocGlobal),
    seed: u8,
    list: u8,
    guests: &mut [Guest],
) -> Result<usize, AllocError> {
    let mut key = [0u8; 32];
    key[0] = seed;
    key[1] = list;
    let mut words = ChaCha20Rng::from_seed(key);
    let mut world = W::build(rt.alloc(), SHARDS as usize)?;
    lives_in(rt, &mut world, &mut words, guests)
}

// Performs `lists` lists with a seed. Returns the number of names that had ended with their lists.
fn lives_through<W: Stage>(
    rt: &(impl Abort + AllocGlobal),
    seed: u8,
    lists: u8,
    guests: &mut [Guest],
) -> Result<usize, AllocError> {
    let mut early = 0usize;
    for list in 0..lists {
        early = early.saturating_add(lives::<W>(rt, seed, list, guests)?);
    }
    Ok(early)
}

fn lives_all<W: Stage>(
    rt: &(impl Abort + AllocGlobal),
    seed: u8,
    lists: u8,
) -> Result<usize, AllocError> {
    let mut guests = six_guests(rt)?;
    lives_through::<W>(rt, seed, lists, guests.as_mut_slice())
}

#[test]
fn random_steps_over_a_list(rt: HostRuntime) -> Result<(), Fail> {
    let seed = 17;
    let _ = println!(rt; "seed {seed}");
    let early = lives_all::<World<ListAgenda>>(&rt, seed, LISTS)?;
    assert_holds!(&rt; early > 0);
    Ok(())
}

#[test]
fn random_steps_over_a_wheel(rt: HostRuntime) -> Result<(), Fail> {
    let seed = 18;
    let _ = println!(rt; "seed {seed}");
    let early = lives_all::<World<Wheel>>(&rt, seed, LISTS)?;
    assert_holds!(&rt; early > 0);
    Ok(())
}

// Polls a name where it is.
fn attend<W: Stage>(world: &mut W, name: u32) -> Result<(), AllocError> {
    if let Some(Place::Resident { shard, slot }) = world.place_of(name) {
        step(world, Step::Poll { shard, slot })?;
    }
    Ok(())
}

// Lets a guest take a command, process an event, and move from its shard to the other one.
fn goes_on<W: Stage>(world: &mut W, shard: usize, slot: usize) -> Result<(), AllocError> {
    let other = usize::from(shard == 0);
    let round = [
        Step::Poll { shard, slot },
        Step::Turn { shard },
        Step::Offer { shard, slot },
        Step::Adopt {
            shard: other,
            from: shard,
        },
    ];
    run(world, &round)
}

// Moves guest 0 to the other of two shards after each turn, together with two others, until it has
// ended. Returns the number of moves.
fn travels_in<W: Stage>(world: &mut W) -> Result<u64, AllocError> {
    let mut moved = 0u64;
    for _ in 0..MAX_ROUNDS {
        attend(world, 1)?;
        attend(world, 2)?;
        let Some(Place::Resident { shard, slot }) = world.place_of(0) else {
            break;
        };
        goes_on(world, shard, slot)?;
        moved = moved.saturating_add(1);
    }
    Ok(moved)
}

// Registers the guests, moves guest 0 as in `travels_in`, and checks the reports.
fn travels_through<W: Stage>(
    rt: &(impl Abort + AllocGlobal),
    world: &mut W,
    guests: &mut [Guest],
) -> Result<u64, AllocError> {
    register(world, guests)?;
    for name in 0..3 {
        let shard = usize::from(name == 2);
        step(world, Step::Admit { name, shard })?;
        post_all(world, guests, name)?;
    }
    let moved = travels_in(world)?;
    assert_holds!(rt; world.place_of(0) == Some(Place::Ended));
    finish(rt, world, guests)?;
    assert_same(rt, reports_of_ended(rt, world, guests)?.whole, 3);
    Ok(moved)
}

// Runs the guest of a text, with two neighbours that flood their budgets.
fn travels<W: Stage>(
    rt: &(impl Abort + AllocGlobal),
    text: &'static str,
    report: &'static str,
) -> Result<u64, AllocError> {
    let flood = (texts::FLOOD, texts::FLOOD_REPORT);
    let mut guests = invite_all(rt, &[(text, report), flood, flood])?;
    let mut world = W::build(rt.alloc(), 2)?;
    travels_through(rt, &mut world, guests.as_mut_slice())
}

#[test]
fn packed_every_event(rt: HostRuntime) -> Result<(), Fail> {
    assert_holds!(&rt; travels::<World<ListAgenda>>(
            &rt,
            texts::FAST_RETRANSMIT,
            texts::FAST_RETRANSMIT_REPORT
        )? > 10);
    assert_holds!(&rt; travels::<World<Wheel>>(
            &rt,
            texts::TWO_PIPES_IN_TURN,
            texts::TWO_PIPES_IN_TURN_REPORT
        )? > 10);
    Ok(())
}

// The number of records of a neighbour that holds 65535 packets: those of its three commands, and
// one for each packet.
const HELD: usize = 65_538;

// Polls and turns the resident of the first slot until it holds all its packets.
fn floods<W: Stage>(world: &mut W) -> Result<(), AllocError> {
    for _ in 0..8 {
        step(world, Step::Poll { shard: 0, slot: 0 })?;
        step(world, Step::Turn { shard: 0 })?;
    }
    let many = [Step::Turn { shard: 0 }; 100];
    for _ in 0..MAX_ROUNDS {
        let (records, _) = counts_of(world, 0);
        if records >= HELD {
            return Ok(());
        }
        if HELD - records > 100 {
            run(world, &many)?;
        } else {
            step(world, Step::Turn { shard: 0 })?;
        }
    }
    Ok(())
}

// Turns a shard of two residents until the second one has ended.
fn turns_beside<W: Stage>(world: &mut W) -> Result<(), AllocError> {
    let round = [Step::Poll { shard: 0, slot: 1 }, Step::Turn { shard: 0 }];
    for _ in 0..MAX_ROUNDS {
        if world.place_of(1) == Some(Place::Ended) {
            break;
        }
        run(world, &round)?;
    }
    Ok(())
}

fn is_beside_a_flood<W: Stage>(
    rt: &(impl Abort + AllocGlobal),
    world: &mut W,
    guests: &mut [Guest],
) -> Result<(), AllocError> {
    register(world, guests)?;
    step(world, Step::Admit { name: 0, shard: 0 })?;
    post_all(world, guests, 0)?;
    floods(world)?;
    assert_same(rt, counts_of(world, 0), (HELD, 4));

    step(world, Step::Admit { name: 1, shard: 0 })?;
    post_all(world, guests, 1)?;
    turns_beside(world)?;
    assert_same(rt, counts_of(world, 0), (HELD, 4));
    assert_same(rt, reports_of_ended(rt, world, guests)?.whole, 1);
    Ok(())
}

fn flood_world<W: Stage>(rt: &(impl Abort + AllocGlobal)) -> Result<(), AllocError> {
    let cards = [
        (texts::NEIGHBOUR, ""),
        (texts::PACKET_BUDGET, texts::PACKET_BUDGET_REPORT),
    ];
    let mut guests = invite_all(rt, &cards)?;
    let mut world = W::build(rt.alloc(), 1)?;
    is_beside_a_flood(rt, &mut world, guests.as_mut_slice())
}

#[test]
fn beside_a_flood(rt: HostRuntime) -> Result<(), Fail> {
    flood_world::<World<Wheel>>(&rt)?;
    Ok(())
}

// Checks that in a world without names, only restarting a shard's time is possible.
fn has_nobody<W: Stage>(rt: &impl Abort, world: &mut W) -> Result<(), AllocError> {
    assert_holds!(rt; world.place_of(0).is_none());
    assert_same(rt, counts_of(world, 0), (0, 0));
    assert_holds!(rt; !step(world, Step::Admit { name: 0, shard: 0 })?);
    assert_holds!(rt; !step(world, Step::Turn { shard: 0 })?);
    assert_holds!(rt; !step(world, Step::Turn { shard: 2 })?);
    assert_holds!(rt; !step(world, Step::Retake { shard: 1 })?);
    assert_holds!(rt; step(world, Step::Rebase { shard: 1 })?);
    Ok(())
}

// Checks that the first name of a world is where these steps move it.
fn has_one<W: Stage>(rt: &impl Abort, world: &mut W, spec: Spec) -> Result<(), AllocError> {
    assert_holds!(rt; step(world, Step::Registered(spec))?);
    assert_holds!(rt; world.place_of(0) == Some(Place::HandedOut));
    assert_holds!(rt; step(world, Step::Admit { name: 0, shard: 1 })?);
    assert_holds!(rt; world.place_of(0) == Some(Place::Resident { shard: 1, slot: 0 }));
    assert_holds!(rt; step(world, Step::Offer { shard: 1, slot: 0 })?);
    assert_holds!(rt; world.place_of(0) == Some(Place::InDeque { shard: 1 }));
    assert_holds!(rt; step(world, Step::Adopt { shard: 0, from: 1 })?);
    assert_holds!(rt; world.place_of(0) == Some(Place::Resident { shard: 0, slot: 0 }));
    Ok(())
}

fn begins<W: Stage>(rt: &(impl Abort + AllocGlobal), spec: Spec) -> Result<(), AllocError> {
    let mut world = W::build(rt.alloc(), 2)?;
    has_nobody(rt, &mut world)?;
    has_one(rt, &mut world, spec)
}

#[test]
fn nobody_is_in_a_new_world(rt: HostRuntime) -> Result<(), Fail> {
    let spec = invite(&rt, texts::ONE_SLOT, "")?.spec();
    begins::<World<ListAgenda>>(&rt, spec)?;
    Ok(())
}
