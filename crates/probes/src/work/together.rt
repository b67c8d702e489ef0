//! Experiments in one shard: their turns, and a resident's moves.

use super::fault::Fault;
use super::plans::{Plan, flow_plan, train_plan};
use emu_model::Ending;
use shard::{Dossier, ListMail, Parcel, Polled, Shard, Turned};
use std::alloc::Global;
use timer_wheel::Wheel;

type Wheels = Shard<Wheel, ListMail>;

/// The number of turns, and the number of packets that the ended experiments held.
#[derive(Clone, Copy)]
struct Tally {
    turns: u64,
    held: u64,
}

impl Tally {
    // Records the dossier of an experiment.
    fn note(&mut self, dossier: &Dossier<ListMail>) -> Result<(), Fault> {
        match dossier.ending() {
            Ending::Ended => {
                self.held = self.held.saturating_add(dossier.counters().held);
                Ok(())
            }
            Ending::Spent => Err(Fault::Unfinished),
            Ending::Halted => Err(Fault::Memory),
        }
    }
}

// Creates an experiment without commands.
fn parcel(alloc: Global, name: u32, plan: &Plan) -> Result<Parcel<ListMail>, Fault> {
    let Ok(mail) = ListMail::new(alloc) else {
        return Err(Fault::Memory);
    };
    match Parcel::open(alloc, name, plan.spec, mail) {
        Ok(parcel) => Ok(parcel),
        Err(_) => Err(Fault::Memory),
    }
}

// Takes in `residents` residents whose commands wait in their mails.
fn fill(alloc: Global, shard: &mut Wheels, residents: usize, plan: &Plan) -> Result<(), Fault> {
    let mut name = 0u32;
    for _ in 0..residents {
        let parcel = parcel(alloc, name, plan)?;
        let Some(slot) = shard.take_in(parcel).ok() else {
            return Err(Fault::Range);
        };
        name = name.wrapping_add(1);
        for k in 0..plan.orders.len() {
            if shard.put(slot, plan.orders[k].timed_command()).is_err() {
                return Err(Fault::Unfinished);
            }
        }
    }
    Ok(())
}

// Lets each resident take its next command.
fn poll_all(shard: &mut Wheels, residents: usize) -> Result<(), Fault> {
    for slot in 0..residents {
        if let Polled::NoMemory(_) = shard.poll(slot) {
            return Err(Fault::Memory);
        }
    }
    Ok(())
}

// Records a turn, and returns true if there was one.
fn is_turn(turned: &Turned<ListMail>, tally: &mut Tally) -> Result<bool, Fault> {
    match turned {
        Turned::Ran(_) => {}
        Turned::Ended(dossier) => tally.note(dossier)?,
        Turned::Idle => return Ok(false),
    }
    tally.turns = tally.turns.saturating_add(1);
    Ok(true)
}

// Turns until no resident has a next command.
fn turn_all(shard: &mut Wheels, tally: &mut Tally) -> Result<(), Fault> {
    for _ in 0..u64::MAX {
        let turned = shard.turn();
        let noted = is_turn(&turned, tally);
        drop(turned);
        if !noted? {
            return Ok(());
        }
    }
    Ok(())
}

// Lets the residents take all commands except the end, and turns until each waits for the end. Then
// they take it.
fn play(shard: &mut Wheels, residents: usize, plan: &Plan, tally: &mut Tally) -> Result<(), Fault> {
    poll_all(shard, residents)?;
    for _ in 1..plan.orders.len() {
        turn_all(shard, tally)?;
        poll_all(shard, residents)?;
    }
    Ok(())
}

// Runs `residents` flows in a shard to their ends.
fn turn_flows(
    alloc: Global,
    shard: &mut Wheels,
    residents: usize,
    plan: &Plan,
) -> Result<u64, Fault> {
    fill(alloc, shard, residents, plan)?;
    let mut tally = Tally { turns: 0, held: 0 };
    play(shard, residents, plan, &mut tally)?;
    turn_all(shard, &mut tally)?;
    Ok(tally.turns)
}

/// Runs `residents` flows in a shard to their ends, and returns the number of turns.
pub fn turns(alloc: Global, residents: usize) -> Result<u64, Fault> {
    let Some(plan) = flow_plan() else {
        return Err(Fault::Range);
    };
    let Ok(mut shard) = Wheels::new(alloc) else {
        return Err(Fault::Memory);
    };
    let turns = turn_flows(alloc, &mut shard, residents, &plan);
    drop(shard);
    turns
}

// Packs the resident of slot 0, and takes it in again.
fn move_once(shard: &mut Wheels) -> Result<(), Fault> {
    let Some(parcel) = shard.pack(0).ok() else {
        return Err(Fault::Memory);
    };
    let Some(_) = shard.take_in(parcel).ok() else {
        return Err(Fault::Memory);
    };
    Ok(())
}

// Moves a held train `times` times, and returns the number of packets that were moved.
fn move_train(alloc: Global, shard: &mut Wheels, plan: &Plan, times: u32) -> Result<u64, Fault> {
    fill(alloc, shard, 1, plan)?;
    let mut tally = Tally { turns: 0, held: 0 };
    play(shard, 1, plan, &mut tally)?;
    for _ in 0..times {
        move_once(shard)?;
    }
    turn_all(shard, &mut tally)?;
    Ok(tally.held.saturating_mul(u64::from(times)))
}

/// Moves a resident that holds `packets` packets out and in again, `times` times, and returns the
/// number of packets that were moved.
pub fn moves(alloc: Global, packets: u16, times: u32) -> Result<u64, Fault> {
    let Some(plan) = train_plan(packets) else {
        return Err(Fault::Range);
    };
    let Ok(mut shard) = Wheels::new(alloc) else {
        return Err(Fault::Memory);
    };
    let moved = move_train(alloc, &mut shard, &plan, times);
    drop(shard);
    moved
}
