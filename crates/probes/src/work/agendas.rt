//! Entries of an agenda: set, cleared and popped.

use emu_model::{Class, Source};
use std::alloc::AllocError;
use timer_wheel::Agenda;

/// The repeated work: entries are only set, set in one slot and popped, set and popped over many
/// slots, replaced, or cleared and set again.
#[derive(Clone, Copy, Debug, PartialEq)]
pub enum Act {
    Fill,
    One,
    Spread,
    Set,
    Clear,
}

/// The amount of work.
#[derive(Clone, Copy)]
pub struct Rounds {
    pub act: Act,
    pub entries: u32,
    pub times: u32,
}

// Returns the source of an entry. Owners are 0 to 255.
fn source(index: u32) -> Source {
    Source {
        class: Class::Expiry,
        number: index / 256,
    }
}

// Sets an entry that is due `delay` ns after the clock.
fn put<A: Agenda>(agenda: &mut A, index: u32, delay: u64) -> Result<(), AllocError> {
    let due = agenda.clock().saturating_add(delay);
    if due < agenda.clock() {
        return Ok(());
    }
    agenda.set((index % 256) as usize, source(index), due)
}

// Returns how long after the clock an entry is due: all at one time, or each at its own.
fn delay(act: Act, index: u32) -> u64 {
    if act == Act::Spread {
        return 1 + (index as u64 * 7919 % 65_537) * 1000;
    }
    1_000_000
}

// Sets an entry for each source, the last source first.
fn fill<A: Agenda>(agenda: &mut A, rounds: Rounds) -> Result<(), AllocError> {
    for index in (0..rounds.entries).rev() {
        put(agenda, index, delay(rounds.act, index))?;
    }
    Ok(())
}

// Pops all entries that are due, and returns their number.
fn drain<A: Agenda>(agenda: &mut A, entries: u32) -> u64 {
    let mut popped = 0u64;
    for _ in 0..entries {
        if agenda.pop_least().is_some() {
            popped = popped.saturating_add(1);
        }
    }
    popped
}

// Fills and drains in rounds.
fn fill_and_drain<A: Agenda>(agenda: &mut A, rounds: Rounds) -> Result<u64, AllocError> {
    let mut popped = 0u64;
    for _ in 0..rounds.times {
        fill(agenda, rounds)?;
        popped = popped.saturating_add(drain(agenda, rounds.entries));
    }
    Ok(popped)
}

// Replaces entries, one source after the other. For `Act::Clear`, clears each source before.
fn renew<A: Agenda>(agenda: &mut A, rounds: Rounds) -> Result<(), AllocError> {
    if rounds.entries == 0 {
        return Ok(());
    }
    for turn in 0..rounds.times {
        let index = turn % rounds.entries;
        if rounds.act == Act::Clear {
            agenda.clear((index % 256) as usize, source(index));
        }
        put(agenda, index, 1_000_000)?;
    }
    Ok(())
}

/// Does the rounds, and returns the number of entries that were popped.
pub fn popped_of<A: Agenda>(agenda: &mut A, rounds: Rounds) -> Result<u64, AllocError> {
    match rounds.act {
        Act::Fill => {
            fill(agenda, rounds)?;
            Ok(0)
        }
        Act::One | Act::Spread => fill_and_drain(agenda, rounds),
        Act::Set | Act::Clear => {
            fill(agenda, rounds)?;
            renew(agenda, rounds)?;
            Ok(0)
        }
    }
}
