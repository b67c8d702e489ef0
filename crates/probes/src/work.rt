//! A given amount of work by one part, to be timed from outside. It reads no clock.
//!
//! - `probes work turns RESIDENTS`: RESIDENTS flows in one shard, turned to their ends.
//! - `probes work alone RESIDENTS`: the same flows one after the other, each by itself.
//! - `probes work moves PACKETS TIMES`: one resident with PACKETS packets, packed and taken in again
//!   TIMES times.
//! - `probes work AGENDA ACT ENTRIES TIMES`: entries of an agenda, `wheel` or `list`, where ACT is
//!   `fill` (ENTRIES entries are only set), `one` (TIMES rounds, in each of which ENTRIES entries
//!   are set in one slot, and popped), `spread` (like `one`, over many slots), `set` (TIMES entries
//!   of ENTRIES sources in one slot are replaced) or `clear` (they are cleared and set again).
//! - `probes work TOLD LINES TIMES`: TIMES times the report of LINES lines, where TOLD is `flow`
//!   (finishes, deliveries of segments and of acknowledgements, windows), `train` (finishes and
//!   deliveries) or `drops` (by a full queue).
//! - `probes work read TIMES`: a scenario from standard input is parsed TIMES times, and its
//!   experiments are counted.
//!
//! `probes work` alone does a little of each except the last.

mod agendas;
mod alone;
mod fault;
mod lines;
mod plans;
mod together;
mod words;

use agendas::{Act, Rounds, popped_of};
use lines::{Told, bytes_of, experiments_of};
use std::alloc::Global;
use std::io::Read;
use timer_wheel::{Agenda, ListAgenda, Wheel};
use words::{Kind, Work, work_of};

// Does the rounds of an agenda, and returns the number of entries that were popped.
fn count_popped(alloc: Global, kind: Kind, rounds: Rounds) -> anyhow::Result<u64> {
    match kind {
        Kind::Wheel => {
            let mut agenda: Wheel = Agenda::new(alloc, 0)?;
            Ok(popped_of(&mut agenda, rounds)?)
        }
        Kind::List => {
            let mut agenda: ListAgenda = Agenda::new(alloc, 0)?;
            Ok(popped_of(&mut agenda, rounds)?)
        }
    }
}

// Parses standard input `times` times, and returns the number of experiments.
fn read(rt: &HostRuntime, alloc: Global, times: u32) -> anyhow::Result<u64> {
    let mut text = Vec::new(alloc);
    rt.reader().read_to_end(&mut text)?;
    Ok(experiments_of(alloc, text.as_slice(), times))
}

// Does the work, and prints its amount.
fn carry_out(rt: &HostRuntime, alloc: Global, work: Work) -> anyhow::Result<()> {
    match work {
        Work::Turns { residents } => {
            let turns = together::turns(alloc, residents)?;
            println!(rt; "turns of {residents} residents: {turns}")?;
        }
        Work::Alone { residents } => {
            let steps = alone::steps(alloc, residents)?;
            println!(rt; "steps of {residents} alone: {steps}")?;
        }
        Work::Moves { packets, times } => {
            let moved = together::moves(alloc, packets, times)?;
            println!(rt; "packets moved in {times} moves: {moved}")?;
        }
        Work::Agenda { kind, rounds } => {
            let popped = count_popped(alloc, kind, rounds)?;
            println!(rt; "dues popped: {popped}")?;
        }
        Work::Report { told, lines, times } => {
            let bytes = bytes_of(alloc, told, lines, times)?;
            println!(rt; "bytes in {times} reports: {bytes}")?;
        }
        Work::Read { times } => {
            let experiments = read(rt, alloc, times)?;
            println!(rt; "experiments read: {experiments}")?;
        }
    }
    Ok(())
}

// Does a little of each part of a shard's work.
fn turn_a_little(rt: &HostRuntime, alloc: Global) -> anyhow::Result<()> {
    carry_out(rt, alloc, Work::Turns { residents: 3 })?;
    carry_out(rt, alloc, Work::Alone { residents: 3 })?;
    let (packets, times) = (10, 5);
    carry_out(rt, alloc, Work::Moves { packets, times })
}

// Does a little with each agenda.
fn pop_a_little(rt: &HostRuntime, alloc: Global) -> anyhow::Result<()> {
    for kind in [Kind::Wheel, Kind::List] {
        for act in [Act::Fill, Act::One, Act::Spread, Act::Set, Act::Clear] {
            let (entries, times) = (10, 3);
            let rounds = Rounds {
                act,
                entries,
                times,
            };
            carry_out(rt, alloc, Work::Agenda { kind, rounds })?;
        }
    }
    Ok(())
}

// Does a little of each report.
fn tell_a_little(rt: &HostRuntime, alloc: Global) -> anyhow::Result<()> {
    for told in [Told::Flow, Told::Train, Told::Drops] {
        let (lines, times) = (10, 2);
        carry_out(rt, alloc, Work::Report { told, lines, times })?;
    }
    Ok(())
}

/// Does a little of each part's work.
pub fn do_a_little(rt: &HostRuntime, alloc: Global) -> anyhow::Result<()> {
    turn_a_little(rt, alloc)?;
    pop_a_little(rt, alloc)?;
    tell_a_little(rt, alloc)
}

/// Does the work that the arguments (the program's name and `work` first) request.
pub fn run(rt: &HostRuntime, alloc: Global, words: &[String]) -> anyhow::Result<()> {
    if words.len() > 2 {
        return carry_out(rt, alloc, work_of(words)?);
    }
    do_a_little(rt, alloc)
}
