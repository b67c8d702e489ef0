//! Probable mistakes in the configurations of a pipe: one that loses all packets, and a later one
//! that leaves out an option.

ghost use Rattle.std.specs.Prelude.{◌≡◌, ℕ, List, ◌==◌, ◌||◌, ◌++◌, if◌then◌else◌, is_some, OnOk, IfOk};
ghost use Rattle.due_index.specs.Table.{place_in};
ghost use Rattle.emu_model.specs.declared.commands.Timed.{Timed};
ghost use Rattle.explain.specs.Likely.{doubts_at};
ghost use Rattle.explain.specs.Pipes.{lets, is_open, closed_by, loses_all, gives, gives_queue, decoded, so_far, forgotten_by, forgets, state};

use crate::doubt::{Doubt, Doubtful, Setting};
use crate::likely::put_doubt;
use due_index::NumberTable;
use emu_model::{Command, PipeConfig, PipeNumber, QueueLimit, Timed};
use std::alloc::{AllocError, Global};

/// A loss rate of 1, in millionths.
const ALL: u32 = 1_000_000;

// Adds a pipe to the table if the command configures it not to lose all packets.
fn note_open(table: &mut NumberTable, command: &Command) -> Result<(), AllocError>
    ensures { OnOk result ((n : ℕ) → is_some (place_in table.new n)
        ≡ (lets n command.now || is_some (place_in table.old n))) }
{
    if let Command::Config { pipe, config } = command
        && config.plr.get() < ALL
    {
        table.make_room(pipe.get())?;
        table.set(pipe.get(), 0);
    }
    Ok(())
}

// Returns the numbers of the pipes with a configuration that doesn't lose all packets.
fn open_pipes(alloc: Global, commands: &[Timed]) -> Result<NumberTable, AllocError>
    ensures { IfOk result (λ t. (n : ℕ) → is_some (place_in t n) ≡ is_open commands.now n) }
{
    let mut table = NumberTable::new(alloc);
    for timed in commands {
        note_open(&mut table, &timed.command)?;
    }
    Ok(table)
}

// Returns the doubt about a command that configures a pipe that always loses all packets.
fn closed_in(table: &NumberTable, command: &Command) -> Option<Doubt>
    ensures { (all : List Timed) → ((n : ℕ) → is_some (place_in table.now n) ≡ is_open all n) →
        result ≡ closed_by (is_open all) command.now }
{
    match command {
        Command::Config { pipe, .. } if table.get(pipe.get()).is_none() => {
            Some(Doubt::LosesAll(*pipe))
        }
        _ => None,
    }
}

/// Returns the commands that configure a pipe whose every configuration loses all packets.
pub fn loses_all(alloc: Global, commands: &[Timed]) -> Result<Vec<Doubtful>, AllocError>
    ensures { IfOk result (λ out. out.items ≡ loses_all commands.now) }
{
    let table = open_pipes(alloc, commands)?;
    let mut out = Vec::new(alloc);
    for (number, timed) in commands.iter().enumerate() {
        put_doubt(&mut out, number as u64, closed_in(&table, &timed.command))?;
    }
    Ok(out)
}

fn gives_queue(queue: &QueueLimit) -> bool
    ensures { result ≡ gives_queue queue.now }
{
    match queue {
        QueueLimit::Slots(slots) => slots.get() != 50,
        QueueLimit::KBytes(_) => true,
    }
}

// Returns true if a configuration has a value other than the default. A loss rate of 1 doesn't
// count: it is an outage, which ends when the option is left out.
fn gives(setting: Setting, config: &PipeConfig) -> bool
    ensures { result ≡ gives setting config.now }
{
    match setting {
        Setting::Bw => config.bw.get() > 0,
        Setting::Delay => config.delay.get() > 0,
        Setting::Queue => gives_queue(&config.queue),
        Setting::Plr => 0 < config.plr.get() && config.plr.get() < ALL,
    }
}

// Returns the state of a pipe: true if each of its configurations since its creation gave the
// option, and `None` if it has none.
fn state_of(table: &NumberTable, pipe: PipeNumber) -> Option<bool>
    ensures { result ≡ decoded (place_in table.now pipe) }
{
    match table.get(pipe.get()) {
        Some(0) => Some(false),
        Some(1) => Some(true),
        _ => None,
    }
}

fn put_state(
    table: &mut NumberTable,
    pipe: PipeNumber,
    state: Option<bool>,
) -> Result<(), AllocError>
    ensures { OnOk result ((n : ℕ) → decoded (place_in table.new n)
        ≡ (if pipe == n then state else decoded (place_in table.old n))) }
{
    table.make_room(pipe.get())?;
    let entry = match state {
        Some(false) => 0,
        Some(true) => 1,
        None => 2,
    };
    table.set(pipe.get(), entry);
    Ok(())
}

// Updates the state of the pipe that a command configures or deletes.
fn note_setting(
    table: &mut NumberTable,
    setting: Setting,
    command: &Command,
) -> Result<(), AllocError>
    ensures { OnOk result ((n : ℕ) → decoded (place_in table.new n)
        ≡ so_far setting n command.now (decoded (place_in table.old n))) }
{
    match command {
        Command::Config { pipe, config } => {
            let before = state_of(table, *pipe).unwrap_or(true);
            put_state(table, *pipe, Some(before && gives(setting, config)))
        }
        Command::PipeDelete(pipe) => put_state(table, *pipe, None),
        _ => Ok(()),
    }
}

// Returns the doubt about a configuration that leaves out an option that every earlier one gave.
fn forgotten_in(table: &NumberTable, setting: Setting, command: &Command) -> Option<Doubt>
    ensures { (cs : List Timed) → ((n : ℕ) → decoded (place_in table.now n) ≡ state setting cs n) →
        result ≡ forgotten_by setting (state setting cs) command.now }
{
    match command {
        Command::Config { pipe, config }
            if state_of(table, *pipe) == Some(true) && !gives(setting, config) => {
            Some(Doubt::Forgets {
                pipe: *pipe,
                setting,
            })
        }
        _ => None,
    }
}

/// Returns the commands that configure a pipe again and leave out an option that all its earlier
/// configurations gave.
pub fn forgets(
    alloc: Global,
    setting: Setting,
    commands: &[Timed],
) -> Result<Vec<Doubtful>, AllocError>
    ensures { IfOk result (λ out. out.items ≡ forgets setting commands.now) }
{
    let mut table = NumberTable::new(alloc);
    let mut out = Vec::new(alloc);
    for (number, timed) in commands.iter().enumerate() {
        put_doubt(
            &mut out,
            number as u64,
            forgotten_in(&table, setting, &timed.command),
        )?;
        note_setting(&mut table, setting, &timed.command)?;
    }
    Ok(out)
}
