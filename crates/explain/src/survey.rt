//! Facts from the commands about pipes, losses, flows and the end.

ghost use Rattle.std.specs.Prelude.{◌≡◌, ℕ, ◌||◌, ◌++◌, is_some, OnOk, IfOk};
ghost use Rattle.due_index.specs.Table.{place_in};
ghost use Rattle.explain.specs.Survey.{loses, has_loss, configures, named_by, named_in, is_configured, unless_leads, pipes_missing, begins_flow, flow_place, last_moment};

use crate::warning::{Concern, Warning};
use due_index::NumberTable;
use emu_model::{Action, Command, FlowNumber, PipeNumber, Timed};
use std::alloc::{AllocError, Global};

fn loses(command: &Command) -> bool
    ensures { result ≡ loses command.now }
{
    match command {
        Command::Config { config, .. } => config.plr.get() > 0,
        _ => false,
    }
}

/// Returns true if a pipe is configured with losses.
pub fn has_loss(commands: &[Timed]) -> bool
    ensures { result ≡ has_loss commands.now }
{
    commands.iter().any(|timed| loses(&timed.command))
}

fn named_by(action: Action) -> Option<PipeNumber>
    ensures { result ≡ named_by action }
{
    match action {
        Action::Pipe(pipe) => Some(pipe),
        _ => None,
    }
}

// Returns the pipe that a rule names.
fn named_in(command: &Command) -> Option<PipeNumber>
    ensures { result ≡ named_in command.now }
{
    match command {
        Command::Add(rule) => named_by(rule.action),
        _ => None,
    }
}

// Adds the pipe that a command configures to the table.
fn note_configured(table: &mut NumberTable, command: &Command) -> Result<(), AllocError>
    ensures { OnOk result ((n : ℕ) → is_some (place_in table.new n)
        ≡ (configures n command.now || is_some (place_in table.old n))) }
{
    if let Command::Config { pipe, .. } = command {
        table.make_room(pipe.get())?;
        table.set(pipe.get(), 0);
    }
    Ok(())
}

// Returns the numbers of the pipes that some command configures.
fn configured_pipes(alloc: Global, commands: &[Timed]) -> Result<NumberTable, AllocError>
    ensures { IfOk result (λ t. (n : ℕ) → is_some (place_in t n) ≡ is_configured commands.now n) }
{
    let mut table = NumberTable::new(alloc);
    for timed in commands {
        note_configured(&mut table, &timed.command)?;
    }
    Ok(table)
}

fn note_missing(
    out: &mut Vec<Warning>,
    table: &NumberTable,
    number: u64,
    pipe: Option<PipeNumber>,
) -> Result<(), AllocError>
    ensures { OnOk result (out.new.items ≡ out.old.items ++ unless_leads table.now number pipe) }
{
    match pipe {
        Some(pipe) if table.get(pipe.get()).is_none() => {
            out.push(Warning {
                command: Some(number),
                concern: Concern::NoPipe(pipe),
            })?;
            Ok(())
        }
        _ => Ok(()),
    }
}

/// Returns the rules that name a pipe that no command configures, in the order of the commands.
pub fn pipes_missing(alloc: Global, commands: &[Timed]) -> Result<Vec<Warning>, AllocError>
    ensures { IfOk result (λ out. out.items ≡ pipes_missing commands.now) }
{
    let table = configured_pipes(alloc, commands)?;
    let mut out = Vec::new(alloc);
    for (number, timed) in commands.iter().enumerate() {
        note_missing(&mut out, &table, number as u64, named_in(&timed.command))?;
    }
    Ok(out)
}

fn begins_flow(number: u64, command: &Command) -> bool
    ensures { result ≡ begins_flow number command.now }
{
    match command {
        Command::Flow { number: own, .. } => u64::from(own.get()) == number,
        _ => false,
    }
}

/// Returns the first command that begins the flow with this number.
pub fn flow_place(number: u64, commands: &[Timed]) -> Option<usize>
    ensures { result ≡ flow_place number commands.now }
{
    commands
        .iter()
        .position(|timed| begins_flow(number, &timed.command))
}

/// Returns the time of the last command, or 0 if there is none.
pub fn last_moment(commands: &[Timed]) -> u64
    ensures { result ≡ last_moment commands.now }
{
    let last = commands.len().saturating_sub(1);
    match commands.get(last) {
        None => 0,
        Some(timed) => timed.moment,
    }
}
