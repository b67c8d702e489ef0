//! The commands that are refused whatever the packets do, found without a run.

ghost use Rattle.packet_store.specs.Own.{own_pocket};
ghost use Rattle.experiment.specs.Kept.{IsHousedIn};

use crate::account::RefusedCommand;
use control::{Experiment as Script, ParseError, parse_scenario};
use emu_model::{Command, Record, Timed};
use experiment::{ApplyError, Event, Experiment};
use packet_store::OwnShelf;
use std::alloc::{AllocError, Global};

// Returns true if a command can be refused or can cause the refusal of another: it changes rules,
// pipes, flows or trains.
fn counts(command: &Command) -> bool {
    match command {
        Command::Inject(_) | Command::Show | Command::PipeShow => false,
        Command::OnePass(_) | Command::Trace(_) => false,
        _ => true,
    }
}

// Applies one command at time 0, and returns its code if it is refused. No packet is created when
// the commands are applied, so the rules, pipes and sources are as the commands alone leave them.
fn code_of(
    experiment: &mut Experiment,
    shelf: &mut OwnShelf,
    command: Command,
) -> Result<Option<u64>, AllocError>
    requires { IsHousedIn (own_pocket shelf.old) experiment.old }
    ensures { IsHousedIn (own_pocket shelf.new) experiment.new }
{
    match experiment.apply(&Timed { moment: 0, command }) {
        Ok(()) => {}
        Err(ApplyError::NoMemory) => return Err(AllocError),
        Err(_) => return Ok(None),
    }
    if experiment.event(shelf, 0) == Event::Halted {
        return Err(AllocError);
    }
    let code = match experiment.records().first() {
        Some(Record::CommandRefused { refusal, .. }) => Some(u64::from(*refusal as u8)),
        _ => None,
    };
    experiment.forget_records();
    Ok(code)
}

// Appends the refused commands of the experiment with this number.
fn expect_of(
    out: &mut Vec<RefusedCommand>,
    alloc: Global,
    number: u64,
    script: &Script,
) -> Result<(), AllocError> {
    let mut shelf = OwnShelf::new(alloc, script.spec.budget.packets);
    let mut experiment = Experiment::new(alloc, script.spec)?;
    for (place, timed) in script.commands.as_slice().iter().enumerate() {
        if !counts(&timed.command) {
            continue;
        }
        if let Some(code) = code_of(&mut experiment, &mut shelf, timed.command)? {
            out.push(RefusedCommand {
                experiment: number,
                command: place as u64,
                code,
            })?;
        }
    }
    Ok(())
}

/// Returns the commands of a scenario that are refused whatever the packets do, in the order of the
/// scenario: rules, pipes, flows and trains whose numbers are invalid, already in use, or unknown.
/// A refusal that depends on packets (a new mask for a pipe that holds some) is found only by a
/// run.
pub fn refusals_expected(
    alloc: Global,
    scripts: &[Script],
) -> Result<Vec<RefusedCommand>, AllocError> {
    let mut out = Vec::new(alloc);
    for (place, script) in scripts.iter().enumerate() {
        expect_of(&mut out, alloc, (place as u64).saturating_add(1), script)?;
    }
    Ok(out)
}

/// Returns the commands of a text that are refused whatever the packets do. If the text is not a
/// scenario, there are none.
pub fn refusals_of(alloc: Global, text: &[u8]) -> Result<Vec<RefusedCommand>, AllocError> {
    match parse_scenario(alloc, text) {
        Ok(scenario) => refusals_expected(alloc, scenario.experiments()),
        Err(ParseError::Fault(_)) => Ok(Vec::new(alloc)),
        Err(ParseError::NoMemory) => Err(AllocError),
    }
}
