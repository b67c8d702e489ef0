//! Parses a scenario, line by line.

ghost use Rattle.std.specs.Prelude.{◌≡◌, ◌≤◌, List, length, map, sum, IfOk, IfErr};
ghost use Rattle.control.specs.Ranges.{IsScenario};
ghost use Rattle.std.specs.List.{list_any};
ghost use Rattle.emu_model.specs.Commands.{is_end};
ghost use Rattle.control.specs.Scenario.{Spells, HasFault};
ghost use Rattle.control.specs.Steps.{has_name};
ghost use Rattle.control.specs.Answer.{IsFaultOf, IsReadAs, IsFaultedAs, IsReading};

use crate::fault::{Cause, Fault, LineError, ParseError, at_line, in_line};
use crate::names::ExperimentName;
use crate::scenario::{CommandList, Experiment, Scenario};
use control_lines::{LineEntry, read_line};
use control_words::first_line;
use emu_model::{Command, Spec, Timed};
use std::alloc::Global;

const MAX_BYTES: usize = 16_777_216;

/// The maximum number of experiments in a scenario.
pub const MAX_EXPERIMENTS: usize = 256;

/// The experiments so far: those that have their end, and the one that doesn't, with the time of
/// its last command.
#[derive(Drop)]
struct Builder {
    done: Vec<Experiment>,
    running: Option<Experiment>,
    latest: u64,
}

fn is_named(experiments: &[Experiment], name: &[u8]) -> bool
    ensures { result ≡ list_any (has_name name.now) experiments.now }
{
    for e in experiments {
        if e.name.as_bytes() == name {
            return true;
        }
    }
    false
}

fn ends(command: &Command) -> bool
    ensures { result ≡ is_end command.now }
{
    match command {
        Command::End => true,
        _ => false,
    }
}

impl Builder {
    ghost use Rattle.std.specs.Prelude.{◌≡◌};
    ghost use Rattle.control_lines.specs.Entries.{view_entry};
    ghost use Rattle.control.specs.Steps.{begin, add, step};
    ghost use Rattle.control.specs.Builder.{sofar, GivesStep, IsNamed, OnMemory, Taken};
    ghost use Rattle.control.specs.Names.{IsName};
    ghost use Rattle.control.specs.Scenario.{Grows};

    #[tactic(auto, unfolding(crate::specs::Steps::begin))]
    fn begin(&mut self, alloc: Global, name: &[u8], spec: &Spec) -> Result<(), LineError>
        requires { IsName name.now }
        ensures { GivesStep (sofar self.new) result (begin (sofar self.old) name.now spec.now) }
    {
        if self.running.is_some() {
            return Err(LineError::Cause(Cause::NoEnd));
        }
        if self.done.len() >= MAX_EXPERIMENTS {
            return Err(LineError::Cause(Cause::TooMany));
        }
        if is_named(&self.done, name) {
            return Err(LineError::Cause(Cause::SameName));
        }
        self.running = Some(Experiment {
            name: ExperimentName::new(alloc, name)?,
            spec: *spec,
            commands: CommandList::new(alloc),
        });
        self.latest = 0;
        Ok(())
    }

    #[tactic(auto, unfolding(crate::specs::Steps::add))]
    fn add(&mut self, command: &Timed) -> Result<(), LineError>
        ensures { GivesStep (sofar self.new) result (add (sofar self.old) command.now) }
    {
        let Some(mut experiment) = self.running.take() else {
            if self.done.is_empty() {
                return Err(LineError::Cause(Cause::NoExperiment));
            }
            return Err(LineError::Cause(Cause::AfterEnd));
        };
        let moment = command.moment;
        if moment < self.latest {
            return Err(LineError::Cause(Cause::Backwards));
        }
        let is_last = ends(&command.command);
        experiment.commands.push(command)?;
        self.latest = moment;
        if is_last {
            self.done.push(experiment)?;
        } else {
            self.running = Some(experiment);
        }
        Ok(())
    }

    fn take_entry(&mut self, alloc: Global, entry: &LineEntry) -> Result<(), LineError>
        requires { IsNamed (view_entry entry.now) }
        ensures step { GivesStep (sofar self.new) result
            (step (sofar self.old) (view_entry entry.now)) }
        ensures grows { OnMemory result (Grows (view_entry entry.now)) }
    {
        match entry {
            LineEntry::Nothing => Ok(()),
            LineEntry::Begins { name, spec } => self.begin(alloc, name, spec),
            LineEntry::Does(command) => self.add(command),
        }
    }

    fn take_line(&mut self, alloc: Global, line: &[u8]) -> Result<(), LineError>
        ensures { Taken (sofar self.old) line.now result (sofar self.new) }
    {
        match read_line(line) {
            Ok(entry) => self.take_entry(alloc, &entry),
            Err(fault) => Err(LineError::Cause(in_line(fault))),
        }
    }
}

fn fault_at<T>(line: u64, cause: Cause) -> Result<T, ParseError>
    ensures { result ≡ Err (ParseError.Fault (record { line = line; cause = cause })) }
{
    Err(ParseError::Fault(Fault { line, cause }))
}

/// Returns the scenario that the bytes spell, or the first cause of the first faulty line. Returns
/// `NoMemory` only if a name or a command before any fault can't be stored. Makes one pass over the
/// bytes.
pub fn parse_scenario(alloc: Global, bytes: &[u8]) -> Result<Scenario, ParseError>
    // The result is what the bytes spell.
    ensures spelled { IfOk result (λ s. Spells bytes.now s) }
    // There are therefore few experiments, and the times of each one's commands don't decrease,
    // which is the invariant of every `Scenario`.
    ensures ranged { IfOk result (λ s. IsScenario s) }
    // The scenario has fewer commands than the text has bytes.
    ensures few { IfOk result (λ s. sum (map (λ e. length e.commands) s) ≤ length bytes.now) }
    // A text that spells a scenario is parsed as exactly that one, and is never refused except for
    // lack of memory.
    ensures only { (s : List Experiment) → Spells bytes.now s → IsReadAs s result }
    // A fault is that of the bytes: it is in the first faulty line, and is the first cause in that
    // line. Memory is needed only if a line without a fault, after lines without a fault, adds
    // something.
    ensures fault { IfErr result (λ e. IsFaultOf bytes.now e) }
    // Faulty bytes are refused with exactly that fault, or for lack of memory.
    ensures faulty { (f : Fault) → HasFault bytes.now f → IsFaultedAs f result }
{
    read_all(alloc, bytes)
}

fn read_all(alloc: Global, bytes: &[u8]) -> Result<Scenario, ParseError>
    ensures { IsReading bytes.now result }
{
    if bytes.len() > MAX_BYTES {
        return fault_at(0, Cause::TooBig);
    }
    let mut builder = Builder {
        done: Vec::new(alloc),
        running: None,
        latest: 0,
    };
    let mut rest = bytes;
    let mut number = 1u64;
    while let Some((line, after)) = first_line(rest) {
        match builder.take_line(alloc, line) {
            Ok(()) => {}
            Err(error) => return Err(at_line(error, number)),
        }
        rest = after;
        number += 1;
    }
    if !rest.is_empty() {
        return fault_at(number, Cause::Cut);
    }
    if builder.running.is_some() {
        return fault_at(number, Cause::NoEnd);
    }
    let scenario = Scenario::new(builder.done);
    Ok(scenario)
}
