//! The types of a scenario.

ghost use Rattle.std.specs.Prelude.{◌≡◌, [], ◌∷◌, ◌++◌, map, OnErr, OnOk};
ghost use Rattle.control.specs.Ranges.{IsScenario};
ghost use Rattle.control.specs.Traced.{traced, traced_command};

use crate::names::ExperimentName;
use emu_model::{Command, Spec, Timed};
use std::alloc::{AllocError, Global};
use std::marker::Model;
use std::slice;

/// Commands in their order.
#[derive(Drop)]
pub struct CommandList {
    items: Vec<Timed>,
}

impl Model for CommandList {
    ghost use Rattle.std.specs.Prelude.{List};
    ghost use Rattle.emu_model.specs.declared.commands.Timed.{Timed};

    ghost Value = { List Timed };

    ghost view = { λ c. c.items.items };
}

impl CommandList {
    /// Creates an empty list. Does not allocate.
    pub fn new(alloc: Global) -> Self
        ensures { result ≡ [] }
    {
        CommandList {
            items: Vec::new(alloc),
        }
    }

    /// Appends a command. If an allocation fails, it returns an error and leaves the list
    /// unchanged.
    pub fn push(&mut self, command: &Timed) -> Result<(), AllocError>
        ensures ok { OnOk result (self.new ≡ self.old ++ command.now ∷ []) }
        ensures err { OnErr result (self.new ≡ self.old) }
    {
        self.items.extend_from_slice(slice::from_ref(command))?;
        Ok(())
    }

    /// Returns the commands in their order.
    pub fn as_slice(&self) -> &[Timed]
        ensures { result.now ≡ self.now }
    {
        self.items.as_slice()
    }

    // Makes each `trace` command `trace 1`.
    fn trace(&mut self)
        ensures { self.new ≡ map traced_command self.old }
    {
        trace_commands(self.items.as_mut_slice());
    }

    /// Returns the commands as a `Vec`. Does not allocate.
    pub fn into_vec(self) -> Vec<Timed>
        ensures { result.items ≡ self }
    {
        let CommandList { items } = self;
        items
    }
}

/// An experiment: its name, its budget, and its commands, of which the last is `end`.
#[derive(Drop)]
pub struct Experiment {
    pub name: ExperimentName,
    pub spec: Spec,
    pub commands: CommandList,
}

/// Experiments in the order of the text: at most 256, and the times of each one's commands don't
/// decrease.
#[derive(Drop)]
pub struct Scenario {
    experiments: Vec<Experiment>,
}

impl Model for Scenario {
    ghost use Rattle.std.specs.Prelude.{List};
    ghost use Rattle.control.specs.declared.scenario.Experiment.{Experiment};
    ghost use Rattle.control.specs.Ranges.{IsScenario};

    ghost Value = { List Experiment };

    ghost view = { λ s. s.experiments.items };

    ghost invariant = { λ s. IsScenario s.experiments.items };
}

impl Scenario {
    /// Creates the scenario of these experiments. Does not allocate.
    pub fn new(experiments: Vec<Experiment>) -> Self
        requires { IsScenario experiments.items }
        ensures { result ≡ experiments.items }
    {
        Scenario { experiments }
    }

    /// Returns the experiments in the order of the text.
    pub fn experiments(&self) -> &[Experiment]
        ensures value { result.now ≡ self.now }
        ensures ranged { IsScenario result.now }
    {
        self.experiments.as_slice()
    }

    /// Returns the experiments with tracing on from their first event, and never off. Does not
    /// allocate.
    pub fn traced(self) -> Scenario
        ensures { result ≡ map traced self }
    {
        let Scenario { mut experiments } = self;
        trace_list(&mut experiments);
        Scenario::new(experiments)
    }

    /// Returns the experiments as a `Vec`. Does not allocate.
    pub fn into_vec(self) -> Vec<Experiment>
        ensures value { result.items ≡ self }
        ensures ranged { IsScenario result.items }
    {
        let Scenario { experiments } = self;
        experiments
    }
}

// Makes each `trace` command `trace 1`.
fn trace_commands(commands: &mut [Timed])
    ensures { commands.new ≡ map traced_command commands.old }
{
    for command in commands.iter_mut() {
        trace_command(command);
    }
}

// Makes a `trace` command `trace 1`.
fn trace_command(command: &mut Timed)
    ensures { command.new ≡ traced_command command.old }
{
    if let Command::Trace(_) = command.command {
        command.command = Command::Trace(true);
    }
}

// Turns tracing on in each experiment.
fn trace_experiments(experiments: &mut [Experiment])
    ensures { experiments.new ≡ map traced experiments.old }
{
    for experiment in experiments.iter_mut() {
        experiment.spec.traced = true;
        experiment.commands.trace();
    }
}

// Turns tracing on in each experiment of a list.
fn trace_list(experiments: &mut Vec<Experiment>)
    ensures { experiments.new.items ≡ map traced experiments.old.items }
{
    trace_experiments(experiments.as_mut_slice());
}
