//! The pure core without limits: it turns a text into the bytes of its reports, or into the numbers
//! of its experiments and commands.

ghost use Rattle.std.specs.Prelude.{◌≡◌, ◌≤◌, length, map, sum, List, IfOk, IfErr};
ghost use Rattle.experiment.specs.Written.{texts_of};
ghost use Rattle.control.specs.declared.scenario.Experiment.{Experiment as Script};
ghost use Rattle.control.specs.Scenario.{Spells};
ghost use Rattle.alone.specs.Reports.{reports, tally_of, tally_line, IsTextFault};

use crate::alone::run_all;
use crate::fault::RunFault;
use crate::progress::Silent;
use control::{Experiment, ParseError, Scenario, parse_scenario};
use experiment::Report;
use itoa::Buffer as Digits;
use std::alloc::{AllocError, Global};
use std::marker::Model;

/// The reports of a scenario's experiments, in the order of the scenario. A contract sees the
/// concatenation of their bytes.
#[derive(Drop)]
pub struct Reports {
    reports: Vec<Report>,
}

impl Model for Reports {
    ghost use Rattle.std.specs.Prelude.{ℕ, List};
    ghost use Rattle.experiment.specs.Written.{texts_of};

    ghost Value = { List ℕ };

    ghost view = { λ r. texts_of r.reports.items };
}

impl Reports {
    /// Returns the report of each experiment.
    pub fn each(&self) -> &[Report]
        ensures { texts_of result.now ≡ self.now }
    {
        self.reports.as_slice()
    }
}

/// Returns the scenario that a text spells. Returns `Scenario` with the first fault of the text if
/// it spells none, and `Memory` if an allocation fails.
pub fn scenario_of(alloc: Global, text: &[u8]) -> Result<Scenario, RunFault>
    ensures spells { IfOk result (λ es. Spells text.now es) }
    ensures few { IfOk result (λ es. sum (map (λ e. length e.commands) es) ≤ 16777216) }
    ensures fault { IfErr result (IsTextFault text.now) }
{
    match parse_scenario(alloc, text) {
        Ok(scenario) => Ok(scenario),
        Err(ParseError::Fault(fault)) => Err(RunFault::Scenario(fault)),
        Err(ParseError::NoMemory) => Err(RunFault::Memory),
    }
}

/// Returns the reports of the experiments that a text spells, each run by itself. Returns
/// `Scenario` with the first fault of the text if it spells no scenario, and `Memory` if an
/// allocation fails.
pub fn reports_of(alloc: Global, text: &[u8]) -> Result<Reports, RunFault>
    ensures ok { IfOk result
        (λ r. (es : List Script) × Spells text.now es × (r ≡ reports es)) }
    ensures fault { IfErr result (IsTextFault text.now) }
{
    let scenario = scenario_of(alloc, text)?;
    let Ok(reports) = run_all(alloc, scenario.experiments(), &Silent) else {
        return Err(RunFault::Memory);
    };
    Ok(Reports { reports })
}

/// The numbers of experiments and commands in a scenario.
#[derive(Clone, Copy, Debug, PartialEq)]
pub struct Tally {
    pub experiments: u64,
    pub commands: u64,
}

impl Tally {
    /// Returns the line that `check` writes: `ok` and both numbers. Returns `AllocError` if an
    /// allocation fails.
    pub fn line(&self, alloc: Global) -> Result<Vec<u8>, AllocError>
        ensures { IfOk result (λ text. text.items ≡ tally_line self.now) }
    {
        let mut text = Vec::new(alloc);
        let mut digits = Digits::new();
        text.extend_from_slice(b"ok ")?;
        text.extend_from_slice(digits.format(self.experiments).as_bytes())?;
        text.extend_from_slice(b" ")?;
        text.extend_from_slice(digits.format(self.commands).as_bytes())?;
        text.extend_from_slice(b"\n")?;
        Ok(text)
    }
}

// Returns the number of commands in the experiments.
#[tactic(auto, using(crate::proofs::ReadFacts::count_more, crate::proofs::ReadFacts::count_few))]
fn count_commands(scripts: &[Experiment]) -> u64
    requires { sum (map (λ e. length e.commands) scripts.now) ≤ 16777216 }
    ensures { result ≡ sum (map (λ e. length e.commands) scripts.now) }
{
    let mut count = 0u64;
    for script in scripts {
        count += script.commands.as_slice().len() as u64;
    }
    count
}

/// Returns the numbers of experiments and commands in the scenario that a text spells. Returns
/// `Scenario` with the first fault of the text if it spells no scenario, and `Memory` if an
/// allocation fails.
pub fn check_of(alloc: Global, text: &[u8]) -> Result<Tally, RunFault>
    ensures ok { IfOk result
        (λ t. (es : List Script) × Spells text.now es × (t ≡ tally_of es)) }
    ensures fault { IfErr result (IsTextFault text.now) }
{
    let scenario = scenario_of(alloc, text)?;
    let scripts = scenario.experiments();
    Ok(Tally {
        experiments: scripts.len() as u64,
        commands: count_commands(scripts),
    })
}
