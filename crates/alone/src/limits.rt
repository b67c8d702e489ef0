//! Limits for all experiments of a scenario together.

ghost use Rattle.std.specs.Prelude.{◌≡◌, ◌+◌, ◌≤◌, ◌<◌, None, length, take, IfErr, IfOk, IfSome, IfNone, OnOk};
ghost use Rattle.alone.specs.Reports.{bytes_as, scenario_as, traced_format};
ghost use Rattle.alone.specs.Within.{steps_of, IsWithin, IsStepsStop, IsOutputStop};

use crate::fault::RunFault;
use control::{Experiment, Scenario};
use experiment::{Report, npy_length, put_reports};
use std::alloc::{AllocError, Global};

/// The format of the output: the lines of the reports, those of the reports with all packets traced,
/// or the rows of these as a file that NumPy loads.
#[derive(Clone, Copy, Debug, PartialEq)]
pub enum Format {
    Text,
    TracedText,
    Npy,
}

impl Format {
    /// Returns the format with all packets traced.
    pub fn traced(self) -> Format
        ensures { result ≡ traced_format self }
    {
        match self {
            Format::Text | Format::TracedText => Format::TracedText,
            Format::Npy => Format::Npy,
        }
    }

    /// Returns the scenario that runs for one: itself, or the same with all packets traced.
    pub fn scenario(self, spelled: Scenario) -> Scenario
        ensures { result ≡ scenario_as self spelled }
    {
        match self {
            Format::Text => spelled,
            Format::TracedText | Format::Npy => spelled.traced(),
        }
    }

    // Returns the length of the output for reports, in bytes. Fails with `AllocError` if memory
    // runs out.
    fn length(self, alloc: Global, reports: &[Report]) -> Result<usize, AllocError>
        ensures { IfOk result (λ n. n ≡ length (bytes_as self reports.now)) }
    {
        match self {
            Format::Text | Format::TracedText => {
                let mut room = [];
                put_reports(alloc, reports, &mut room)
            }
            Format::Npy => npy_length(alloc, reports),
        }
    }
}

/// The limits for all experiments of a scenario together; `None` is no limit. Our choice.
#[derive(Clone, Copy, Debug, PartialEq)]
pub struct Limits {
    /// The maximum sum of the experiments' `steps`.
    pub steps: Option<u64>,
    /// The maximum length of the output, in bytes.
    pub output: Option<u64>,
}

/// The reason why a call with limits returned no result.
#[derive(Clone, Copy, Debug, Drop, PartialEq)]
pub enum Stop {
    /// The fault of a call, which can also occur without limits.
    Fault(RunFault),
    /// The experiments may take more steps than the limit, `total` in all. `number`, from 0, is the
    /// first experiment that exceeds the limit.
    Steps { number: u64, total: u64 },
    /// The output has this many bytes, more than the limit.
    Output(u64),
}

// Returns the sum of the steps that the experiments may take.
fn sum_of_steps(scripts: &[Experiment]) -> u64
    requires { length scripts.now ≤ 256 }
    ensures { result ≡ steps_of scripts.now }
{
    let mut sum = 0u64;
    for script in scripts {
        sum += u64::from(script.spec.budget.steps.get());
    }
    sum
}

// Returns the number, from 0, of the first experiment at which the sum of the steps exceeds `most`.
fn first_past(scripts: &[Experiment], most: u64) -> Option<usize>
    requires { length scripts.now ≤ 256 }
    ensures none { IfNone result (steps_of scripts.now ≤ most) }
    ensures some { IfSome result (λ k. (k < length scripts.now)
        × (steps_of (take k scripts.now) ≤ most)
        × (most < steps_of (take (k + 1) scripts.now))) }
{
    for number in 0..scripts.len() {
        if sum_of_steps(&scripts[..=number]) > most {
            return Some(number);
        }
    }
    None
}

impl Limits {
    /// Returns limits that allow everything.
    pub fn none() -> Limits
        ensures steps { result.steps ≡ None }
        ensures output { result.output ≡ None }
    {
        Limits {
            steps: None,
            output: None,
        }
    }

    /// Returns `Steps` if the experiments may take more steps than the limit. There must be at most
    /// 256 of them, as in a scenario.
    pub fn check_steps(&self, scripts: &[Experiment]) -> Result<(), Stop>
        requires { length scripts.now ≤ 256 }
        ensures ok { OnOk result (IsWithin self.now.steps (steps_of scripts.now)) }
        ensures stop { IfErr result (IsStepsStop self.now scripts.now) }
    {
        let Some(most) = self.steps else {
            return Ok(());
        };
        let Some(number) = first_past(scripts, most) else {
            return Ok(());
        };
        Err(Stop::Steps {
            number: number as u64,
            total: sum_of_steps(scripts),
        })
    }

    // Returns `Output` if this number of bytes exceeds the limit.
    fn check_length(&self, bytes: usize) -> Result<(), Stop>
        ensures ok { OnOk result (IsWithin self.now.output bytes) }
        ensures stop { IfErr result (IsOutputStop self.now.output bytes) }
    {
        let bytes = bytes as u64;
        match self.output {
            Some(most) if bytes > most => Err(Stop::Output(bytes)),
            _ => Ok(()),
        }
    }

    /// Returns `Output` if the output for reports has more bytes than the limit. If there is a
    /// limit, it formats all lines to count their bytes, and returns the fault `Memory` if an
    /// allocation fails.
    pub fn check_reports(
        &self,
        alloc: Global,
        format: Format,
        reports: &[Report],
    ) -> Result<(), Stop>
        ensures ok { OnOk result
            (IsWithin self.now.output (length (bytes_as format reports.now))) }
        ensures stop { IfErr result
            (IsOutputStop self.now.output (length (bytes_as format reports.now))) }
    {
        if self.output.is_none() {
            return Ok(());
        }
        let Ok(bytes) = format.length(alloc, reports) else {
            return Err(Stop::Fault(RunFault::Memory));
        };
        self.check_length(bytes)
    }
}
