//! The reports of experiments that were run by workers.

ghost use Rattle.std.specs.Prelude.{◌≡◌, map, IfOk, IfErr};
ghost use Rattle.lab.specs.Plans.{IsMemory};
ghost use Rattle.alone.specs.Reports.{trace_alone, made_alone};

use crate::outcome::Outcome;
use alone::RunFault;
use control::Experiment;
use experiment::Report;
use std::alloc::Global;

// Returns the report of an experiment, given its outcome.
fn report_of_one(alloc: Global, script: &Experiment, outcome: Outcome) -> Result<Report, RunFault>
    requires { outcome ≡ trace_alone script.now }
    ensures ok { IfOk result (λ report. report ≡ made_alone script.now) }
    ensures err { IfErr result IsMemory }
{
    let Ok(report) = outcome.into_report(alloc, script.name.as_bytes()) else {
        return Err(RunFault::Memory);
    };
    Ok(report)
}

/// Returns the report of each experiment, given its outcome, in order. Fails with `Memory` if
/// memory runs out.
pub(crate) fn reports_in_turn(
    alloc: Global,
    scripts: &[Experiment],
    outcomes: Vec<Outcome>,
) -> Result<Vec<Report>, RunFault>
    requires { outcomes.items ≡ map trace_alone scripts.now }
    ensures ok { IfOk result (λ reports. reports.items ≡ map made_alone scripts.now) }
    ensures err { IfErr result IsMemory }
{
    let mut reports = Vec::new(alloc);
    let Ok(()) = reports.reserve(scripts.len()) else {
        return Err(RunFault::Memory);
    };
    for outcome in outcomes {
        let Some(script) = scripts.get(reports.len()) else {
            unreachable!()
        };
        let report = report_of_one(alloc, script, outcome)?;
        reports.push_reserved(report);
    }
    Ok(reports)
}
