//! Explains to an author what is wrong with a text: why it is not a scenario, which commands were
//! or will be refused, and what goes wrong without a refusal. That is steps that run out before an
//! experiment's end, packets that the budget or the rules drop, rules that name no pipe, units that
//! are probably not meant, and rules that no packet meets. For a fault it names the line, marks the
//! first faulty word, and says what was expected there, with an example, a hint and the earlier line
//! that matters. Our choice.
#![tactic(auto)]

mod account;
mod doubt;
mod ends;
mod expected_refusals;
mod expected_words;
mod faults;
mod finding;
mod flows;
mod further;
mod hints;
mod likely;
mod notes;
mod outages;
mod past;
mod pipes;
mod refused;
mod rules;
mod run_account;
mod shared;
mod show_findings;
mod show_warnings;
mod sizes;
mod slips;
mod span;
mod survey;
mod texts;
mod unmet;
mod walk;
mod warning;
mod watch;

pub use account::{Account, RefusedCommand};
use control::{Experiment, ParseError, parse_scenario};
pub use ends::Ends;
use expected_refusals::refusals_expected;
pub use expected_refusals::refusals_of;
pub use expected_words::{Wanted, expected_at};
use experiment::Report;
pub use faults::faults_text;
pub use finding::{Finding, find};
pub use further::{faults_behind, show_found};
pub use hints::{byte_hint, hint, range_hint};
pub use notes::{Note, Subject};
pub use past::Earlier;
pub use refused::{Refused, Stand, Text};
pub use run_account::account_of;
pub use show_findings::{show_finding, show_refused};
pub use span::{Span, line_at, span_of_word};
use std::alloc::{AllocError, Global};
pub use texts::Run;
use texts::{refusals_text, warnings_text};
pub use warning::{Concern, Sent, Warning, warnings};

/// Returns the explanation of a scenario and its text: the commands that were refused (or, without
/// a run, that will be), and what is probably wrong. `run` has the results of a run. Returns
/// `AllocError` if an allocation fails.
pub fn scenario_explained(
    alloc: Global,
    text: &[u8],
    experiments: &[Experiment],
    run: Option<&Run>,
) -> Result<Vec<u8>, AllocError> {
    let mut out = match run {
        Some(run) => refusals_text(alloc, text, run.account.refusals())?,
        None => {
            let expected = refusals_expected(alloc, experiments)?;
            refusals_text(alloc, text, expected.as_slice())?
        }
    };
    let warned = warnings_text(alloc, text, experiments, run)?;
    out.extend_from_slice(warned.as_slice())?;
    Ok(out)
}

/// Returns the explanation of a text and, if it was run, of its reports: its first faults, or if it
/// has none, the explanation of the scenario. Returns `AllocError` if an allocation fails.
pub fn explanation(
    alloc: Global,
    text: &[u8],
    reports: Option<&[Report]>,
) -> Result<Vec<u8>, AllocError> {
    let scenario = match parse_scenario(alloc, text) {
        Ok(scenario) => scenario,
        Err(ParseError::Fault(fault)) => return faults_text(alloc, text, &fault),
        Err(ParseError::NoMemory) => return Err(AllocError),
    };
    let Some(reports) = reports else {
        return scenario_explained(alloc, text, scenario.experiments(), None);
    };
    let account = account_of(alloc, reports)?;
    let run = Run {
        account: &account,
        reports,
    };
    scenario_explained(alloc, text, scenario.experiments(), Some(&run))
}
