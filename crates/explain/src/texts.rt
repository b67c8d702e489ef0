//! The explanation of a scenario: the commands that were refused, and what is silently wrong.

use crate::account::{Account, RefusedCommand};
use crate::doubt::{Doubtful, Setting, first_of_each, show_doubt};
use crate::flows::of_flows;
use crate::likely::likely;
use crate::notes::Subject;
use crate::outages::outages;
use crate::pipes::{forgets, loses_all};
use crate::refused::{Stand, Text};
use crate::shared::shared;
use crate::show_findings::show_refused;
use crate::show_warnings::show_warning;
use crate::sizes::long_listings;
use crate::unmet::unmet;
use crate::warning::{Warning, warnings};
use crate::watch::watch_flows;
use control::Experiment;
use emu_model::Timed;
use experiment::Report;
use std::alloc::{AllocError, Global};

/// Returns the line and the meaning of the code of each refused command.
pub fn refusals_text(
    alloc: Global,
    text: &[u8],
    refusals: &[RefusedCommand],
) -> Result<Vec<u8>, AllocError> {
    let mut out = Vec::new(alloc);
    let mut place = Text::new(text);
    for refusal in refusals {
        if let Some(refused) = place.find(refusal) {
            let shown = show_refused(alloc, &refused)?;
            out.extend_from_slice(shown.as_slice())?;
        }
    }
    Ok(out)
}

/// A message about a command of an experiment, or about the whole experiment.
trait Said {
    fn command(&self) -> Option<u64>;

    fn show(&self, alloc: Global, stand: &Stand) -> Result<Vec<u8>, AllocError>;
}

impl Said for Warning {
    fn command(&self) -> Option<u64> {
        self.command
    }

    fn show(&self, alloc: Global, stand: &Stand) -> Result<Vec<u8>, AllocError> {
        show_warning(alloc, &self.concern, stand)
    }
}

impl Said for Doubtful {
    fn command(&self) -> Option<u64> {
        Some(self.command)
    }

    fn show(&self, alloc: Global, stand: &Stand) -> Result<Vec<u8>, AllocError> {
        show_doubt(alloc, &self.doubt, stand)
    }
}

// Appends each message with the line that it is about, which is searched from the start of its
// experiment.
fn put_each<S: Said>(
    out: &mut Vec<u8>,
    alloc: Global,
    start: Text,
    number: u64,
    all: &[S],
) -> Result<(), AllocError> {
    let mut text = start;
    for said in all {
        let mut next = text;
        let mut stand = next.seek(number, said.command());
        if stand.is_none() {
            // Its line precedes the line of the previous message.
            next = start;
            stand = next.seek(number, said.command());
        }
        if let Some(stand) = stand {
            let shown = said.show(alloc, &stand)?;
            out.extend_from_slice(shown.as_slice())?;
            text = next;
        }
    }
    Ok(())
}

/// The results of a run: the facts that are printed, and the reports that they are from.
#[derive(Clone, Copy)]
pub struct Run<'a> {
    pub account: &'a Account,
    pub reports: &'a [Report],
}

fn warnings_of(
    alloc: Global,
    number: u64,
    experiment: &Experiment,
    run: Option<&Run>,
) -> Result<Vec<Warning>, AllocError> {
    let commands = experiment.commands.as_slice();
    let notes = match run {
        Some(run) => Some(run.account.notes()),
        None => None,
    };
    warnings(alloc, number, experiment.spec.seed, commands, notes)
}

fn is_spent(run: &Run, number: u64) -> bool {
    let notes = run.account.notes();
    notes.iter().any(|note| note.experiment == number && note.subject == Subject::Spent)
}

// Returns the doubts about the flows of the experiment with this number, according to its records.
fn doubts_of_run(
    alloc: Global,
    number: u64,
    commands: &[Timed],
    run: &Run,
) -> Result<Vec<Doubtful>, AllocError> {
    let place = number.saturating_sub(1) as usize;
    let Some(report) = run.reports.get(place) else {
        return Ok(Vec::new(alloc));
    };
    let watches = watch_flows(alloc, commands, report.records())?;
    of_flows(alloc, watches.as_slice(), is_spent(run, number))
}

// Returns the doubts about an experiment, kind by kind.
fn doubts_of(
    alloc: Global,
    number: u64,
    commands: &[Timed],
    run: Option<&Run>,
) -> Result<Vec<Doubtful>, AllocError> {
    let mut out = likely(alloc, commands)?;
    out.extend_from_slice(loses_all(alloc, commands)?.as_slice())?;
    for setting in [Setting::Bw, Setting::Delay, Setting::Queue, Setting::Plr] {
        out.extend_from_slice(forgets(alloc, setting, commands)?.as_slice())?;
    }
    out.extend_from_slice(outages(alloc, commands)?.as_slice())?;
    out.extend_from_slice(shared(alloc, commands)?.as_slice())?;
    out.extend_from_slice(unmet(alloc, commands)?.as_slice())?;
    if let Some(long) = long_listings(commands) {
        out.push(long)?;
    }
    if let Some(run) = run {
        out.extend_from_slice(doubts_of_run(alloc, number, commands, run)?.as_slice())?;
    }
    first_of_each(alloc, out.as_slice())
}

/// Returns the warnings for each experiment of the text: what is silently wrong, what is probably
/// not meant, and after a run also what the run has shown.
pub fn warnings_text(
    alloc: Global,
    text: &[u8],
    experiments: &[Experiment],
    run: Option<&Run>,
) -> Result<Vec<u8>, AllocError> {
    let mut out = Vec::new(alloc);
    let mut start = Text::new(text);
    let mut number = 1u64;
    for experiment in experiments {
        let warnings = warnings_of(alloc, number, experiment, run)?;
        put_each(&mut out, alloc, start, number, warnings.as_slice())?;
        let doubts = doubts_of(alloc, number, experiment.commands.as_slice(), run)?;
        put_each(&mut out, alloc, start, number, doubts.as_slice())?;
        let _ = start.seek(number, None);
        number = number.saturating_add(1);
    }
    Ok(out)
}
