//! An experiment that runs by itself: it applies each command in turn and processes events until
//! the next command is due. The records are kept packed, and become lines when they are written.

ghost use Rattle.std.specs.Prelude.{◌≡◌, ◌≤◌, IfOk, OnOk, All, map};
ghost use Rattle.packet_store.specs.Own.{own_pocket};
ghost use Rattle.packet_store.specs.Pocket.{Pocket};
ghost use Rattle.experiment.specs.Kept.{IsHousedIn};
ghost use Rattle.control.specs.Order.{AreInOrder};
ghost use Rattle.alone.specs.Runs.{Advances, IsNew, Plays};
ghost use Rattle.experiment.specs.Written.{CanCount, IsArchived, archived_counts};
ghost use Rattle.alone.specs.Reports.{made_alone};

use crate::lone::LoneShelf;
use crate::progress::Progress;
use control::Experiment as Script;
use emu_model::{Timed, laws};
use experiment::{ApplyError, BATCH, Event, Experiment, Report, ReportKeeper};
use std::alloc::{AllocError, Global};

/// The number of steps between two progress reports.
const TOLD: u64 = 65_536;

// Reports the number of steps once every `TOLD` steps.
fn tell<P: Progress>(experiment: &Experiment, progress: &P)
    requires { experiment.now.steps ≤ experiment.now.spec.budget.steps }
{
    let steps = experiment.events();
    if steps % TOLD == 0 {
        progress.note_steps(steps, u64::from(experiment.spec().budget.steps.get()));
    }
}

// Packs the records once there is a batch of them.
#[inline(always)]
fn keep_batch(experiment: &mut Experiment, report: &mut ReportKeeper) -> Result<(), AllocError>
    requires { CanCount (archived_counts report.old) experiment.old }
    ensures heading { OnOk result (report.new.heading ≡ report.old.heading) }
    ensures archived { OnOk result ((p : Pocket) →
        IsArchived report.old p experiment.old → IsArchived report.new p experiment.new) }
    ensures rest { OnOk result (experiment.new ≡ record experiment.old {
      net = record experiment.old.net { log = experiment.new.net.log };
    }) }
    ensures housed { OnOk result
        ((p : Pocket) → IsHousedIn p experiment.old → IsHousedIn p experiment.new) }
{
    if experiment.records().len() < BATCH {
        return Ok(());
    }
    report.keep(experiment)?;
    Ok(())
}

// Processes events until the next command is needed or the experiment has ended.
#[inline(always)]
fn advance<P: Progress>(
    experiment: &mut Experiment,
    shelf: &mut LoneShelf,
    report: &mut ReportKeeper,
    progress: &P,
) -> Result<(), AllocError>
    requires housed { IsHousedIn (own_pocket shelf.old) experiment.old }
    requires archived { IsArchived report.old (own_pocket shelf.old) experiment.old }
    ensures { OnOk result
        (Advances report.old (own_pocket shelf.old) experiment.old
        report.new (own_pocket shelf.new) experiment.new) }
{
    laws::packets_add_up();
    loop {
        keep_batch(experiment, report)?;
        match experiment.event(shelf, 0) {
            Event::Ran => tell(experiment, progress),
            Event::Halted => return Err(AllocError),
            Event::Ended | Event::Still => return Ok(()),
        }
    }
}

// Applies each command in turn, until the experiment has ended.
fn play<P: Progress>(
    experiment: &mut Experiment,
    shelf: &mut LoneShelf,
    report: &mut ReportKeeper,
    commands: &[Timed],
    progress: &P,
) -> Result<(), AllocError>
    requires housed { IsHousedIn (own_pocket shelf.old) experiment.old }
    requires new { IsNew experiment.old }
    requires archived { IsArchived report.old (own_pocket shelf.old) experiment.old }
    requires in_order { AreInOrder 0 commands.now }
    ensures { OnOk result
        (Plays commands.now report.old (own_pocket shelf.old) experiment.old
        report.new (own_pocket shelf.new) experiment.new) }
{
    for command in commands {
        match experiment.apply(command) {
            Ok(()) => {}
            Err(ApplyError::NoMemory) => return Err(AllocError),
            Err(ApplyError::Over) => unreachable!(),
            Err(ApplyError::Busy) => unreachable!(),
            Err(ApplyError::Backward) => unreachable!(),
        }
        advance(experiment, shelf, report, progress)?;
        if experiment.ending().is_some() {
            break;
        }
    }
    Ok(())
}

/// Returns the report of an experiment that runs by itself. The times (ns) of its commands must not
/// decrease. Returns `AllocError` if an allocation fails.
fn report_by_itself<P: Progress>(
    alloc: Global,
    script: &Script,
    progress: &P,
) -> Result<Report, AllocError>
    requires { AreInOrder 0 script.now.commands }
    ensures { IfOk result (λ report. report ≡ made_alone script.now) }
{
    laws::later_commands_wait();
    laws::packets_add_up();
    let mut shelf = LoneShelf::new(alloc, script.spec.budget.packets);
    let mut experiment = Experiment::new(alloc, script.spec)?;
    let mut report = ReportKeeper::new(alloc, script.name.as_bytes())?;
    let commands = script.commands.as_slice();
    play(&mut experiment, &mut shelf, &mut report, commands, progress)?;
    report.keep(&mut experiment)?;
    report.into_report(&experiment.counters())
}

/// Returns the reports of experiments that run by themselves, one after the other. Returns
/// `AllocError` if an allocation fails.
pub fn run_all<P: Progress>(
    alloc: Global,
    scripts: &[Script],
    progress: &P,
) -> Result<Vec<Report>, AllocError>
    requires { All (λ e. AreInOrder 0 e.commands) scripts.now }
    ensures { IfOk result (λ reports. reports.items ≡ map made_alone scripts.now) }
{
    let mut reports = Vec::with_capacity(alloc, scripts.len())?;
    for script in scripts {
        let report = report_by_itself(alloc, script, progress)?;
        reports.push(report)?;
        progress.note_ends(reports.len() as u64, scripts.len() as u64);
    }
    Ok(reports)
}
