//! Probable mistakes in a command, judged by the command and by the end of its experiment.

ghost use Rattle.std.specs.Prelude.{◌≡◌, ◌++◌, OnOk, IfOk};
ghost use Rattle.explain.specs.Likely.{sends, has_sender, early, of_train, of_config, of_flow, doubt_in, doubts_at, likely};

use crate::doubt::{Doubt, Doubtful};
use crate::survey::last_moment;
use emu_model::{Command, FlowSpec, PipeConfig, Timed, TrainSpec};
use std::alloc::{AllocError, Global};

/// The length in ns from which an experiment makes command times of 10 to 999 ns look like
/// milliseconds.
const LONG: u64 = 1_000_000;

/// The rate in bit/s below which the unit looks as if it was left out.
const SLOW: u64 = 1000;

fn sends(command: &Command) -> bool
    ensures { result ≡ sends command.now }
{
    match command {
        Command::Inject(_) | Command::Train { .. } | Command::Flow { .. } => true,
        _ => false,
    }
}

/// Returns true if a command sends a packet, a train or a flow.
pub fn has_sender(commands: &[Timed]) -> bool
    ensures { result ≡ has_sender commands.now }
{
    commands.iter().any(|timed| sends(&timed.command))
}

fn early(moment: u64, end: u64) -> Option<Doubt>
    ensures { result ≡ early moment end }
{
    if 10 <= moment && moment < 1000 && LONG <= end {
        Some(Doubt::EarlyMoment(moment))
    } else {
        None
    }
}

fn of_train(train: &TrainSpec, moment: u64, end: u64) -> Option<Doubt>
    ensures { result ≡ of_train train.now moment end }
{
    let gap = train.gap.get();
    let others = u64::from(train.count.get()) - 1;
    let size = u64::from(train.packet.size.get());
    if 0 < others && 0 < gap && 5 * gap < 4 * size {
        return Some(Doubt::ShortGap(gap));
    }
    let last = moment.saturating_add(gap * others);
    if end <= last {
        return Some(Doubt::CutTrain { last, end });
    }
    None
}

fn of_config(config: &PipeConfig, end: u64, is_used: bool) -> Option<Doubt>
    ensures { result ≡ of_config config.now end is_used }
{
    let rate = config.bw.get();
    let delay = u64::from(config.delay.get()) * 1_000_000;
    if 0 < rate && rate < SLOW {
        return Some(Doubt::LowRate(rate));
    }
    if is_used && 0 < delay && end <= delay {
        return Some(Doubt::LongDelay { delay, end });
    }
    None
}

fn of_flow(flow: &FlowSpec) -> Option<Doubt>
    ensures { result ≡ of_flow flow.now }
{
    let window = u64::from(flow.rwnd.get());
    let smss = u64::from(flow.smss.get());
    if window < smss {
        Some(Doubt::SmallWindow { window, smss })
    } else {
        None
    }
}

fn doubt_in(timed: &Timed, end: u64, is_used: bool) -> Option<Doubt>
    ensures { result ≡ doubt_in timed.now end is_used }
{
    match &timed.command {
        Command::Train { train, .. } => of_train(train, timed.moment, end),
        Command::Config { config, .. } => of_config(config, end, is_used),
        Command::Flow { flow, .. } => of_flow(flow),
        _ => None,
    }
}

pub(crate) fn put_doubt(
    out: &mut Vec<Doubtful>,
    command: u64,
    doubt: Option<Doubt>,
) -> Result<(), AllocError>
    ensures { OnOk result (out.new.items ≡ out.old.items ++ doubts_at command doubt) }
{
    if let Some(doubt) = doubt {
        out.push(Doubtful { command, doubt })?;
    }
    Ok(())
}

/// Returns the probable mistakes of each command by itself: times, gaps and rates that look like
/// another unit, a train or a pipe's delay that the experiment's end cuts off, and a window that is
/// smaller than a segment. They are in the order of the commands. Our choice.
pub fn likely(alloc: Global, commands: &[Timed]) -> Result<Vec<Doubtful>, AllocError>
    ensures { IfOk result (λ out. out.items ≡ likely commands.now) }
{
    let end = last_moment(commands);
    let is_used = has_sender(commands);
    let mut out = Vec::new(alloc);
    for (number, timed) in commands.iter().enumerate() {
        put_doubt(&mut out, number as u64, early(timed.moment, end))?;
        put_doubt(&mut out, number as u64, doubt_in(timed, end, is_used))?;
    }
    Ok(out)
}
